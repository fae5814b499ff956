// Files, read in a plain way: lines and words into a list of signals, or the first refusal.
use crate::plain::{Driver, Gate, Latch, Netlist, contains};
use crate::plain_cover::OpenGate;
use crate::stop::{Stop, ensure, settle};
use crate::told::Told;
use std::alloc::{AllocError, Global};

const LONGEST: usize = 1048576;

// A file to be read: how many bytes it may have, and how many names.
#[derive(Clone, Copy)]
pub struct Source<'a> {
    pub text: &'a [u8],
    pub limit: usize,
    pub signals: u32,
}

// What a file says. The names stay where it is refused, and the rest counts for nothing.
#[derive(Drop)]
pub struct Outcome<'a> {
    pub netlist: Netlist<'a>,
    pub reply: Result<(), Told<'a>>,
}

#[derive(Clone, Copy, PartialEq)]
enum Keyword {
    Model,
    Inputs,
    Outputs,
    Latch,
    Names,
    End,
}

static KEYWORDS: [(&[u8], Keyword); 6] = [
    (b".model", Keyword::Model),
    (b".inputs", Keyword::Inputs),
    (b".outputs", Keyword::Outputs),
    (b".latch", Keyword::Latch),
    (b".names", Keyword::Names),
    (b".end", Keyword::End),
];

#[derive(Clone, Copy, PartialEq)]
enum Stage {
    Start,
    Body,
    Ended,
}

fn is_blank(byte: &u8) -> bool {
    *byte == b' ' || *byte == b'\t'
}

fn is_word_byte(byte: &u8) -> bool {
    (33..=126).contains(byte) && !b",=\\".contains(byte)
}

fn words_of<'a>(heap: Global, line: &'a [u8]) -> Result<Vec<&'a [u8]>, AllocError> {
    let uncommented = line.split(|byte| *byte == b'#').next().unwrap_or(b"");
    let mut words = Vec::new(heap);
    for word in uncommented.split(is_blank) {
        if !word.is_empty() {
            words.push(word)?;
        }
    }
    Ok(words)
}

// The number that the words of a line are refused with, whatever they say.
fn wrong_words(words: &[&[u8]]) -> Option<u32> {
    if !words.iter().all(|word| word.iter().all(is_word_byte)) {
        return Some(31);
    }
    words.iter().any(|word| word.len() > 32).then_some(32)
}

fn keyword_of(word: &[u8]) -> Option<Keyword> {
    KEYWORDS
        .iter()
        .find(|(spelling, _)| *spelling == word)
        .map(|(_, keyword)| *keyword)
}

// Whether a line may have so many words behind its first.
fn is_count(keyword: Keyword, count: usize) -> bool {
    match keyword {
        Keyword::Model => count == 1,
        Keyword::Inputs | Keyword::Outputs => true,
        Keyword::Latch => count == 2 || count == 3,
        Keyword::Names => 1 <= count && count <= 5,
        Keyword::End => count == 0,
    }
}

// The start value that the words of a latch say.
fn start_of(words: &[&[u8]]) -> Option<u32> {
    match words {
        [_, _, digit] => match *digit {
            b"0" => Some(0),
            b"1" => Some(1),
            b"2" => Some(2),
            b"3" => Some(3),
            _ => None,
        },
        _ => Some(3),
    }
}

// How many of the words behind the first are names.
fn names_among(keyword: Keyword, words: &[&[u8]]) -> usize {
    match keyword {
        Keyword::Model | Keyword::End => 0,
        Keyword::Latch => 2,
        Keyword::Inputs | Keyword::Outputs | Keyword::Names => words.len(),
    }
}

#[derive(Drop)]
struct Reader<'a> {
    heap: Global,
    signals: usize,
    netlist: Netlist<'a>,
    stage: Stage,
    gate: Option<OpenGate<'a>>,
}

fn refuse<'a>(number: u32, line: usize) -> Told<'a> {
    Told {
        number,
        line,
        name: b"",
    }
}

impl<'a> Reader<'a> {
    fn line(&mut self, line: usize, words: &[&'a [u8]]) -> Result<(), Stop<Told<'a>>> {
        let [first, rest @ ..] = words else {
            return Ok(());
        };
        if first.first() == Some(&b'.') {
            self.close_gate()?;
        }
        if let Some(number) = wrong_words(words) {
            return Err(Stop::Told(refuse(number, line)));
        }
        match &mut self.gate {
            Some(gate) => match gate.take(words)? {
                Some(number) => Err(Stop::Told(refuse(number, line))),
                None => Ok(()),
            },
            None => self.statement(line, first, rest),
        }
    }

    fn statement(
        &mut self,
        line: usize,
        first: &[u8],
        rest: &[&'a [u8]],
    ) -> Result<(), Stop<Told<'a>>> {
        let Some(keyword) = keyword_of(first) else {
            return Err(Stop::Told(refuse(33, line)));
        };
        ensure(is_count(keyword, rest.len()), refuse(34, line))?;
        ensure(
            keyword != Keyword::Latch || start_of(rest).is_some(),
            refuse(35, line),
        )?;
        let names = rest.get(..names_among(keyword, rest)).unwrap_or(rest);
        ensure(self.has_room(names), refuse(36, line))?;
        ensure(self.is_placed(keyword), refuse(38, line))?;
        for name in names {
            self.netlist.enter(*name)?;
        }
        self.take(line, keyword, rest)
    }

    fn is_placed(&self, keyword: Keyword) -> bool {
        match self.stage {
            Stage::Start => keyword == Keyword::Model,
            Stage::Body => keyword != Keyword::Model,
            Stage::Ended => false,
        }
    }

    fn has_room(&self, names: &[&'a [u8]]) -> bool {
        let mut count = self.netlist.signals.len();
        for (i, name) in names.iter().enumerate() {
            let before = names.get(..i).unwrap_or(&[]);
            if self.netlist.find(name).is_none() && !contains(before, name) {
                count = count.saturating_add(1);
            }
        }
        count <= self.signals
    }

    fn take(
        &mut self,
        line: usize,
        keyword: Keyword,
        words: &[&'a [u8]],
    ) -> Result<(), Stop<Told<'a>>> {
        match keyword {
            Keyword::Model => self.open(words),
            Keyword::Inputs => {
                for name in words {
                    self.drive(line, *name, Driver::Input)?;
                }
            }
            Keyword::Outputs => words.iter().for_each(|name| self.mark(name)),
            Keyword::Latch => self.latch(line, words)?,
            Keyword::Names => self.gate = OpenGate::new(self.heap, line, words)?,
            Keyword::End => self.stage = Stage::Ended,
        }
        Ok(())
    }

    fn open(&mut self, words: &[&'a [u8]]) {
        self.stage = Stage::Body;
        if let [model] = words {
            self.netlist.model = *model;
        }
    }

    fn mark(&mut self, name: &[u8]) {
        if let Some(signal) = self.netlist.find_mut(name) {
            signal.output = true;
        }
    }

    fn latch(&mut self, line: usize, words: &[&'a [u8]]) -> Result<(), Stop<Told<'a>>> {
        let ([net, name, ..], Some(start)) = (words, start_of(words)) else {
            return Ok(());
        };
        self.drive(line, *name, Driver::Latch(Latch { net: *net, start }))
    }

    fn drive(
        &mut self,
        line: usize,
        name: &'a [u8],
        driver: Driver<'a>,
    ) -> Result<(), Stop<Told<'a>>> {
        self.needs_absent(line, name)?;
        if let Some(signal) = self.netlist.find_mut(name) {
            signal.driver = driver;
            signal.line = line;
        }
        Ok(())
    }

    fn needs_absent(&self, line: usize, name: &'a [u8]) -> Result<(), Stop<Told<'a>>> {
        let absent = self
            .netlist
            .find(name)
            .is_some_and(|signal| signal.driver.is_absent());
        ensure(
            absent,
            Told {
                number: 14,
                line,
                name,
            },
        )
    }

    // An open gate is added behind its cover.
    fn close_gate(&mut self) -> Result<(), Stop<Told<'a>>> {
        let Some(gate) = self.gate.take() else {
            return Ok(());
        };
        let line = gate.line;
        let name = gate.output;
        self.needs_absent(line, name)?;
        let looped = contains(&gate.pins, name)
            || self.netlist.feeds_any(self.heap, name, &gate.pins)?;
        ensure(
            !looped,
            Told {
                number: 25,
                line,
                name,
            },
        )?;
        let table = gate.table();
        let pins = gate.pins;
        self.drive(line, name, Driver::Gate(Gate { pins, table }))
    }

    fn finish(&mut self) -> Result<(), Stop<Told<'a>>> {
        self.close_gate()?;
        ensure(self.stage == Stage::Ended, refuse(38, 0))?;
        match self.netlist.missing() {
            None => Ok(()),
            Some(name) => Err(Stop::Told(Told {
                number: 24,
                line: 0,
                name,
            })),
        }
    }

    fn read(&mut self, source: Source<'a>) -> Result<(), Stop<Told<'a>>> {
        ensure(source.signals > 0, refuse(1, 0))?;
        ensure(
            source.text.len() <= source.limit.min(LONGEST),
            refuse(30, 0),
        )?;
        let mut number: usize = 0;
        for line in source.text.split(|byte| *byte == b'\n') {
            number = number.saturating_add(1);
            let words = words_of(self.heap, line)?;
            self.line(number, &words)?;
        }
        self.finish()
    }
}

pub fn read_plain<'a>(heap: Global, source: Source<'a>) -> Result<Outcome<'a>, AllocError> {
    let mut reader = Reader {
        heap,
        signals: source.signals as usize,
        netlist: Netlist::new(heap),
        stage: Stage::Start,
        gate: None,
    };
    let reply = settle(reader.read(source))?;
    Ok(Outcome {
        netlist: reader.netlist,
        reply,
    })
}
