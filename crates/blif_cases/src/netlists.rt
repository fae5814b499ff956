// Files of netlists that a seed fixes: statements in any order, blanks and comments anywhere.
use draws::Draws;
use std::alloc::{AllocError, Global};
use std::fmt::Write;

static PARTINGS: [&str; 4] = [" ", "\t", "  ", " \t "];

static LINE_ENDS: [&str; 6] = ["\n", "\n", " \n", "\t# said by the way\n", "#\n", "\n\n \n"];

static DIGITS: [&str; 3] = ["0", "1", "-"];

static PREFIXES: [&str; 4] = ["n", ".names", "[0]", "a-long-name-of-a-signal-"];

#[derive(Drop)]
pub struct Netlists {
    heap: Global,
    draws: Draws,
    signals: u32,
}

impl Netlists {
    pub fn new(heap: Global, seed: u32, signals: u32) -> Netlists {
        Netlists {
            heap,
            draws: Draws::new(u64::from(seed)),
            signals,
        }
    }

    // A place in so many, of which there may be none.
    fn place(&mut self, count: usize) -> usize {
        self.draws.below(count.min(65536) as u32) as usize
    }

    fn one_of(&mut self, texts: &[&'static str]) -> &'static str {
        let at = self.place(texts.len());
        texts.get(at).copied().unwrap_or("")
    }

    // A word behind what parts it from the one before.
    fn push_word(&mut self, out: &mut String, word: &str) -> Result<(), AllocError> {
        let parting = self.one_of(&PARTINGS);
        out.push_str(parting)?;
        out.push_str(word)
    }

    fn push_name(&mut self, out: &mut String, signal: u32) -> Result<(), AllocError> {
        let parting = self.one_of(&PARTINGS);
        out.push_str(parting)?;
        let prefix = PREFIXES.get((signal % 4) as usize).copied().unwrap_or("");
        write!(out, "{prefix}{signal}")
    }

    fn end_line(&mut self, out: &mut String) -> Result<(), AllocError> {
        let end = self.one_of(&LINE_ENDS);
        out.push_str(end)
    }

    // A line of a word and names.
    fn line(&mut self, first: &str, names: &[u32]) -> Result<String, AllocError> {
        let mut out = String::from_str(self.heap, first)?;
        for name in names {
            self.push_name(&mut out, *name)?;
        }
        self.end_line(&mut out)?;
        Ok(out)
    }

    fn latch(&mut self, signal: u32) -> Result<String, AllocError> {
        let net = self.draws.below(self.signals);
        let mut out = String::from_str(self.heap, ".latch")?;
        self.push_name(&mut out, net)?;
        self.push_name(&mut out, signal)?;
        let start = ["", "0", "1", "2", "3"];
        let start = self.one_of(&start);
        self.push_word(&mut out, start)?;
        self.end_line(&mut out)?;
        Ok(out)
    }

    fn cover_line(&mut self, out: &mut String, pins: u32, end: &str) -> Result<(), AllocError> {
        for _ in 0..pins {
            let digit = self.one_of(&DIGITS);
            out.push_str(digit)?;
        }
        self.push_word(out, end)?;
        self.end_line(out)
    }

    // A gate on signals below it, so that there is no loop.
    fn gate(&mut self, signal: u32) -> Result<String, AllocError> {
        let pins = if signal == 0 { 0 } else { self.draws.below(5) };
        let mut out = String::from_str(self.heap, ".names")?;
        for _ in 0..pins {
            let net = self.draws.below(signal);
            self.push_name(&mut out, net)?;
        }
        self.push_name(&mut out, signal)?;
        self.end_line(&mut out)?;
        let end = self.one_of(&["0", "1"]);
        for _ in 0..self.draws.below(4) {
            self.cover_line(&mut out, pins, end)?;
        }
        Ok(out)
    }

    fn statement(&mut self, signal: u32) -> Result<String, AllocError> {
        match self.draws.below(8) {
            0 | 1 => self.line(".inputs", &[signal]),
            2 => self.latch(signal),
            _ => self.gate(signal),
        }
    }

    fn statements(&mut self) -> Result<Vec<String>, AllocError> {
        let mut statements = Vec::new(self.heap);
        for signal in 0..self.signals {
            let statement = self.statement(signal)?;
            statements.push(statement)?;
        }
        for _ in 0..self.draws.below(8) {
            let first = self.draws.below(self.signals);
            let second = self.draws.below(self.signals);
            let outputs = self.line(".outputs", &[first, second])?;
            statements.push(outputs)?;
        }
        Ok(statements)
    }

    // The statements in an order that is drawn.
    fn push_shuffled(
        &mut self,
        out: &mut String,
        mut statements: Vec<String>,
    ) -> Result<(), AllocError> {
        for _ in 0..statements.len() {
            let at = self.place(statements.len());
            if at < statements.len() {
                let statement = statements.remove(at);
                out.push_str(&statement)?;
            }
        }
        Ok(())
    }

    pub fn file(&mut self) -> Result<String, AllocError> {
        let mut out = String::new(self.heap);
        self.end_line(&mut out)?;
        out.push_str(".model")?;
        self.push_word(&mut out, "drawn")?;
        self.end_line(&mut out)?;
        let statements = self.statements()?;
        self.push_shuffled(&mut out, statements)?;
        out.push_str(".end")?;
        self.end_line(&mut out)?;
        Ok(out)
    }
}
