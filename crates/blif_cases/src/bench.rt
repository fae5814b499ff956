// Memories on which texts are tried over both stores.
use crate::difference::Difference;
use crate::plain_reader::{Source, read_plain};
use crate::stop::settle;
use crate::told::Told;
use crate::trial::{Seen, try_stores};
use editor::words_for;
use memory::{Memory, Pair};
use std::alloc::{AllocError, Global};

const LEVELS: usize = 3;

pub type Verdict = Result<(), Difference>;

// A text on both stores. What is told of it is that of the plain reader, if there is no difference.
#[derive(Drop)]
pub struct Trial<'a> {
    pub told: Option<Told<'a>>,
    pub written: Vec<u8>,
    pub verdicts: Pair<Verdict>,
}

// Two memories for editors of so many signals: one for an editor that reads a text, one for an editor that reads what the first has written.
#[derive(Drop)]
pub struct Bench {
    pub heap: Global,
    pub signals: u32,
    first: Memory,
    second: Memory,
    buffer: Vec<u8>,
}

fn verdict_of(seen: &Result<Seen, Difference>) -> Verdict {
    match seen {
        Ok(_) => Ok(()),
        Err(difference) => Err(*difference),
    }
}

// Both stores reply and write alike.
fn verdicts_of(
    log: &Result<Seen, Difference>,
    snapshot: &Result<Seen, Difference>,
) -> Pair<Verdict> {
    if let (Ok(log), Ok(snapshot)) = (log, snapshot) {
        if log.count != snapshot.count || log.written != snapshot.written {
            return Pair {
                log: Err(Difference::Stores),
                snapshot: Err(Difference::Stores),
            };
        }
    }
    Pair {
        log: verdict_of(log),
        snapshot: verdict_of(snapshot),
    }
}

impl Bench {
    // The buffer has room for files of so many bytes.
    pub fn new(heap: Global, signals: u32, room: usize) -> Result<Bench, AllocError> {
        let size = words_for(signals.min(2048));
        Ok(Bench {
            heap,
            signals,
            first: Memory::new(heap, size, LEVELS, 7)?,
            second: Memory::new(heap, size, LEVELS, 7)?,
            buffer: vec![in heap; 165u8; room]?,
        })
    }

    pub fn try_text<'a>(&mut self, text: &'a [u8], limit: usize) -> Result<Trial<'a>, AllocError> {
        let heap = self.heap;
        let source = Source {
            text,
            limit,
            signals: self.signals,
        };
        let plain = read_plain(heap, source)?;
        let log = settle(try_stores(
            heap,
            self.first.log(),
            self.second.log(),
            source,
            &plain,
            &mut self.buffer,
        ))?;
        let snapshot = settle(try_stores(
            heap,
            self.first.snapshot(),
            self.second.snapshot(),
            source,
            &plain,
            &mut self.buffer,
        ))?;
        let verdicts = verdicts_of(&log, &snapshot);
        let written = match log {
            Ok(seen) => seen.written,
            Err(_) => Vec::new(heap),
        };
        Ok(Trial {
            told: plain.reply.err(),
            written,
            verdicts,
        })
    }
}
