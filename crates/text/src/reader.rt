// The reader: a text's lines, one after the other.
ghost use Rattle.std.specs.Prelude.{◌≡◌, ◌+◌, ◌<◌, ◌≤◌, min, None, length, MatchResult};
ghost use Rattle.text.specs.Lines.{rest, contents, Gives, Reads};
ghost use Rattle.text.specs.Numbers.{text_fault};

use crate::cut::length_before;
use crate::faults::{LineFault, ReadFault, TextFault};
use crate::kinds::Text;
use crate::line::words_of;
use crate::spot::{RawLine, Spot};
use crate::words::Line;
use std::alloc::Global;
use std::marker::PhantomData;

// The most bytes that a text may have, whatever limit is given, and the limit where none is.
pub const DEFAULT_LIMIT: usize = 1048576;

pub(crate) const NEWLINE: u8 = b'\n';

// A text that is being read: the next line begins at `at`.
#[derive(Drop)]
pub struct Reader<'a, T> {
    text: &'a [u8],
    limit: usize,
    at: Spot,
    kind: PhantomData<T>,
    ghost within: { at.place ≤ length text.now },
}

impl<'a, T: Text> Reader<'a, T> {
    ghost use Rattle.text.specs.Ahead.{ahead};

    // A reader at the start of a text that may have `limit` bytes. A limit over 1,048,576 counts as 1,048,576.
    pub fn new(text: &'a [u8], limit: usize) -> Reader<'a, T>
        ensures text { result.text.now ≡ text.now }
        ensures limit { result.limit ≡ min limit 1048576 }
        ensures whole { ahead T.Text.rules result ≡ contents T.Text.rules limit text.now }
    {
        Reader {
            text,
            limit: limit.min(DEFAULT_LIMIT),
            at: Spot { place: 0, line: 1 },
            kind: PhantomData,
        }
    }

    // A reader at the start of a text that may have the 1,048,576 bytes of `DEFAULT_LIMIT`.
    pub fn with_default_limit(text: &'a [u8]) -> Reader<'a, T>
        ensures text { result.text.now ≡ text.now }
        ensures limit { result.limit ≡ 1048576 }
        ensures whole { ahead T.Text.rules result ≡ contents T.Text.rules 1048576 text.now }
    {
        Reader::new(text, DEFAULT_LIMIT)
    }

    // Whether the text keeps to its limit; if not it is refused before any line.
    pub fn check_length(&self) -> Result<(), LineFault>
        ensures { MatchResult result
            (λ _. length self.now.text.now ≤ self.now.limit)
            (λ f. (self.now.limit < length self.now.text.now)
            × (text_fault f.fault ≡ 30) × (f.line ≡ 0) × (f.first_byte ≡ None)) }
    {
        if self.text.len() > self.limit {
            return Err(LineFault {
                fault: TextFault::TooLong,
                line: 0,
                first_byte: None,
            });
        }
        Ok(())
    }

    // The next line that holds words, or what is wrong with the next line that counts; none at the end of the text.
    pub fn next_line(&mut self, heap: Global) -> Result<Option<Line<'a>>, ReadFault>
        ensures text { self.new.text.now ≡ self.old.text.now }
        ensures limit { self.new.limit ≡ self.old.limit }
        ensures gives { Gives (ahead T.Text.rules self.old) (ahead T.Text.rules self.new) result }
    {
        self.check_length()?;
        self.next_line_within(heap)
    }

    // The same of a text that keeps to its limit.
    fn next_line_within(&mut self, heap: Global) -> Result<Option<Line<'a>>, ReadFault>
        ensures text { self.new.text.now ≡ self.old.text.now }
        ensures limit { self.new.limit ≡ self.old.limit }
        ensures gives { Gives
            (rest T.Text.rules self.old.text.now self.old.at.place self.old.at.line)
            (rest T.Text.rules self.new.text.now self.new.at.place self.new.at.line)
            result }
    {
        // by place: each word is told with its place, so the place is counted, and what is left of the text follows from it
        while self.at.place < self.text.len() {
            let start = self.at;
            let after = &self.text[start.place..];
            let length = length_before(after, NEWLINE);
            let words = words_of::<T>(
                heap,
                RawLine {
                    bytes: &after[..length],
                    at: start,
                },
            )?;
            self.at = start.next_line((length + 1).min(after.len()));
            if !words.is_empty() {
                return Ok(Some(Line {
                    number: start.line,
                    words,
                }));
            }
        }
        Ok(None)
    }
}

// All lines of a text that hold words, or the first fault. A loop, since a reader is no iterator: at a fault it stays where it is.
pub fn read_lines<'a, T: Text>(
    heap: Global,
    text: &'a [u8],
    limit: usize,
) -> Result<Vec<Line<'a>>, ReadFault>
    ensures { Reads (contents T.Text.rules limit text.now) result }
{
    let mut reader = Reader::<T>::new(text, limit);
    let mut all = Vec::new(heap);
    while let Some(line) = reader.next_line(heap)? {
        all.push(line)?;
    }
    Ok(all)
}
