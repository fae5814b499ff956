// The front of a text, through a line that a word opens.
ghost use Rattle.std.specs.Prelude.{◌≡◌, min, length};
ghost use Rattle.text.specs.Lines.{lines};
ghost use Rattle.text.specs.Front.{opens_with_lem, through};

use crate::cut::{Words, length_before};
use crate::kinds::Text;
use crate::line::without_comment;
use crate::reader::NEWLINE;
use crate::spot::{RawLine, Spot};

// Whether a line's first word is this, whatever else is wrong with the line.
fn opens_with<T: Text>(line: &[u8], word: &[u8]) -> bool
    ensures { result ≡ opens_with_lem T.Text.rules word.now line.now }
{
    let shown = without_comment(RawLine {
        bytes: line,
        at: Spot { place: 0, line: 1 },
    });
    match Words::<T>::new(shown).next() {
        Some(first) => first.bytes == word,
        None => false,
    }
}

// How many bytes of a text stand through the end of its first line whose first word is this: all where there is no such line.
pub fn through_line<T: Text>(text: &[u8], word: &[u8]) -> usize
    ensures { result ≡ min (through T.Text.rules word.now (lines text.now)) (length text.now) }
{
    let mut at = 0;
    while at < text.len() {
        let after = &text[at..];
        let length = length_before(after, NEWLINE);
        at += (length + 1).min(after.len());
        if opens_with::<T>(&after[..length], word) {
            return at;
        }
    }
    at
}
