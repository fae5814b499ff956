// Where a line is cut: the words between its separators.
ghost use Rattle.std.specs.Prelude.{◌≡◌, ◌+◌, ◌^◌, ◌<◌, ◌≤◌, ◌==◌, length};
ghost use Rattle.std.specs.Option.{option_map_or};
ghost use Rattle.std.specs.List.{position_or_len};
ghost use Rattle.text.specs.Rules.{separates};
ghost use Rattle.text.specs.Words.{is_word_lem, words_in, left_words};

use crate::kinds::Text;
use crate::spot::{RawLine, Spot};
use crate::words::Word;
use std::marker::PhantomData;

pub(crate) fn is_separator<T: Text>(b: u8) -> bool
    ensures { result ≡ separates T.Text.rules b }
{
    T::SEPARATORS.contains(&b)
}

// How many bytes stand before the first mark: all where there is none.
pub(crate) fn length_before(bytes: &[u8], mark: u8) -> usize
    ensures value { result ≡ position_or_len (λ b. b == mark) bytes.now }
    ensures within { result ≤ length bytes.now }
{
    bytes.iter().position(|b| *b == mark).unwrap_or(bytes.len())
}

// How many bytes stand before the first separator: all where there is none.
fn part_length<T: Text>(bytes: &[u8]) -> usize
    ensures value { result ≡ position_or_len (separates T.Text.rules) bytes.now }
    ensures within { result ≤ length bytes.now }
{
    bytes
        .iter()
        .position(|b| is_separator::<T>(*b))
        .unwrap_or(bytes.len())
}

// What stands between two separators is a word, but where a run of them counts as one and nothing stands there.
fn is_word<T: Text>(bytes: &[u8]) -> bool
    ensures { result ≡ is_word_lem T.Text.rules bytes.now }
{
    !T::RUN_IS_ONE || !bytes.is_empty()
}

// The words of a line: `rest` is what is left of it, if there is a part left, and begins at `at`.
#[derive(Drop)]
pub(crate) struct Words<'a, T> {
    rest: Option<&'a [u8]>,
    at: Spot,
    kind: PhantomData<T>,
    ghost fits: { at.place + option_map_or (λ r. length r.now + 1) rest 0 < 2 ^ 64 },
}

impl<'a, T: Text> Words<'a, T> {
    // A line without bytes has no part.
    pub(crate) fn new(line: RawLine<'a>) -> Words<'a, T>
        ensures { left_words T.Text.rules result.at.line result.at.place result.rest ≡ words_in T.Text.rules line.entry }
    {
        Words {
            rest: (!line.bytes.is_empty()).then_some(line.bytes),
            at: line.at,
            kind: PhantomData,
        }
    }
}

impl<'a, T: Text> Iterator for Words<'a, T> {
    ghost use Rattle.std.specs.Iterator.{YieldsFirstBy, item_count};
    ghost use Rattle.text.specs.Words.{spelled, left_words};

    type Item = Word<'a>;

    ghost next_gives = { YieldsFirstBy spelled (λ s. left_words T.Text.rules s.at.line s.at.place s.rest) };

    ghost remaining = { item_count (λ s. left_words T.Text.rules s.at.line s.at.place s.rest) };

    fn next(&mut self) -> Option<Word<'a>> {
        while let Some(rest) = self.rest {
            let length = part_length::<T>(rest);
            let word = Word {
                bytes: &rest[..length],
                place: self.at.place,
                line: self.at.line,
            };
            self.rest = rest.get(length + 1..);
            self.at = self.at.on(length + 1);
            if is_word::<T>(word.bytes) {
                return Some(word);
            }
        }
        None
    }
}
