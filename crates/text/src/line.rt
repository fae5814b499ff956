// One line: whether its bytes and words serve.
ghost use Rattle.std.specs.Prelude.{◌≡◌, ◌<◌, map, length, MatchResult};
ghost use Rattle.std.specs.Option.{option_map};
ghost use Rattle.std.specs.List.{list_all};
ghost use Rattle.std.specs.Result.{result_err};
ghost use Rattle.text.specs.Rules.{word_byte, allowed};
ghost use Rattle.text.specs.Words.{spelled, words_in, fits};
ghost use Rattle.text.specs.Lines.{shown, judged, first_wrong, opening, Found};
ghost use Rattle.text.specs.Numbers.{text_fault};

use crate::cut::{Words, is_separator, length_before};
use crate::faults::{LineFault, ReadFault, TextFault};
use crate::kinds::Text;
use crate::spot::RawLine;
use crate::words::Word;
use std::alloc::{AllocError, Global};

// What hides the rest of its line.
const COMMENT: u8 = b'#';

// The most bytes that a word may have.
const LONGEST: usize = 32;

fn is_word_byte(b: u8) -> bool
    ensures { result ≡ word_byte b }
{
    matches!(b, 33..=126) && !matches!(b, b',' | b'=' | b'\\')
}

fn is_allowed<T: Text>(b: u8) -> bool
    ensures { result ≡ allowed T.Text.rules b }
{
    is_separator::<T>(b) || is_word_byte(b)
}

fn all_allowed<T: Text>(line: &[u8]) -> bool
    ensures { result ≡ list_all (allowed T.Text.rules) line.now }
{
    line.iter().all(|b| is_allowed::<T>(*b))
}

fn has_right_length(bytes: &[u8]) -> bool
    ensures { result ≡ fits bytes.now }
{
    !bytes.is_empty() && bytes.len() <= LONGEST
}

// Whether each word of a line has a right length.
fn all_fit<T: Text>(line: RawLine) -> bool
    ensures { result ≡ list_all (λ p. fits p.bytes) (words_in T.Text.rules line.entry) }
{
    Words::<T>::new(line).all(|word| has_right_length(word.bytes))
}

// A wrong byte (31) anywhere in a line comes before a wrong word (32).
fn check<T: Text>(line: RawLine) -> Result<(), TextFault>
    ensures { option_map text_fault (result_err result) ≡ first_wrong
        (list_all (allowed T.Text.rules) line.entry.bytes.now)
        (list_all (λ p. fits p.bytes) (words_in T.Text.rules line.entry)) }
{
    if !all_allowed::<T>(line.bytes) {
        return Err(TextFault::WrongByte);
    }
    if !all_fit::<T>(line) {
        return Err(TextFault::WrongWord);
    }
    Ok(())
}

// Memory can fail only where there is a word: `collect` does not say so, and so each word is pushed.
fn split<'a, T: Text>(heap: Global, line: RawLine<'a>) -> Result<Vec<Word<'a>>, AllocError>
    ensures { MatchResult result
        (λ v. map spelled v.items ≡ words_in T.Text.rules line.entry)
        (λ _. 0 < length (words_in T.Text.rules line.entry)) }
{
    let mut words = Vec::new(heap);
    for word in Words::<T>::new(line) {
        words.push(word)?;
    }
    Ok(words)
}

// What a comment leaves of a line.
#[tactic(auto, using(crate::proofs::Cuts::shown_cut))]
pub(crate) fn without_comment(line: RawLine) -> RawLine
    ensures value { result.bytes.now ≡ shown line.entry.bytes.now }
    ensures at { (result.at.place ≡ line.entry.at.place) × (result.at.line ≡ line.entry.at.line) }
{
    RawLine {
        bytes: &line.bytes[..length_before(line.bytes, COMMENT)],
        at: line.at,
    }
}

// The first byte of a line's first word, if it has one.
fn first_byte<T: Text>(line: RawLine) -> Option<u8>
    ensures { result ≡ opening (words_in T.Text.rules line.entry) }
{
    let word = Words::<T>::new(line).next()?;
    word.bytes.first().copied()
}

// The words of a line, or what is wrong with it.
pub(crate) fn words_of<'a, T: Text>(
    heap: Global,
    line: RawLine<'a>,
) -> Result<Vec<Word<'a>>, ReadFault>
    ensures { Found
        (judged T.Text.rules line.entry.at.line line.entry.at.place line.entry.bytes.now)
        line.entry.at.line
        result }
{
    let shown = without_comment(line);
    // a line that shows nothing is right and has no words: told first, since a text may have many such lines
    if shown.bytes.is_empty() {
        return Ok(Vec::new(heap));
    }
    check::<T>(shown).map_err(|fault| LineFault {
        fault,
        line: line.at.line,
        first_byte: first_byte::<T>(shown),
    })?;
    Ok(split::<T>(heap, shown)?)
}
