// Words as parts of the text that they stand in.
use std::fmt;
use std::vec::Vec;

// A word: its bytes, their place in the text and the number of their line.
#[derive(Clone, Copy)]
pub struct Word<'a> {
    pub bytes: &'a [u8],
    pub place: usize,
    pub line: usize,
}

impl<'a> fmt::Display for Word<'a> {
    ghost use Rattle.std.specs.Prelude.{Some};
    ghost use Rattle.text.specs.Printed.{word_text};

    ghost output = { λ w. Some (word_text w) };

    fn fmt<W: fmt::Write>(&self, f: &mut fmt::Formatter<W>) -> fmt::Result {
        for b in self.bytes {
            f.write_char(char::from(*b))?;
        }
        Ok(())
    }
}

// A line that holds words: its number and its words in order.
#[derive(Drop)]
pub struct Line<'a> {
    pub number: usize,
    pub words: Vec<Word<'a>>,
}

impl<'a> fmt::Display for Line<'a> {
    ghost use Rattle.std.specs.Prelude.{Some};
    ghost use Rattle.text.specs.Printed.{line_text};

    ghost output = { λ l. Some (line_text l) };

    fn fmt<W: fmt::Write>(&self, f: &mut fmt::Formatter<W>) -> fmt::Result {
        write!(f, "line {}:", self.number)?;
        for word in &self.words {
            write!(f, " {word}")?;
        }
        Ok(())
    }
}
