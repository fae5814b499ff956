// What may be wrong with a text, and the number of each fault.
ghost use Rattle.std.specs.Prelude.{◌≡◌};
ghost use Rattle.text.specs.Numbers.{text_fault};
ghost use Rattle.text.specs.declared.faults.ReadFault.TheVariants.{Text, Memory};

use std::alloc::{AllocError, AllocFailed};
use std::error::Error;
use std::fmt;

#[derive(Clone, Copy, PartialEq, Eq, Debug)]
pub enum TextFault {
    // the text is longer than its limit
    TooLong = 30,
    // a line holds a byte that is neither a separator nor part of a word
    WrongByte = 31,
    // a line holds a word that is empty or too long
    WrongWord = 32,
}

impl TextFault {
    // A host and a report are told a fault by number.
    pub fn number(self) -> u32
        ensures { result ≡ text_fault self }
    {
        self as u32
    }
}

impl fmt::Display for TextFault {
    ghost use Rattle.std.specs.Prelude.{Some};
    ghost use Rattle.text.specs.Printed.{fault_text};

    ghost output = { λ f. Some (fault_text f) };

    fn fmt<W: fmt::Write>(&self, f: &mut fmt::Formatter<W>) -> fmt::Result {
        write!(f, "fault {}", self.number())
    }
}

impl Error for TextFault {}

// A fault of a text with the number of its line; line 0 where it was found before any line, as a report tells it.
#[derive(Clone, Copy, PartialEq, Eq, Debug)]
pub struct LineFault {
    pub fault: TextFault,
    pub line: usize,
    // the first byte of the line's first word, if it has one: it tells what kind of line is faulty
    pub first_byte: Option<u8>,
}

impl fmt::Display for LineFault {
    ghost use Rattle.std.specs.Prelude.{Some};
    ghost use Rattle.text.specs.Printed.{line_fault_text};

    ghost output = { λ f. Some (line_fault_text f) };

    fn fmt<W: fmt::Write>(&self, f: &mut fmt::Formatter<W>) -> fmt::Result {
        write!(f, "{} line {}", self.fault, self.line)
    }
}

impl Error for LineFault {}

#[derive(Clone, Copy, PartialEq, Eq, Debug)]
pub enum ReadFault {
    Text(LineFault),
    Memory,
}

impl fmt::Display for ReadFault {
    ghost use Rattle.std.specs.Prelude.{Some};
    ghost use Rattle.text.specs.Printed.{read_fault_text};

    ghost output = { λ f. Some (read_fault_text f) };

    fn fmt<W: fmt::Write>(&self, f: &mut fmt::Formatter<W>) -> fmt::Result {
        match self {
            ReadFault::Text(fault) => write!(f, "{fault}"),
            ReadFault::Memory => f.write_str("no memory"),
        }
    }
}

impl Error for ReadFault {}

impl From<LineFault> for ReadFault {
    ghost from_gives = { λ f r. r ≡ Text f };

    fn from(f: LineFault) -> ReadFault {
        ReadFault::Text(f)
    }
}

impl From<AllocError> for ReadFault {
    ghost from_gives = { λ _ r. r ≡ Memory };

    fn from(_: AllocError) -> ReadFault {
        ReadFault::Memory
    }
}

// Apart from that of AllocError: `push` hands back what it could not store, in an error of its own.
impl<T: Drop> From<AllocFailed<T>> for ReadFault {
    ghost from_gives = { λ _ r. r ≡ Memory };

    fn from(_: AllocFailed<T>) -> ReadFault {
        ReadFault::Memory
    }
}
