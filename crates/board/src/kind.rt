// What drives a signal.
ghost use Rattle.std.specs.Prelude.{◌≡◌};
ghost use Rattle.board.specs.Kinds.{kind_by, name_of, word_of};

use std::fmt;

#[derive(Clone, Copy, PartialEq, Eq, Debug)]
pub enum Kind {
    Absent = 0,
    Input = 1,
    Gate = 2,
    Latch = 3,
}

impl fmt::Display for Kind {
    ghost use Rattle.std.specs.Prelude.{Some};

    ghost output = { λ kind. Some (name_of kind) };

    fn fmt<W: fmt::Write>(&self, f: &mut fmt::Formatter<W>) -> fmt::Result {
        f.write_str(match self {
            Kind::Absent => "absent",
            Kind::Input => "input",
            Kind::Gate => "gate",
            Kind::Latch => "latch",
        })
    }
}

// Any word names a kind, so that any words hold a board.
impl From<u32> for Kind {
    ghost from_gives = { λ word r. r ≡ kind_by word };

    fn from(word: u32) -> Kind {
        match word {
            0 => Kind::Absent,
            1 => Kind::Input,
            2 => Kind::Gate,
            _ => Kind::Latch,
        }
    }
}

impl From<Kind> for u32 {
    ghost from_gives = { λ kind r. r ≡ word_of kind };

    fn from(kind: Kind) -> u32 {
        kind as u32
    }
}
