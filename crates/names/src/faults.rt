// Why a name is refused.
ghost use Rattle.std.specs.Prelude.{◌≡◌};
ghost use Rattle.names.specs.Numbers.{name_fault};
ghost use Rattle.names.specs.declared.faults.NameFault.TheVariants.{Memory};

use std::alloc::{AllocError, AllocFailed};
use std::error::Error;
use std::fmt;

#[derive(Clone, Copy, PartialEq, Eq, Debug)]
pub enum NameFault {
    // a name's number would not be below the room given
    NoRoom,
    Memory,
}

impl NameFault {
    // A host and a report are told a fault of the text by number. Want of memory is no such fault, and has none.
    pub fn number(self) -> Option<u32>
        ensures { result ≡ name_fault self }
    {
        match self {
            NameFault::NoRoom => Some(36),
            NameFault::Memory => None,
        }
    }
}

impl fmt::Display for NameFault {
    ghost use Rattle.std.specs.Prelude.{Some};
    ghost use Rattle.names.specs.Numbers.{name_fault_text};

    ghost output = { λ f. Some (name_fault_text f) };

    fn fmt<W: fmt::Write>(&self, f: &mut fmt::Formatter<W>) -> fmt::Result {
        match self.number() {
            Some(number) => write!(f, "fault {number}"),
            None => f.write_str("no memory"),
        }
    }
}

impl Error for NameFault {}

impl From<AllocError> for NameFault {
    ghost from_gives = { λ _ r. r ≡ Memory };

    fn from(_: AllocError) -> NameFault {
        NameFault::Memory
    }
}

// Apart from that of AllocError: `insert` hands back what it could not store, in an error of its own.
impl<T: Drop> From<AllocFailed<T>> for NameFault {
    ghost from_gives = { λ _ r. r ≡ Memory };

    fn from(_: AllocFailed<T>) -> NameFault {
        NameFault::Memory
    }
}
