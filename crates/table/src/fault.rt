ghost use Rattle.std.specs.Prelude.{◌≡◌};
ghost use Rattle.table.specs.Fault.{cover_number, read_number_lem, table_number};
ghost use Rattle.table.specs.declared.fault.ReadFault.TheVariants.{OfLine, OfTable};

/// Why two numbers are no table.
#[derive(Clone, Copy, PartialEq, Eq, Debug)]
pub enum TableFault {
    /// More than four pins, or a bit at or above 2^pins.
    Unfit = 13,
}

impl TableFault {
    /// The number of the refusal: a host and a report are told it by number.
    pub fn number(self) -> u32
        ensures { result ≡ table_number self }
    {
        self as u32
    }
}

/// Why a cover does not take a line.
#[derive(Clone, Copy, PartialEq, Eq, Debug)]
pub enum CoverFault {
    /// A plane of the wrong length or with another character, or an output that is no 0 or 1.
    Malformed = 35,
    /// The line ends otherwise than the first.
    BothWays = 37,
}

impl CoverFault {
    /// The number of the refusal: a host and a report are told it by number.
    pub fn number(self) -> u32
        ensures { result ≡ cover_number self }
    {
        self as u32
    }
}

/// Why a whole cover is not read.
#[derive(Clone, Copy, PartialEq, Eq, Debug)]
pub enum ReadFault {
    OfTable(TableFault),
    OfLine(CoverFault),
}

impl ReadFault {
    /// The number of the refusal that it holds: a host and a report are told it by number.
    pub fn number(self) -> u32
        ensures { result ≡ read_number_lem self }
    {
        match self {
            ReadFault::OfTable(fault) => fault.number(),
            ReadFault::OfLine(fault) => fault.number(),
        }
    }
}

impl From<TableFault> for ReadFault {
    ghost from_gives = { λ fault r. r ≡ OfTable fault };

    fn from(fault: TableFault) -> ReadFault {
        ReadFault::OfTable(fault)
    }
}

impl From<CoverFault> for ReadFault {
    ghost from_gives = { λ fault r. r ≡ OfLine fault };

    fn from(fault: CoverFault) -> ReadFault {
        ReadFault::OfLine(fault)
    }
}
