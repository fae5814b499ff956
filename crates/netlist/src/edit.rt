// The edits of a netlist as values, and the refusals of the editor.
ghost use Rattle.std.specs.Prelude.{◌≡◌};
ghost use Rattle.netlist.specs.Edits.{may_put as may_put_pin, signal_of};
ghost use Rattle.netlist.specs.Refusals.{number as number_of};

#[derive(Clone, Copy, PartialEq, Eq, Debug)]
pub enum Edit {
    Input {
        signal: u32,
    },
    Output {
        signal: u32,
        mark: u32,
    },
    Gate {
        signal: u32,
        pins: u32,
        // all four, of which the first `pins` count: rows of pins are copied whole
        nets: [u32; 4],
        table: u32,
    },
    Latch {
        signal: u32,
        net: u32,
        start: u32,
    },
    Delete {
        signal: u32,
    },
    Move {
        signal: u32,
        pin: u32,
        net: u32,
    },
}

impl Edit {
    // the signal that it changes
    pub fn signal(self) -> u32
        ensures { result ≡ signal_of self }
    {
        match self {
            Edit::Input { signal }
            | Edit::Output { signal, .. }
            | Edit::Gate { signal, .. }
            | Edit::Latch { signal, .. }
            | Edit::Delete { signal }
            | Edit::Move { signal, .. } => signal,
        }
    }

    // Whether it may put a pin, and so is handed flags.
    pub fn may_put(self) -> bool
        ensures { result ≡ may_put_pin self }
    {
        matches!(self, Edit::Gate { .. } | Edit::Move { .. })
    }
}

#[derive(Clone, Copy, PartialEq, Eq, Debug)]
pub enum Refusal {
    // the editor has no signals
    NoEditor = 1,
    // no batch is open
    NoBatch = 10,
    // a batch is open
    BatchOpen = 11,
    // a signal number is not below M
    NoSuchSignal = 12,
    // more than four pins, a table bit at or above 2^k, a start over 3, an output mark over 1
    OutOfRange = 13,
    // the signal is driven already
    Driven = 14,
    // the signal is not driven by the kind needed
    NotDriven = 15,
    // the pin number is not below the pin count
    NoSuchPin = 16,
    // a pin is on the signal, or it is an output
    InUse = 19,
    // D - 1 levels are open
    NoLevelForMark = 20,
    // no mark is open
    NoMark = 21,
    // a mark is open
    MarkOpen = 22,
    // an absent signal is in use
    AbsentInUse = 24,
    // the netlist asked for has a loop
    Looped = 25,
}

impl Refusal {
    // A host is told numbers, so each refusal has one.
    pub fn number(self) -> u32
        ensures { result ≡ number_of self }
    {
        self as u32
    }
}
