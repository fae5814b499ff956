// An edit that was checked, and the numbers that a check leaves of signals and pins.
ghost use Rattle.std.specs.Prelude.{◌≡◌, ◌+◌, ◌*◌, ◌<◌};
ghost use Rattle.netlist.specs.Edits.{signal_of};
ghost use Rattle.edits.specs.Checks.{pin_of};

use netlist::Edit;

// Its signal is one of at most 1,024, and the pin that it moves, if it does, is one of four.
#[derive(Clone, Copy)]
pub(crate) struct Checked {
    pub edit: Edit,
    ghost signal: { signal_of edit < 1024 },
    ghost pin: { pin_of edit < 4 },
}

// The number of a signal of a board, of which there are at most 1,024.
#[derive(Clone, Copy)]
pub(crate) struct Signal {
    pub number: u32,
    ghost small: { number < 1024 },
}

// One of the four pins of a signal.
#[derive(Clone, Copy)]
pub(crate) struct Pin {
    pub index: u32,
    ghost few: { index < 4 },
}

impl Signal {
    // The number of one of its pins among the pins of all signals.
    pub(crate) fn pin(self, pin: Pin) -> u32
        ensures { result ≡ 4 * self.number + pin.index }
    {
        4 * self.number + pin.index
    }
}
