// The fields of a board. Each has one word for each signal, place or pin, and they stand one behind the other.
ghost use Rattle.std.specs.Prelude.{◌≡◌};
ghost use Rattle.board.specs.Layout.{start_of};

#[derive(Clone, Copy, Debug)]
pub enum Field {
    // what drives a signal
    Kind = 0,
    // its output mark
    Output = 1,
    // the table of a gate, or the start of a latch
    Value = 2,
    // the place of a signal
    Seat = 3,
    // the signal at a place
    Holder = 4,
    // the first pin on a signal
    First = 5,
    // the signal that a pin is on
    Pin = 6,
    // the next pin on the same signal
    Next = 10,
    // the last pin before it on the same signal
    Back = 14,
}

impl Field {
    // How many words for each signal stand before the field.
    pub(crate) fn start(self) -> usize
        ensures { result ≡ start_of self }
    {
        self as usize
    }
}
