// The places from one to another.
ghost use Rattle.std.specs.Prelude.{◌≡◌, suc, ◌<◌, ◌≤◌};

// Signals and places are below it.
const LIMIT: u32 = 1024;

// That it lies on a board is said of that board (`Range`), and so in the clauses of what walks it.
#[derive(Clone, Copy)]
pub(crate) struct Span {
    pub low: u32,
    pub high: u32,
}

impl Span {
    // The end of a walk up to the last of the places.
    pub(crate) fn end(self) -> u32
        ensures few { result ≤ 1024 }
        ensures next { self.high < 1024 → result ≡ suc self.high }
    {
        self.high.min(LIMIT - 1) + 1
    }
}
