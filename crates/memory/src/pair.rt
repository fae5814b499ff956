// What is had once for an inverse log and once for a snapshot.
ghost use Rattle.std.specs.Prelude.{◌≡◌, true, Decides};

use std::fmt;

#[derive(Clone, Copy, PartialEq, Eq, Debug, Drop)]
pub struct Pair<T> {
    pub log: T,
    pub snapshot: T,
}

impl Pair<bool> {
    pub fn both(self) -> bool
        ensures { Decides result ((self.log ≡ true) × (self.snapshot ≡ true)) }
    {
        self.log && self.snapshot
    }
}

impl<T: fmt::Display> fmt::Display for Pair<T> {
    ghost use Rattle.memory.specs.Pair.{named};

    ghost output = { λ p. named (T.output p.log) (T.output p.snapshot) };

    fn fmt<W: fmt::Write>(&self, f: &mut fmt::Formatter<W>) -> fmt::Result {
        let Pair { log, snapshot } = self;
        write!(f, "inverse log {log}, snapshot {snapshot}")
    }
}
