// N and D.
ghost use Rattle.std.specs.Prelude.{◌≡◌, ◌+◌, ◌*◌, ◌<◌, ◌≤◌};

// The ranges stand in the type, so that every store of this shape can promise them.
#[derive(Clone, Copy)]
pub(crate) struct Shape {
    pub(crate) size: usize,
    pub(crate) limit: usize,
    ghost few: { size ≤ 65536 },
    ghost two: { 2 ≤ limit },
    ghost low: { limit ≤ 8 },
}

impl Shape {
    // Where word `at` of a block lies.
    pub(crate) fn cell(self, block: usize, at: usize) -> usize
        requires { (block ≤ 26) × (at < self.size) }
        ensures { result ≡ block * self.size + at }
    {
        block * self.size + at
    }
}
