// Where a byte stands in a text, and a line as it stands there.
ghost use Rattle.std.specs.Prelude.{◌≡◌, ◌+◌, ◌^◌, ◌<◌, ◌≤◌, length};

// The place of a byte in its text, and the number of its line. Each line before it has a byte, the one that ends it.
#[derive(Clone, Copy)]
pub(crate) struct Spot {
    pub(crate) place: usize,
    pub(crate) line: usize,
    ghost counted: { line ≤ place + 1 },
}

impl Spot {
    // `by` bytes on, in the same line.
    pub(crate) fn on(self, by: usize) -> Spot
        requires { self.place + by < 2 ^ 64 }
        ensures { (result.place ≡ self.place + by) × (result.line ≡ self.line) }
    {
        Spot {
            place: self.place + by,
            line: self.line,
        }
    }

    // `by` bytes on, where the next line begins.
    pub(crate) fn next_line(self, by: usize) -> Spot
        requires more { 0 < by }
        requires fits { self.place + by + 1 < 2 ^ 64 }
        ensures { (result.place ≡ self.place + by) × (result.line ≡ self.line + 1) }
    {
        Spot {
            place: self.place + by,
            line: self.line + 1,
        }
    }
}

// The bytes of a line, and where it begins.
#[derive(Clone, Copy)]
pub(crate) struct RawLine<'a> {
    pub(crate) bytes: &'a [u8],
    pub(crate) at: Spot,
    ghost fits: { at.place + length bytes.now + 1 < 2 ^ 64 },
}
