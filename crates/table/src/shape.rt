ghost use Rattle.std.specs.Prelude.{◌^◌, ◌<◌, ◌≤◌};

/// What a gate with `pins` pins computes: bit m of `bits` is its value when pin i carries bit i of m.
#[derive(Clone, Copy, PartialEq, Eq, Debug)]
pub struct Table {
    pub(crate) pins: u32,
    pub(crate) bits: u32,
    ghost few: { pins ≤ 4 },
    ghost fits: { bits < 2 ^ (2 ^ pins) },
}

/// How a line of a cover ends.
#[derive(Clone, Copy, PartialEq, Eq, Debug)]
pub enum Output {
    Zero,
    One,
}

/// The lines of a cover taken so far: how they all end, and the table that is 1 at the minterms that they list.
#[derive(Clone, Copy)]
pub struct Cover {
    pub(crate) output: Option<Output>,
    pub(crate) listed: Table,
}

/// A line of a cover as it stands in a text.
#[derive(Clone, Copy)]
pub struct CoverLine<'a> {
    pub plane: &'a [u8],
    pub output: &'a [u8],
}
