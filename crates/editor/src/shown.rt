// The loop that is shown of an edit that was refused for it, its smallest number first.
ghost use Rattle.std.specs.Prelude.{◌≡◌, ℕ, ◌<◌, ◌≤◌, List, [], length, slice_index};
ghost use Rattle.reach.specs.Listed.{along};
ghost use Rattle.netlist.specs.Netlist.{Netlist, Loop, SmallestFirst};

use arrayvec::ArrayVec;
use reach::Path;
use std::marker::Model;

#[derive(Drop)]
pub struct Shown {
    numbers: ArrayVec<u32, 1024>,
}

impl Model for Shown {
    ghost Value = { List ℕ };

    ghost view = { λ s. s.numbers.items };
}

impl Shown {
    pub(crate) fn none() -> Self
        ensures { result ≡ [] }
    {
        Shown {
            numbers: ArrayVec::new(),
        }
    }

    pub(crate) fn clear(&mut self)
        ensures { self.new ≡ [] }
    {
        self.numbers.clear();
    }

    // A loop is shown from its smallest number on, and round to there.
    pub(crate) fn show(&mut self, path: Path)
        ensures { (n : Netlist) → Loop n (along path) → Loop n self.new × SmallestFirst self.new }
    {
        let numbers = path.numbers();
        let from = smallest_at(numbers);
        self.clear();
        // there is room for every path
        let _ = self.numbers.try_extend_from_slice(numbers);
        self.numbers.as_mut_slice().rotate_left(from);
    }

    pub(crate) fn numbers(&self) -> &[u32]
        ensures { result.now ≡ self.now }
    {
        self.numbers.as_slice()
    }
}

// Where the smallest of some numbers stands.
fn smallest_at(numbers: &[u32]) -> usize
    ensures within { result ≤ length numbers.now }
    ensures one { 0 < length numbers.now → result < length numbers.now }
    ensures least { (k : ℕ) → k < length numbers.now → slice_index numbers.now result ≤ slice_index numbers.now k }
{
    numbers
        .iter()
        .enumerate()
        .min_by_key(|(_, number)| **number)
        .map_or(0, |(at, _)| at)
}
