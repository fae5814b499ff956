// A path: numbers of which each is followed by the next.
ghost use Rattle.std.specs.Prelude.{◌≡◌, ◌≤◌, length};
ghost use Rattle.reach.specs.Listed.{along};

use arrayvec::ArrayVec;

#[derive(Drop)]
pub struct Path {
    pub(crate) numbers: ArrayVec<u32, 1024>,
}

impl Path {
    // Its numbers, from the first to the last.
    pub fn numbers(&self) -> &[u32]
        ensures numbers { result.now ≡ along self.now }
        ensures few { length result.now ≤ 1024 }
    {
        &self.numbers
    }
}
