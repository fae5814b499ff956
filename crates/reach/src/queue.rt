// The numbers that a search has found, in the order in which it found them.
#![tactic(auto, using(crate::proofs::Listed::listing))]

ghost use Rattle.std.specs.Prelude.{◌≡◌, ◌<◌, ◌≤◌, ◌==◌, [], ◌∷◌, length, reverse, position, MatchBool, MatchOption, slice_index_or};
ghost use Rattle.std.specs.Option.{ForSome};
ghost use Rattle.reach.specs.Told.{Earlier};

use crate::path::Path;
use arrayvec::ArrayVec;

// A number, and the place of the one that told it: an earlier place. The start was told by none. A place is below 1,024, and kept short since a
// queue is made anew, every byte of it, for each guard.
#[derive(Clone, Copy, Default)]
pub(crate) struct Found {
    pub(crate) number: u32,
    pub(crate) teller: Option<u16>,
}

#[derive(Drop)]
pub struct Queue {
    found: ArrayVec<Found, 1024>,
    ghost earlier: { Earlier found.items },
}

impl Queue {
    ghost use Rattle.reach.specs.Listed.{listed, along, with_trail, HeadOf};
    ghost use Rattle.reach.specs.Answer.{PathTo};

    // No number is found yet.
    pub fn new() -> Self
        ensures { listed result ≡ [] }
    {
        Queue {
            found: ArrayVec::new(),
        }
    }

    pub(crate) fn clear(&mut self)
        ensures { listed self.new ≡ [] }
    {
        self.found.clear();
    }

    pub(crate) fn is_empty(&self) -> bool
        ensures { MatchBool result (listed self.now ≡ []) (0 < length (listed self.now)) }
    {
        self.found.is_empty()
    }

    pub(crate) fn len(&self) -> usize
        ensures len { result ≡ length (listed self.now) }
        ensures few { result ≤ 1024 }
    {
        self.found.len()
    }

    pub(crate) fn number(&self, place: usize) -> Option<u32>
        ensures { MatchOption result (length (listed self.now) ≤ place) (λ number. (place < length (listed self.now)) × HeadOf (slice_index_or (listed self.now) place []) number) }
    {
        self.found.get(place).map(|found| found.number)
    }

    pub(crate) fn push(&mut self, found: Found)
        requires room { length (listed self.old) < 1024 }
        requires told { ForSome found.teller (λ teller. teller < length (listed self.old)) }
        ensures { listed self.new ≡ with_trail (listed self.old) found }
    {
        self.found.push(found);
    }

    // The place of a number that was found.
    fn place_of(&self, number: u32) -> Option<usize>
        ensures { result ≡ position (λ found. found.number == number) self.now.found.items }
    {
        self.found.iter().position(|found| found.number == number)
    }

    // The path to the number at a place, walked back from teller to teller.
    pub(crate) fn path(&self, place: usize) -> Path
        requires { place < length (listed self.now) }
        ensures { along result ≡ reverse (slice_index_or (listed self.now) place []) }
    {
        let found: &[Found] = &self.found;
        let mut numbers = ArrayVec::new();
        let mut next = Some(place as u16);
        // a loop, since an iterator over the numbers says which come, and not that there is room for all of them
        while let Some(at) = next {
            let Found { number, teller } = found[at as usize];
            numbers.push(number);
            next = teller;
        }
        numbers.reverse();
        Path { numbers }
    }

    // The path from the start of a search to a number that it reached.
    pub(crate) fn path_to(&self, number: u32) -> Option<Path>
        ensures { PathTo number (listed self.now) result }
    {
        self.place_of(number).map(|place| self.path(place))
    }
}
