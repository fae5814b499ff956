// A relation kept as chains of links in borrowed memory: for each number its chain, and for each link the one behind it.
ghost use Rattle.std.specs.Prelude.{◌≡◌, ℕ, ◌<◌, List, [], ◌∷◌, MatchOption, slice_index_or};
ghost use Rattle.reach_cases.specs.Chain.{rest_of, first_of};

use crate::link::{Chain, Link};
use reach::{Neighbour, Relation};

// No link. A number like the links themselves, as the end of a board's chains of pins is.
pub const END: u32 = u32::MAX;

#[derive(Clone, Copy)]
pub struct Links<'a> {
    pub chains: &'a [Chain],
    pub links: &'a [Link],
}

impl Relation for Links<'_> {
    ghost follows = { λ s x. rest_of s.links.now (first_of s.chains.now x) };

    ghost rest = { λ s edge. rest_of s.links.now edge };

    fn first(&self, of: u32) -> u32 {
        self.chains
            .get(of as usize)
            .map_or(END, |chain| chain.first)
    }

    fn step(&self, edge: u32) -> Option<Neighbour> {
        if edge == END {
            return None;
        }
        let link = self.links.get(edge as usize)?;
        Some(Neighbour {
            number: link.to,
            // a chain runs upward, so that it ends
            next: if edge < link.next { link.next } else { END },
        })
    }
}
