// What a user above the search does: it asks whether a number is reached, and tells the path or how many are reached and which of two.
ghost use Rattle.std.specs.Prelude.{◌≡◌, ◌≤◌, true, false, replicate, Ok, Err, MatchBool};
ghost use Rattle.reach.specs.Reach.{Reach, Way};
ghost use Rattle.reach.specs.Listed.{along};

use reach::{Path, Relation, Search};

// How many are reached from a start, and whether one of them is `other`: two answers, of which neither is told by the other.
#[derive(Clone, Copy)]
pub struct Tally {
    pub count: u32,
    pub other: bool,
}

// On each way out the flags that were lent are 0.
pub fn avoid<R: Relation>(
    relation: &R,
    start: u32,
    sought: u32,
    other: u32,
    flags: &mut [u8; 1024],
) -> Result<Tally, Path>
    ensures clean { flags.new ≡ replicate 1024 0 }
    ensures answer { elim result [ Ok tally ↦ (Reach (R.Relation.follows relation.now) start sought → ⊥) × MatchBool tally.other (Reach (R.Relation.follows relation.now) start other) (Reach (R.Relation.follows relation.now) start other → ⊥) | Err path ↦ Way (R.Relation.follows relation.now) start sought (along path) ] }
{
    let mut search = Search::new(flags);
    let count = search.run(relation, start, Some(sought))?;
    Ok(Tally {
        count,
        other: search.contains(other),
    })
}
