// The search, and the guard over the flags that it borrows.
ghost use Rattle.std.specs.Prelude.{◌≡◌, ℕ, ◌+◌, ◌<◌, List, [], ◌∷◌, length, replicate, MatchBool, MatchResult, ◌≢◌, slice_index, slice_index_or};
ghost use Rattle.std.specs.Option.{ForSome};
ghost use Rattle.reach.specs.Order.{hear};
ghost use Rattle.reach.specs.Listed.{listed, told_by};
ghost use Rattle.reach.specs.Steps.{Stand, Unmet, Met, Kept, Round, Telling, Arrived};
ghost use Rattle.reach.specs.Reach.{Reach};
ghost use Rattle.reach.specs.Answer.{Answers, Whole, Searched, PathTo, Determined};

use crate::flags::{clear, is_marked, mark};
use crate::path::Path;
use crate::queue::{Found, Queue};
use crate::relation::{Neighbours, Relation};

const LIMIT: usize = 1024;

// Where to search from, and the number to look for, if any.
#[derive(Drop)]
struct Query<'r, R> {
    relation: &'r R,
    start: u32,
    sought: Option<u32>,
}

// The number looked for was met.
#[derive(Drop)]
struct Sought;

// A guard over a table of flags that is lent: when it is let go, on whatever way, every flag is 0. While nothing is listed, none is flagged: so a
// guard is made of its parts over flags that are clean, and these are not cleared again; `new` takes any.
pub struct Search<'a> {
    pub flags: &'a mut [u8; 1024],
    pub queue: Queue,
    ghost idle: { listed queue ≡ [] → flags.now ≡ replicate 1024 0 },
}

impl Drop for Search<'_> {
    fn drop(self)
        ensures { self.exit.0.now ≡ replicate 1024 0 }
    {
        if !self.queue.is_empty() {
            clear(self.flags);
        }
        let Search { flags: _, queue: _ } = self;
    }
}

impl<'a> Search<'a> {
    // A guard over any flags, whatever they held. Nothing is reached yet.
    pub fn new(flags: &'a mut [u8; 1024]) -> Self
        ensures lent { result.flags.ghost_name ≡ flags.entry.ghost_name }
        ensures clear { result.flags.now ≡ replicate 1024 0 }
        ensures empty { listed result.queue ≡ [] }
    {
        clear(flags);
        Search {
            flags,
            queue: Queue::new(),
        }
    }

    // Searches from a start: how many numbers are reached. The number looked for stops it, with the path to it as the error.
    pub fn run<R: Relation>(
        &mut self,
        relation: &R,
        start: u32,
        sought: Option<u32>,
    ) -> Result<u32, Path>
        ensures lent { self.new.flags.ghost_name ≡ self.old.flags.ghost_name }
        ensures answers { Answers (R.Relation.follows relation.now) start sought self.new.flags.now (listed self.new.queue) result }
    {
        let query = Query {
            relation,
            start,
            sought,
        };
        match self.fill(&query) {
            Ok(()) => Ok(self.queue.len() as u32),
            Err(Sought) => {
                let path = self.queue.path(self.queue.len() - 1);
                self.clear();
                Err(path)
            }
        }
    }

    // Whether a number is flagged.
    pub fn contains(&self, number: u32) -> bool
        ensures flag { MatchBool result ((number < 1024) × (slice_index self.now.flags.now number ≢ 0)) (number < 1024 → slice_index self.now.flags.now number ≡ 0) }
        ensures reached { (next : ℕ → List ℕ) (start : ℕ) → Searched next start self.now.flags.now (listed self.now.queue) → MatchBool result (Reach next start number) (Reach next start number → ⊥) }
    {
        is_marked(self.flags, number)
    }

    // The path from the start to a number that was reached.
    pub fn path_to(&self, number: u32) -> Option<Path>
        ensures { PathTo number (listed self.now.queue) result }
    {
        self.queue.path_to(number)
    }

    // As if nothing was searched. `lent` stands in each step, since it compares the guard before and after, which no field can.
    fn clear(&mut self)
        ensures lent { self.new.flags.ghost_name ≡ self.old.flags.ghost_name }
        ensures clear { self.new.flags.now ≡ replicate 1024 0 }
        ensures empty { listed self.new.queue ≡ [] }
    {
        if !self.queue.is_empty() {
            clear(self.flags);
            self.queue.clear();
        }
    }

    // A number is told by the one at a place, or by none: one that is new is flagged and listed.
    fn note(&mut self, sought: Option<u32>, teller: Option<u16>, number: u32) -> Result<(), Sought>
        requires kept { Kept sought self.old.flags.now (listed self.old.queue) }
        requires told { ForSome teller (λ place. place < length (listed self.old.queue)) }
        ensures lent { self.new.flags.ghost_name ≡ self.old.flags.ghost_name }
        ensures heard { listed self.new.queue ≡ hear (told_by teller (listed self.old.queue)) (number ∷ []) (listed self.old.queue) }
        ensures stand { Stand self.new.flags.now (listed self.new.queue) }
        ensures sought { MatchResult result (λ _. Unmet sought (listed self.new.queue)) (λ _. Met sought (listed self.new.queue)) }
    {
        if !mark(self.flags, number) {
            return Ok(());
        }
        self.queue.push(Found { number, teller });
        if sought == Some(number) {
            Err(Sought)
        } else {
            Ok(())
        }
    }

    // The number at a place tells all that follows it, up to the number looked for.
    fn hear_all<R: Relation>(
        &mut self,
        query: &Query<'_, R>,
        place: usize,
        number: u32,
    ) -> Result<(), Sought>
        requires kept { Kept query.now.sought self.old.flags.now (listed self.old.queue) }
        requires telling { let next = R.Relation.follows query.now.relation.now in
            Telling next query.now.start place (next number) (listed self.old.queue) }
        ensures lent { self.new.flags.ghost_name ≡ self.old.flags.ghost_name }
        ensures outcome { let next = R.Relation.follows query.now.relation.now in
            let found = listed self.new.queue in
            MatchResult result
            (λ _. Kept query.now.sought self.new.flags.now found × Round next query.now.start (place + 1) found)
            (λ _. Arrived next query.now.start query.now.sought found) }
    {
        for neighbour in Neighbours::of(query.relation, number) {
            self.note(query.sought, Some(place as u16), neighbour)?;
        }
        Ok(())
    }

    // Fills the flags and the queue, whatever they held, up to the number looked for.
    fn fill<R: Relation>(&mut self, query: &Query<'_, R>) -> Result<(), Sought>
        ensures lent { self.new.flags.ghost_name ≡ self.old.flags.ghost_name }
        ensures outcome { let next = R.Relation.follows query.now.relation.now in
            let found = listed self.new.queue in
            MatchResult result
            (λ _. Whole next query.now.start query.now.sought self.new.flags.now found (length found))
            (λ _. Arrived next query.now.start query.now.sought found) }
    {
        self.clear();
        self.note(query.sought, None, query.start)?;
        // the list grows while it is walked, so its places are counted
        for place in 0..LIMIT {
            let Some(number) = self.queue.number(place) else {
                break;
            };
            self.hear_all(query, place, number)?;
        }
        Ok(())
    }
}

// The answer is determined by what the relation tells, the start and the number looked for.
pub fn answers_are_determined()
    ensures { Determined }
{}
