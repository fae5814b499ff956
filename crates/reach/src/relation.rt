// A relation between numbers, told one neighbour at a time.
ghost use Rattle.std.specs.Prelude.{◌≡◌, ℕ, List, [], ◌∷◌, MatchOption};
ghost use Rattle.std.specs.Iterator.{YieldsFirst, item_count};

// A number that was told, and the edge to ask for the next one.
#[derive(Clone, Copy)]
pub struct Neighbour {
    pub number: u32,
    pub next: u32,
}

// An edge is a number of the relation's own choice: a place in a list, a link of a chain. Any edge may be asked about.
// Each call costs what it takes to tell one neighbour.
pub trait Relation {
    // The numbers told after a number, in their order. One that is not below 1,024 leads nowhere.
    ghost follows: { Self → ℕ → List ℕ };

    // The numbers that are still to be told from an edge on.
    ghost rest: { Self → ℕ → List ℕ };

    // The edge from which all that follows a number is told.
    fn first(&self, of: u32) -> u32
        ensures { rest self.now result ≡ follows self.now of };

    // The number that an edge leads to, or `None` where nothing is left to tell.
    fn step(&self, edge: u32) -> Option<Neighbour>
        ensures { MatchOption result (rest self.now edge ≡ []) (λ e. rest self.now edge ≡ e.number ∷ rest self.now e.next) };
}

// The numbers that are told from an edge on.
#[derive(Drop)]
pub(crate) struct Neighbours<'r, R> {
    relation: &'r R,
    edge: u32,
}

impl<'r, R: Relation> Neighbours<'r, R> {
    // All that follows a number.
    pub(crate) fn of(relation: &'r R, number: u32) -> Self
        ensures { R.Relation.rest result.relation.now result.edge ≡ R.Relation.follows relation.now number }
    {
        Neighbours {
            relation,
            edge: relation.first(number),
        }
    }
}

impl<R: Relation> Iterator for Neighbours<'_, R> {
    type Item = u32;

    ghost next_gives = { YieldsFirst (λ s. R.Relation.rest s.relation.now s.edge) };

    ghost remaining = { item_count (λ s. R.Relation.rest s.relation.now s.edge) };

    fn next(&mut self) -> Option<u32> {
        let neighbour = self.relation.step(self.edge)?;
        self.edge = neighbour.next;
        Some(neighbour.number)
    }
}
