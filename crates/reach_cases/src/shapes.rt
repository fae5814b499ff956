// The graphs of the cases.
use crate::graph::{Graph, SIZE};
use std::alloc::{AllocError, Global};
use std::fmt;

#[derive(Clone, Copy)]
pub enum Shape {
    // Each number leads to the next; the last to one outside.
    Chain,
    // The same, and the last leads to the first.
    Ring,
    // Rows of 32: each number leads to the one below, which in the last row is outside, and to the one on its right.
    Grid,
    // Each leads to each.
    Dense,
    // Each number leads to the next but one; among what is told are numbers outside, the largest too.
    Outside,
}

impl fmt::Display for Shape {
    fn fmt<W: fmt::Write>(&self, f: &mut fmt::Formatter<W>) -> fmt::Result {
        f.write_str(match self {
            Shape::Chain => "chain",
            Shape::Ring => "ring",
            Shape::Grid => "grid",
            Shape::Dense => "dense",
            Shape::Outside => "outside",
        })
    }
}

impl Shape {
    // How many neighbours a number tells.
    pub fn degree(self) -> u32 {
        match self {
            Shape::Chain | Shape::Ring => 1,
            Shape::Grid => 2,
            Shape::Dense => SIZE,
            Shape::Outside => 4,
        }
    }

    // The neighbour of a number at a place among those that it tells.
    pub fn neighbour(self, x: u32, place: u32) -> u32 {
        match (self, place) {
            (Shape::Chain, _) => x.saturating_add(1),
            (Shape::Ring, _) => x.saturating_add(1) % SIZE,
            (Shape::Grid, 0) => x.saturating_add(32),
            (Shape::Grid, _) => if x % 32 == 31 {
                u32::MAX
            } else {
                x.saturating_add(1)
            },
            (Shape::Dense, _) => place,
            (Shape::Outside, 0) => x.saturating_add(SIZE),
            (Shape::Outside, 1) => u32::MAX,
            (Shape::Outside, 2) => x.saturating_add(2),
            (Shape::Outside, _) => x.saturating_add(1025),
        }
    }

    // Whether a number is followed by another.
    pub fn leads(self, from: u32, to: u32) -> bool {
        (0..self.degree()).any(|place| self.neighbour(from, place) == to)
    }

    pub fn graph(self, heap: Global) -> Result<Graph, AllocError> {
        let mut graph = Graph::new(heap);
        for x in 0..SIZE {
            for place in 0..self.degree() {
                graph.add(x, self.neighbour(x, place))?;
            }
        }
        Ok(graph)
    }
}
