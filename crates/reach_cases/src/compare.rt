// The search against the closure.
use crate::closure::closure;
use crate::graph::SIZE;
use crate::links::Links;
use crate::shapes::Shape;
use reach::{Path, Search};
use std::error::Error;
use std::fmt;

// Where the two differ.
#[derive(Clone, Copy, Debug)]
pub enum Differs {
    Count,
    Flag,
    Path,
    Early,
    Dirty,
}

impl fmt::Display for Differs {
    fn fmt<W: fmt::Write>(&self, f: &mut fmt::Formatter<W>) -> fmt::Result {
        f.write_str(match self {
            Differs::Count => "the count",
            Differs::Flag => "a flag",
            Differs::Path => "a path",
            Differs::Early => "an early exit",
            Differs::Dirty => "flags left set",
        })
    }
}

impl Error for Differs {}

// A graph, where it is searched from, and which numbers are reached from there.
#[derive(Drop)]
pub struct Case<'a> {
    shape: Shape,
    links: Links<'a>,
    start: u32,
    marks: [bool; 1024],
}

impl<'a> Case<'a> {
    pub fn new(shape: Shape, links: Links<'a>, start: u32) -> Self {
        Case {
            shape,
            links,
            start,
            marks: closure(shape, start),
        }
    }

    // How many numbers are reached.
    pub fn compare(&self, flags: &mut [u8; 1024]) -> Result<usize, Differs> {
        self.whole(flags)?;
        for number in 0..SIZE {
            self.early(number, flags)?;
        }
        Ok(self.count())
    }

    fn count(&self) -> usize {
        self.marks.iter().filter(|mark| **mark).count()
    }

    fn reached(&self, number: u32) -> bool {
        self.marks.get(number as usize).is_some_and(|mark| *mark)
    }

    // The search to its end: the count, each flag, and a path to each number that is reached.
    fn whole(&self, flags: &mut [u8; 1024]) -> Result<(), Differs> {
        let mut search = Search::new(flags);
        let count = search.run(&self.links, self.start, None);
        if !count.is_ok_and(|n| n as usize == self.count()) {
            return Err(Differs::Count);
        }
        for number in 0..SIZE {
            if search.contains(number) != self.reached(number) {
                return Err(Differs::Flag);
            }
            if !self.agrees(number, search.path_to(number)) {
                return Err(Differs::Path);
            }
        }
        Ok(())
    }

    // The search for one number, which stops early.
    fn early(&self, number: u32, flags: &mut [u8; 1024]) -> Result<(), Differs> {
        flags[0] = 7;
        let path = self.find(number, flags);
        if !self.agrees(number, path) {
            return Err(Differs::Early);
        }
        if flags.iter().any(|flag| *flag != 0) {
            return Err(Differs::Dirty);
        }
        Ok(())
    }

    // The path on which a search for a number stops, if it does.
    fn find(&self, number: u32, flags: &mut [u8; 1024]) -> Option<Path> {
        let mut search = Search::new(flags);
        search.run(&self.links, self.start, Some(number)).err()
    }

    // Whether there is a path to a number exactly if it is reached.
    fn agrees(&self, number: u32, path: Option<Path>) -> bool {
        match path {
            Some(path) => self.reached(number) && self.leads(path.numbers(), number),
            None => !self.reached(number),
        }
    }

    // Whether the numbers are a path from the start to an end.
    fn leads(&self, numbers: &[u32], end: u32) -> bool {
        numbers.first() == Some(&self.start)
            && numbers.last() == Some(&end)
            && numbers
                .windows(2)
                .all(|pair| self.shape.leads(pair[0], pair[1]))
    }
}
