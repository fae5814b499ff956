// How many files were accepted, and how many were refused with each number.
use std::alloc::{AllocError, Global};
use std::collections::BTreeMap;
use std::fmt::{self, Display, Formatter, Write};

#[derive(Drop)]
pub struct Tally {
    accepted: u32,
    refused: BTreeMap<u32, u32>,
}

impl Tally {
    pub fn new(heap: Global) -> Tally {
        Tally {
            accepted: 0,
            refused: BTreeMap::new(heap),
        }
    }

    // Counts a file that is refused with a number, or accepted.
    pub fn count(&mut self, refused: Option<u32>) -> Result<(), AllocError> {
        match refused {
            None => self.accepted = self.accepted.saturating_add(1),
            Some(number) => {
                let count = self.refused.entry(number)?.or_insert(0);
                *count = count.saturating_add(1);
            }
        }
        Ok(())
    }
}

impl Display for Tally {
    fn fmt<W: Write>(&self, f: &mut Formatter<W>) -> fmt::Result {
        let accepted = self.accepted;
        write!(f, "{accepted} accepted; refused")?;
        for (number, count) in &self.refused {
            write!(f, " {number} x {count}")?;
        }
        Ok(())
    }
}
