// A graph kept as chains of links, which the search walks.
use crate::link::{Chain, Link};
use crate::links::{END, Links};
use std::alloc::{AllocError, Global};

pub const SIZE: u32 = 1024;

// For each number its chain. It is kept in links and not in lists, so that the cases walk chains as a board's pins do, with an end that is a number.
#[derive(Drop)]
pub struct Graph {
    chains: [Chain; 1024],
    links: Vec<Link>,
}

impl Graph {
    pub fn new(heap: Global) -> Self {
        let none = Chain {
            first: END,
            last: END,
        };
        Graph {
            chains: [none; 1024],
            links: Vec::new(heap),
        }
    }

    // Adds an edge behind those of its number.
    pub fn add(&mut self, from: u32, to: u32) -> Result<(), AllocError> {
        let Ok(at) = u32::try_from(self.links.len()) else {
            return Ok(());
        };
        self.links.push(Link { to, next: END })?;
        self.append(from, at);
        Ok(())
    }

    // Puts a link behind the last of its number.
    fn append(&mut self, from: u32, at: u32) {
        let Some(chain) = self.chains.get_mut(from as usize) else {
            return;
        };
        match self.links.get_mut(chain.last as usize) {
            Some(link) => link.next = at,
            None => chain.first = at,
        }
        chain.last = at;
    }

    pub fn relation(&self) -> Links<'_> {
        Links {
            chains: &self.chains,
            links: self.links.as_slice(),
        }
    }
}
