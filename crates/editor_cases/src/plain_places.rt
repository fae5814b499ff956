// The rule of places on plain lists: what is reached is found by going over all gates again and again until nothing is added.
use crate::fault::{Fault, ensure};
use crate::plain_board::{Board, SIGNALS_MOST, Signal};
use netlist::Refusal;
use std::alloc::{AllocError, Global};

impl Board {
    // Puts a pin of a gate on a signal; the netlist has the pin already. Gives the count, and refuses a loop.
    pub fn put(&mut self, gate: u32, net: u32) -> Result<u32, Fault<Refusal>> {
        let low = self.place(gate);
        let high = self.place(net);
        if high < low {
            return Ok(0);
        }
        let moving = self.moving(gate, high)?;
        ensure(!moving.contains(&net), Refusal::Looped)?;
        self.order = self.refilled(low, high, &moving)?;
        Ok(u32::try_from(moving.len()).unwrap_or(u32::MAX))
    }

    fn heap(&self) -> Global {
        *self.order.allocator()
    }

    fn place(&self, signal: u32) -> usize {
        self.order
            .iter()
            .position(|other| *other == signal)
            .unwrap_or(self.order.len())
    }

    // The start and all that is reached from it, as far as its place is at most `high`.
    fn moving(&self, start: u32, high: usize) -> Result<Vec<u32>, AllocError> {
        let reached = self.reached(start)?;
        self.order
            .iter()
            .take(high.saturating_add(1))
            .filter(|signal| reached.contains(signal))
            .copied()
            .collect(self.heap())
    }

    // Each round adds a signal, so that there are no more rounds than signals.
    fn reached(&self, start: u32) -> Result<Vec<u32>, AllocError> {
        let mut reached = vec![in self.heap(); start]?;
        for _ in &self.signals {
            let Some(signal) = self.next_reached(&reached) else {
                break;
            };
            reached.push(signal)?;
        }
        Ok(reached)
    }

    // A signal that is not among those reached, and is fed by one of them.
    fn next_reached(&self, reached: &[u32]) -> Option<u32> {
        let is_fed = |fed: &Signal| reached.iter().any(|signal| fed.driver.is_fed_by(*signal));
        (0..SIGNALS_MOST)
            .zip(&self.signals)
            .find(|(signal, fed)| !reached.contains(signal) && is_fed(fed))
            .map(|(signal, _)| signal)
    }

    // The order with the places from low to high filled anew: first by the signals that do not move, then by those that do, both as they stand.
    fn refilled(&self, low: usize, high: usize, moving: &[u32]) -> Result<Vec<u32>, AllocError> {
        let behind = high.saturating_add(1);
        let between = || self.order.iter().take(behind).skip(low);
        self.order
            .iter()
            .take(low)
            .chain(between().filter(|signal| !moving.contains(signal)))
            .chain(between().filter(|signal| moving.contains(signal)))
            .chain(self.order.iter().skip(behind))
            .copied()
            .collect(self.heap())
    }
}
