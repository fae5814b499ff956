// A netlist and its order as plain lists, written apart from the editor, to compare it with.
use arrayvec::ArrayVec;
use std::alloc::{AllocError, Global};
use std::{iter, slice};

// The most signals that an editor has.
pub const SIGNALS_MOST: u32 = 1024;

#[derive(Clone, PartialEq, Drop)]
pub enum Driver {
    Absent,
    Input,
    Gate(Gate),
    Latch(Latch),
}

// A gate has a pin on each of the nets.
#[derive(Clone, PartialEq, Drop)]
pub struct Gate {
    pub nets: ArrayVec<u32, 4>,
    pub table: u32,
}

#[derive(Clone, Copy, PartialEq)]
pub struct Latch {
    pub net: u32,
    pub start: u32,
}

#[derive(Clone, PartialEq, Drop)]
pub struct Signal {
    pub driver: Driver,
    pub output: bool,
}

// The order lists the signal at each place.
#[derive(Clone, Drop)]
pub struct Board {
    pub signals: Vec<Signal>,
    pub order: Vec<u32>,
}

impl Gate {
    // Of the nets the first `pins` count.
    pub fn new(pins: u32, nets: [u32; 4], table: u32) -> Gate {
        let mut nets = ArrayVec::from(nets);
        nets.truncate(pins as usize);
        Gate { nets, table }
    }
}

impl Driver {
    pub fn is_absent(&self) -> bool {
        matches!(self, Driver::Absent)
    }

    // The nets that its pins are on, of what has pins.
    pub fn pins(&self) -> Option<&[u32]> {
        match self {
            Driver::Gate(gate) => Some(gate.nets.as_slice()),
            Driver::Latch(latch) => Some(slice::from_ref(&latch.net)),
            Driver::Absent | Driver::Input => None,
        }
    }

    fn set_pin(&mut self, pin: u32, net: u32) {
        match self {
            Driver::Gate(gate) => if let Some(on) = gate.nets.get_mut(pin as usize) {
                *on = net;
            },
            Driver::Latch(latch) => latch.net = net,
            Driver::Absent | Driver::Input => {}
        }
    }

    // Whether a signal feeds what is driven so: a latch is fed by nothing.
    pub fn is_fed_by(&self, signal: u32) -> bool {
        matches!(self, Driver::Gate(gate) if gate.nets.contains(&signal))
    }
}

impl Board {
    pub fn empty(heap: Global, count: u32) -> Result<Board, AllocError> {
        let undriven = |_| Signal {
            driver: Driver::Absent,
            output: false,
        };
        Ok(Board {
            signals: (0..count).map(undriven).collect(heap)?,
            order: (0..count).collect(heap)?,
        })
    }

    pub fn set_driver(&mut self, signal: u32, driver: Driver) {
        if let Some(place) = self.signals.get_mut(signal as usize) {
            place.driver = driver;
        }
    }

    pub fn set_pin(&mut self, signal: u32, pin: u32, net: u32) {
        if let Some(place) = self.signals.get_mut(signal as usize) {
            place.driver.set_pin(pin, net);
        }
    }

    pub fn set_output(&mut self, signal: u32, output: bool) {
        if let Some(place) = self.signals.get_mut(signal as usize) {
            place.output = output;
        }
    }

    pub fn driver(&self, signal: u32) -> Option<&Driver> {
        driver_of(&self.signals, signal)
    }

    pub fn is_absent(&self, signal: u32) -> bool {
        self.driver(signal).is_none_or(Driver::is_absent)
    }
}

fn driver_of(signals: &[Signal], signal: u32) -> Option<&Driver> {
    signals.get(signal as usize).map(|found| &found.driver)
}

// Whether a signal is an output or has a pin on it.
pub fn in_use(signals: &[Signal], signal: u32) -> bool {
    signals
        .get(signal as usize)
        .is_some_and(|found| found.output)
        || signals.iter().any(|other| has_pin_on(other, signal))
}

fn has_pin_on(other: &Signal, signal: u32) -> bool {
    other
        .driver
        .pins()
        .is_some_and(|pins| pins.contains(&signal))
}

// The smallest absent signal in use.
pub fn missing(signals: &[Signal]) -> Option<u32> {
    (0..SIGNALS_MOST)
        .zip(signals)
        .find(|(signal, found)| found.driver.is_absent() && in_use(signals, *signal))
        .map(|(signal, _)| signal)
}

// Whether the signals differ, each feeds the next, the last feeds the first, and the first is the smallest.
pub fn is_loop(signals: &[Signal], list: &[u32]) -> bool {
    let (Some(first), Some(last)) = (list.first(), list.last()) else {
        return false;
    };
    is_chain(signals, *last, list)
        && list
            .iter()
            .all(|signal| first <= signal && stands_once(list, *signal))
}

// Whether a signal feeds the first of a list, and each of the list feeds the next.
fn is_chain(signals: &[Signal], before: u32, list: &[u32]) -> bool {
    iter::once(&before)
        .chain(list)
        .zip(list)
        .all(|(before, signal)| feeds(signals, *before, *signal))
}

fn feeds(signals: &[Signal], before: u32, signal: u32) -> bool {
    driver_of(signals, signal).is_some_and(|driver| driver.is_fed_by(before))
}

fn stands_once(list: &[u32], signal: u32) -> bool {
    list.iter().filter(|other| **other == signal).count() == 1
}
