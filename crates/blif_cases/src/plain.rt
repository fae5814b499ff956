// A netlist as a plain list of signals by name, written apart from the libraries, to compare them with.
use std::alloc::{AllocError, Global};

#[derive(Drop)]
pub enum Driver<'a> {
    Absent,
    Input,
    Gate(Gate<'a>),
    Latch(Latch<'a>),
}

#[derive(Drop)]
pub struct Gate<'a> {
    pub pins: Vec<&'a [u8]>,
    pub table: u32,
}

#[derive(Clone, Copy)]
pub struct Latch<'a> {
    pub net: &'a [u8],
    pub start: u32,
}

#[derive(Drop)]
pub struct Signal<'a> {
    pub name: &'a [u8],
    pub driver: Driver<'a>,
    pub output: bool,
    // where it is driven, or 0
    pub line: usize,
}

// The signals in the order in which their names appear.
#[derive(Drop)]
pub struct Netlist<'a> {
    pub model: &'a [u8],
    pub signals: Vec<Signal<'a>>,
}

impl<'a> Driver<'a> {
    pub fn is_absent(&self) -> bool {
        matches!(self, Driver::Absent)
    }

    // The signals that feed it: a latch is fed by none.
    fn feeders(&self) -> &[&'a [u8]] {
        match self {
            Driver::Gate(gate) => gate.pins.as_slice(),
            Driver::Absent | Driver::Input | Driver::Latch(_) => &[],
        }
    }

    fn has_pin_on(&self, name: &[u8]) -> bool {
        match self {
            Driver::Gate(gate) => contains(&gate.pins, name),
            Driver::Latch(latch) => latch.net == name,
            Driver::Absent | Driver::Input => false,
        }
    }

    fn is(&self, other: &Driver) -> bool {
        match (self, other) {
            (Driver::Absent, Driver::Absent) | (Driver::Input, Driver::Input) => true,
            (Driver::Gate(gate), Driver::Gate(twin)) => {
                gate.table == twin.table && same_names(&gate.pins, &twin.pins)
            }
            (Driver::Latch(latch), Driver::Latch(twin)) => {
                latch.net == twin.net && latch.start == twin.start
            }
            _ => false,
        }
    }
}

pub fn contains(names: &[&[u8]], name: &[u8]) -> bool {
    names.iter().any(|other| *other == name)
}

fn same_names(names: &[&[u8]], others: &[&[u8]]) -> bool {
    names.len() == others.len()
        && names
            .iter()
            .zip(others)
            .all(|(name, other)| *name == *other)
}

fn add<'a>(names: &mut Vec<&'a [u8]>, name: &'a [u8]) -> Result<(), AllocError> {
    if !contains(names, name) {
        names.push(name)?;
    }
    Ok(())
}

impl<'a> Netlist<'a> {
    pub fn new(heap: Global) -> Netlist<'a> {
        Netlist {
            model: b"top",
            signals: Vec::new(heap),
        }
    }

    pub fn find(&self, name: &[u8]) -> Option<&Signal<'a>> {
        self.signals.iter().find(|signal| signal.name == name)
    }

    pub fn find_mut(&mut self, name: &[u8]) -> Option<&mut Signal<'a>> {
        self.signals.iter_mut().find(|signal| signal.name == name)
    }

    // Gives a name that is not known yet an absent signal.
    pub fn enter(&mut self, name: &'a [u8]) -> Result<(), AllocError> {
        if self.find(name).is_none() {
            self.signals.push(Signal {
                name,
                driver: Driver::Absent,
                output: false,
                line: 0,
            })?;
        }
        Ok(())
    }

    pub fn driven(&self) -> usize {
        self.signals
            .iter()
            .filter(|signal| !signal.driver.is_absent())
            .count()
    }

    fn is_used(&self, signal: &Signal) -> bool {
        signal.output
            || self
                .signals
                .iter()
                .any(|other| other.driver.has_pin_on(signal.name))
    }

    // The first absent signal in use.
    pub fn missing(&self) -> Option<&'a [u8]> {
        self.signals
            .iter()
            .find(|signal| signal.driver.is_absent() && self.is_used(signal))
            .map(|signal| signal.name)
    }

    // Whether a signal feeds one of these, through any number of gates.
    pub fn feeds_any(
        &self,
        heap: Global,
        name: &[u8],
        pins: &[&'a [u8]],
    ) -> Result<bool, AllocError> {
        let mut met = Vec::new(heap);
        for pin in pins {
            add(&mut met, *pin)?;
        }
        // each round goes on from another signal, so that there are no more rounds than signals
        for round in 0..self.signals.len() {
            let Some(from) = met.get(round).copied() else {
                break;
            };
            let Some(signal) = self.find(from) else {
                break;
            };
            for feeder in signal.driver.feeders() {
                add(&mut met, *feeder)?;
            }
        }
        Ok(contains(&met, name))
    }

    // Whether each gate is driven in a line below those of the gates that feed it.
    pub fn is_fed_from_above(&self) -> bool {
        self.signals.iter().all(|signal| {
            signal
                .driver
                .feeders()
                .iter()
                .all(|feeder| self.is_above(feeder, signal.line))
        })
    }

    fn is_above(&self, feeder: &[u8], line: usize) -> bool {
        match self.find(feeder) {
            Some(signal) => !matches!(signal.driver, Driver::Gate(_)) || signal.line < line,
            None => false,
        }
    }

    // Whether another has the same signals by name, in any order.
    pub fn is_by_name(&self, other: &Netlist) -> bool {
        self.model == other.model
            && self.signals.len() == other.signals.len()
            && self.signals.iter().all(|signal| {
                other.find(signal.name).is_some_and(|twin| {
                    signal.output == twin.output && signal.driver.is(&twin.driver)
                })
            })
    }
}
