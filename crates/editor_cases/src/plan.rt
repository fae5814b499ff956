// Where the calls of a trial come from: a table, or a seed.
ghost use Rattle.std.specs.Prelude.{ℕ, ◌<◌, IsSome, length};

use crate::call::{Expected, Step};
use crate::model::{Model, table_limit};
use crate::plain_board::{Board, Driver};
use draws::Draws;
use editor::Call;
use netlist::Edit;

pub trait Plan {
    // How many calls are left.
    ghost left: { Self → ℕ };

    // The next call, which may be chosen by what the model has, or nothing at the end.
    fn next_step(&mut self, model: &Model) -> Option<Step>
        ensures { IsSome result → left self.new < left self.old };
}

// A call and the reply that it has to give.
#[derive(Clone, Copy)]
pub struct Row(pub Call, pub Expected);

// The rows that are left.
#[derive(Clone, Copy)]
pub struct Table<'a>(pub &'a [Row]);

impl Plan for Table<'_> {
    ghost left = { λ table. length table.0.now };

    fn next_step(&mut self, _model: &Model) -> Option<Step> {
        let (Row(call, reply), rest) = self.0.split_first()?;
        self.0 = rest;
        Some(Step {
            call: *call,
            expected: Some(*reply),
        })
    }
}

// Calls that a seed fixes, for an editor of so many signals: mostly such as fit the netlist, now and then any numbers.
#[derive(Clone, Copy)]
pub struct Random {
    draws: Draws,
    signals: u32,
    left: u32,
}

impl Random {
    pub fn new(seed: u32, signals: u32, calls: u32) -> Random {
        Random {
            draws: Draws::new(u64::from(seed)),
            signals,
            left: calls,
        }
    }

    fn below(&mut self, bound: u32) -> u32 {
        self.draws.below(bound)
    }

    // Mostly below the bound, now and then at or above it.
    fn around(&mut self, bound: u32) -> u32 {
        match self.below(8) {
            0 => bound,
            1 => bound.saturating_add(self.below(3)),
            2 => u32::MAX - self.below(2),
            _ => self.below(bound),
        }
    }

    fn signal(&mut self) -> u32 {
        self.below(self.signals)
    }

    // Mostly a signal, now and then a number that is none.
    fn any_signal(&mut self) -> u32 {
        self.around(self.signals)
    }

    fn call(&mut self, model: &Model) -> Call {
        if model.levels() == 0 && self.below(8) > 0 {
            return Call::Begin;
        }
        match self.below(100) {
            0 => Call::Begin,
            1..=9 => Call::Mark,
            10..=13 => Call::KeepMark,
            14..=17 => Call::DropMark,
            18..=22 => Call::Keep,
            23..=24 => Call::Drop,
            _ => Call::Make(self.edit(&model.board)),
        }
    }

    fn edit(&mut self, board: &Board) -> Edit {
        if self.below(8) == 0 {
            return self.any_edit();
        }
        let signal = self.signal();
        match board.driver(signal) {
            None | Some(Driver::Absent) => self.driving(signal),
            Some(Driver::Input) => self.undriving(signal),
            Some(Driver::Latch(_)) => self.changing(signal, 1),
            Some(Driver::Gate(gate)) => self.changing(signal, gate.nets.len() as u32),
        }
    }

    // Mostly moves a pin of a signal.
    fn changing(&mut self, signal: u32, pins: u32) -> Edit {
        if self.below(4) == 0 {
            self.undriving(signal)
        } else {
            self.moving(signal, pins)
        }
    }

    // Drives a signal.
    fn driving(&mut self, signal: u32) -> Edit {
        match self.below(4) {
            0 => Edit::Input { signal },
            1 => Edit::Latch {
                signal,
                net: self.signal(),
                start: self.below(4),
            },
            _ => self.gate(signal),
        }
    }

    fn gate(&mut self, signal: u32) -> Edit {
        let pins = self.below(5);
        Edit::Gate {
            signal,
            pins,
            nets: [self.signal(), self.signal(), self.signal(), self.signal()],
            table: self.below(table_limit(pins)),
        }
    }

    fn undriving(&mut self, signal: u32) -> Edit {
        match self.below(4) {
            0 => Edit::Output { signal, mark: 1 },
            1 => Edit::Output { signal, mark: 0 },
            2 => Edit::Input { signal },
            _ => Edit::Delete { signal },
        }
    }

    fn moving(&mut self, signal: u32, pins: u32) -> Edit {
        // no number is drawn for a gate without pins
        let pin = if pins == 0 { 0 } else { self.below(pins) };
        Edit::Move {
            signal,
            pin,
            net: self.signal(),
        }
    }

    // Any edit with any numbers.
    fn any_edit(&mut self) -> Edit {
        let signal = self.any_signal();
        let net = self.any_signal();
        match self.below(6) {
            0 => Edit::Input { signal },
            1 => Edit::Output {
                signal,
                mark: self.around(2),
            },
            2 => self.any_gate(signal, net),
            3 => Edit::Latch {
                signal,
                net,
                start: self.around(4),
            },
            4 => Edit::Delete { signal },
            _ => Edit::Move {
                signal,
                pin: self.around(4),
                net,
            },
        }
    }

    fn any_gate(&mut self, signal: u32, net: u32) -> Edit {
        let pins = self.around(5);
        let last = self.any_signal();
        Edit::Gate {
            signal,
            pins,
            nets: [net, signal, net, last],
            table: self.around(table_limit(pins)),
        }
    }
}

impl Plan for Random {
    ghost left = { λ random. random.left };

    fn next_step(&mut self, model: &Model) -> Option<Step> {
        let left = self.left.checked_sub(1)?;
        let call = self.call(model);
        self.left = left;
        Some(Step {
            call,
            expected: None,
        })
    }
}
