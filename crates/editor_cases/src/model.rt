// The rules of the editor on plain lists: a level is a copy of the whole board.
use crate::call::{Reply, Shape};
use crate::fault::{Fault, ensure, settle};
use crate::plain_board::{Board, Driver, Gate, Latch, SIGNALS_MOST, in_use, missing};
use editor::Call;
use netlist::{Edit, Refusal};
use std::alloc::{AllocError, Global};

#[derive(Drop)]
pub struct Model {
    pub signals: u32,
    pub board: Board,
    limit: usize,
    saved: Vec<Board>,
    // the board that was asked for by the last edit, where it has a loop
    pub looped: Option<Board>,
}

impl Model {
    // An editor of a shape that none can have has no signals.
    pub fn new(heap: Global, shape: Shape) -> Result<Model, AllocError> {
        let serves = shape.signals <= SIGNALS_MOST && 2 <= shape.limit && shape.limit <= 8;
        let signals = if serves { shape.signals } else { 0 };
        Ok(Model {
            signals,
            board: Board::empty(heap, signals)?,
            limit: shape.limit,
            saved: Vec::new(heap),
            looped: None,
        })
    }

    pub fn levels(&self) -> usize {
        self.saved.len()
    }

    pub fn play(&mut self, call: Call) -> Result<Reply, AllocError> {
        settle(self.call(call))
    }

    // Refused by the smallest number that applies.
    fn call(&mut self, call: Call) -> Result<u32, Fault<Refusal>> {
        ensure(self.signals > 0, Refusal::NoEditor)?;
        match call {
            Call::Begin => self.begin()?,
            Call::Mark => self.mark()?,
            Call::KeepMark => self.keep_mark()?,
            Call::DropMark => self.drop_mark()?,
            Call::Keep => self.keep()?,
            Call::Drop => self.drop_batch()?,
            Call::Make(edit) => return self.make(edit),
        }
        Ok(0)
    }

    fn begin(&mut self) -> Result<(), Fault<Refusal>> {
        ensure(self.levels() == 0, Refusal::BatchOpen)?;
        self.open_level()?;
        Ok(())
    }

    fn mark(&mut self) -> Result<(), Fault<Refusal>> {
        self.needs_batch()?;
        let levels = self.levels().saturating_add(1);
        ensure(levels < self.limit, Refusal::NoLevelForMark)?;
        self.open_level()?;
        Ok(())
    }

    fn keep_mark(&mut self) -> Result<(), Refusal> {
        self.needs_mark()?;
        let _ = self.saved.pop();
        Ok(())
    }

    fn drop_mark(&mut self) -> Result<(), Refusal> {
        self.needs_mark()?;
        self.take_back();
        Ok(())
    }

    fn keep(&mut self) -> Result<(), Refusal> {
        self.needs_batch()?;
        ensure(self.levels() < 2, Refusal::MarkOpen)?;
        ensure(missing(&self.board.signals).is_none(), Refusal::AbsentInUse)?;
        let _ = self.saved.pop();
        Ok(())
    }

    fn drop_batch(&mut self) -> Result<(), Refusal> {
        self.needs_batch()?;
        self.saved.truncate(1);
        self.take_back();
        Ok(())
    }

    fn needs_batch(&self) -> Result<(), Refusal> {
        ensure(self.levels() > 0, Refusal::NoBatch)
    }

    fn needs_mark(&self) -> Result<(), Refusal> {
        self.needs_batch()?;
        ensure(self.levels() > 1, Refusal::NoMark)
    }

    fn open_level(&mut self) -> Result<(), AllocError> {
        let copy = self.board.clone()?;
        self.saved.push(copy)?;
        Ok(())
    }

    // The board is again as when the newest level was opened.
    fn take_back(&mut self) {
        if let Some(board) = self.saved.pop() {
            self.board = board;
        }
    }

    fn make(&mut self, edit: Edit) -> Result<u32, Fault<Refusal>> {
        self.looped = None;
        self.needs_batch()?;
        self.admits(edit)?;
        let mut asked = self.board.clone()?;
        match asked.make(edit) {
            Ok(count) => {
                self.board = asked;
                Ok(count)
            }
            // nothing but a loop refuses what was admitted
            Err(fault) => {
                self.looped = Some(asked);
                Err(fault)
            }
        }
    }

    // Refused for all but a loop, which shows only once the edit is made.
    fn admits(&self, edit: Edit) -> Result<(), Refusal> {
        ensure(names_inside(edit, self.signals), Refusal::NoSuchSignal)?;
        ensure(is_in_range(edit), Refusal::OutOfRange)?;
        self.admits_for(edit)
    }

    // Refused by the smallest number that applies for what the signal is.
    fn admits_for(&self, edit: Edit) -> Result<(), Refusal> {
        match edit {
            Edit::Input { signal } | Edit::Gate { signal, .. } | Edit::Latch { signal, .. } => {
                ensure(self.board.is_absent(signal), Refusal::Driven)
            }
            Edit::Output { .. } => Ok(()),
            Edit::Delete { signal } => self.admits_delete(signal),
            Edit::Move { signal, pin, .. } => self.admits_move(signal, pin),
        }
    }

    fn admits_delete(&self, signal: u32) -> Result<(), Refusal> {
        ensure(!self.board.is_absent(signal), Refusal::NotDriven)?;
        ensure(!in_use(&self.board.signals, signal), Refusal::InUse)
    }

    fn admits_move(&self, signal: u32, pin: u32) -> Result<(), Refusal> {
        let driver = self.board.driver(signal);
        let pins = driver.and_then(Driver::pins).ok_or(Refusal::NotDriven)?;
        ensure((pin as usize) < pins.len(), Refusal::NoSuchPin)
    }
}

// Whether each signal and each net that counts is below M.
fn names_inside(edit: Edit, signals: u32) -> bool {
    match edit {
        Edit::Input { signal } | Edit::Output { signal, .. } | Edit::Delete { signal } => {
            signal < signals
        }
        Edit::Latch { signal, net, .. } | Edit::Move { signal, net, .. } => {
            signal < signals && net < signals
        }
        Edit::Gate {
            signal,
            pins,
            nets,
            ..
        } => signal < signals && nets.iter().take(pins as usize).all(|net| *net < signals),
    }
}

fn is_in_range(edit: Edit) -> bool {
    match edit {
        Edit::Output { mark, .. } => mark <= 1,
        Edit::Gate { pins, table, .. } => pins <= 4 && table < table_limit(pins),
        Edit::Latch { start, .. } => start <= 3,
        _ => true,
    }
}

// The first number that is no table for so many pins.
pub fn table_limit(pins: u32) -> u32 {
    match pins {
        0 => 2,
        1 => 4,
        2 => 16,
        3 => 256,
        _ => 65536,
    }
}

impl Board {
    // Makes an edit that nothing but a loop can refuse. Gives the count.
    fn make(&mut self, edit: Edit) -> Result<u32, Fault<Refusal>> {
        match edit {
            Edit::Input { signal } => self.set_driver(signal, Driver::Input),
            Edit::Output { signal, mark } => self.set_output(signal, mark == 1),
            Edit::Delete { signal } => self.set_driver(signal, Driver::Absent),
            Edit::Latch { signal, net, start } => {
                self.set_driver(signal, Driver::Latch(Latch { net, start }))
            }
            Edit::Gate {
                signal,
                pins,
                nets,
                table,
            } => return self.add_gate(signal, Gate::new(pins, nets, table)),
            Edit::Move { signal, pin, net } => return self.move_pin(signal, pin, net),
        }
        Ok(0)
    }

    fn add_gate(&mut self, signal: u32, gate: Gate) -> Result<u32, Fault<Refusal>> {
        let nets = gate.nets.clone()?;
        self.set_driver(signal, Driver::Gate(gate));
        let mut sum: u32 = 0;
        for net in &nets {
            sum = sum.saturating_add(self.put(signal, *net)?);
        }
        Ok(sum)
    }

    // The pin of a latch moves nothing.
    fn move_pin(&mut self, signal: u32, pin: u32, net: u32) -> Result<u32, Fault<Refusal>> {
        self.set_pin(signal, pin, net);
        match self.driver(signal) {
            Some(Driver::Gate(_)) => self.put(signal, net),
            _ => Ok(0),
        }
    }
}
