// The editor: M signals in the words of any store, and the loop that is shown.
ghost use Rattle.std.specs.Prelude.{◌≡◌, ◌<◌, [], replicate, IfOk, MatchResult};
ghost use Rattle.netlist.specs.Netlist.{Whole};
ghost use Rattle.netlist.specs.declared.edit.Edit.TheVariants.{Input, Output, Gate, Latch, Delete, Move};
ghost use Rattle.netlist.specs.Refusals.{number};
ghost use Rattle.board.specs.Board.{netlist_of};
ghost use Rattle.editor.specs.declared.call.Call.TheVariants.{Begin, Mark, KeepMark, DropMark, Keep, Drop, Make};
ghost use Rattle.editor.specs.Made.{Tests, Starts};
ghost use Rattle.editor.specs.Plain.{plain};
ghost use Rattle.editor.specs.Steps.{Called, InOrder, begun, closed, HandsBack};

use crate::batch::{drop_batch, drop_mark, keep_batch, keep_mark, open_batch, open_mark};
use crate::making::{fits, lay_empty};
use crate::shown::Shown;
use crate::ticket::{Returned, Ticket};
use board::StoredBoard;
use edits::{EditFault, add_input, add_latch, delete_signal, make_edit, mark_output};
use netlist::{Edit, Refusal};
use reach::Flags;
use std::marker::Model;
use words::Store;

#[derive(Drop)]
pub struct Editor<S: Store> {
    pub(crate) board: StoredBoard<S>,
    pub(crate) shown: Shown,
}

// Every editor was led to by calls, so that no clause asks for them.
impl<S: Store> Model for Editor<S> {
    ghost use Rattle.editor.specs.State.{State, state_of, Reached};

    ghost Value = { State };

    ghost view = { λ e. state_of e.board e.shown };

    ghost invariant = { λ e. Reached e.board.signals e.board.words };
}

impl<S: Store> Editor<S> {
    // Whether an editor of so many signals can be made over a store: refused with 1 where it cannot.
    pub fn test(store: &S, signals: u32) -> Result<(), Refusal>
        ensures { Tests signals (S.Store.model store.now) result }
    {
        if fits(store, signals) {
            Ok(())
        } else {
            Err(Refusal::NoEditor)
        }
    }

    // The editor of the empty netlist, or where the test refuses the one of no signals, which leaves the store alone.
    pub fn new(store: S, signals: u32) -> Editor<S>
        ensures starts { Starts signals (S.Store.model store) result.signals result.words }
        ensures order { InOrder result.signals result.words }
        ensures shown { result.shown ≡ [] }
        ensures behind { result.lent ≡ S.Store.lent store }
    {
        if !fits(&store, signals) {
            return Editor {
                board: StoredBoard::new(store, 0),
                shown: Shown::none(),
            };
        }
        let mut board = StoredBoard::new(store, signals);
        lay_empty(&mut board);
        Editor {
            board,
            shown: Shown::none(),
        }
    }

    // ---- batches and marks

    pub fn begin(&mut self) -> Result<Ticket, Refusal>
        ensures { Called self.old Begin self.new (begun result) }
    {
        serves(&self.board)?;
        open_batch(&mut self.board)?;
        Ok(Ticket::issue())
    }

    pub fn mark(&mut self) -> Result<(), Refusal>
        ensures { Called self.old Mark self.new (plain result) }
    {
        serves(&self.board)?;
        open_mark(&mut self.board)
    }

    pub fn keep_mark(&mut self) -> Result<(), Refusal>
        ensures { Called self.old KeepMark self.new (plain result) }
    {
        serves(&self.board)?;
        keep_mark(&mut self.board)
    }

    pub fn drop_mark(&mut self) -> Result<(), Refusal>
        ensures { Called self.old DropMark self.new (plain result) }
    {
        serves(&self.board)?;
        drop_mark(&mut self.board)
    }

    pub fn keep(&mut self, ticket: Ticket) -> Result<(), Returned>
        ensures called { Called self.old Keep self.new (closed result) }
        ensures whole { IfOk result (λ _. Whole (netlist_of self.new.signals self.new.words.image)) }
        ensures back { HandsBack ticket result }
    {
        let reply = self.close_keeping();
        ticket.settle(reply)
    }

    fn close_keeping(&mut self) -> Result<(), Refusal>
        ensures { Called self.old Keep self.new (plain result) }
    {
        serves(&self.board)?;
        keep_batch(&mut self.board)
    }

    pub fn drop_batch(&mut self, ticket: Ticket) -> Result<(), Returned>
        ensures called { Called self.old Drop self.new (closed result) }
        ensures back { HandsBack ticket result }
    {
        let reply = self.close_dropping();
        ticket.settle(reply)
    }

    // It and `close_keeping` differ in one call on the board; a closure that changes it would need a contract as long as either.
    fn close_dropping(&mut self) -> Result<(), Refusal>
        ensures { Called self.old Drop self.new (plain result) }
    {
        serves(&self.board)?;
        drop_batch(&mut self.board)
    }

    // ---- edits, each by its name, and any as a value

    // The four that put no pin differ in one call on the board; a closure that changes it would need a contract as long as any of theirs.
    pub fn input(&mut self, signal: u32) -> Result<u32, Refusal>
        ensures { Called self.old (Make (Input signal)) self.new result }
    {
        begin_edit(&self.board, &mut self.shown)?;
        add_input(&mut self.board, signal)
    }

    pub fn output(&mut self, signal: u32, mark: u32) -> Result<u32, Refusal>
        ensures { Called self.old (Make (Output signal mark)) self.new result }
    {
        begin_edit(&self.board, &mut self.shown)?;
        mark_output(&mut self.board, signal, mark)
    }

    pub fn latch(&mut self, signal: u32, net: u32, start: u32) -> Result<u32, Refusal>
        ensures { Called self.old (Make (Latch signal net start)) self.new result }
    {
        begin_edit(&self.board, &mut self.shown)?;
        add_latch(&mut self.board, signal, net, start)
    }

    pub fn delete(&mut self, signal: u32) -> Result<u32, Refusal>
        ensures { Called self.old (Make (Delete signal)) self.new result }
    {
        begin_edit(&self.board, &mut self.shown)?;
        delete_signal(&mut self.board, signal)
    }

    // The row of nets is copied whole, and the first so many count.
    pub fn gate(
        &mut self,
        signal: u32,
        pins: u32,
        nets: [u32; 4],
        table: u32,
        flags: &mut [u8; 1024],
    ) -> Result<u32, Refusal>
        ensures called { Called self.old (Make (Gate signal pins nets table)) self.new result }
        ensures clean { flags.new ≡ replicate 1024 0 }
    {
        self.make(
            Edit::Gate {
                signal,
                pins,
                nets,
                table,
            },
            flags,
        )
    }

    pub fn move_pin(
        &mut self,
        signal: u32,
        pin: u32,
        net: u32,
        flags: &mut [u8; 1024],
    ) -> Result<u32, Refusal>
        ensures called { Called self.old (Make (Move signal pin net)) self.new result }
        ensures clean { flags.new ≡ replicate 1024 0 }
    {
        self.make(Edit::Move { signal, pin, net }, flags)
    }

    // Any edit, as a value.
    pub fn make(&mut self, edit: Edit, flags: &mut [u8; 1024]) -> Result<u32, Refusal>
        ensures called { Called self.old (Make edit) self.new result }
        ensures clean { flags.new ≡ replicate 1024 0 }
    {
        self.shown.clear();
        let mut flags = Flags::new(flags);
        serves(&self.board)?;
        // a loop is shown on the way, so no conversion of the fault would do
        match make_edit(&mut self.board, edit, &mut flags) {
            Ok(count) => Ok(count),
            Err(EditFault::Refused(refusal)) => Err(refusal),
            Err(EditFault::Looped(path)) => {
                self.shown.show(path);
                Err(Refusal::Looped)
            }
        }
    }
}

// What an edit that puts no pin begins with. It is handed the parts of an editor: until its call has ended, nothing is promised of the whole.
fn begin_edit<S: Store>(board: &StoredBoard<S>, shown: &mut Shown) -> Result<(), Refusal>
    ensures empties { shown.new ≡ [] }
    ensures serves { MatchResult result (λ _. 0 < board.now.signals) (λ e. (number e ≡ 1) × (board.now.signals ≡ 0)) }
{
    shown.clear();
    serves(board)
}

// An editor without signals serves no call.
fn serves<S: Store>(board: &StoredBoard<S>) -> Result<(), Refusal>
    ensures { MatchResult result (λ _. 0 < board.now.signals) (λ e. (number e ≡ 1) × (board.now.signals ≡ 0)) }
{
    if board.signals() == 0 {
        Err(Refusal::NoEditor)
    } else {
        Ok(())
    }
}
