// The desk: an editor over any store, and the ticket of its open batch.
ghost use Rattle.std.specs.Prelude.{◌≡◌, [], replicate, IfOk};
ghost use Rattle.netlist.specs.Netlist.{Whole};
ghost use Rattle.netlist.specs.Refusals.{number};
ghost use Rattle.board.specs.Board.{netlist_of};
ghost use Rattle.editor.specs.declared.call.Call.TheVariants.{Begin, Mark, KeepMark, DropMark, Keep, Drop, Make};
ghost use Rattle.editor.specs.Calls.{RefusedWith};
ghost use Rattle.editor.specs.Made.{Starts};
ghost use Rattle.editor.specs.Plain.{plain};
ghost use Rattle.editor.specs.Steps.{InOrder, closed as closed_reply};
ghost use Rattle.desk.specs.Plays.{Plays, Clears, ClearsNamed, ticketless, closing, returned_with, number_told, Swaps};
ghost use Rattle.desk.specs.Held.{Backed, left};

use editor::{Call, Editor, Returned, Ticket};
use netlist::{Edit, Refusal};
use std::marker::Model;
use std::mem;
use words::Store;

pub struct Desk<S: Store> {
    editor: Editor<S>,
    held: Option<Ticket>,
}

// The editor gives no second ticket, and takes this one back whenever the batch is dropped.
impl<S: Store> Model for Desk<S> {
    ghost use Rattle.desk.specs.State.{State};
    ghost use Rattle.desk.specs.Held.{Backed};

    ghost Value = { State };

    ghost view = { λ d. record { editor = d.editor; held = d.held } };

    ghost invariant = { λ d. Backed d.editor.signals d.editor.words d.held };
}

impl<S: Store> Desk<S> {
    // The editor is made as by itself. No ticket is at hand.
    pub fn new(store: S, signals: u32) -> Desk<S>
        ensures starts { Starts signals (S.Store.model store) result.editor.signals result.editor.words }
        ensures order { InOrder result.editor.signals result.editor.words }
        ensures behind { result.editor.lent ≡ S.Store.lent store }
        ensures shown { result.editor.shown ≡ [] }
        ensures held { result.held ≡ None }
    {
        Desk {
            editor: Editor::new(store, signals),
            held: None,
        }
    }

    pub fn editor(&self) -> &Editor<S>
        ensures { result.now ≡ self.now.editor }
    {
        &self.editor
    }

    pub fn begin(&mut self) -> Result<(), Refusal>
        ensures { Plays self.old Begin self.new (plain result) }
    {
        let ticket = self.editor.begin()?;
        put(&mut self.held, ticket);
        Ok(())
    }

    pub fn mark(&mut self) -> Result<(), Refusal>
        ensures { Plays self.old Mark self.new (plain result) }
    {
        self.editor.mark()
    }

    pub fn keep_mark(&mut self) -> Result<(), Refusal>
        ensures { Plays self.old KeepMark self.new (plain result) }
    {
        self.editor.keep_mark()
    }

    pub fn drop_mark(&mut self) -> Result<(), Refusal>
        ensures { Plays self.old DropMark self.new (plain result) }
    {
        self.editor.drop_mark()
    }

    pub fn keep(&mut self) -> Result<(), Refusal>
        ensures plays { Plays self.old Keep self.new (plain result) }
        ensures whole { IfOk result (λ _. Whole (netlist_of self.new.editor.signals self.new.editor.words.image)) }
        ensures without { self.old.held ≡ None → RefusedWith (ticketless self.old.editor.signals) (plain result) }
    {
        match self.held.take() {
            None => Err(no_ticket(&self.editor)),
            Some(ticket) => closed(&mut self.held, self.editor.keep(ticket)),
        }
    }

    // It and `keep` differ in one call of the editor; a closure over that would need a contract as long as either.
    pub fn drop_batch(&mut self) -> Result<(), Refusal>
        ensures plays { Plays self.old Drop self.new (plain result) }
        ensures without { self.old.held ≡ None → RefusedWith (ticketless self.old.editor.signals) (plain result) }
    {
        match self.held.take() {
            None => Err(no_ticket(&self.editor)),
            Some(ticket) => closed(&mut self.held, self.editor.drop_batch(ticket)),
        }
    }

    // An edit by the call that takes any.
    pub fn make(&mut self, edit: Edit, flags: &mut [u8; 1024]) -> Result<u32, Refusal>
        ensures plays { Plays self.old (Make edit) self.new result }
        ensures clean { flags.new ≡ replicate 1024 0 }
    {
        self.editor.make(edit, flags)
    }

    // An edit by the call of its name. Those that put no pin take no flags.
    pub fn make_named(&mut self, edit: Edit, flags: &mut [u8; 1024]) -> Result<u32, Refusal>
        ensures plays { Plays self.old (Make edit) self.new result }
        ensures flags { ClearsNamed edit flags.old flags.new }
    {
        match edit {
            Edit::Input { signal } => self.editor.input(signal),
            Edit::Output { signal, mark } => self.editor.output(signal, mark),
            Edit::Gate {
                signal,
                pins,
                nets,
                table,
            } => self.editor.gate(signal, pins, nets, table, flags),
            Edit::Latch { signal, net, start } => self.editor.latch(signal, net, start),
            Edit::Delete { signal } => self.editor.delete(signal),
            Edit::Move { signal, pin, net } => self.editor.move_pin(signal, pin, net, flags),
        }
    }

    // Any call. The reply is the count, which is 0 for a call that has none.
    pub fn play(&mut self, call: Call, flags: &mut [u8; 1024]) -> Result<u32, Refusal>
        ensures plays { Plays self.old call self.new result }
        ensures flags { Clears call flags.old flags.new }
    {
        match call {
            Call::Begin => uncounted(self.begin()),
            Call::Mark => uncounted(self.mark()),
            Call::KeepMark => uncounted(self.keep_mark()),
            Call::DropMark => uncounted(self.drop_mark()),
            Call::Keep => uncounted(self.keep()),
            Call::Drop => uncounted(self.drop_batch()),
            Call::Make(edit) => self.make(edit, flags),
        }
    }

    // Drops the open batch, if there is one, and gives the editor.
    pub fn close(self) -> Editor<S>
        ensures { result ≡ closing self.editor self.held }
    {
        let Desk { editor, held } = self;
        match held {
            None => editor,
            Some(ticket) => drop_open(editor, ticket),
        }
    }

    // ---- tickets of another desk

    // What an editor without a batch refuses the ticket at hand with, when it is to keep. It is handed back. None where nothing is handed in;
    // no such editor accepts a ticket, so there is no success to tell.
    pub fn keep_at<B: Store>(&mut self, other: &mut Desk<B>) -> Option<Refusal>
        ensures told { number_told result ≡ returned_with self.old.held other.old.editor.signals other.old.held }
        ensures own { self.new ≡ self.old }
        ensures other { other.new ≡ other.old }
    {
        if other.held.is_some() {
            return None;
        }
        let ticket = self.held.take()?;
        closed(&mut self.held, other.editor.keep(ticket)).err()
    }

    // The same when it is to drop. It is apart from `keep_at` as `drop_batch` is from `keep`.
    pub fn drop_at<B: Store>(&mut self, other: &mut Desk<B>) -> Option<Refusal>
        ensures told { number_told result ≡ returned_with self.old.held other.old.editor.signals other.old.held }
        ensures own { self.new ≡ self.old }
        ensures other { other.new ≡ other.old }
    {
        if other.held.is_some() {
            return None;
        }
        let ticket = self.held.take()?;
        closed(&mut self.held, other.editor.drop_batch(ticket)).err()
    }

    // Exchanges the tickets at hand, if each desk has one. As the `insert` of a set does, it says whether it did.
    pub fn swap<B: Store>(&mut self, other: &mut Desk<B>) -> bool
        ensures swaps { Swaps self.old other.old self.new other.new result }
    {
        let both = self.held.is_some() && other.held.is_some();
        if both {
            mem::swap(&mut self.held, &mut other.held);
        }
        both
    }
}

// A reply without a count as one with 0. Neither side is a type of this crate, so it is no `From`.
fn uncounted(reply: Result<(), Refusal>) -> Result<u32, Refusal>
    ensures { result ≡ plain reply }
{
    reply.map(|()| 0)
}

// Puts a ticket where there is none.
fn put(held: &mut Option<Ticket>, ticket: Ticket)
    requires { held.old ≡ None }
    ensures { held.new ≡ Some ticket }
{
    match held.replace(ticket) {
        None => {}
        Some(_first) => unreachable!(),
    }
}

// Puts back the ticket of a keep or a drop that was refused. A closure for `map_err` that does so would need all of this contract.
fn closed(held: &mut Option<Ticket>, reply: Result<(), Returned>) -> Result<(), Refusal>
    requires { held.old ≡ None }
    ensures hand { held.new ≡ left reply }
    ensures reply { plain result ≡ closed_reply reply }
{
    match reply {
        Ok(()) => Ok(()),
        Err(Returned { refusal, ticket }) => {
            put(held, ticket);
            Err(refusal)
        }
    }
}

// What keep and drop reply where there is no ticket to hand in.
fn no_ticket<S: Store>(editor: &Editor<S>) -> Refusal
    ensures reply { number result ≡ ticketless editor.now.signals }
    ensures order { InOrder editor.now.signals editor.now.words }
{
    if editor.signals() == 0 {
        Refusal::NoEditor
    } else {
        Refusal::NoBatch
    }
}

// An open batch is dropped, and its ticket spent.
fn drop_open<S: Store>(editor: Editor<S>, ticket: Ticket) -> Editor<S>
    requires { Backed editor.signals editor.words (Some ticket) }
    ensures { result ≡ closing editor (Some ticket) }
{
    let mut editor = editor;
    match editor.drop_batch(ticket) {
        Ok(()) => editor,
        Err(
            Returned {
                refusal: _,
                ticket: _ticket,
            },
        ) => unreachable!(),
    }
}
