// The refusals of an edit that are seen before a pin is put, the smallest number first. That the words are sound and M is
// at most 1,024 are premises, since a check is made on any words of any board.
ghost use Rattle.std.specs.Prelude.{◌≡◌, ℕ, ◌<◌, ◌≤◌, false, List, length, take, Decides, IfOk, nat_le};
ghost use Rattle.std.specs.List.{list_any};
ghost use Rattle.words.specs.Meaning.{levels as levels_of};
ghost use Rattle.netlist.specs.Netlist.{driver_of, pins_of};
ghost use Rattle.netlist.specs.Edits.{Beyond, named, Unranged, DrivenAlready, WrongKind, PinBeyond, StillUsed, signal_of};
ghost use Rattle.board.specs.Board.{netlist_of, Sound};
ghost use Rattle.edits.specs.Checks.{Checks, pin_of};

use crate::checked::Checked;
use board::StoredBoard;
use netlist::{Edit, Refusal};
use table::Table;
use words::Store;

pub(crate) fn check<S: Store>(board: &StoredBoard<S>, edit: Edit) -> Result<Checked, Refusal>
    ensures same { IfOk result (λ checked. checked.edit ≡ edit) }
    ensures checks { let m = board.now.signals in
        let ws = board.now.words.image in
        m ≤ 1024 → Sound m ws → Checks m (levels_of board.now.words) (netlist_of m ws) edit result }
{
    if board.levels() == 0 {
        return Err(Refusal::NoBatch);
    }
    if beyond(board.signals(), edit) {
        return Err(Refusal::NoSuchSignal);
    }
    if unranged(edit) {
        return Err(Refusal::OutOfRange);
    }
    let asked = Asked { board, edit };
    if asked.driven_already() {
        return Err(Refusal::Driven);
    }
    if asked.wrong_kind() {
        return Err(Refusal::NotDriven);
    }
    if asked.pin_beyond() {
        return Err(Refusal::NoSuchPin);
    }
    if asked.still_used() {
        return Err(Refusal::InUse);
    }
    Ok(Checked { edit })
}

// A signal or net that counts is not below M.
fn beyond(signals: u32, edit: Edit) -> bool
    ensures { Decides result (Beyond signals (named edit)) }
{
    match edit {
        Edit::Input { signal } | Edit::Output { signal, .. } | Edit::Delete { signal } => {
            signal >= signals
        }
        Edit::Gate {
            signal,
            pins,
            nets,
            ..
        } => signal >= signals || net_beyond(signals, pins, nets),
        Edit::Latch { signal, net, .. } | Edit::Move { signal, net, .. } => {
            signal >= signals || net >= signals
        }
    }
}

// One of the first so many nets is not below M. Rows of nets are copied whole.
fn net_beyond(signals: u32, pins: u32, nets: [u32; 4]) -> bool
    ensures { Decides result (Beyond signals (take pins nets)) }
{
    any_beyond(signals, &nets[..pins.min(4) as usize])
}

fn any_beyond(signals: u32, nets: &[u32]) -> bool
    ensures { result ≡ list_any (λ net. nat_le signals net) nets.now }
{
    nets.iter().any(|net| *net >= signals)
}

fn unranged(edit: Edit) -> bool
    ensures { Decides result (Unranged edit) }
{
    match edit {
        Edit::Output { mark, .. } => mark > 1,
        Edit::Gate { pins, table, .. } => Table::new(pins, table).is_err(),
        Edit::Latch { start, .. } => start > 3,
        _ => false,
    }
}

// An edit that is asked of a board which has the signal that it changes.
#[derive(Drop)]
struct Asked<'a, S: Store> {
    board: &'a StoredBoard<S>,
    edit: Edit,
    ghost inside: { signal_of edit < board.now.signals },
}

impl<S: Store> Asked<'_, S> {
    fn driven_already(&self) -> bool
        ensures { let m = self.now.board.now.signals in
            let ws = self.now.board.now.words.image in
            Decides result (DrivenAlready (netlist_of m ws) self.now.edit) }
    {
        match self.edit {
            Edit::Input { signal } | Edit::Gate { signal, .. } | Edit::Latch { signal, .. } => {
                !self.board.is_absent(signal)
            }
            _ => false,
        }
    }

    fn wrong_kind(&self) -> bool
        ensures { let m = self.now.board.now.signals in
            let ws = self.now.board.now.words.image in
            Decides result (WrongKind (netlist_of m ws) self.now.edit) }
    {
        match self.edit {
            Edit::Delete { signal } => self.board.is_absent(signal),
            Edit::Move { signal, .. } => !self.board.has_pins(signal),
            _ => false,
        }
    }

    fn pin_beyond(&self) -> bool
        ensures four { result ≡ false → pin_of self.now.edit < 4 }
        ensures beyond { let m = self.now.board.now.signals in
            let ws = self.now.board.now.words.image in
            Sound m ws → Decides result (PinBeyond (netlist_of m ws) self.now.edit) }
    {
        match self.edit {
            Edit::Move { signal, pin, .. } => lacks_pin(self.board, signal, pin),
            _ => false,
        }
    }

    fn still_used(&self) -> bool
        ensures { let m = self.now.board.now.signals in
            let ws = self.now.board.now.words.image in
            Sound m ws → Decides result (StillUsed (netlist_of m ws) self.now.edit) }
    {
        match self.edit {
            Edit::Delete { signal } => self.board.is_wanted(signal),
            _ => false,
        }
    }
}

// There is no such pin where its word is 0.
fn lacks_pin<S: Store>(board: &StoredBoard<S>, signal: u32, pin: u32) -> bool
    requires { signal < board.now.signals }
    ensures four { result ≡ false → pin < 4 }
    ensures lacks { let m = board.now.signals in
        let ws = board.now.words.image in
        Sound m ws → Decides result (length (pins_of (driver_of (netlist_of m ws) signal)) ≤ pin) }
{
    pin > 3 || board.pin(signal, pin) == 0
}
