// An edit on a board: its refusals, the change of the netlist, and the places.
ghost use Rattle.std.specs.Prelude.{◌≡◌, ◌<◌, ◌≤◌, length, take};
ghost use Rattle.words.specs.Meaning.{levels as levels_of};
ghost use Rattle.netlist.specs.declared.edit.Edit.TheVariants.{Input, Output, Latch, Delete};
ghost use Rattle.netlist.specs.Edits.{puts_of, signal_of};
ghost use Rattle.board.specs.Board.{netlist_of};
ghost use Rattle.board.specs.Standing.{Stands};
ghost use Rattle.board.specs.Stored.{Stays, OnlyWords};
ghost use Rattle.edits.specs.Checks.{Passes, Plain};
ghost use Rattle.edits.specs.Entered.{Entered};
ghost use Rattle.edits.specs.Makes.{Workable, Makes, MakesPlain, Full, Placing, reply_of, Faults};

use crate::checked::{Checked, Pin, Signal};
use crate::checks::check;
use crate::enter::{enter_delete, enter_driver, enter_input, enter_move, enter_output};
use crate::fault::EditFault;
use crate::puts::put_all;
use arrayvec::ArrayVec;
use board::{Kind, StoredBoard};
use netlist::{Edit, Refusal};
use reach::{Flags, Path};
use words::Store;

// Replies with the sum of the counts of its puts. The calls of edits ask nothing and are safe on any words; what they promise is for boards in
// order, of at most 1,024 signals, with a level left (`Workable`), so that is a premise of clauses and no invariant. Where no level is left, the
// edit is refused (`Full`).
pub fn make_edit<S: Store>(
    board: &mut StoredBoard<S>,
    edit: Edit,
    flags: &mut Flags<'_>,
) -> Result<u32, EditFault>
    ensures makes { let m = board.old.signals in
        Workable m board.old.words → Makes m board.old.words edit board.new.words (reply_of result) }
    ensures faults { let m = board.old.signals in
        let ws = board.old.words.image in
        Workable m board.old.words → Faults (netlist_of m ws) edit result }
    ensures full { board.old.words.limit ≤ levels_of board.old.words → Full board.old edit board.new (reply_of result) }
    ensures lent { flags.new.table.ghost_name ≡ flags.old.table.ghost_name }
    ensures stays { Stays board.old board.new }
{
    let checked = check(board, edit)?;
    board
        .open_level()
        .map_err(|_| EditFault::Refused(Refusal::NoLevelForMark))?;
    match place(board, checked, flags) {
        Ok(count) => {
            let _ = board.keep_level();
            Ok(count)
        }
        Err(path) => {
            let _ = board.drop_level();
            Err(EditFault::from(path))
        }
    }
}

// The change of the netlist, then the puts.
fn place<S: Store>(
    board: &mut StoredBoard<S>,
    checked: Checked,
    flags: &mut Flags<'_>,
) -> Result<u32, Path>
    ensures places { let m = board.old.signals in
        let ws = board.old.words.image in
        m ≤ 1024 → Stands m ws → Passes m (netlist_of m ws) checked.edit →
        Placing m ws checked.edit board.new.words.image result }
    ensures only { OnlyWords board.old board.new }
    ensures lent { flags.new.table.ghost_name ≡ flags.old.table.ghost_name }
{
    let nets = nets_to_put(board, checked.edit);
    enter(board, checked);
    put_all(board, checked.edit.signal(), nets.as_slice(), flags)
}

// An edit that puts no pin has a call of its own, which needs no flags: one call for all of them would ask its caller for such an edit.

// An input drives the signal.
pub fn add_input<S: Store>(board: &mut StoredBoard<S>, signal: u32) -> Result<u32, Refusal>
    ensures { MakesPlain board.old (Input signal) board.new result }
{
    make_plain(board, Edit::Input { signal })
}

// The signal is marked as an output, or not any more.
pub fn mark_output<S: Store>(
    board: &mut StoredBoard<S>,
    signal: u32,
    mark: u32,
) -> Result<u32, Refusal>
    ensures { MakesPlain board.old (Output signal mark) board.new result }
{
    make_plain(board, Edit::Output { signal, mark })
}

// A latch drives the signal.
pub fn add_latch<S: Store>(
    board: &mut StoredBoard<S>,
    signal: u32,
    net: u32,
    start: u32,
) -> Result<u32, Refusal>
    ensures { MakesPlain board.old (Latch signal net start) board.new result }
{
    make_plain(board, Edit::Latch { signal, net, start })
}

// The signal becomes absent.
pub fn delete_signal<S: Store>(board: &mut StoredBoard<S>, signal: u32) -> Result<u32, Refusal>
    ensures { MakesPlain board.old (Delete signal) board.new result }
{
    make_plain(board, Edit::Delete { signal })
}

// An edit that puts no pin is not taken back midway: it needs no level.
fn make_plain<S: Store>(board: &mut StoredBoard<S>, edit: Edit) -> Result<u32, Refusal>
    requires { Plain edit }
    ensures { MakesPlain board.old edit board.new result }
{
    let checked = check(board, edit)?;
    enter(board, checked);
    Ok(0)
}

// The signals that an edit puts pins on. A latch's pin moves no place.
fn nets_to_put<S: Store>(board: &StoredBoard<S>, edit: Edit) -> ArrayVec<u32, 4>
    ensures { result.items ≡ puts_of (netlist_of board.now.signals board.now.words.image) edit }
{
    match edit {
        Edit::Gate { pins, nets, .. } => first_nets(pins, nets),
        Edit::Move { signal, net, .. } if board.kind(signal) == Kind::Gate => {
            first_nets(1, [net; 4])
        }
        _ => ArrayVec::new(),
    }
}

// The first so many of a row, which is copied whole.
fn first_nets(count: u32, nets: [u32; 4]) -> ArrayVec<u32, 4>
    ensures { result.items ≡ take count nets }
{
    let mut first = ArrayVec::from(nets);
    first.truncate(count as usize);
    first
}

// The words change so that they tell the netlist asked for.
fn enter<S: Store>(board: &mut StoredBoard<S>, checked: Checked)
    ensures enters { let m = board.old.signals in
        let ws = board.old.words.image in
        m ≤ 1024 → Stands m ws → Passes m (netlist_of m ws) checked.edit →
        Entered m ws checked.edit board.new.words.image }
    ensures only { OnlyWords board.old board.new }
{
    match checked.edit {
        Edit::Input { signal } => enter_input(board, Signal { number: signal }),
        Edit::Output { signal, mark } => enter_output(board, Signal { number: signal }, mark),
        Edit::Gate {
            signal,
            pins,
            nets,
            table,
        } => enter_driver(
            board,
            Signal { number: signal },
            Kind::Gate,
            table,
            pins,
            nets,
        ),
        Edit::Latch { signal, net, start } => {
            enter_driver(
                board,
                Signal { number: signal },
                Kind::Latch,
                start,
                1,
                [net; 4],
            )
        }
        Edit::Delete { signal } => enter_delete(board, Signal { number: signal }),
        Edit::Move { signal, pin, net } => enter_move(
            board,
            Signal { number: signal },
            Pin { index: pin },
            net,
        ),
    }
}
