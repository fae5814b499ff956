// Batches and marks over a store: a batch is its first open level, every further level is a mark. That the words are sound is a premise of
// clauses, since each is safe on any words.
ghost use Rattle.std.specs.Prelude.{◌≡◌, ℕ, ◌<◌, ◌≤◌, Decides, MatchResult};
ghost use Rattle.words.specs.Meaning.{levels as levels_of};
ghost use Rattle.netlist.specs.Refusals.{number};
ghost use Rattle.board.specs.Board.{netlist_of, Sound};
ghost use Rattle.board.specs.Stored.{Stays};
ghost use Rattle.editor.specs.declared.call.Call.TheVariants.{Begin, Mark, KeepMark, DropMark, Keep, Drop};
ghost use Rattle.editor.specs.Calls.{IsRefusal, Missing, Replies, emptied};
ghost use Rattle.editor.specs.Plain.{plain};
ghost use Rattle.editor.specs.Questions.{IsSmallest};

use board::StoredBoard;
use netlist::Refusal;
use words::Store;

pub(crate) fn open_batch<S: Store>(board: &mut StoredBoard<S>) -> Result<(), Refusal>
    ensures replies { (m : ℕ) → 2 ≤ board.old.words.limit → Replies m board.old.words Begin board.new.words (plain result) }
    ensures stays { Stays board.old board.new }
{
    if board.levels() > 0 {
        return Err(Refusal::BatchOpen);
    }
    // a store of no levels at all
    board.open_level().map_err(|_| Refusal::NoLevelForMark)
}

// The last level stays free.
pub(crate) fn open_mark<S: Store>(board: &mut StoredBoard<S>) -> Result<(), Refusal>
    ensures replies { (m : ℕ) → Replies m board.old.words Mark board.new.words (plain result) }
    ensures stays { Stays board.old board.new }
{
    let levels = board.levels();
    if levels == 0 {
        return Err(Refusal::NoBatch);
    }
    if board.limit().saturating_sub(levels) <= 1 {
        return Err(Refusal::NoLevelForMark);
    }
    let _ = board.open_level();
    Ok(())
}

// Whether there is a mark to close.
fn check_mark<S: Store>(board: &StoredBoard<S>) -> Result<(), Refusal>
    ensures { let a = board.now.words in
        MatchResult result (λ _. 1 < levels_of a) (λ e. (m : ℕ) → IsRefusal m a KeepMark (number e)) }
{
    match board.levels() {
        0 => Err(Refusal::NoBatch),
        1 => Err(Refusal::NoMark),
        _ => Ok(()),
    }
}

// It and `drop_mark` differ in one call; a closure over that would need a contract as long as either.
pub(crate) fn keep_mark<S: Store>(board: &mut StoredBoard<S>) -> Result<(), Refusal>
    ensures replies { (m : ℕ) → Replies m board.old.words KeepMark board.new.words (plain result) }
    ensures stays { Stays board.old board.new }
{
    check_mark(board)?;
    let _ = board.keep_level();
    Ok(())
}

pub(crate) fn drop_mark<S: Store>(board: &mut StoredBoard<S>) -> Result<(), Refusal>
    ensures replies { (m : ℕ) → Replies m board.old.words DropMark board.new.words (plain result) }
    ensures stays { Stays board.old board.new }
{
    check_mark(board)?;
    let _ = board.drop_level();
    Ok(())
}

// Takes back what was done since the batch was opened, marks and all.
pub(crate) fn drop_all<S: Store>(board: &mut StoredBoard<S>)
    ensures empties { board.new.words ≡ emptied board.old.words }
    ensures stays { Stays board.old board.new }
{
    while board.drop_level().is_ok() {}
}

pub(crate) fn drop_batch<S: Store>(board: &mut StoredBoard<S>) -> Result<(), Refusal>
    ensures replies { (m : ℕ) → Replies m board.old.words Drop board.new.words (plain result) }
    ensures stays { Stays board.old board.new }
{
    if board.levels() == 0 {
        return Err(Refusal::NoBatch);
    }
    drop_all(board);
    Ok(())
}

pub(crate) fn keep_batch<S: Store>(board: &mut StoredBoard<S>) -> Result<(), Refusal>
    ensures replies { let m = board.old.signals in
        let a = board.old.words in
        Sound m a.image → Replies m a Keep board.new.words (plain result) }
    ensures stays { Stays board.old board.new }
{
    let levels = board.levels();
    if levels == 0 {
        return Err(Refusal::NoBatch);
    }
    if levels > 1 {
        return Err(Refusal::MarkOpen);
    }
    if smallest_missing(board).is_some() {
        return Err(Refusal::AbsentInUse);
    }
    let _ = board.keep_level();
    Ok(())
}

// The smallest absent signal in use, in one pass over the signals.
pub(crate) fn smallest_missing<S: Store>(board: &StoredBoard<S>) -> Option<u32>
    ensures { let m = board.now.signals in
        let ws = board.now.words.image in
        Sound m ws → IsSmallest (Missing m (netlist_of m ws)) result }
{
    (0..board.signals()).find(|signal| is_missing(board, *signal))
}

fn is_missing<S: Store>(board: &StoredBoard<S>, signal: u32) -> bool
    ensures { let m = board.now.signals in
        let ws = board.now.words.image in
        signal < m → Sound m ws → Decides result (Missing m (netlist_of m ws) signal) }
{
    board.is_absent(signal) && board.is_wanted(signal)
}
