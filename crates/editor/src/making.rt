// The making of an editor over a store: whether it fits there, and the empty netlist.
ghost use Rattle.std.specs.Prelude.{◌≡◌, ◌+◌, ◌*◌, ◌≤◌, Decides};
ghost use Rattle.words.specs.Meaning.{size as size_of};
ghost use Rattle.netlist.specs.Edits.{empty_board};
ghost use Rattle.board.specs.Board.{board_of};
ghost use Rattle.board.specs.Standing.{Stands};
ghost use Rattle.board.specs.Stored.{OnlyWords};
ghost use Rattle.editor.specs.Making.{Fits, Seated};

use board::{Field, StoredBoard};
use words::Store;

// How many words a store needs for so many signals.
pub fn words_for(signals: u32) -> usize
    ensures { result ≡ 24 * signals + 24 }
{
    24 * signals as usize + 24
}

pub(crate) fn fits<S: Store>(store: &S, signals: u32) -> bool
    ensures { Decides result (Fits signals (S.Store.model store.now)) }
{
    if signals < 1 || signals > 1024 {
        return false;
    }
    if store.size() < words_for(signals) {
        return false;
    }
    store.limit() >= 2 && store.levels() == 0
}

// Writes the empty netlist: each signal is absent, no pin is on any, and signal n stands at place n. That M is at most 1,024 and the words
// suffice are premises: words are written at any M, as far as there are any.
pub(crate) fn lay_empty<S: Store>(board: &mut StoredBoard<S>)
    ensures lays { let m = board.old.signals in
        let ws = board.new.words.image in
        m ≤ 1024 → 24 * m + 24 ≤ size_of board.old.words → Stands m ws × (board_of m ws ≡ empty_board m) }
    ensures only { OnlyWords board.old board.new }
{
    board.clear();
    seat_all(board);
}

fn seat_all<S: Store>(board: &mut StoredBoard<S>)
    ensures seats { let m = board.old.signals in
        5 * m ≤ size_of board.old.words → Seated m m board.old.words.image board.new.words.image }
    ensures only { OnlyWords board.old board.new }
    ensures long { size_of board.new.words ≡ size_of board.old.words }
{
    for signal in 0..board.signals() {
        board.write(Field::Seat, signal, signal);
        board.write(Field::Holder, signal, signal);
    }
}
