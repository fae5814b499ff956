// The places of a span are walked once and filled anew; then each signal there is told its place.
ghost use Rattle.std.specs.Prelude.{◌≡◌, suc, ◌+◌, ◌-◌, ◌<◌, ◌≤◌, ◌++◌, length, take, drop};
ghost use Rattle.arrayvec.specs.ArrayVec.{array_vec_len};
ghost use Rattle.netlist.specs.Places.{Arranges};
ghost use Rattle.board.specs.Layout.{needed};
ghost use Rattle.board.specs.Board.{order_of};
ghost use Rattle.board.specs.Stored.{OnlyWords};
ghost use Rattle.places.specs.Refill.{Range, Reordered, Walked, Renumbered, flagged, filled};

use crate::span::Span;
use arrayvec::ArrayVec;
use board::{Field, StoredBoard};
use reach::Search;
use words::Store;

// The next place to fill, and the signals that are held back for the places from there on, as they were met.
#[derive(Drop)]
struct Parted {
    next: u32,
    held: ArrayVec<u32, 1024>,
}

// Writes the signals that are not flagged, from the low place on, and holds back those that are.
fn fill_others<S: Store>(board: &mut StoredBoard<S>, span: Span, search: &Search<'_>) -> Parted
    ensures walked { Range board.old.signals board.old.words.image span.low span.high → Walked (flagged search.now.flags.now) board.old.signals board.old.words.image span.low (suc span.high - span.low) board.new.words.image result.next result.held.items }
    ensures few { length result.held.items ≤ 1024 }
    ensures room { result.next + length result.held.items < 4294967296 }
    ensures only { OnlyWords board.old board.new }
{
    // Only some of the places walked are filled, so the next one is counted here.
    let mut next = span.low;
    let mut held = ArrayVec::new();
    for place in span.low..span.end() {
        let signal = board.read(Field::Holder, place);
        let moves = search.contains(signal);
        if moves {
            held.push(signal);
        } else {
            board.write(Field::Holder, next, signal);
            next += 1;
        }
    }
    Parted { next, held }
}

// Writes the signals that were held back, from a place on.
fn fill_held<S: Store>(board: &mut StoredBoard<S>, from: u32, held: &[u32])
    requires few { length held.now ≤ 1024 }
    requires room { from + length held.now < 4294967296 }
    ensures writes { needed board.old.signals ≤ length board.old.words.image → from + length held.now ≤ board.old.signals → Reordered board.old.signals board.old.words.image (take from (order_of board.old.signals board.old.words.image) ++ (held.now ++ drop (from + length held.now) (order_of board.old.signals board.old.words.image))) board.new.words.image }
    ensures only { OnlyWords board.old board.new }
{
    // a range zipped with the signals needs a proof of its own that none is left over
    for (i, signal) in held.iter().enumerate() {
        board.write(Field::Holder, from + i as u32, *signal);
    }
}

// Fills the places of a span: first with the signals there that are not flagged, then with those that are, both as they stand.
pub(crate) fn refill<S: Store>(board: &mut StoredBoard<S>, span: Span, search: &Search<'_>)
    ensures fills { Range board.old.signals board.old.words.image span.low span.high → Reordered board.old.signals board.old.words.image (filled (flagged search.now.flags.now) (order_of board.old.signals board.old.words.image) span.low span.high) board.new.words.image }
    ensures only { OnlyWords board.old board.new }
{
    let Parted { next, held } = fill_others(board, span, search);
    fill_held(board, next, held.as_slice());
}

// Each signal that stands in a span gets its place anew.
pub(crate) fn renumber<S: Store>(board: &mut StoredBoard<S>, span: Span)
    ensures seats { Range board.old.signals board.old.words.image span.low span.high → Arranges board.old.signals (order_of board.old.signals board.old.words.image) → Renumbered board.old.signals board.old.words.image span.low (suc span.high) board.new.words.image }
    ensures only { OnlyWords board.old board.new }
{
    for place in span.low..span.end() {
        let signal = board.read(Field::Holder, place);
        board.write(Field::Seat, signal, place);
    }
}
