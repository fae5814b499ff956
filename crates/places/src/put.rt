// A pin of a gate is put on a signal: the search over the signals fed, and the walk that fills the places anew.
ghost use Rattle.std.specs.Prelude.{◌≡◌, ◌≤◌, ◌⊎◌, Ok};
ghost use Rattle.board.specs.Stored.{OnlyWords};
ghost use Rattle.places.specs.Put.{Ready, PutsPin};

use crate::refill::{refill, renumber};
use crate::span::Span;
use board::{Fanout, Field, StoredBoard};
use reach::{Flags, Path, Queue, Search};
use words::Store;

// The pin is in the netlist already. Replies with how many signals moved, or with the loop that the netlist has.
pub fn put_pin<S: Store>(
    board: &mut StoredBoard<S>,
    gate: u32,
    net: u32,
    flags: &mut Flags<'_>,
) -> Result<u32, Path>
    ensures puts { Ready board.old.signals board.old.words.image gate net → PutsPin board.old.signals board.old.words gate net board.new.words result }
    ensures beyond { (board.old.signals ≤ gate) ⊎ (board.old.signals ≤ net) → (result ≡ Ok 0) × (board.new ≡ board.old) }
    ensures only { OnlyWords board.old board.new }
    ensures lent { flags.new.table.ghost_name ≡ flags.old.table.ghost_name }
{
    if gate >= board.signals() || net >= board.signals() {
        return Ok(0);
    }
    let span = Span {
        low: board.read(Field::Seat, gate),
        high: board.read(Field::Seat, net),
    };
    if span.high < span.low {
        return Ok(0);
    }
    // the search borrows the table for its while, and gives it back clean
    let mut search = Search {
        flags: &mut *flags.table,
        queue: Queue::new(),
    };
    let fanout = Fanout {
        board,
        upto: span.high,
        start: gate,
    };
    let moved = search.run(&fanout, gate, Some(net))?;
    refill(board, span, &search);
    renumber(board, span);
    Ok(moved)
}
