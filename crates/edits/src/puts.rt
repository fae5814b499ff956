// The pins of a gate are put in turn, each on its signal.
ghost use Rattle.std.specs.Prelude.{◌≡◌, ◌≤◌, length};
ghost use Rattle.board.specs.Stored.{OnlyWords};
ghost use Rattle.edits.specs.Puts.{ReadyAll, PutsPins};

use board::StoredBoard;
use places::put_pin;
use reach::{Flags, Path};
use words::Store;

// Replies with the sum of the counts. Stops at the first pin that closes a loop.
pub(crate) fn put_all<S: Store>(
    board: &mut StoredBoard<S>,
    gate: u32,
    nets: &[u32],
    flags: &mut Flags<'_>,
) -> Result<u32, Path>
    requires { length nets.now ≤ 4 }
    ensures puts { let m = board.old.signals in
        let ws = board.old.words.image in
        ReadyAll m ws gate nets.now →
        PutsPins m board.old.words gate nets.now board.new.words result }
    ensures only { OnlyWords board.old board.new }
    ensures lent { flags.new.table.ghost_name ≡ flags.old.table.ghost_name }
{
    let mut total: u32 = 0;
    for net in nets {
        total = total.saturating_add(put_pin(board, gate, *net, flags)?);
    }
    Ok(total)
}
