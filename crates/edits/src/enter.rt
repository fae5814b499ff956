// The change that an edit makes of the cell of its signal. Places stay as they are. Each takes the board and the number of the signal: a struct
// of the two would lend the board once more, and know no more of it, since that the cell is there (`Site`) is a premise too.
ghost use Rattle.std.specs.Prelude.{◌*◌, ◌<◌};
ghost use Rattle.board.specs.Chain.{Chained, Repins};
ghost use Rattle.board.specs.Kinds.{word_of};
ghost use Rattle.board.specs.Stored.{OnlyWords};
ghost use Rattle.edits.specs.Cells.{Site, Wirable, Changed, cell_at, as_input, as_output, as_driven, as_absent, as_moved, as_wired, as_unwired};

use crate::checked::{Pin, Signal};
use board::{Field, Kind, StoredBoard};
use words::Store;

pub(crate) fn enter_input<S: Store>(board: &mut StoredBoard<S>, signal: Signal)
    ensures enters { let m = board.old.signals in
        let ws = board.old.words.image in
        Site m ws signal.number →
        Changed m ws signal.number (as_input (cell_at m ws signal.number)) board.new.words.image }
    ensures only { OnlyWords board.old board.new }
{
    board.set_kind(signal.number, Kind::Input);
}

pub(crate) fn enter_output<S: Store>(board: &mut StoredBoard<S>, signal: Signal, mark: u32)
    ensures enters { let m = board.old.signals in
        let ws = board.old.words.image in
        Site m ws signal.number →
        Changed m ws signal.number (as_output (cell_at m ws signal.number) mark) board.new.words.image }
    ensures only { OnlyWords board.old board.new }
{
    board.write(Field::Output, signal.number, mark);
}

// A gate or a latch drives a signal that has no pins yet. The row of nets is copied whole, and the first so many count.
pub(crate) fn enter_driver<S: Store>(
    board: &mut StoredBoard<S>,
    signal: Signal,
    kind: Kind,
    value: u32,
    pins: u32,
    nets: [u32; 4],
)
    ensures enters { let m = board.old.signals in
        let ws = board.old.words.image in
        Wirable m ws signal.number pins nets →
        Changed m ws signal.number (as_driven (cell_at m ws signal.number) (word_of kind) value pins nets) board.new.words.image }
    ensures only { OnlyWords board.old board.new }
{
    board.set_kind(signal.number, kind);
    board.write(Field::Value, signal.number, value);
    attach_all(board, signal, pins, nets);
}

// The row is copied whole, and the first so many count.
fn attach_all<S: Store>(board: &mut StoredBoard<S>, signal: Signal, pins: u32, nets: [u32; 4])
    ensures attaches { let m = board.old.signals in
        let ws = board.old.words.image in
        Wirable m ws signal.number pins nets →
        Changed m ws signal.number (as_wired (cell_at m ws signal.number) pins nets) board.new.words.image }
    ensures only { OnlyWords board.old board.new }
{
    // a pin is named by its place in the row
    for (pin, net) in nets[..pins.min(4) as usize].iter().enumerate() {
        let index = pin as u32;
        board.attach(signal.pin(Pin { index }), *net);
    }
}

// The signal becomes absent and loses its pins.
pub(crate) fn enter_delete<S: Store>(board: &mut StoredBoard<S>, signal: Signal)
    ensures enters { let m = board.old.signals in
        let ws = board.old.words.image in
        Site m ws signal.number →
        Changed m ws signal.number (as_absent (cell_at m ws signal.number)) board.new.words.image }
    ensures only { OnlyWords board.old board.new }
{
    detach_all(board, signal);
    board.set_kind(signal.number, Kind::Absent);
}

fn detach_all<S: Store>(board: &mut StoredBoard<S>, signal: Signal)
    ensures detaches { let m = board.old.signals in
        let ws = board.old.words.image in
        Site m ws signal.number →
        Changed m ws signal.number (as_unwired (cell_at m ws signal.number) 4) board.new.words.image }
    ensures only { OnlyWords board.old board.new }
{
    for pin in 0..4 {
        release(board, signal.pin(Pin { index: pin }));
    }
}

// A pin is on no signal any more, whether or not it was.
fn release<S: Store>(board: &mut StoredBoard<S>, pin: u32)
    ensures releases { let m = board.old.signals in
        let ws = board.old.words.image in
        Chained m ws → pin < 4 * m → Repins m ws pin 0 board.new.words.image }
    ensures only { OnlyWords board.old board.new }
{
    if board.read(Field::Pin, pin) != 0 {
        board.detach(pin);
    }
}

// The pin comes off its signal and goes onto another.
pub(crate) fn enter_move<S: Store>(board: &mut StoredBoard<S>, signal: Signal, pin: Pin, net: u32)
    ensures enters { let m = board.old.signals in
        let ws = board.old.words.image in
        Site m ws signal.number → net < m →
        Changed m ws signal.number (as_moved (cell_at m ws signal.number) pin.index net) board.new.words.image }
    ensures only { OnlyWords board.old board.new }
{
    let number = signal.pin(pin);
    release(board, number);
    board.attach(number, net);
}
