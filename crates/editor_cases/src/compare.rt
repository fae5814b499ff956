// What an editor tells, against the model.
use crate::difference::Difference;
use crate::fault::ensure;
use crate::model::Model;
use crate::plain_board::{Board, Driver, Gate, Latch, Signal, is_loop, missing};
use editor::{Editor, Kind};
use words::Store;

pub fn compare<S: Store>(editor: &Editor<S>, model: &Model) -> Result<(), Difference> {
    let board = &model.board;
    ensure(same_size(editor, model.signals), Difference::Signals)?;
    ensure(same_levels(editor, model.levels()), Difference::Levels)?;
    ensure(same_order(editor, &board.order), Difference::Order)?;
    ensure(same_signals(editor, &board.signals), Difference::Netlist)?;
    ensure(
        editor.missing() == missing(&board.signals),
        Difference::Missing,
    )?;
    ensure(same_loop(editor, &model.looped), Difference::Loop)
}

// Behind the last signal there is nothing to tell.
fn same_size<S: Store>(editor: &Editor<S>, signals: u32) -> bool {
    editor.signals() == signals
        && editor.kind(signals).is_none()
        && editor.output_mark(signals).is_none()
        && editor.pins(signals).is_none()
        && editor.table(signals).is_none()
        && editor.start(signals).is_none()
        && editor.place(signals).is_none()
        && editor.signal_at(signals).is_none()
}

fn same_levels<S: Store>(editor: &Editor<S>, levels: usize) -> bool {
    editor.levels() == levels
        && editor.batch_open() == (levels > 0)
        && editor.marks_open() == levels.saturating_sub(1)
}

fn same_order<S: Store>(editor: &Editor<S>, order: &[u32]) -> bool {
    (0..editor.signals())
        .zip(order)
        .all(|(place, signal)| stands_at(editor, *signal, place))
}

pub fn stands_at<S: Store>(editor: &Editor<S>, signal: u32, place: u32) -> bool {
    editor.signal_at(place) == Some(signal) && editor.place(signal) == Some(place)
}

fn same_signals<S: Store>(editor: &Editor<S>, signals: &[Signal]) -> bool {
    (0..editor.signals())
        .zip(signals)
        .all(|(number, signal)| same_signal(editor, number, signal))
}

fn same_signal<S: Store>(editor: &Editor<S>, number: u32, signal: &Signal) -> bool {
    told(editor, number).as_ref() == Some(signal)
}

// A signal as the model has it, of what the editor tells.
fn told<S: Store>(editor: &Editor<S>, number: u32) -> Option<Signal> {
    Some(Signal {
        driver: told_driver(editor, number)?,
        output: editor.output_mark(number)?,
    })
}

fn told_driver<S: Store>(editor: &Editor<S>, number: u32) -> Option<Driver> {
    match editor.kind(number)? {
        Kind::Absent => Some(Driver::Absent),
        Kind::Input => Some(Driver::Input),
        Kind::Gate => told_gate(editor, number),
        Kind::Latch => told_latch(editor, number),
    }
}

fn told_gate<S: Store>(editor: &Editor<S>, number: u32) -> Option<Driver> {
    let pins = editor.pins(number)?;
    let table = editor.table(number)?;
    let gate = Gate::new(pins.count, pins.nets, table.bits());
    (table.pins() == pins.count).then_some(Driver::Gate(gate))
}

fn told_latch<S: Store>(editor: &Editor<S>, number: u32) -> Option<Driver> {
    let start = editor.start(number)?;
    match *editor.pins(number)?.as_slice() {
        [net] => Some(Driver::Latch(Latch { net, start })),
        _ => None,
    }
}

pub fn is_kind<S: Store>(editor: &Editor<S>, number: u32, kind: Kind) -> bool {
    editor.kind(number) == Some(kind)
}

fn same_loop<S: Store>(editor: &Editor<S>, looped: &Option<Board>) -> bool {
    match looped {
        Some(board) => is_loop(&board.signals, editor.loop_shown()),
        None => editor.loop_shown().is_empty(),
    }
}
