// What an editor tells, against a plain netlist and against another editor.
use crate::plain::{Driver, Gate, Latch, Netlist, Signal};
use editor::{Editor, Kind};
use names::NameTable;
use words::Store;

// The same names at the same numbers, and the same model name.
pub fn same_names(names: &NameTable, netlist: &Netlist) -> bool {
    names.len() == netlist.signals.len()
        && names.model() == netlist.model
        && (0..1024)
            .zip(&netlist.signals)
            .all(|(number, signal)| names.name(number) == Some(signal.name))
}

// Each signal by name as it is listed, and none besides.
pub fn same_netlist<S: Store>(editor: &Editor<S>, names: &NameTable, netlist: &Netlist) -> bool {
    driven(editor) == netlist.driven()
        && netlist
            .signals
            .iter()
            .all(|signal| same_signal(editor, names, signal))
}

fn driven<S: Store>(editor: &Editor<S>) -> usize {
    (0..editor.signals())
        .filter(|number| editor.kind(*number) != Some(Kind::Absent))
        .count()
}

fn same_signal<S: Store>(editor: &Editor<S>, names: &NameTable, signal: &Signal) -> bool {
    let Some(number) = names.find(signal.name) else {
        return false;
    };
    editor.output_mark(number) == Some(signal.output)
        && same_driver(editor, names, number, &signal.driver)
}

fn same_driver<S: Store>(
    editor: &Editor<S>,
    names: &NameTable,
    number: u32,
    driver: &Driver,
) -> bool {
    match driver {
        Driver::Absent => editor.kind(number) == Some(Kind::Absent),
        Driver::Input => editor.kind(number) == Some(Kind::Input),
        Driver::Gate(gate) => same_gate(editor, names, number, gate),
        Driver::Latch(latch) => same_latch(editor, names, number, latch),
    }
}

fn same_gate<S: Store>(editor: &Editor<S>, names: &NameTable, number: u32, gate: &Gate) -> bool {
    let Some(table) = editor.table(number) else {
        return false;
    };
    table.bits() == gate.table
        && table.pins() as usize == gate.pins.len()
        && same_pins(editor, names, number, &gate.pins)
}

fn same_latch<S: Store>(editor: &Editor<S>, names: &NameTable, number: u32, latch: &Latch) -> bool {
    editor.start(number) == Some(latch.start) && same_pins(editor, names, number, &[latch.net])
}

fn same_pins<S: Store>(editor: &Editor<S>, names: &NameTable, number: u32, pins: &[&[u8]]) -> bool {
    let Some(told) = editor.pins(number) else {
        return false;
    };
    let nets = told.as_slice();
    nets.len() == pins.len()
        && nets
            .iter()
            .zip(pins)
            .all(|(net, pin)| names.name(*net) == Some(*pin))
}

// Netlist, order and levels of two editors.
pub fn same_editors<A: Store, B: Store>(editor: &Editor<A>, other: &Editor<B>) -> bool {
    editor.signals() == other.signals()
        && editor.levels() == other.levels()
        && (0..editor.signals()).all(|number| {
            editor.place(number) == other.place(number)
                && editor.signal_at(number) == other.signal_at(number)
                && editor.kind(number) == other.kind(number)
                && editor.output_mark(number) == other.output_mark(number)
                && editor.pins(number) == other.pins(number)
                && editor.table(number) == other.table(number)
                && editor.start(number) == other.start(number)
        })
}
