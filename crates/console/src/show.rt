// The netlist and the order of an editor, printed.
use editor::{Editor, Kind};
use std::{fmt, io};
use store_script::Numbers;
use words::Store;

pub fn show<S: Store>(rt: &HostRuntime, editor: &Editor<S>) -> anyhow::Result<()> {
    println!(rt; "levels {}", editor.levels())?;
    let order: Vec<u32> = (0..editor.signals())
        .filter_map(|place| editor.signal_at(place))
        .collect(rt.alloc())?;
    println!(rt; "order{}", Numbers(&order))?;
    for signal in 0..editor.signals() {
        show_signal(rt, editor, signal)?;
    }
    Ok(())
}

// A signal that is neither driven nor marked prints nothing.
fn show_signal<S: Store>(rt: &HostRuntime, editor: &Editor<S>, signal: u32) -> io::Result<()> {
    let kind = editor.kind(signal).unwrap_or(Kind::Absent);
    let output = editor.output_mark(signal).unwrap_or(false);
    if kind == Kind::Absent && !output {
        return Ok(());
    }
    println!(rt;
        "signal {signal} {kind} {}{}",
        u32::from(output),
        Driver { editor, signal }
    )
}

// What drives a signal: a gate's table or a latch's start, and the signals that the pins are on.
#[derive_where(Clone, Copy)]
struct Driver<'a, S: Store> {
    editor: &'a Editor<S>,
    signal: u32,
}

impl<S: Store> fmt::Display for Driver<'_, S> {
    fn fmt<W: fmt::Write>(&self, f: &mut fmt::Formatter<W>) -> fmt::Result {
        if let Some(table) = self.editor.table(self.signal) {
            write!(f, " table {} pins", table.bits())?;
        }
        if let Some(start) = self.editor.start(self.signal) {
            write!(f, " start {start} pin")?;
        }
        if let Some(pins) = self.editor.pins(self.signal) {
            write!(f, "{}", Numbers(pins.as_slice()))?;
        }
        Ok(())
    }
}
