// A file is read into an editor and written again.
use crate::arguments::Bounds;
use crate::outcome::Outcome;
use crate::report::{Fault, Report};
use anyhow::anyhow;
use blif_io::{read, room_for, write};
use desk::Desk;
use editor::{Editor, words_for};
use memory::Memory;
use names::NameTable;
use std::alloc::Global;
use std::io::Write;
use words::Store;

// D of the editor's store. A file is read in one batch, without marks.
const LEVELS: usize = 3;

// Writes the netlist of a text with its gates in order, or the report of its first fault. Nothing is written before either is whole.
pub fn rewrite<W: Write>(
    heap: Global,
    text: &[u8],
    bounds: Bounds,
    out: &mut W,
) -> anyhow::Result<Outcome> {
    let mut memory = Memory::new(heap, words_for(bounds.signals), LEVELS, 0)?;
    let mut desk = Desk::new(memory.log(), bounds.signals);
    let outcome = rewrite_at(heap, &mut desk, text, bounds, out);
    // a read leaves no batch open
    let _ = desk.close();
    outcome
}

fn rewrite_at<S: Store, W: Write>(
    heap: Global,
    desk: &mut Desk<S>,
    text: &[u8],
    bounds: Bounds,
    out: &mut W,
) -> anyhow::Result<Outcome> {
    let mut names = NameTable::new(heap)?;
    let mut flags = [0; 1024];
    match read(heap, desk, &mut names, text, bounds.limit, &mut flags) {
        Ok(_) => put_netlist(heap, desk.editor(), &names, out),
        Err(fault) => put_report(heap, Fault::try_from(fault)?, desk.editor(), &names, out),
    }
}

fn put_netlist<S: Store, W: Write>(
    heap: Global,
    editor: &Editor<S>,
    names: &NameTable,
    out: &mut W,
) -> anyhow::Result<Outcome> {
    let mut buffer = vec![in heap; 0u8; room_for(editor.signals())]?;
    let Ok(length) = write(heap, editor, names, &mut buffer) else {
        // the batch is kept, each signal came with a name, and the buffer has room
        return Err(anyhow!("no memory to write the netlist"));
    };
    buffer.truncate(length);
    out.write_all(&buffer)?;
    out.flush()?;
    Ok(Outcome::Done)
}

fn put_report<S: Store, W: Write>(
    heap: Global,
    fault: Fault,
    editor: &Editor<S>,
    names: &NameTable,
    out: &mut W,
) -> anyhow::Result<Outcome> {
    let report = Report {
        fault,
        names,
        shown: editor.loop_shown(),
    };
    let told = format!(in heap; "{report}")?;
    out.write_all(told.as_bytes())?;
    out.flush()?;
    Ok(Outcome::Reported)
}
