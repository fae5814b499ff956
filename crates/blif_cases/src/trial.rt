// A text read by an editor over a store, written, read back and written again.
use crate::compare::{same_editors, same_names, same_netlist};
use crate::difference::Difference;
use crate::plain::Netlist;
use crate::plain_reader::{Outcome, Source, read_plain};
use crate::side::Side;
use crate::stop::{Stop, ensure};
use crate::told::{Told, tell};
use blif_io::FileFault;
use editor::Editor;
use names::NameTable;
use std::alloc::Global;
use words::Store;

// What was seen of a text over one store: the count of its read, and what was written of it.
#[derive(Drop)]
pub struct Seen {
    pub count: u64,
    pub written: Vec<u8>,
}

// Whether a fault is the one that is owed.
fn is_owed(fault: FileFault, names: &NameTable, owed: &Told) -> bool {
    tell(fault, names).is_some_and(|fault| fault.is(owed))
}

// A refused read leaves an editor as one that read nothing.
fn check_refused<S: Store>(
    editor: &Editor<S>,
    untouched: &Editor<S>,
    fault: FileFault,
) -> Result<(), Stop<Difference>> {
    ensure(same_editors(editor, untouched), Difference::Changed)?;
    ensure(fault != FileFault::Memory, Difference::NoMemory)
}

// A written text describes the netlist, and has each gate below those that feed it.
fn check_written(
    heap: Global,
    text: &[u8],
    signals: u32,
    netlist: &Netlist,
) -> Result<(), Stop<Difference>> {
    let limit = text.len();
    let source = Source {
        text,
        limit,
        signals,
    };
    let plain = read_plain(heap, source)?;
    ensure(plain.reply.is_ok(), Difference::Reply)?;
    ensure(plain.netlist.is_by_name(netlist), Difference::Text)?;
    ensure(plain.netlist.is_fed_from_above(), Difference::Fed)
}

// What an editor has read is written, and again the same; a new one with new names reads it back, and writes it in the order of its own numbers.
fn check_accepted<S: Store>(
    first: &Side<S>,
    second: &mut Side<S>,
    netlist: &Netlist,
    buffer: &mut [u8],
) -> Result<Vec<u8>, Stop<Difference>> {
    let written = first.write(buffer)?;
    ensure(first.write(buffer)? == written, Difference::Text)?;
    let signals = first.desk.editor().signals();
    check_written(first.heap, &written, signals, netlist)?;
    second.accept(&written, netlist)?;
    let again = second.write(buffer)?;
    check_written(first.heap, &again, signals, netlist)?;
    Ok(written)
}

// The first editor reads it, the second what the first has written.
fn try_sides<S: Store>(
    first: &mut Side<S>,
    second: &mut Side<S>,
    source: Source,
    plain: &Outcome,
    buffer: &mut [u8],
) -> Result<Seen, Stop<Difference>> {
    let heap = first.heap;
    let reply = first.read(source.text, source.limit)?;
    let editor = first.desk.editor();
    if let Err(fault) = reply {
        check_refused(editor, second.desk.editor(), fault)?;
    }
    ensure(same_names(&first.names, &plain.netlist), Difference::Names)?;
    match (reply, &plain.reply) {
        (Ok(count), Ok(())) => {
            ensure(editor.levels() == 0, Difference::Netlist)?;
            ensure(
                same_netlist(editor, &first.names, &plain.netlist),
                Difference::Netlist,
            )?;
            let written = check_accepted(first, second, &plain.netlist, buffer)?;
            Ok(Seen { count, written })
        }
        (Err(fault), Err(owed)) => {
            ensure(is_owed(fault, &first.names, owed), Difference::Reply)?;
            Ok(Seen {
                count: 0,
                written: Vec::new(heap),
            })
        }
        _ => Err(Stop::Told(Difference::Reply)),
    }
}

// A text on two new editors over stores of one kind.
pub fn try_stores<S: Store + Drop>(
    heap: Global,
    first: S,
    second: S,
    source: Source,
    plain: &Outcome,
    buffer: &mut [u8],
) -> Result<Seen, Stop<Difference>> {
    let names = NameTable::new(heap)?;
    let other_names = NameTable::new(heap)?;
    let mut first = Side::new(heap, first, source.signals, names);
    let mut second = Side::new(heap, second, source.signals, other_names);
    let seen = try_sides(&mut first, &mut second, source, plain, buffer);
    first.close();
    second.close();
    seen
}
