// A netlist is written as a file.
ghost use Rattle.std.specs.Prelude.{◌≡◌, ◌≢◌, ℕ, ◌<◌, ◌≤◌, ◌+◌, ◌++◌, ◌*◌, [], ◌∷◌, List, codes, length, drop, map, filter, take, IfOk, OnOk, MatchBool};
ghost use Rattle.words.specs.Meaning.{levels as levels_of};
ghost use Rattle.netlist.specs.Netlist.{driver_of};
ghost use Rattle.names.specs.Names.{Apart};
ghost use Rattle.board.specs.Standing.{Fitting};
ghost use Rattle.blif.specs.Description.{name_of};
ghost use Rattle.blif.specs.Written.{listing as listing_lem, latch_statement, gate_statement, spelled_line, spelled_names};
ghost use Rattle.blif_io.specs.Taking.{met};
ghost use Rattle.blif_io.specs.Session.{HasNameless};
ghost use Rattle.editor.specs.Steps.{InOrder};
ghost use Rattle.blif.specs.Returning.{ReadsBack, OrdersGates, SameAgain};
ghost use Rattle.blif.specs.Promises.{netlist_in, order_in, BarsWrite, Barred, WritesText, text_of, Writes};
ghost use Rattle.blif_io.specs.Writing.{spelled_statements, latches_below, gates_along, lists, listed_below, keyword_of, listing_of, bar_of, HasRoom, Puts};

use crate::calls::Listing;
use crate::spell::{name_bytes, push_cover, push_line, push_signals};
use blif::WriteFault;
use editor::{Editor, Kind};
use names::NameTable;
use std::alloc::{AllocError, Global};
use words::Store;

// ---- what bars a write

// Whether a signal whose number is not below this one is driven.
fn any_nameless<S: Store>(editor: &Editor<S>, named: usize) -> bool
    ensures { HasNameless (netlist_in editor.now) named result }
{
    for signal in 0..editor.signals() {
        match editor.kind(signal) {
            Some(Kind::Absent) | None => {}
            Some(_) => {
                if signal as usize >= named {
                    return true;
                }
            }
        }
    }
    false
}

// Whether a write may be made, as far as its text does not decide it.
fn may_write<S: Store>(editor: &Editor<S>, names: &NameTable) -> Result<(), WriteFault>
    ensures bars { (text : List ℕ) (room : ℕ)
        → Barred (BarsWrite editor.now.signals (levels_of editor.now.words) (netlist_in editor.now) (met names.now)
        text room) (bar_of result) }
    ensures order { InOrder editor.now.signals editor.now.words }
    ensures apart { OnOk result (Apart names.now.signals) }
{
    if editor.signals() == 0 {
        return Err(WriteFault::NoEditor);
    }
    if editor.batch_open() {
        return Err(WriteFault::BatchOpen);
    }
    if any_nameless(editor, names.len()) {
        return Err(WriteFault::Nameless);
    }
    Ok(())
}

// ---- inputs and outputs

// Whether a line of inputs or of outputs lists a signal.
fn is_listed<S: Store>(editor: &Editor<S>, listing: Listing, signal: u32) -> bool
    requires { signal < editor.now.signals }
    ensures { result ≡ lists listing (netlist_in editor.now) signal }
{
    match listing {
        Listing::Inputs => matches!(editor.kind(signal), Some(Kind::Input)),
        Listing::Outputs => editor.output_mark(signal).unwrap_or(false),
    }
}

fn any_listed<S: Store>(editor: &Editor<S>, listing: Listing) -> bool
    ensures { MatchBool result
        (listed_below listing (netlist_in editor.now) editor.now.signals ≢ [])
        (listed_below listing (netlist_in editor.now) editor.now.signals ≡ []) }
{
    for signal in 0..editor.signals() {
        if is_listed(editor, listing, signal) {
            return true;
        }
    }
    false
}

// The names that a line of inputs or of outputs lists, each behind a blank.
fn push_listed<S: Store>(
    out: &mut Vec<u8>,
    editor: &Editor<S>,
    names: &NameTable,
    listing: Listing,
) -> Result<(), AllocError>
    ensures { OnOk result (out.new.items ≡ out.old.items
        ++ spelled_names (map (name_of names.now.signals) (listed_below listing (netlist_in editor.now) editor.now.signals))) }
{
    for signal in 0..editor.signals() {
        if is_listed(editor, listing, signal) {
            push_signals(out, names, &[signal])?;
        }
    }
    Ok(())
}

fn keyword(listing: Listing) -> &'static [u8]
    ensures { result.now ≡ keyword_of listing }
{
    match listing {
        Listing::Inputs => b".inputs".as_slice(),
        Listing::Outputs => b".outputs".as_slice(),
    }
}

// A line of inputs or of outputs, if there are any.
fn push_listing<S: Store>(
    out: &mut Vec<u8>,
    editor: &Editor<S>,
    names: &NameTable,
    listing: Listing,
) -> Result<(), AllocError>
    ensures { OnOk result (out.new.items ≡ out.old.items
        ++ spelled_statements (listing_lem (listing_of listing)
        (map (name_of names.now.signals) (listed_below listing (netlist_in editor.now) editor.now.signals)))) }
{
    if any_listed(editor, listing) {
        out.extend_from_slice(keyword(listing))?;
        push_listed(out, editor, names, listing)?;
        out.push(b'\n')?;
    }
    Ok(())
}

// ---- latches

// A start value is one digit.
fn start_digit(start: u32) -> u8
    requires { start ≤ 3 }
    ensures { result ≡ 48 + start }
{
    b'0' + start as u8
}

fn push_latch_line(
    out: &mut Vec<u8>,
    names: &NameTable,
    nets: &[u32],
    signal: u32,
    start: u32,
) -> Result<(), AllocError>
    requires { start ≤ 3 }
    ensures { OnOk result (out.new.items ≡ out.old.items
        ++ spelled_line (codes ".latch" ∷ (map (name_of names.now.signals) nets.now
        ++ name_of names.now.signals signal ∷ ((48 + start) ∷ []) ∷ []))) }
{
    out.extend_from_slice(b".latch")?;
    push_signals(out, names, nets)?;
    push_signals(out, names, &[signal])?;
    out.push(b' ')?;
    out.push(start_digit(start))?;
    out.push(b'\n')?;
    Ok(())
}

// The line of a latch, and nothing of any other signal.
fn push_latch<S: Store>(
    out: &mut Vec<u8>,
    editor: &Editor<S>,
    names: &NameTable,
    signal: u32,
) -> Result<(), AllocError>
    requires below { signal < editor.now.signals }
    requires fits { Fitting (driver_of (netlist_in editor.now) signal) }
    ensures { OnOk result (out.new.items ≡ out.old.items
        ++ spelled_statements (latch_statement names.now.signals signal (driver_of (netlist_in editor.now) signal))) }
{
    let Some(start) = editor.start(signal) else {
        return Ok(());
    };
    match editor.pins(signal) {
        Some(nets) => push_latch_line(out, names, nets.as_slice(), signal, start),
        None => Ok(()),
    }
}

fn push_latches<S: Store>(
    out: &mut Vec<u8>,
    editor: &Editor<S>,
    names: &NameTable,
) -> Result<(), AllocError>
    ensures { OnOk result (out.new.items ≡ out.old.items
        ++ spelled_statements (latches_below names.now.signals (netlist_in editor.now) editor.now.signals)) }
{
    for signal in 0..editor.signals() {
        push_latch(out, editor, names, signal)?;
    }
    Ok(())
}

// ---- gates

fn push_gate_line(
    out: &mut Vec<u8>,
    names: &NameTable,
    nets: &[u32],
    signal: u32,
) -> Result<(), AllocError>
    ensures { OnOk result (out.new.items ≡ out.old.items
        ++ spelled_line (codes ".names" ∷ (map (name_of names.now.signals) nets.now
        ++ name_of names.now.signals signal ∷ []))) }
{
    out.extend_from_slice(b".names")?;
    push_signals(out, names, nets)?;
    push_signals(out, names, &[signal])?;
    out.push(b'\n')?;
    Ok(())
}

// The lines of a gate, and nothing of any other signal.
fn push_gate<S: Store>(
    out: &mut Vec<u8>,
    editor: &Editor<S>,
    names: &NameTable,
    signal: u32,
) -> Result<(), AllocError>
    requires { signal < editor.now.signals }
    ensures { OnOk result (out.new.items ≡ out.old.items
        ++ spelled_statements (gate_statement names.now.signals signal (driver_of (netlist_in editor.now) signal))) }
{
    let Some(table) = editor.table(signal) else {
        return Ok(());
    };
    if let Some(nets) = editor.pins(signal) {
        push_gate_line(out, names, nets.as_slice(), signal)?;
        push_cover(out, table)?;
    }
    Ok(())
}

fn push_gates<S: Store>(
    out: &mut Vec<u8>,
    editor: &Editor<S>,
    names: &NameTable,
) -> Result<(), AllocError>
    ensures { OnOk result (out.new.items ≡ out.old.items
        ++ spelled_statements (gates_along names.now.signals (netlist_in editor.now) (order_in editor.now))) }
{
    for place in 0..editor.signals() {
        if let Some(signal) = editor.signal_at(place) {
            push_gate(out, editor, names, signal)?;
        }
    }
    Ok(())
}

// ---- the file

fn file_text<S: Store>(
    heap: Global,
    editor: &Editor<S>,
    names: &NameTable,
) -> Result<Vec<u8>, AllocError>
    ensures { IfOk result (λ text. text.items ≡ text_of editor.now (met names.now)) }
{
    let mut out = Vec::new(heap);
    push_line(&mut out, b".model", &[names.model()])?;
    push_listing(&mut out, editor, names, Listing::Inputs)?;
    push_listing(&mut out, editor, names, Listing::Outputs)?;
    push_latches(&mut out, editor, names)?;
    push_gates(&mut out, editor, names)?;
    push_line(&mut out, b".end", &[])?;
    Ok(out)
}

// A text at the front of a buffer; the bytes behind it stay, and all of them where it has no room.
fn put_text(buffer: &mut [u8], text: &[u8]) -> Result<usize, WriteFault>
    ensures { Puts text.now buffer.old buffer.new result }
{
    if buffer.len() < text.len() {
        return Err(WriteFault::Short);
    }
    buffer[..text.len()].copy_from_slice(text);
    Ok(text.len())
}

// How many bytes a buffer needs, so that the file of any netlist of so many signals has room: 467,006 for 1,024 signals.
pub fn room_for(signals: u32) -> usize
    ensures value { result ≡ 456 * signals + 62 }
    ensures fits { HasRoom signals result }
{
    456 * signals as usize + 62
}

// Writes an editor's netlist as a file to the front of a buffer.
pub fn write<S: Store>(
    heap: Global,
    editor: &Editor<S>,
    names: &NameTable,
    buffer: &mut [u8],
) -> Result<usize, WriteFault>
    ensures writes { Writes editor.now (met names.now) buffer.old buffer.new result }
    ensures reads_back { ReadsBack editor.now (met names.now) buffer.new result }
    ensures orders_gates { OrdersGates (met names.now) buffer.new result }
    ensures same_again { SameAgain editor.now (met names.now) buffer.new result }
{
    // before the text is made, so that want of memory hides none of them
    if let Err(fault) = may_write(editor, names) {
        return Err(fault);
    }
    let Ok(text) = file_text(heap, editor, names) else {
        return Err(WriteFault::Memory);
    };
    put_text(buffer, text.as_slice())
}
