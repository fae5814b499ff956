// A file, line by line.
ghost use Rattle.std.specs.Prelude.{◌≡◌, ℕ, ◌+◌, ◌*◌, ◌^◌, ◌<◌, ◌≤◌, [], ◌∷◌, List, true, false, None, Some, IfOk, length, map, min, replicate, Ok, Err, Result};
ghost use Rattle.text.specs.Rules.{file_rules};
ghost use Rattle.names.specs.Names.{spellings};
ghost use Rattle.table.specs.Line.{Line};
ghost use Rattle.blif.specs.Form.{nothing};
ghost use Rattle.blif.specs.Rows.{Row, FaultOf, words_of, dotted, begun_with, all_rows};
ghost use Rattle.blif.specs.File.{Point, at};
ghost use Rattle.blif_io.specs.Taking.{met, viewed, Stands, Takes, Anything, Uncovered};
ghost use Rattle.blif_io.specs.Reader.{ReadsRows, Finishes};
ghost use Rattle.desk.specs.State.{State};
ghost use Rattle.names.specs.declared.table.NameTable.{NameTable};

use crate::calls::close_gate;
use crate::covers::take_cover;
use crate::lines::{form_error, take_line};
use crate::place::{Before, OpenGate, Place, Step};
use blif::{FileFault, FormFault};
use desk::Desk;
use names::NameTable;
use std::alloc::Global;
use text::{File, Line, LineFault, ReadFault, Reader};
use words::Store;

// Whether the first byte of a line behind its blanks is a dot.
fn is_dotted(line: &Line) -> bool
    ensures { result ≡ dotted (words_of (viewed line.now)) }
{
    match line.words.as_slice() {
        [first, ..] => match first.bytes {
            [b'.', ..] => true,
            _ => false,
        },
        [] => false,
    }
}

// A line of the cover of an open gate.
fn take_cover_line(gate: OpenGate, line: &Line) -> Result<Step, FileFault>
    ensures plain { (m : ℕ) (d : State) (names : NameTable) (p : Point)
        → Stands names.signals (Place.Covering gate) p → dotted (words_of (viewed line.now)) ≡ false
        → Takes m d (met names) p (viewed line.now ∷ []) Anything d names result }
    ensures small { IfOk result (λ step. step.count ≡ 0) }
{
    match take_cover(gate, line.words.as_slice()) {
        Ok(gate) => Ok(Step {
            place: Place::Covering(gate),
            count: 0,
        }),
        Err(fault) => Err(form_error(fault, line.number)),
    }
}

// A line that begins with a dot, behind an open gate: the gate is added first.
fn take_behind_gate<S: Store>(
    desk: &mut Desk<S>,
    names: &mut NameTable,
    gate: OpenGate,
    line: &Line,
    flags: &mut [u8; 1024],
) -> Result<Step, FileFault>
    requires { length line.now.words.items < 2 ^ 32 }
    ensures takes { (p : Point) → Stands names.old.signals (Place.Covering gate) p
        → dotted (words_of (viewed line.now)) ≡ true
        → Takes desk.old.editor.signals desk.old (met names.old) p (viewed line.now ∷ []) Anything desk.new names.new result }
    ensures small { IfOk result (λ step. step.count ≤ 4294967295 * length line.now.words.items) }
    ensures clean { flags.old ≡ replicate 1024 0 → flags.new ≡ replicate 1024 0 }
{
    let closed = match close_gate(desk, names, gate, flags) {
        Ok(step) => step,
        Err(fault) => return Err(fault),
    };
    match take_line(desk, names, Before::Statements, line, flags) {
        Ok(step) => Ok(Step {
            place: step.place,
            count: closed.count + step.count,
        }),
        Err(fault) => Err(fault),
    }
}

fn take_next<S: Store>(
    desk: &mut Desk<S>,
    names: &mut NameTable,
    place: Place,
    line: &Line,
    flags: &mut [u8; 1024],
) -> Result<Step, FileFault>
    requires { length line.now.words.items < 2 ^ 32 }
    ensures takes { (p : Point) → Stands names.old.signals place p
        → Takes desk.old.editor.signals desk.old (met names.old) p (viewed line.now ∷ []) Anything desk.new names.new result }
    ensures small { IfOk result (λ step. step.count ≤ 4294967295 * length line.now.words.items) }
    ensures clean { flags.old ≡ replicate 1024 0 → flags.new ≡ replicate 1024 0 }
{
    match place {
        Place::At(before) => take_line(desk, names, before, line, flags),
        Place::Covering(gate) => {
            if is_dotted(line) {
                take_behind_gate(desk, names, gate, line, flags)
            } else {
                take_cover_line(gate, line)
            }
        }
    }
}

// Behind the last row: an open gate is added, and `.end` has been there.
fn finish<S: Store>(
    desk: &mut Desk<S>,
    names: &NameTable,
    place: Place,
    flags: &mut [u8; 1024],
) -> Result<u64, FileFault>
    ensures ends { (m : ℕ) (p : Point) → Stands names.now.signals place p
        → Finishes m desk.old (met names.now) p desk.new result }
    ensures clean { flags.old ≡ replicate 1024 0 → flags.new ≡ replicate 1024 0 }
{
    match place {
        Place::At(before) => match before {
            Before::Ended => Ok(0),
            Before::Nothing | Before::Statements => Err(form_error(FormFault::Misplaced, 0)),
        },
        Place::Covering(gate) => match close_gate(desk, names, gate, flags) {
            Ok(_) => Err(form_error(FormFault::Misplaced, 0)),
            Err(fault) => Err(fault),
        },
    }
}

// Whether a faulty line begins with a dot.
fn fault_is_dotted(fault: LineFault) -> bool
    ensures { result ≡ dotted (begun_with fault.first_byte) }
{
    matches!(fault.first_byte, Some(b'.'))
}

// What a line ends the reading with whose bytes or words are faulty. One that begins with a dot stands behind
// an open gate, which is added first.
fn stop_at<S: Store>(
    desk: &mut Desk<S>,
    names: &NameTable,
    place: Place,
    fault: LineFault,
    flags: &mut [u8; 1024],
) -> FileFault
    ensures takes { (p : Point) (r : Row) → Stands names.now.signals place p → FaultOf r fault
        → Takes desk.old.editor.signals desk.old (met names.now) p (r ∷ []) Anything desk.new names.now (Err result) }
    ensures clean { flags.old ≡ replicate 1024 0 → flags.new ≡ replicate 1024 0 }
{
    match place {
        Place::At(_) => FileFault::Text(fault),
        Place::Covering(gate) => {
            if fault_is_dotted(fault) {
                match close_gate(desk, names, gate, flags) {
                    Ok(_) => FileFault::Text(fault),
                    Err(refused) => refused,
                }
            } else {
                FileFault::Text(fault)
            }
        }
    }
}

// All lines of a file, in an open batch.
pub(crate) fn take_lines<S: Store>(
    heap: Global,
    desk: &mut Desk<S>,
    names: &mut NameTable,
    text: &[u8],
    limit: usize,
    flags: &mut [u8; 1024],
) -> Result<u64, FileFault>
    requires { length text.now ≤ min limit 1048576 }
    ensures reads { ReadsRows desk.old (met names.old) (all_rows file_rules text.now) desk.new (met names.new) result }
    ensures clean { flags.old ≡ replicate 1024 0 → flags.new ≡ replicate 1024 0 }
{
    let mut reader = Reader::<File>::new(text, limit);
    let mut place = Place::At(Before::Nothing);
    let mut total: u64 = 0;
    'lines: loop {
        match reader.next_line(heap) {
            Ok(Some(line)) => match take_next(desk, names, place, &line, flags) {
                Ok(step) => {
                    place = step.place;
                    total += step.count;
                }
                Err(fault) => return Err(fault),
            },
            Ok(None) => {
                return match finish(desk, names, place, flags) {
                    Ok(_) => Ok(total),
                    Err(fault) => Err(fault),
                };
            }
            Err(ReadFault::Text(fault)) => {
                return Err(stop_at(desk, names, place, fault, flags));
            }
            Err(ReadFault::Memory) => return Err(FileFault::Memory),
        }
    }
}
