// A file is read in a batch of its own.
ghost use Rattle.std.specs.Prelude.{◌≡◌, ℕ, ◌<◌, ◌^◌, ◌≤◌, List, map, min, None, Ok, Err, MatchResult, replicate};
ghost use Rattle.words.specs.Meaning.{levels as levels_of};
ghost use Rattle.editor.specs.Steps.{InOrder};
ghost use Rattle.editor.specs.declared.call.Call.TheVariants.{Begin, Drop};
ghost use Rattle.desk.specs.Plays.{Plays as PlaysCall};
ghost use Rattle.blif.specs.File.{Due, Bars, refusal as refusal_lem};
ghost use Rattle.blif.specs.Returning.{Readable};
ghost use Rattle.blif_io.specs.Taking.{met};
ghost use Rattle.blif_io.specs.Session.{HasDriven, Closes};
ghost use Rattle.blif.specs.Promises.{netlist_in, ReadsText, GivesDescribed, AcceptsDescribed, netlist_at};

use crate::lines::form_error;
use crate::reader::take_lines;
use blif::{EditorError, FileFault, FormFault};
use desk::Desk;
use editor::{Editor, Kind};
use names::NameTable;
use netlist::Refusal;
use reach::clear;
use std::alloc::Global;
use text::{DEFAULT_LIMIT, LineFault, TextFault};
use words::Store;

fn any_driven<S: Store>(editor: &Editor<S>) -> bool
    ensures { HasDriven (netlist_in editor.now) result }
{
    for signal in 0..editor.signals() {
        match editor.kind(signal) {
            Some(Kind::Absent) | None => {}
            Some(_) => return true,
        }
    }
    false
}

fn barred_by(refusal: Refusal) -> FileFault
    ensures { result ≡ refusal_lem refusal 0 None }
{
    FileFault::Editor(EditorError {
        refusal,
        line: 0,
        signal: None,
    })
}

// Whether a read may begin, or what bars it.
fn may_begin<S: Store>(editor: &Editor<S>, text: &[u8], limit: usize) -> Result<(), FileFault>
    ensures bars { MatchResult result
        (λ _. Due editor.now.signals (levels_of editor.now.words) limit (netlist_in editor.now) text.now)
        (λ f. Bars editor.now.signals (levels_of editor.now.words) limit (netlist_in editor.now) text.now f) }
    ensures order { InOrder editor.now.signals editor.now.words }
{
    if editor.signals() == 0 {
        return Err(barred_by(Refusal::NoEditor));
    }
    if editor.batch_open() {
        return Err(barred_by(Refusal::BatchOpen));
    }
    if text.len() > limit {
        return Err(FileFault::Text(LineFault {
            fault: TextFault::TooLong,
            line: 0,
            first_byte: None,
        }));
    }
    if any_driven(editor) {
        return Err(form_error(FormFault::Driven, 0));
    }
    Ok(())
}

// A batch is begun where none is open.
#[tactic(auto, using(crate::proofs::Sessions::begins))]
fn begin_new<S: Store>(desk: &mut Desk<S>)
    ensures { 0 < desk.old.editor.signals → levels_of desk.old.editor.words ≡ 0
        → PlaysCall desk.old Begin desk.new (Ok 0) }
{
    let _ = desk.begin();
}

// An open batch is dropped.
#[tactic(auto, using(crate::proofs::Sessions::drops))]
fn drop_open<S: Store>(desk: &mut Desk<S>)
    ensures { 0 < desk.old.editor.signals → 0 < levels_of desk.old.editor.words
        → PlaysCall desk.old Drop desk.new (Ok 0) }
{
    let _ = desk.drop_batch();
}

fn keep_open<S: Store>(desk: &mut Desk<S>) -> Result<(), FileFault>
    ensures { 0 < desk.old.editor.signals → levels_of desk.old.editor.words ≡ 1 → Closes desk.old desk.new result }
{
    let missing = desk.editor().missing();
    match desk.keep() {
        Ok(()) => Ok(()),
        Err(refusal) => {
            drop_open(desk);
            Err(FileFault::Editor(EditorError {
                refusal,
                line: 0,
                signal: missing,
            }))
        }
    }
}

// The batch of a read that may begin.
fn read_in_batch<S: Store>(
    heap: Global,
    desk: &mut Desk<S>,
    names: &mut NameTable,
    text: &[u8],
    limit: usize,
    flags: &mut [u8; 1024],
) -> Result<u64, FileFault>
    requires { Due desk.old.editor.signals (levels_of desk.old.editor.words) (min limit 1048576) (netlist_at desk.old) text.now }
    ensures reads { ReadsText (min limit 1048576) text.now desk.old (met names.old) desk.new (met names.new) result }
    ensures clean { flags.old ≡ replicate 1024 0 → flags.new ≡ replicate 1024 0 }
{
    begin_new(desk);
    match take_lines(heap, desk, names, text, limit, flags) {
        Ok(total) => match keep_open(desk) {
            Ok(()) => Ok(total),
            Err(fault) => Err(fault),
        },
        Err(fault) => {
            drop_open(desk);
            Err(fault)
        }
    }
}

// Reads a file into an editor in which no signal is driven. A limit over 1,048,576 bytes counts as 1,048,576.
pub fn read<S: Store>(
    heap: Global,
    desk: &mut Desk<S>,
    names: &mut NameTable,
    text: &[u8],
    limit: usize,
    flags: &mut [u8; 1024],
) -> Result<u64, FileFault>
    ensures exact { ReadsText (min limit 1048576) text.now desk.old (met names.old) desk.new (met names.new) result }
    ensures gives { GivesDescribed text.now desk.old (met names.old) desk.new (met names.new) result }
    ensures accepts { AcceptsDescribed (min limit 1048576) text.now desk.old (met names.old) desk.new (met names.new) result }
    ensures readable { Readable (met names.old) → Readable (met names.new) }
    ensures clean { flags.new ≡ replicate 1024 0 }
{
    clear(flags);
    // asked for what it promises: that no name stands twice
    let _count = names.len();
    if let Err(fault) = may_begin(desk.editor(), text, limit.min(DEFAULT_LIMIT)) {
        return Err(fault);
    }
    read_in_batch(heap, desk, names, text, limit, flags)
}
