// The calls that the lines of a file make.
ghost use Rattle.std.specs.Prelude.{◌≡◌, ◌≤◌, ◌<◌, ◌^◌, ℕ, [], ◌∷◌, ◌*◌, length, map, replicate, IfOk, Result, slice_index, slice_index_or};
ghost use Rattle.names.specs.Names.{spellings};
ghost use Rattle.netlist.specs.declared.edit.Edit.TheVariants.{Input, Output, Gate, Latch};
ghost use Rattle.netlist.specs.declared.edit.Refusal.{Refusal};
ghost use Rattle.editor.specs.declared.call.Call.TheVariants.{Make};
ghost use Rattle.desk.specs.Plays.{Plays as PlaysCall};
ghost use Rattle.blif.specs.Calls.{number_of, edit_of};
ghost use Rattle.blif.specs.Leaf.{saying};
ghost use Rattle.blif.specs.File.{Point, behind};
ghost use Rattle.blif_io.specs.Taking.{met, Stands, Replied, Uncovered, Plays, Takes, listed, claims_now, Shaped};

use crate::place::{Before, OpenGate, Place, Refused, Step};
use blif::{EditorError, FileFault, Form};
use desk::Desk;
use names::NameTable;
use netlist::Edit;
use table::Cover;
use text::Word;
use words::Store;

// What the names of a line become.
#[derive(Clone, Copy)]
pub(crate) enum Listing {
    Inputs,
    Outputs,
}

pub(crate) fn number(names: &NameTable, word: &Word) -> u32
    ensures { result ≡ number_of names.now.signals word.now.bytes.now }
{
    names.find(word.bytes).unwrap_or(0)
}

fn make<S: Store>(desk: &mut Desk<S>, edit: Edit, flags: &mut [u8; 1024]) -> Result<u32, Refused>
    ensures plays { (reply : Result ℕ Refusal) × PlaysCall desk.old (Make edit) desk.new reply
        × Replied edit reply result }
    ensures clean { flags.new ≡ replicate 1024 0 }
{
    match desk.make(edit, flags) {
        Ok(count) => Ok(count),
        Err(refusal) => Err(Refused {
            refusal,
            signal: edit.signal(),
        }),
    }
}

fn listed_edit(listing: Listing, signal: u32) -> Edit
    ensures { result ≡ listed listing signal }
{
    match listing {
        Listing::Inputs => Edit::Input { signal },
        Listing::Outputs => Edit::Output { signal, mark: 1 },
    }
}

// The names of a line, one after the other.
fn make_listed<S: Store>(
    desk: &mut Desk<S>,
    names: &NameTable,
    listing: Listing,
    words: &[Word],
    flags: &mut [u8; 1024],
) -> Result<u64, Refused>
    requires { length words.now < 2 ^ 32 }
    ensures plays { Plays desk.old (map (λ x. listed listing (number_of names.now.signals x)) (spellings words.now)) desk.new result }
    ensures small { IfOk result (λ count. count ≤ 4294967295 * length words.now) }
    ensures clean { flags.old ≡ replicate 1024 0 → flags.new ≡ replicate 1024 0 }
{
    let mut total: u64 = 0;
    for word in words {
        let edit = listed_edit(listing, number(names, word));
        match make(desk, edit, flags) {
            Ok(count) => total += u64::from(count),
            Err(refused) => return Err(refused),
        }
    }
    Ok(total)
}

// Its pin is on the first signal that its line names, and it drives the second.
#[tactic(auto, using(crate::proofs::Opening::latch_is))]
fn latch_edit(names: &NameTable, words: &[Word], start: u32) -> Edit
    requires { 2 ≤ length words.now }
    ensures { result ≡ Latch
        (number_of names.now.signals (slice_index_or (spellings words.now) 1 []))
        (number_of names.now.signals (slice_index_or (spellings words.now) 0 [])) start }
{
    Edit::Latch {
        signal: number(names, &words[1]),
        net: number(names, &words[0]),
        start,
    }
}

fn make_latch<S: Store>(
    desk: &mut Desk<S>,
    names: &NameTable,
    words: &[Word],
    start: u32,
    flags: &mut [u8; 1024],
) -> Result<u64, Refused>
    requires { 2 ≤ length words.now }
    ensures plays { Plays desk.old (Latch
        (number_of names.now.signals (slice_index_or (spellings words.now) 1 []))
        (number_of names.now.signals (slice_index_or (spellings words.now) 0 [])) start ∷ []) desk.new result }
    ensures small { IfOk result (λ count. count ≤ 4294967295) }
    ensures clean { flags.old ≡ replicate 1024 0 → flags.new ≡ replicate 1024 0 }
{
    match make(desk, latch_edit(names, words, start), flags) {
        Ok(count) => Ok(u64::from(count)),
        Err(refused) => Err(refused),
    }
}

// The calls that a line makes by itself: a gate is added behind its cover.
pub(crate) fn make_form<S: Store>(
    desk: &mut Desk<S>,
    names: &NameTable,
    form: Form,
    words: &[Word],
    flags: &mut [u8; 1024],
) -> Result<u64, Refused>
    requires few { length words.now < 2 ^ 32 }
    requires shaped { Shaped form (length words.now) }
    ensures plays { Plays desk.old (map (edit_of names.now.signals) (claims_now (saying form (spellings words.now)))) desk.new result }
    ensures small { IfOk result (λ count. count ≤ 4294967295 * length words.now) }
    ensures clean { flags.old ≡ replicate 1024 0 → flags.new ≡ replicate 1024 0 }
{
    match form {
        Form::Inputs => make_listed(desk, names, Listing::Inputs, words, flags),
        Form::Outputs => make_listed(desk, names, Listing::Outputs, words, flags),
        Form::Latch { start } => make_latch(desk, names, words, start, flags),
        Form::Model | Form::Names | Form::End => Ok(0),
    }
}

// The number of the name at a place among these, or 0 where there is none.
fn net(names: &NameTable, words: &[Word], at: usize) -> u32
    ensures { result ≡ slice_index (map (number_of names.now.signals) (spellings words.now)) at }
{
    match words.get(at) {
        Some(word) => number(names, word),
        None => 0,
    }
}

// A gate whose cover is to come: up to four pins, and the gate behind them.
pub(crate) fn open_gate(names: &NameTable, words: &[Word], line: usize) -> OpenGate
    requires some { 1 ≤ length words.now }
    requires few { length words.now ≤ 5 }
    ensures { Stands names.now.signals (Place.Covering result) (behind line (saying Form.Names (spellings words.now))) }
{
    let count = words.len() - 1;
    let pins = &words[..count];
    let nets = [
        net(names, pins, 0),
        net(names, pins, 1),
        net(names, pins, 2),
        net(names, pins, 3),
    ];
    match Cover::new(count as u32) {
        Ok(cover) => OpenGate {
            line,
            signal: number(names, &words[count]),
            nets,
            cover,
        },
        Err(_) => unreachable!(),
    }
}

// A gate is added behind its cover.
pub(crate) fn close_gate<S: Store>(
    desk: &mut Desk<S>,
    names: &NameTable,
    gate: OpenGate,
    flags: &mut [u8; 1024],
) -> Result<Step, FileFault>
    ensures takes { (m : ℕ) (p : Point) → Stands names.now.signals (Place.Covering gate) p
        → Takes m desk.old (met names.now) p [] Uncovered desk.new names.now result }
    ensures place { IfOk result (λ step. step.place ≡ Place.At Before.Statements) }
    ensures small { IfOk result (λ step. step.count ≤ 4294967295) }
    ensures clean { flags.new ≡ replicate 1024 0 }
{
    let table = gate.cover.table();
    let edit = Edit::Gate {
        signal: gate.signal,
        pins: table.pins(),
        nets: gate.nets,
        table: table.bits(),
    };
    match make(desk, edit, flags) {
        Ok(count) => Ok(Step {
            place: Place::At(Before::Statements),
            count: u64::from(count),
        }),
        Err(refused) => Err(FileFault::Editor(EditorError {
            refusal: refused.refusal,
            line: gate.line,
            signal: Some(refused.signal),
        })),
    }
}
