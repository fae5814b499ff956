// Lines that are no cover lines.
ghost use Rattle.std.specs.Prelude.{◌≡◌, [], ◌∷◌, ◌*◌, ◌^◌, ◌<◌, ◌≤◌, ◌+◌, List, Some, None, Err, IfOk, false, length, replicate};
ghost use Rattle.names.specs.Names.{spellings};
ghost use Rattle.blif.specs.Statement.{Name};
ghost use Rattle.blif.specs.Form.{Saying, Before as Front, placed, named_in};
ghost use Rattle.blif.specs.Leaf.{saying};
ghost use Rattle.blif.specs.Rows.{Row, words_of};
ghost use Rattle.blif.specs.File.{at, behind, form as form_lem, refusal as refusal_lem};
ghost use Rattle.blif_io.specs.Taking.{met, viewed, before_of, Stands, Takes, Anything, Admits, Shaped, of_names, WouldEnter};

use crate::calls::{make_form, open_gate};
use crate::place::{Before, Place, Refused, Step};
use blif::{EditorError, FileFault, Form, FormError, FormFault, form_of};
use desk::Desk;
use names::{NameFault, NameTable};
use text::{Line, Word};
use words::Store;

pub(crate) fn form_error(fault: FormFault, line: usize) -> FileFault
    ensures { result ≡ form_lem fault line }
{
    FileFault::Form(FormError { fault, line })
}

fn editor_error(refused: Refused, line: usize) -> FileFault
    ensures { result ≡ refusal_lem refused.refusal line (Some refused.signal) }
{
    FileFault::Editor(EditorError {
        refusal: refused.refusal,
        line,
        signal: Some(refused.signal),
    })
}

// The names of a line, in the order of its words.
fn named_words<'w, 'a>(form: Form, words: &'w [Word<'a>]) -> &'w [Word<'a>]
    requires { Shaped form (length words.now) }
    ensures { spellings result.now ≡ named_in (saying form (spellings words.now)) }
{
    match form {
        Form::Model | Form::End => &words[..0],
        Form::Inputs | Form::Outputs | Form::Names => words,
        Form::Latch { .. } => &words[..2],
    }
}

fn is_placed(before: Before, form: Form) -> bool
    ensures { (ws : List Name) → result ≡ placed (before_of before) (saying form ws) }
{
    match before {
        Before::Nothing => matches!(form, Form::Model),
        Before::Statements => !matches!(form, Form::Model),
        Before::Ended => false,
    }
}

fn place_behind(names: &NameTable, form: Form, words: &[Word], line: usize) -> Place
    requires { Shaped form (length words.now) }
    ensures { Stands names.now.signals result (behind line (saying form (spellings words.now))) }
{
    match form {
        Form::Names => Place::Covering(open_gate(names, words, line)),
        Form::End => Place::At(Before::Ended),
        _ => Place::At(Before::Statements),
    }
}

// What a line is told whose names do not enter.
fn name_error(fault: NameFault, line: usize) -> FileFault
    ensures { result ≡ of_names fault line }
{
    match fault {
        NameFault::NoRoom => form_error(FormFault::TooManyNames, line),
        NameFault::Memory => FileFault::Memory,
    }
}

// Whether names would enter. They do, and are taken back, so that a line costs no more than its words.
fn try_names(names: &mut NameTable, words: &[Word], room: u32) -> Result<(), NameFault>
    ensures tells { WouldEnter room names.old.signals (spellings words.now) result }
    ensures back { met names.new ≡ met names.old }
{
    let count = names.len();
    let reply = names.enter(words, room);
    names.truncate(count);
    reply
}

// What a line is told that stands where it may not: 36 comes before 38, and none of its names stays.
fn misplaced(names: &mut NameTable, words: &[Word], room: u32, line: usize) -> FileFault
    ensures { (b : Front) (x : Saying) → placed b x ≡ false → named_in x ≡ spellings words.now
        → Admits room (met names.old) b x (met names.new) line (Err result) }
{
    match try_names(names, words, room) {
        Ok(()) => form_error(FormFault::Misplaced, line),
        Err(fault) => name_error(fault, line),
    }
}

// The names of a line enter, if it may stand where it does and has room: 36 comes before 38.
fn admit(
    names: &mut NameTable,
    before: Before,
    form: Form,
    words: &[Word],
    room: u32,
    line: usize,
) -> Result<(), FileFault>
    requires { Shaped form (length words.now) }
    ensures { Admits room (met names.old) (before_of before) (saying form (spellings words.now)) (met names.new) line result }
{
    let named = named_words(form, words);
    if !is_placed(before, form) {
        return Err(misplaced(names, named, room, line));
    }
    match form {
        Form::Model => match names.set_model(words[0].bytes) {
            Ok(()) => Ok(()),
            Err(_) => Err(FileFault::Memory),
        },
        _ => match names.enter(named, room) {
            Ok(()) => Ok(()),
            Err(fault) => Err(name_error(fault, line)),
        },
    }
}

// A line whose first word is this.
fn take_words<S: Store>(
    desk: &mut Desk<S>,
    names: &mut NameTable,
    before: Before,
    line: usize,
    first: &Word,
    rest: &[Word],
    flags: &mut [u8; 1024],
) -> Result<Step, FileFault>
    requires { length rest.now < 2 ^ 32 }
    ensures takes { (r : Row) → r.fault ≡ None → r.line ≡ line
        → words_of r ≡ first.now.bytes.now ∷ spellings rest.now
        → Takes desk.old.editor.signals desk.old (met names.old) (at (before_of before))
        (r ∷ []) Anything desk.new names.new result }
    ensures small { IfOk result (λ step. step.count ≤ 4294967295 * length rest.now) }
    ensures clean { flags.old ≡ replicate 1024 0 → flags.new ≡ replicate 1024 0 }
{
    let form = match form_of(first.bytes, rest) {
        Ok(form) => form,
        Err(fault) => return Err(form_error(fault, line)),
    };
    let room = desk.editor().signals();
    if let Err(fault) = admit(names, before, form, rest, room, line) {
        return Err(fault);
    }
    match make_form(desk, names, form, rest, flags) {
        Ok(count) => Ok(Step {
            place: place_behind(names, form, rest, line),
            count,
        }),
        Err(refused) => Err(editor_error(refused, line)),
    }
}

pub(crate) fn take_line<S: Store>(
    desk: &mut Desk<S>,
    names: &mut NameTable,
    before: Before,
    line: &Line,
    flags: &mut [u8; 1024],
) -> Result<Step, FileFault>
    requires { length line.now.words.items < 2 ^ 32 }
    ensures takes { Takes desk.old.editor.signals desk.old (met names.old) (at (before_of before))
        (viewed line.now ∷ []) Anything desk.new names.new result }
    ensures small { IfOk result (λ step. step.count + 4294967295 ≤ 4294967295 * length line.now.words.items) }
    ensures clean { flags.old ≡ replicate 1024 0 → flags.new ≡ replicate 1024 0 }
{
    match line.words.as_slice() {
        [first, rest @ ..] => take_words(desk, names, before, line.number, first, rest, flags),
        [] => Err(form_error(FormFault::UnknownWord, line.number)),
    }
}
