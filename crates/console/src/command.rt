// One command to a line: words parted by one blank, first its name, then decimal numbers below 2^32.
use arrayvec::ArrayVec;
use editor::Call;
use netlist::Edit;
use store_script::decimal;

// M and D of an editor, as a line says them.
#[derive(Clone, Copy)]
pub struct Shape {
    pub signals: u32,
    pub limit: u32,
}

#[derive(Clone, Copy)]
pub enum Command {
    Editor(Shape),
    Call(Call),
    Show,
}

// The most numbers that a command has.
const NUMBERS_MOST: usize = 7;

type Numbers = ArrayVec<u32, NUMBERS_MOST>;

// The numbers behind the name, or nothing where a word is no number or there are too many. Each is pushed: what `collect`
// gives up for is memory, and a word that is no number is none of that.
fn read_numbers(line: &[u8]) -> Option<Numbers> {
    let mut numbers = Numbers::new();
    for word in line.split(is_blank).skip(1) {
        numbers.try_push(decimal(word)?).ok()?;
    }
    Some(numbers)
}

fn is_blank(b: &u8) -> bool {
    *b == b' '
}

fn edit_of(name: &[u8], numbers: &[u32]) -> Option<Edit> {
    match (name, numbers) {
        (b"input", &[signal]) => Some(Edit::Input { signal }),
        (b"delete", &[signal]) => Some(Edit::Delete { signal }),
        (b"output", &[signal, mark]) => Some(Edit::Output { signal, mark }),
        (b"latch", &[signal, net, start]) => Some(Edit::Latch { signal, net, start }),
        (b"move", &[signal, pin, net]) => Some(Edit::Move { signal, pin, net }),
        (b"gate", &[signal, pins, a, b, c, d, table]) => Some(Edit::Gate {
            signal,
            pins,
            nets: [a, b, c, d],
            table,
        }),
        _ => None,
    }
}

fn call_of(name: &[u8], numbers: &[u32]) -> Option<Call> {
    match (name, numbers) {
        (b"begin", []) => Some(Call::Begin),
        (b"mark", []) => Some(Call::Mark),
        (b"keepmark", []) => Some(Call::KeepMark),
        (b"dropmark", []) => Some(Call::DropMark),
        (b"keep", []) => Some(Call::Keep),
        (b"drop", []) => Some(Call::Drop),
        _ => edit_of(name, numbers).map(Call::Make),
    }
}

fn command_of(name: &[u8], numbers: &[u32]) -> Option<Command> {
    match (name, numbers) {
        (b"editor", &[signals, limit]) => Some(Command::Editor(Shape { signals, limit })),
        (b"show", []) => Some(Command::Show),
        _ => call_of(name, numbers).map(Command::Call),
    }
}

// What a line says, or nothing where it is no command.
pub fn parse(line: &[u8]) -> Option<Command> {
    let name = line.split(is_blank).next()?;
    let numbers = read_numbers(line)?;
    command_of(name, numbers.as_slice())
}
