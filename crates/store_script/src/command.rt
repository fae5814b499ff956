// One command to a line: `set AT WORD`, `open`, `keep`, `drop`, `show`.
ghost use Rattle.std.specs.Prelude.{◌≡◌, ℕ, ◌+◌, ◌-◌, ◌*◌, ◌^◌, ◌==◌, ◌<◌, ◌≤◌, position, Some, MatchOption};
ghost use Rattle.store_script.specs.Commands.{Decimal, Operands, SetOperands, Spells, printed};

use std::fmt;

#[derive(Clone, Copy, PartialEq, Eq, Debug)]
pub enum Command {
    Set { at: u32, word: u32 },
    Open,
    Keep,
    Drop,
    Show,
}

impl fmt::Display for Command {
    ghost output = { λ c. Some (printed c) };

    fn fmt<W: fmt::Write>(&self, f: &mut fmt::Formatter<W>) -> fmt::Result {
        match self {
            Command::Set { at, word } => write!(f, "set {at} {word}"),
            Command::Open => write!(f, "open"),
            Command::Keep => write!(f, "keep"),
            Command::Drop => write!(f, "drop"),
            Command::Show => write!(f, "show"),
        }
    }
}

// One more digit behind those that said n, if b is a digit and the number stays below 2^32.
fn append_digit(n: u32, b: u8) -> Option<u32>
    ensures { MatchOption result (48 ≤ b → b ≤ 57 → 2 ^ 32 ≤ n * 10 + (b - 48)) (λ m. (48 ≤ b) × (b ≤ 57) × (m ≡ n * 10 + (b - 48))) }
{
    if !b.is_ascii_digit() {
        return None;
    }
    n.checked_mul(10)?.checked_add(u32::from(b - b'0'))
}

// The number that decimal digits say, if it is below 2^32. A number of a text has at most 5 digits, and is read by another function.
pub fn decimal(text: &[u8]) -> Option<u32>
    ensures { MatchOption result ((n : ℕ) → Decimal text.now n → ⊥) (λ n. Decimal text.now n) }
{
    if text.is_empty() {
        return None;
    }
    text.iter().try_fold(0, |n, b| append_digit(n, *b))
}

// Where the first blank stands.
fn blank_at(text: &[u8]) -> Option<usize>
    ensures { result ≡ position (λ b. b == 32) text.now }
{
    text.iter().position(|b| *b == b' ')
}

// The two numbers behind `set `.
fn parse_set(text: &[u8]) -> Option<Command>
    ensures { MatchOption result ((at word : ℕ) → Operands text.now at word → ⊥) (λ c. SetOperands text.now c) }
{
    let blank = blank_at(text)?;
    let at = decimal(&text[..blank])?;
    let word = decimal(&text[blank + 1..])?;
    Some(Command::Set { at, word })
}

// What a line says, or nothing where it is no command.
pub fn parse(line: &[u8]) -> Option<Command>
    ensures { MatchOption result ((c : Command) → Spells line.now c → ⊥) (λ c. Spells line.now c) }
{
    match line {
        b"open" => Some(Command::Open),
        b"keep" => Some(Command::Keep),
        b"drop" => Some(Command::Drop),
        b"show" => Some(Command::Show),
        _ => parse_set(line.strip_prefix(b"set ")?),
    }
}
