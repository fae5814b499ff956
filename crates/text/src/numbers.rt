// Decimal numbers.
ghost use Rattle.std.specs.Prelude.{◌≡◌, ◌≤◌, true, false, length, MatchResult};
ghost use Rattle.std.specs.List.{list_all};
ghost use Rattle.text.specs.Decimal.{is_digit_lem, is_numeral_lem, value};
ghost use Rattle.text.specs.Numbers.{number_fault};

use std::error::Error;
use std::fmt;

// The most digits that a number may have.
const MOST_DIGITS: usize = 5;

#[derive(Clone, Copy, PartialEq, Eq, Debug)]
pub enum NumberFault {
    // the word is no number of 1 to 5 decimal digits
    Malformed = 35,
}

impl NumberFault {
    // A host and a report are told a fault by number.
    pub fn number(self) -> u32
        ensures { result ≡ number_fault self }
    {
        self as u32
    }
}

impl fmt::Display for NumberFault {
    ghost use Rattle.std.specs.Prelude.{Some};
    ghost use Rattle.text.specs.Printed.{number_fault_text};

    ghost output = { λ f. Some (number_fault_text f) };

    fn fmt<W: fmt::Write>(&self, f: &mut fmt::Formatter<W>) -> fmt::Result {
        write!(f, "fault {}", self.number())
    }
}

impl Error for NumberFault {}

fn all_digits(bytes: &[u8]) -> bool
    ensures { result ≡ list_all is_digit_lem bytes.now }
{
    bytes.iter().all(|b| b.is_ascii_digit())
}

fn is_numeral(bytes: &[u8]) -> bool
    ensures { result ≡ is_numeral_lem bytes.now }
{
    !bytes.is_empty() && bytes.len() <= MOST_DIGITS && all_digits(bytes)
}

// A loop, since a fold's closure would have to bear any sum: that ten times it fits is known of the digits so far alone.
fn value_of(digits: &[u8]) -> u32
    requires digits { list_all is_digit_lem digits.now ≡ true }
    requires few { length digits.now ≤ 5 }
    ensures { result ≡ value digits.now }
{
    let mut n = 0;
    for d in digits {
        n = n * 10 + u32::from(*d - b'0');
    }
    n
}

// The number that a word of 1 to 5 decimal digits writes; leading zeros serve. Any other word is malformed (35). A store
// command's number, `store_script::decimal`, may have any number of digits and has to be below 2^32: here the digits are
// counted, and every number of so few fits.
pub fn read_number(word: &[u8]) -> Result<u32, NumberFault>
    ensures { MatchResult result
        (λ n. (is_numeral_lem word.now ≡ true) × (n ≡ value word.now))
        (λ fault. (number_fault fault ≡ 35) × (is_numeral_lem word.now ≡ false)) }
{
    if !is_numeral(word) {
        return Err(NumberFault::Malformed);
    }
    Ok(value_of(word))
}
