ghost use Rattle.std.specs.Prelude.{◌≡◌, ℕ, ◌^◌, ◌<◌, ◌≤◌, ◌⊎◌, List, [], length, IfOk, Some, None, Decides, MatchBool, MatchResult, OnErr, ◌≢◌, ◌==◌};
ghost use Rattle.table.specs.Bit.{bit};
ghost use Rattle.table.specs.Cover.{Read, Takes};
ghost use Rattle.table.specs.Fault.{table_number};
ghost use Rattle.table.specs.Row.{Ending, IsOne, Joins, Parses, Stands};
ghost use Rattle.table.specs.Line.{Characters, Covers, Gives, Line};
ghost use Rattle.table.specs.Reading.{line_of};

use crate::fault::{CoverFault, TableFault};
use crate::shape::{Cover, CoverLine, Output, Table};
use crate::truth::rows;

/// Whether a plane has a character for each pin, and each is 0, 1 or -.
fn formed(plane: &[u8], pins: u32) -> bool
    ensures { Decides result ((length plane.now ≡ pins) × Characters plane.now) }
{
    plane.len() == pins as usize && plane.iter().all(|b| matches!(*b as char, '0' | '1' | '-'))
}

/// Whether a plane of at most four characters covers a minterm.
fn covers(plane: &[u8], minterm: u32) -> bool
    requires { length plane.now ≤ 4 }
    ensures { Decides result (Covers plane.now minterm) }
{
    // docs/DECISIONS.md has this loop's form, over the bytes with their index and each byte as a `char`: a pin is named by its
    // character's place, and a character that is none of the three covers nothing
    for (i, b) in plane.iter().enumerate() {
        let carried = (minterm >> i) % 2;
        let agrees = match *b as char {
            '0' => carried == 0,
            '1' => carried == 1,
            '-' => true,
            _ => false,
        };
        if !agrees {
            return false;
        }
    }
    true
}

/// The table that is 1 at the minterms that pass a test.
fn passing<F: Fn(u32) -> bool>(pins: u32, test: F) -> Table
    requires few { pins ≤ 4 }
    requires called { F.IsAlwaysCallable test }
    ensures pins { result.pins ≡ pins }
    ensures each { (m : ℕ) → m < 2 ^ pins → F.post test m (bit result.bits m == 1) }
{
    let bits = (0..rows(pins)).fold(0, |set, minterm| {
        set | u32::from(test(minterm)).unbounded_shl(minterm)
    });
    Table { pins, bits }
}

impl TryFrom<&[u8]> for Output {
    type Error = CoverFault;

    ghost try_from_gives = { λ output r. Ending output.now r };

    fn try_from(output: &[u8]) -> Result<Output, CoverFault> {
        let [character] = output else {
            return Err(CoverFault::Malformed);
        };
        match *character as char {
            '0' => Ok(Output::Zero),
            '1' => Ok(Output::One),
            _ => Err(CoverFault::Malformed),
        }
    }
}

/// A line that is well formed: the table that is 1 where its plane covers, and how it ends.
#[derive(Clone, Copy)]
pub(crate) struct Row {
    covered: Table,
    output: Output,
}

impl Cover {
    /// No lines yet, of a gate with so many pins; refused (13) over four.
    pub fn new(pins: u32) -> Result<Cover, TableFault>
        ensures { MatchResult result
            (λ cover. (cover.listed.pins ≡ pins) × Read [] cover)
            (λ fault. (table_number fault ≡ 13) × (4 < pins)) }
    {
        Ok(Cover {
            output: None,
            listed: Table::new(pins, 0)?,
        })
    }

    /// How many pins the gate has.
    pub fn pins(&self) -> u32
        ensures { result ≡ self.now.listed.pins }
    {
        self.listed.pins
    }

    /// Whether a line that ends so may follow.
    fn allows(self, output: Output) -> bool
        ensures { MatchBool result
            ((self.output ≡ None) ⊎ (self.output ≡ Some output))
            ((first : Output) × (self.output ≡ Some first) × (first ≢ output)) }
    {
        self.output.is_none_or(|first| first == output)
    }

    /// What is kept of a line.
    fn row(self, line: CoverLine) -> Result<Row, CoverFault>
        ensures { Parses self.listed.pins (line_of line.entry) result }
    {
        if !formed(line.plane, self.listed.pins) {
            return Err(CoverFault::Malformed);
        }
        Ok(Row {
            output: Output::try_from(line.output)?,
            covered: passing(self.listed.pins, |minterm| covers(line.plane, minterm)),
        })
    }

    /// One row more, where it ends as those before it.
    fn with(self, row: Row) -> Result<Cover, CoverFault>
        requires { row.covered.pins ≡ self.listed.pins }
        ensures same { IfOk result (λ after. after.listed.pins ≡ self.listed.pins) }
        ensures joins { (lines : List Line) (line : Line)
            → Read lines self → Stands self.listed.pins line row → Joins lines line result }
    {
        if !self.allows(row.output) {
            return Err(CoverFault::BothWays);
        }
        Ok(Cover {
            output: Some(row.output),
            listed: Table {
                pins: self.listed.pins,
                bits: self.listed.bits | row.covered.bits,
            },
        })
    }

    /// One line more. A refused line leaves the cover as it was.
    pub fn line(&mut self, line: CoverLine) -> Result<(), CoverFault>
        ensures same { (self.new.listed.pins ≡ self.old.listed.pins) × (OnErr result (self.new ≡ self.old)) }
        ensures takes { (lines : List Line)
            → Read lines self.old → Takes lines (line_of line.entry) self.new result }
    {
        *self = self.with(self.row(line)?)?;
        Ok(())
    }

    /// The value at a minterm, by how the lines end and whether one of them covers it.
    fn value(self, minterm: u32) -> bool
        ensures { Decides result (IsOne self.output (bit self.listed.bits minterm == 1)) }
    {
        let covered = self.listed.value(minterm);
        self.output.is_some_and(|output| match output {
            Output::One => covered,
            Output::Zero => !covered,
        })
    }

    /// The table that the lines taken mean.
    pub fn table(&self) -> Table
        ensures pins { result.pins ≡ self.now.listed.pins }
        ensures gives { (lines : List Line) → Read lines self.now → Gives self.now.listed.pins lines result.bits }
    {
        passing(self.listed.pins, |minterm| self.value(minterm))
    }
}
