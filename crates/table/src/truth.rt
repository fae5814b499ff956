ghost use Rattle.std.specs.Prelude.{◌≡◌, ◌^◌, ◌≤◌, MatchResult, ◌==◌};
ghost use Rattle.table.specs.Bit.{bit};
ghost use Rattle.table.specs.Fault.{table_number};
ghost use Rattle.table.specs.Table.{IsTable};

use crate::fault::TableFault;
use crate::shape::Table;

/// How many minterms a gate with `pins` pins has.
#[tactic(auto, using(crate::proofs::Bit::one_shl, crate::proofs::Bit::few_rows))]
pub(crate) fn rows(pins: u32) -> u32
    requires { pins ≤ 4 }
    ensures value { result ≡ 2 ^ pins }
    ensures few { result ≤ 16 }
{
    1 << pins
}

/// Bit `i` of a number, which has none past its last: there it is 0.
#[tactic(auto, using(crate::proofs::Bit::bit_shifted))]
pub(crate) fn bit_at(number: u32, i: u32) -> u32
    ensures { result ≡ bit number i }
{
    number.unbounded_shr(i) % 2
}

impl Table {
    /// The table of these two numbers, refused (13) exactly when they are none.
    #[tactic(auto, using(crate::proofs::Bit::one_shl))]
    pub fn new(pins: u32, bits: u32) -> Result<Table, TableFault>
        ensures { MatchResult result
            (λ t. IsTable pins bits × (t.pins ≡ pins) × (t.bits ≡ bits))
            (λ fault. (table_number fault ≡ 13) × (IsTable pins bits → ⊥)) }
    {
        if pins > 4 || bits >= 1 << rows(pins) {
            return Err(TableFault::Unfit);
        }
        Ok(Table { pins, bits })
    }

    /// How many pins the gate has.
    pub fn pins(self) -> u32
        ensures { result ≡ self.pins }
    {
        self.pins
    }

    /// The table as a number.
    pub fn bits(self) -> u32
        ensures { result ≡ self.bits }
    {
        self.bits
    }

    /// The value at a minterm. Past the last minterm there is none, and the answer is false.
    pub fn value(self, minterm: u32) -> bool
        ensures { result ≡ (bit self.bits minterm == 1) }
    {
        bit_at(self.bits, minterm) == 1
    }
}
