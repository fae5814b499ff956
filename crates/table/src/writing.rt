ghost use Rattle.std.specs.Prelude.{◌≡◌, MatchResult};
ghost use Rattle.table.specs.Written.{NextOne, character_at, plane_at};

use crate::fault::ReadFault;
use crate::shape::{Cover, CoverLine, Table};
use crate::truth::{bit_at, rows};
use std::array;

impl Table {
    /// The first minterm at or above `from` with the value 1.
    pub fn next_one(self, from: u32) -> Option<u32>
        ensures { NextOne self.pins self.bits from result }
    {
        (from..rows(self.pins)).find(|minterm| self.value(*minterm))
    }
}

/// The character of a pin in the plane of one minterm.
pub fn character(minterm: u32, pin: u32) -> u8
    ensures { result ≡ character_at minterm pin }
{
    b'0' + bit_at(minterm, pin) as u8
}

/// The characters of four pins in the plane of one minterm: the first k are its plane at a gate with k pins.
pub fn plane(minterm: u32) -> [u8; 4]
    ensures { result ≡ plane_at 4 minterm }
{
    array::from_fn(|pin| character(minterm, pin as u32))
}

/// Writes a table as the lines of its 1-minterms, and reads them.
pub fn round_trip(table: Table) -> Result<Table, ReadFault>
    ensures { MatchResult result (λ t. (t.pins ≡ table.pins) × (t.bits ≡ table.bits)) (λ _. ⊥) }
{
    let mut cover = Cover::new(table.pins)?;
    for minterm in (0..rows(table.pins)).filter(|minterm| table.value(*minterm)) {
        let plane = plane(minterm);
        cover.line(CoverLine {
            plane: &plane[..table.pins as usize],
            output: b"1",
        })?;
    }
    Ok(cover.table())
}
