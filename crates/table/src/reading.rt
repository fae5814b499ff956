ghost use Rattle.std.specs.Prelude.{map};
ghost use Rattle.table.specs.Reading.{Reads, ReadsTable, line_of};

use crate::fault::ReadFault;
use crate::shape::{Cover, CoverLine, Table};

/// The table of a gate with so many pins and these cover lines.
pub fn read(pins: u32, lines: &[CoverLine]) -> Result<Table, ReadFault>
    ensures reads { Reads pins (map line_of lines.now) result }
    ensures back { ReadsTable pins (map line_of lines.now) result }
{
    let mut cover = Cover::new(pins)?;
    for line in lines {
        cover.line(*line)?;
    }
    Ok(cover.table())
}
