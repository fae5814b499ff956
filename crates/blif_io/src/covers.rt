// The cover lines of an open gate.
ghost use Rattle.std.specs.Prelude.{◌≡◌, ◌<◌, List};
ghost use Rattle.table.specs.Line.{Line};
ghost use Rattle.table.specs.Cover.{Read};
ghost use Rattle.names.specs.Names.{spellings};
ghost use Rattle.blif.specs.Form.{cover_line as cover_line_of, of_cover};
ghost use Rattle.blif_io.specs.Taking.{TakesCover, LineOf};

use crate::place::OpenGate;
use blif::FormFault;
use table::{CoverFault, CoverLine};
use text::Word;

// The words of a cover line: without pins only the output stands.
fn cover_line<'a>(pins: u32, words: &[Word<'a>]) -> Option<CoverLine<'a>>
    ensures { LineOf (cover_line_of pins (spellings words.now)) result }
{
    match words {
        [output] if pins == 0 => Some(CoverLine {
            plane: &[],
            output: output.bytes,
        }),
        [plane, output] if pins > 0 => Some(CoverLine {
            plane: plane.bytes,
            output: output.bytes,
        }),
        _ => None,
    }
}

fn form_fault(fault: CoverFault) -> FormFault
    ensures { result ≡ of_cover fault }
{
    match fault {
        CoverFault::Malformed => FormFault::Malformed,
        CoverFault::BothWays => FormFault::BothWays,
    }
}

pub(crate) fn take_cover(gate: OpenGate, words: &[Word]) -> Result<OpenGate, FormFault>
    ensures { (cover : List Line) → Read cover gate.cover → TakesCover gate cover (spellings words.now) result }
{
    let Some(line) = cover_line(gate.cover.pins(), words) else {
        return Err(FormFault::WordCount);
    };
    let mut cover = gate.cover;
    match cover.line(line) {
        Ok(()) => Ok(OpenGate { cover, ..gate }),
        Err(fault) => Err(form_fault(fault)),
    }
}
