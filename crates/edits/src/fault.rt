// Why an edit is not made.
ghost use Rattle.std.specs.Prelude.{◌≡◌};
ghost use Rattle.edits.specs.declared.fault.EditFault.TheVariants.{Refused, Looped};

use netlist::Refusal;
use reach::Path;

#[derive(Drop)]
pub enum EditFault {
    // the refusal that was seen before a pin was put
    Refused(Refusal),
    // a loop of the netlist asked for
    Looped(Path),
}

impl From<Refusal> for EditFault {
    ghost from_gives = { λ refusal r. r ≡ Refused refusal };

    fn from(refusal: Refusal) -> EditFault {
        EditFault::Refused(refusal)
    }
}

impl From<Path> for EditFault {
    ghost from_gives = { λ path r. r ≡ Looped path };

    fn from(path: Path) -> EditFault {
        EditFault::Looped(path)
    }
}
