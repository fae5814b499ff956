// The calls of an editor as values.
use netlist::Edit;

#[derive(Clone, Copy, Debug)]
pub enum Call {
    Begin,
    Mark,
    KeepMark,
    DropMark,
    Keep,
    Drop,
    Make(Edit),
}
