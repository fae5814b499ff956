// Reads BLIF files into an editor, and writes an editor's netlist as one.
#![tactic(auto)]

mod calls;
mod covers;
mod lines;
mod place;
mod reader;
mod reading;
mod spell;
mod writing;

pub use blif::{EditorError, FileFault, FormError, FormFault, Layer, WriteFault};
pub use reading::read;
pub use writing::{room_for, write};
