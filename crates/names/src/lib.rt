// The names of a netlist: that of the model, and those of the signals, numbered as they appear.
#![tactic(auto)]

mod faults;
mod signals;
mod table;

pub use faults::NameFault;
pub use table::NameTable;
