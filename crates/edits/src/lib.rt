// The six edits on a board that is kept in the words of a store.
#![tactic(auto)]

mod checked;
mod checks;
mod enter;
mod fault;
mod make;
mod puts;

pub use fault::EditFault;
pub use make::{add_input, add_latch, delete_signal, make_edit, mark_output};
