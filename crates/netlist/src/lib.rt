// The rules of the netlist editor: signals, pins, places and edits. What they mean is in specs/.
#![tactic(auto)]

mod edit;
mod laws;

pub use edit::{Edit, Refusal};
pub use laws::{edits_are_determined, loops_are_refused, order_excludes_loops, worked_cases_hold};
