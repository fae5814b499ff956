// One search over any relation on numbers, with flags that are always given back clean.
#![tactic(auto)]

mod flags;
mod path;
mod queue;
mod relation;
mod search;

pub use flags::{Flags, clear};
pub use path::Path;
pub use queue::Queue;
pub use relation::{Neighbour, Relation};
pub use search::{Search, answers_are_determined};
