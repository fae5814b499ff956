// The store of words: N words of 32 bits that can be taken back exactly, level by level.
#![tactic(auto)]

mod inverse_log;
mod memory;
mod shape;
mod snapshot;
mod store;

pub use inverse_log::InverseLog;
pub use memory::{LEVELS_MOST, WORDS_MOST};
pub use snapshot::Snapshot;
pub use store::{Store, StoreRefusal};
