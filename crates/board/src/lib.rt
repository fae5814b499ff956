// A board kept in the words of a store: its fields, and the chain of the pins on each signal.
#![tactic(auto)]

mod chain;
mod fanout;
mod field;
mod kind;
mod questions;
mod stored;

pub use fanout::Fanout;
pub use field::Field;
pub use kind::Kind;
pub use stored::{SIGNALS_MOST, StoredBoard};
