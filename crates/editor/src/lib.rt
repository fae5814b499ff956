// The netlist editor over any store: edits, batches, marks and questions.
#![tactic(auto)]

mod batch;
mod call;
mod editor;
mod laws;
mod making;
mod questions;
mod shown;
mod ticket;

pub use board::Kind;
pub use call::Call;
pub use editor::Editor;
pub use laws::{
    edits_give_one_board, equal_words_reply_alike, no_signals_tell_nothing, worked_batches_hold,
};
pub use making::words_for;
pub use questions::Pins;
pub use shown::Shown;
pub use ticket::{Returned, Ticket};
