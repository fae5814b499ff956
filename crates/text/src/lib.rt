// Texts, line by line and word by word.
#![tactic(auto)]

mod cut;
mod faults;
mod front;
mod kinds;
mod laws;
mod line;
mod numbers;
mod reader;
mod spot;
mod words;

pub use faults::{LineFault, ReadFault, TextFault};
pub use front::through_line;
pub use kinds::{File, Script, Text};
pub use laws::{name_lengths_hold, words_bounded, words_stand};
pub use numbers::{NumberFault, read_number};
pub use reader::{DEFAULT_LIMIT, Reader, read_lines};
pub use words::{Line, Word};
