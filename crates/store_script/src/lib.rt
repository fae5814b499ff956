// Commands for a store of words, as text lines, their play on two stores at once, and how the words of an image are printed.
#![tactic(auto)]

mod command;
mod numbers;
mod player;

pub use command::{Command, decimal, parse};
pub use numbers::Numbers;
pub use player::{image_of, play, play_both};
