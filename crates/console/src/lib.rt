// Plays the calls of an editor from standard input, and prints a line for each.
#![tactic(auto)]

mod command;
mod lines;
mod reply;
mod session;
mod show;

use lines::lines_of;
pub use session::Bottom;
use session::{first_editor, play_one};
use std::io::BufReader;

// Plays them on editors over this store.
pub fn play(rt: &HostRuntime, bottom: Bottom) -> anyhow::Result<()> {
    let mut lines = lines_of(rt.alloc(), BufReader::new(rt.alloc(), rt.stdin())?);
    let mut next = first_editor(rt, &mut lines)?;
    // counted, though only the end of the input ends it and none has so many lines: a `while let` would owe a measure, and none
    // here follows how much of the input is left
    for _ in 0..u64::MAX {
        let Some(shape) = next else {
            break;
        };
        next = play_one(rt, bottom, shape, &mut lines)?;
    }
    Ok(())
}
