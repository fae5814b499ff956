// A file with one long chain of gates.
use std::alloc::{AllocError, Global};
use std::fmt::Write;

// The first signal is an input, each gate is on the signal before it, and the last is an output.
pub fn chain_text(heap: Global, signals: u32) -> Result<String, AllocError> {
    let mut text = String::from_str(heap, ".model chain\n.inputs n0\n")?;
    let last = signals.saturating_sub(1);
    writeln!(text, ".outputs n{last}")?;
    for before in 0..last {
        let gate = before.saturating_add(1);
        write!(text, ".names n{before} n{gate}\n0 1\n")?;
    }
    text.push_str(".end\n")?;
    Ok(text)
}
