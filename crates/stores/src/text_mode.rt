// A text from standard input, checked: its words line by line, or its first fault.
use std::io::Read;
use text::{DEFAULT_LIMIT, ReadFault, Text, read_lines};

pub fn check_input<T: Text>(rt: &HostRuntime) -> anyhow::Result<()> {
    let mut bytes = Vec::new(rt.alloc());
    rt.stdin().read_to_end(&mut bytes)?;
    match read_lines::<T>(rt.alloc(), &bytes, DEFAULT_LIMIT) {
        Ok(lines) => lines.iter().try_for_each(|line| println!(rt; "{line}"))?,
        Err(ReadFault::Text(fault)) => println!(rt; "{fault}")?,
        Err(fault) => return Err(fault.into()),
    }
    Ok(())
}
