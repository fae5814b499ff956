// The line that a call prints.
use editor::Editor;
use netlist::Refusal;
use std::io;
use store_script::Numbers;
use words::Store;

pub fn print_reply<S: Store>(
    rt: &HostRuntime,
    editor: &Editor<S>,
    reply: Result<u32, Refusal>,
) -> io::Result<()> {
    match reply {
        Ok(count) => println!(rt; "ok {count}"),
        Err(refusal) => print_refusal(rt, editor, refusal),
    }
}

// A loop is shown with its signals, and a signal that is absent with its number.
fn print_refusal<S: Store>(
    rt: &HostRuntime,
    editor: &Editor<S>,
    refusal: Refusal,
) -> io::Result<()> {
    let number = refusal.number();
    match refusal {
        Refusal::Looped => println!(rt; "refused {number} loop{}", Numbers(editor.loop_shown())),
        Refusal::AbsentInUse => match editor.missing() {
            Some(signal) => println!(rt; "refused {number} absent {signal}"),
            None => println!(rt; "refused {number}"),
        },
        _ => println!(rt; "refused {number}"),
    }
}

pub fn print_bad(rt: &HostRuntime, line: u64) -> io::Result<()> {
    println!(rt; "bad line {line}")
}

pub fn print_flags(rt: &HostRuntime, flags: &[u8; 1024]) -> io::Result<()> {
    if flags.iter().any(|flag| *flag != 0) {
        println!(rt; "flags not clean")?;
    }
    Ok(())
}
