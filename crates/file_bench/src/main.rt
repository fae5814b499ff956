// How long reading and writing of files takes over both stores, in nanoseconds a byte. The times go to standard error.
#![tactic(auto)]

mod chain;
mod timing;

use anyhow::{Context, Result};
use chain::chain_text;
use std::{env, fs};
use timing::{Place, Times};

// The most signals that an editor has, and a file as small as those of the program.
const LENGTHS: [u32; 2] = [1024, 60];

// Tenths of a nanosecond a byte, as nanoseconds.
fn show(rt: &HostRuntime, name: &str, bytes: usize, store: &str, times: Times) -> Result<()> {
    let Times { read, write } = times;
    eprintln!(rt;
        "{name}, {bytes} bytes, {store}: read {}.{} ns a byte, write {}.{} ns a byte",
        read / 10,
        read % 10,
        write / 10,
        write % 10
    )?;
    Ok(())
}

fn measure(rt: &HostRuntime, place: &mut Place, name: &str, text: &[u8]) -> Result<()> {
    let times = place.measure(rt, text).context(format_args!("{name}"))?;
    show(rt, name, text.len(), "inverse log", times.log)?;
    show(rt, name, text.len(), "snapshot", times.snapshot)
}

fn measure_chains(rt: &HostRuntime, place: &mut Place) -> Result<()> {
    for signals in LENGTHS {
        let text = chain_text(rt.alloc(), signals)?;
        let name = format!(in rt.alloc(); "a chain of {signals} signals")?;
        measure(rt, place, &name, text.as_bytes())?;
    }
    Ok(())
}

fn measure_files(rt: &HostRuntime, place: &mut Place, names: &[String]) -> Result<()> {
    for name in names {
        let text = fs::read(rt, name.as_str())?;
        measure(rt, place, name.as_str(), &text)?;
    }
    Ok(())
}

fn run(rt: &HostRuntime) -> Result<()> {
    let heap = rt.alloc();
    let names: Vec<String> = env::args(rt)?.skip(1).collect(heap)?;
    let mut place = Place::new(heap)?;
    if names.is_empty() {
        measure_chains(rt, &mut place)
    } else {
        measure_files(rt, &mut place, &names)
    }
}

fn main(rt: HostRuntime) -> Result<()> {
    run(&rt)
}
