// A bench for the libraries below the editor, which ./stores runs: it plays commands on the two stores, or checks a text.
#![tactic(auto)]

mod store_mode;
mod text_mode;

use anyhow::anyhow;
use std::env;
use store_mode::play_input;
use text::{File, Script};
use text_mode::check_input;

const USAGE: &str = "usage: stores [N D] | stores check file | stores check script";

fn run(rt: &HostRuntime) -> anyhow::Result<()> {
    let heap = rt.alloc();
    let arguments: Vec<String> = env::args(rt)?.skip(1).collect(heap)?;
    let words: Vec<&str> = arguments.iter().map(|a| a.as_str()).collect(heap)?;
    match words.as_slice() {
        [] => play_input(rt, 8, 3),
        ["check", "file"] => check_input::<File>(rt),
        ["check", "script"] => check_input::<Script>(rt),
        ["check", _] => Err(anyhow!(USAGE)),
        [size, limit] => play_input(rt, size.parse()?, limit.parse()?),
        _ => Err(anyhow!(USAGE)),
    }
}

fn main(rt: HostRuntime) -> anyhow::Result<()> {
    run(&rt)
}
