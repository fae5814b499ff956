// Reads a BLIF file and writes it with its gates in order, or reports its first fault; or plays the calls of an editor. ./netedit runs it.
#![tactic(auto)]

mod arguments;
mod input;
mod outcome;
mod report;
mod work;

use arguments::{Asked, parse};
use console::play;
use outcome::Outcome;
use std::process::ExitCode;
use std::{env, io};
use work::rewrite;

fn serve(rt: &HostRuntime, asked: Asked) -> anyhow::Result<Outcome> {
    match asked {
        Asked::Rewrite { source, bounds } => {
            let text = source.read(rt, bounds.limit)?;
            rewrite(rt.alloc(), &text, bounds, &mut io::writer(rt))
        }
        Asked::Calls(bottom) => {
            play(rt, bottom)?;
            Ok(Outcome::Done)
        }
    }
}

// What clap has to say in place of matches: help and the version are asked for.
fn tell(rt: &HostRuntime, said: &clap::Error) -> io::Result<Outcome> {
    said.print(rt)?;
    Ok(if said.use_stderr() {
        Outcome::Failed
    } else {
        Outcome::Done
    })
}

fn run(rt: &HostRuntime) -> anyhow::Result<Outcome> {
    let words: Vec<String> = env::args(rt)?.collect(rt.alloc())?;
    match parse(rt.alloc(), &words) {
        Ok(asked) => serve(rt, asked),
        Err(said) => Ok(tell(rt, &said)?),
    }
}

fn main(rt: HostRuntime) -> ExitCode {
    let outcome = match run(&rt) {
        Ok(outcome) => outcome,
        Err(failure) => {
            let _ = eprintln!(rt; "netedit: {failure}");
            Outcome::Failed
        }
    };
    ExitCode::from(outcome.status())
}
