// The command line.
use crate::input::Source;
use clap::{Arg, ArgMatches, Command, Error, value_parser};
use console::Bottom;
use std::alloc::{AllocError, Global};
use text::DEFAULT_LIMIT;

// How many signals an editor has, and how many bytes a text may have.
#[derive(Clone, Copy)]
pub struct Bounds {
    pub signals: u32,
    pub limit: usize,
}

// Those of a board, where no number of signals is asked for.
const BOARD: Bounds = Bounds {
    signals: 60,
    limit: 32768,
};

#[derive(Clone, Copy)]
pub enum Asked<'a> {
    Rewrite { source: Source<'a>, bounds: Bounds },
    Calls(Bottom),
}

static STORES: [&str; 2] = ["log", "snapshot"];

fn calls_command<'a>(heap: Global) -> Result<Command<'a>, AllocError> {
    let store = Arg::new(heap, "store")
        .value_name("STORE")
        .help("The store below the editor")
        .required(true)
        .value_parser(STORES.as_slice());
    Command::new(heap, "calls")
        .about("Plays the calls of an editor from standard input, and prints a line for each")
        .arg(store)
}

fn file_argument<'a>(heap: Global) -> Arg<'a> {
    Arg::new(heap, "file").value_name("FILE").help(
        "A BLIF file; without it standard input is read, through the line .end",
    )
}

fn signals_argument<'a>(heap: Global) -> Arg<'a> {
    Arg::new(heap, "signals")
        .long("signals")
        .value_name("M")
        .help(
            "Serve M signals, 1 to 1024, and 1048576 bytes; without it 60 signals and 32768 bytes",
        )
        .value_parser(value_parser!(u32).range(1..1025))
}

fn command<'a>(heap: Global) -> Result<Command<'a>, AllocError> {
    Command::new(heap, "netedit")
        .version("0.1.0")
        .about(
            "Reads a BLIF file and writes it with its gates in order, or reports its first fault",
        )
        .after_help(
            "Status: 0 a file was written, 1 a fault was reported, 2 standard error says why not",
        )
        .args_conflicts_with_subcommands(true)
        .disable_help_subcommand(true)
        .arg(file_argument(heap))?
        .arg(signals_argument(heap))?
        .subcommand(calls_command(heap)?)
}

fn bottom_in(calls: &ArgMatches) -> Bottom {
    match calls.get_str("store") {
        Some("snapshot") => Bottom::Snapshot,
        _ => Bottom::Log,
    }
}

fn source_in<'a>(matches: &ArgMatches<'a>) -> Source<'a> {
    match matches.get_str("file") {
        Some(name) => Source::Named(name),
        None => Source::Standard,
    }
}

fn bounds_in(matches: &ArgMatches) -> Bounds {
    match matches.get_one::<u32>("signals") {
        Some(signals) => Bounds {
            signals,
            limit: DEFAULT_LIMIT,
        },
        None => BOARD,
    }
}

// What the words ask for. Help and the version come as errors too.
pub fn parse<'a>(heap: Global, words: &'a [String]) -> Result<Asked<'a>, Error> {
    let matches = command(heap)?.try_get_matches_from(words)?;
    Ok(match matches.subcommand() {
        Some((_, calls)) => Asked::Calls(bottom_in(calls)),
        None => Asked::Rewrite {
            source: source_in(&matches),
            bounds: bounds_in(&matches),
        },
    })
}
