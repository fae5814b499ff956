// Reading and writing of files over both stores, against a plain reader of its own.
#![tactic(auto)]

mod barred;
mod bench;
mod compare;
mod difference;
mod drawn;
mod faults;
mod mangled;
mod netlists;
mod plain;
mod plain_cover;
mod plain_reader;
mod report;
mod side;
mod stop;
mod tally;
mod told;
mod trial;
mod worked;

use anyhow::ensure;
use barred::try_barred;
use drawn::{try_netlists, try_texts};
use faults::try_faults;
use report::Report;
use worked::try_worked;

fn run(rt: &HostRuntime) -> anyhow::Result<()> {
    let mut report = Report { rt, differing: 0 };
    try_worked(&mut report)?;
    try_faults(&mut report)?;
    try_barred(&mut report)?;
    try_netlists(&mut report)?;
    try_texts(&mut report)?;
    ensure!(
        report.differing == 0,
        "a file is not read or written as the plain reader says"
    );
    Ok(())
}

fn main(rt: HostRuntime) -> anyhow::Result<()> {
    run(&rt)
}
