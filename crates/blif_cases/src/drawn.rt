// Files that are drawn: netlists that have to be accepted, and texts of any kind.
use crate::bench::Bench;
use crate::mangled::Mangled;
use crate::netlists::Netlists;
use crate::report::Report;
use crate::tally::Tally;

const NETLISTS: u32 = 240;

const TEXTS: u32 = 100000;

// M from 1 to 60.
fn try_netlist(report: &mut Report, seed: u32) -> anyhow::Result<(bool, usize)> {
    let heap = report.rt.alloc();
    let signals = 1 + seed % 60;
    let file = Netlists::new(heap, seed, signals).file()?;
    let mut bench = Bench::new(heap, signals, 32768)?;
    let trial = bench.try_text(file.as_bytes(), file.len())?;
    report.quiet(
        format_args!("netlist {seed}: M {signals}:"),
        file.as_bytes(),
        trial.verdicts,
    )?;
    Ok((trial.told.is_none(), trial.written.len()))
}

pub fn try_netlists(report: &mut Report) -> anyhow::Result<()> {
    let before = report.differing;
    let mut accepted: u32 = 0;
    let mut bytes: usize = 0;
    for seed in 0..NETLISTS {
        let (well, length) = try_netlist(report, seed)?;
        accepted = accepted.saturating_add(u32::from(well));
        bytes = bytes.saturating_add(length);
    }
    let refused = NETLISTS.saturating_sub(accepted);
    report.differing = report.differing.saturating_add(refused);
    let differing = report.differing.saturating_sub(before);
    println!(report.rt;
        "drawn netlists: {accepted} of {NETLISTS} accepted, M 1 to 60, {bytes} bytes written and read back over each store, {differing} with a difference"
    )?;
    Ok(())
}

pub fn try_texts(report: &mut Report) -> anyhow::Result<()> {
    let heap = report.rt.alloc();
    let before = report.differing;
    let mut tally = Tally::new(heap);
    let mut bench = Bench::new(heap, 6, 2048)?;
    let mut mangled = Mangled::new(heap, 1);
    for number in 0..TEXTS {
        let text = mangled.text()?;
        let limit = mangled.limit();
        let trial = bench.try_text(&text, limit)?;
        tally.count(trial.told.map(|told| told.number))?;
        report.quiet(format_args!("text {number}:"), &text, trial.verdicts)?;
    }
    let differing = report.differing.saturating_sub(before);
    println!(report.rt;
        "drawn texts: {TEXTS}: {tally}; over both stores {differing} with a difference"
    )?;
    Ok(())
}
