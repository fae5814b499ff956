// Editors over both stores against the rules on plain lists: tables of calls, edges, and random runs.
#![tactic(auto)]

mod call;
mod chain;
mod compare;
mod difference;
mod fault;
mod makings;
mod model;
mod plain_board;
mod plain_places;
mod plan;
mod play;
mod report;
mod tables;
mod tickets;
mod trial;

use anyhow::ensure;
use call::Shape;
use chain::try_chains;
use makings::try_makings;
use memory::Pair;
use plan::{Random, Row, Table};
use play::Way;
use report::Report;
use tables::{
    ABSENT, FOUR_PINS, MOST, NO_MARK, NONE, REFUSALS, SIX_MARKS, SMALLEST, TAKEN_BACK, WORKED,
};
use tickets::try_tickets;
use trial::{Case, Trial};

const SEEDS: u32 = 24;

const CALLS: u32 = 500;

// One table: the model alone, and each store's editor beside the model, by the names of the edits and by the call that takes any.
fn try_table(
    report: &mut Report,
    name: &str,
    signals: u32,
    limit: usize,
    rows: &[Row],
) -> anyhow::Result<()> {
    let case = Case {
        heap: report.rt.alloc(),
        shape: Shape { signals, limit },
        plan: Table(rows),
    };
    let model = case.try_model()?.is_ok();
    let named = case.try_on_both(Way::Named)?;
    let any = case.try_on_both(Way::Any)?;
    let verdicts = Pair {
        log: named.log.verdict.and(any.log.verdict),
        snapshot: named.snapshot.verdict.and(any.snapshot.verdict),
    };
    let calls = rows.len();
    report.case(
        format_args!("{name}: M {signals}, D {limit}, {calls} calls: model {model},"),
        verdicts,
    )
}

fn try_rules(report: &mut Report) -> anyhow::Result<()> {
    try_table(report, "worked case", 5, 3, &WORKED)?;
    try_table(report, "each refusal", 4, 4, &REFUSALS)?;
    try_table(report, "absent signals in use", 4, 3, &ABSENT)?;
    try_table(report, "the smallest number", 4, 3, &SMALLEST)?;
    try_table(report, "taken back", 3, 3, &TAKEN_BACK)
}

fn try_edges(report: &mut Report) -> anyhow::Result<()> {
    try_table(report, "four pins on one signal", 6, 3, &FOUR_PINS)?;
    try_table(report, "no level for a mark", 1, 2, &NO_MARK)?;
    try_table(report, "six marks", 2, 8, &SIX_MARKS)?;
    try_table(report, "most signals", 1024, 2, &MOST)?;
    try_table(report, "a signal too many", 1025, 2, &NONE)
}

// M from 1 to 24, D from 2 to 8.
fn try_seed(report: &mut Report, seed: u32) -> anyhow::Result<()> {
    let signals = seed;
    let limit = 2 + (seed % 7) as usize;
    let case = Case {
        heap: report.rt.alloc(),
        shape: Shape { signals, limit },
        plan: Random::new(seed, signals, CALLS),
    };
    let way = if seed % 2 == 0 { Way::Named } else { Way::Any };
    let Pair { log, snapshot } = case.try_on_both(way)?;
    let Trial { tally, verdict } = log;
    let verdicts = Pair {
        log: verdict,
        snapshot: snapshot.verdict,
    };
    let calls = tally.calls();
    report.case(
        format_args!("random: M {signals}, D {limit}, {calls} calls: {tally};"),
        verdicts,
    )
}

fn try_random(report: &mut Report) -> anyhow::Result<()> {
    let before = report.differing;
    for seed in 0..SEEDS {
        try_seed(report, seed + 1)?;
    }
    let differing = report.differing.saturating_sub(before);
    println!(report.rt;
        "random: {SEEDS} runs over both stores, {differing} with a difference from the model"
    )?;
    Ok(())
}

fn run(rt: &HostRuntime) -> anyhow::Result<()> {
    let mut report = Report { rt, differing: 0 };
    try_rules(&mut report)?;
    try_edges(&mut report)?;
    try_makings(&mut report)?;
    try_tickets(&mut report)?;
    try_chains(&mut report)?;
    try_random(&mut report)?;
    ensure!(report.differing == 0, "an editor differs from the rules");
    Ok(())
}

fn main(rt: HostRuntime) -> anyhow::Result<()> {
    run(&rt)
}
