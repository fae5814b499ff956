// How long a level takes: open, 20 writes and drop or keep, on both stores. The times go to standard error.
#![tactic(auto)]

use anyhow::anyhow;
use memory::{Memory, Pair};
use std::time::Instant;
use words::{Store, StoreRefusal};

const WRITES: usize = 20;

const SIZES: [usize; 3] = [1000, 24600, 65536];

// One level: opened, 20 words written that are spread over the store, and closed.
fn level<S: Store, F: Fn(&mut S) -> Result<(), StoreRefusal>>(
    store: &mut S,
    close: &F,
) -> Result<(), StoreRefusal>
    requires { F.IsAlwaysCallable close.now }
{
    let step = store.size() / WRITES;
    store.open_level()?;
    // a loop, since an iterator that calls a closure made a level take a fifth longer
    for i in 0..WRITES {
        store.set(i.saturating_mul(step), 7)?;
    }
    close(store)
}

// Nanoseconds for one level, the mean of `turns`.
fn mean<S: Store, F: Fn(&mut S) -> Result<(), StoreRefusal>>(
    rt: &HostRuntime,
    store: &mut S,
    turns: u32,
    close: F,
) -> anyhow::Result<u128>
    requires { F.IsAlwaysCallable close }
{
    let start = Instant::now(rt)?;
    for _ in 0..turns {
        level(store, &close).map_err(|_| anyhow!("a store refused"))?;
    }
    let time = start.elapsed(rt)?.as_nanos();
    Ok(time / u128::from(turns.max(1)))
}

// What a level takes that is dropped, and one that is kept.
#[derive(Clone, Copy)]
struct Times {
    drop: u128,
    keep: u128,
}

// The levels lie on an open one, so that keeping hands notes down.
fn timed<S: Store + Drop>(rt: &HostRuntime, mut store: S, turns: u32) -> anyhow::Result<Times> {
    let _ = store.open_level();
    Ok(Times {
        drop: mean(rt, &mut store, turns, S::drop_level)?,
        keep: mean(rt, &mut store, turns, S::keep_level)?,
    })
}

// What levels take over both stores of `size` words and three levels.
#[derive(Clone, Copy)]
struct Row {
    size: usize,
    times: Pair<Times>,
}

fn measured(rt: &HostRuntime, size: usize) -> anyhow::Result<Row> {
    let mut memory = Memory::new(rt.alloc(), size, 3, 0)?;
    let times = Pair {
        log: timed(rt, memory.log(), 20000)?,
        snapshot: timed(rt, memory.snapshot(), 200)?,
    };
    Ok(Row { size, times })
}

// A time in hundredths of another.
fn percent(time: u128, of: u128) -> u128 {
    time.saturating_mul(100) / of.max(1)
}

// One of the times over each store.
fn chosen<F: Fn(Times) -> u128>(times: Pair<Times>, time: &F) -> Pair<u128>
    requires { F.IsAlwaysCallable time.now }
{
    Pair {
        log: time(times.log),
        snapshot: time(times.snapshot),
    }
}

// One of the times of each size, and its ratio to that of the smallest store.
fn show<F: Fn(Times) -> u128>(
    rt: &HostRuntime,
    name: &str,
    rows: [Row; 3],
    time: F,
) -> anyhow::Result<()>
    requires { F.IsAlwaysCallable time }
{
    let [first, ..] = rows;
    let least = chosen(first.times, &time);
    for Row { size, times } in rows {
        let Pair { log, snapshot } = chosen(times, &time);
        let log_ratio = percent(log, least.log);
        let snapshot_ratio = percent(snapshot, least.snapshot);
        eprintln!(rt;
            "{name}, N {size}: inverse log {log} ns ({log_ratio} % of N 1000), snapshot {snapshot} ns ({snapshot_ratio} %)"
        )?;
    }
    Ok(())
}

fn run(rt: &HostRuntime) -> anyhow::Result<()> {
    let rows = SIZES.try_map(|size| measured(rt, size))?;
    show(rt, "open, 20 sets, drop", rows, |times| times.drop)?;
    show(rt, "open, 20 sets, keep", rows, |times| times.keep)
}

fn main(rt: HostRuntime) -> anyhow::Result<()> {
    run(&rt)
}
