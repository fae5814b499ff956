// Trials stores against a plain list of images: the edges, deep nesting, and random sequences of commands.
#![tactic(auto)]

mod plain;
mod sequence;
mod state;

use anyhow::ensure;
use memory::{Memory, Pair};
use plain::Plain;
use sequence::Sequence;
use state::State;
use std::alloc::{AllocError, Global};
use store_script::play;
use words::Store;

// One store to be tried: its N and D, and the commands.
#[derive(Clone, Copy)]
struct Case {
    size: usize,
    limit: usize,
    seed: u64,
    steps: usize,
}

// How a case went: whether every reply and every image was the plain one's, and, good or not, how many levels were open at most.
#[derive(Clone, Copy)]
struct Trial {
    good: bool,
    deepest: usize,
}

fn played<S: Store + Drop>(heap: Global, mut store: S, case: Case) -> Result<Trial, AllocError> {
    let mut plain = Plain::new(heap, case.size, case.limit)?;
    let mut trial = Trial {
        good: true,
        deepest: 0,
    };
    for command in Sequence::new(case.seed, case.size, case.limit).take(case.steps) {
        let expected = plain.play(command)?;
        trial.good = trial.good
            && play(&mut store, command) == expected
            && State::of(heap, &store)? == plain.state()?;
        trial.deepest = trial.deepest.max(store.levels());
    }
    Ok(trial)
}

// A case on both stores.
fn tried(heap: Global, case: Case) -> Result<Pair<Trial>, AllocError> {
    let mut memory = Memory::new(heap, case.size, case.limit, 7)?;
    Ok(Pair {
        log: played(heap, memory.log(), case)?,
        snapshot: played(heap, memory.snapshot(), case)?,
    })
}

// Whether a case went well over each store.
fn goodness(trials: Pair<Trial>) -> Pair<bool> {
    Pair {
        log: trials.log.good,
        snapshot: trials.snapshot.good,
    }
}

// Where the cases are printed, and in how many of them a store differs from the list of images.
#[derive(Drop)]
struct Report<'a> {
    rt: &'a HostRuntime,
    differing: u32,
}

impl Report<'_> {
    fn edge(&mut self, name: &str, case: Case) -> anyhow::Result<()> {
        let Case {
            size,
            limit,
            steps,
            ..
        } = case;
        let trials = tried(self.rt.alloc(), case)?;
        let good = goodness(trials);
        let deepest = trials.log.deepest.min(trials.snapshot.deepest);
        println!(self.rt;
            "{name}: N {size}, D {limit}, {steps} commands, up to {deepest} levels: {good}"
        )?;
        self.add(u32::from(!good.both()));
        Ok(())
    }

    // Many short sequences over small stores of every shape.
    fn random(&mut self) -> anyhow::Result<()> {
        let mut good: u32 = 0;
        let mut full: u32 = 0;
        for seed in 0..210u32 {
            let case = Case {
                size: (seed % 10) as usize,
                limit: 2 + (seed % 7) as usize,
                seed: u64::from(seed),
                steps: 90,
            };
            let trials = tried(self.rt.alloc(), case)?;
            good = good.saturating_add(u32::from(goodness(trials).both()));
            full = full.saturating_add(u32::from(trials.log.deepest == case.limit));
        }
        println!(self.rt;
            "random: {good} of 210 sequences of 90 commands, N 0 to 9, D 2 to 8, {full} with all levels open at once: both stores agree with the list of images"
        )?;
        self.add(210u32.saturating_sub(good));
        Ok(())
    }

    fn add(&mut self, differing: u32) {
        self.differing = self.differing.saturating_add(differing);
    }
}

fn run(rt: &HostRuntime) -> anyhow::Result<()> {
    let mut report = Report { rt, differing: 0 };
    for (name, size, limit, seed, steps) in [
        ("no words", 0, 2, 1, 40),
        ("most words, fewest levels", 65536, 2, 2, 60),
        ("most words, most levels", 65536, 8, 3, 90),
        ("an editor of 1,024 signals", 24600, 8, 4, 90),
    ] {
        let case = Case {
            size,
            limit,
            seed,
            steps,
        };
        report.edge(name, case)?;
    }
    report.random()?;
    ensure!(
        report.differing == 0,
        "a store differs from the list of images"
    );
    Ok(())
}

fn main(rt: HostRuntime) -> anyhow::Result<()> {
    run(&rt)
}
