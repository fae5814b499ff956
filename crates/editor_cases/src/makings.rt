// Which stores and numbers of signals serve an editor.
use crate::difference::Difference;
use crate::fault::{Fault, ensure, settle};
use crate::report::Report;
use editor::Editor;
use memory::{Memory, Pair};
use netlist::Refusal;
use std::alloc::Global;
use words::Store;

// An editor to be made: over how many words, with how many levels open, and what the test answers.
#[derive(Clone, Copy)]
struct Making {
    signals: u32,
    size: usize,
    opened: usize,
    answer: Result<(), Refusal>,
}

static MAKINGS: [Making; 8] = [
    Making {
        signals: 0,
        size: 24,
        opened: 0,
        answer: Err(Refusal::NoEditor),
    },
    Making {
        signals: 1,
        size: 48,
        opened: 0,
        answer: Ok(()),
    },
    Making {
        signals: 1,
        size: 47,
        opened: 0,
        answer: Err(Refusal::NoEditor),
    },
    Making {
        signals: 1,
        size: 48,
        opened: 1,
        answer: Err(Refusal::NoEditor),
    },
    Making {
        signals: 1,
        size: 65536,
        opened: 0,
        answer: Ok(()),
    },
    Making {
        signals: 1024,
        size: 24600,
        opened: 0,
        answer: Ok(()),
    },
    Making {
        signals: 1024,
        size: 24599,
        opened: 0,
        answer: Err(Refusal::NoEditor),
    },
    Making {
        signals: 1025,
        size: 24624,
        opened: 0,
        answer: Err(Refusal::NoEditor),
    },
];

// The test and the making of an editor: a store that does not serve is left alone.
fn try_making<S: Store + Drop>(mut store: S, making: Making) -> Result<(), Difference> {
    for _ in 0..making.opened {
        let _ = store.open_level();
    }
    let _ = store.set(0, 5);
    let test = Editor::test(&store, making.signals);
    ensure(test == making.answer, Difference::Test)?;
    let signals = making.answer.map_or(0, |()| making.signals);
    let editor = Editor::new(store, making.signals);
    ensure(editor.signals() == signals, Difference::Signals)
}

// Each making over memory of its own, until there is a difference.
fn try_each<F: Fn(&mut Memory, Making) -> Result<(), Difference>>(
    heap: Global,
    make: F,
) -> Result<(), Fault<Difference>>
    requires { F.IsAlwaysCallable make }
{
    for making in &MAKINGS {
        let mut memory = Memory::new(heap, making.size, 2, 7)?;
        make(&mut memory, *making).map_err(Fault::Told)?;
    }
    Ok(())
}

pub fn try_makings(report: &mut Report) -> anyhow::Result<()> {
    let heap = report.rt.alloc();
    let log = try_each(heap, |memory, making| try_making(memory.log(), making));
    let snapshot = try_each(heap, |memory, making| try_making(memory.snapshot(), making));
    let verdicts = Pair {
        log: settle(log)?,
        snapshot: settle(snapshot)?,
    };
    report.case(
        "makings: M 1 and 1024 serve; M 0 and 1025, a word too few, a level open give 1:",
        verdicts,
    )
}
