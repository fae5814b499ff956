// Chains of 1,024 signals, in which a put moves many.
use crate::call::Reply;
use crate::compare::{is_kind, stands_at};
use crate::difference::Difference;
use crate::fault::ensure;
use crate::report::Report;
use desk::Desk;
use editor::{Editor, Kind, words_for};
use memory::{Memory, Pair};
use netlist::{Edit, Refusal};
use std::alloc::{AllocError, Global};
use std::iter;
use words::Store;

const SIGNALS: u32 = 1024;

const LAST: u32 = 1023;

const LIMIT: usize = 2;

// How a chain is entered. It is told to the desks over both stores, which are of two types, where a closure could take one alone.
#[derive(Clone, Copy)]
enum Direction {
    Backward,
    Forward,
}

// Adds a gate of one pin, for which a reply is owed.
fn add<S: Store>(desk: &mut Desk<S>, signal: u32, net: u32, owed: Reply) -> Result<(), Difference> {
    let mut flags = [0; 1024];
    let gate = Edit::Gate {
        signal,
        pins: 1,
        nets: [net, 0, 0, 0],
        table: 2,
    };
    ensure(desk.make_named(gate, &mut flags) == owed, Difference::Reply)
}

fn stands_backward<S: Store>(editor: &Editor<S>) -> bool {
    (0..SIGNALS).all(|place| stands_at(editor, LAST - place, place))
}

// The last signal stands first, and the others behind it.
fn stands_behind_last<S: Store>(editor: &Editor<S>) -> bool {
    (0..LAST).all(|signal| stands_at(editor, signal, signal + 1)) && stands_at(editor, LAST, 0)
}

fn is_empty<S: Store>(editor: &Editor<S>) -> bool {
    (0..SIGNALS).all(|signal| {
        is_kind(editor, signal, Kind::Absent) && stands_at(editor, signal, signal)
    })
}

// The whole chain closed: 0, and then from the last signal down.
fn shows_all(shown: &[u32]) -> bool {
    iter::once(0)
        .chain((1..SIGNALS).rev())
        .eq(shown.iter().copied())
}

// Gate n is on n + 1: each stands before the signal that it is on, so that a put moves all gates entered before. The last closes the loop.
fn build_backward<S: Store>(desk: &mut Desk<S>) -> Result<(), Difference> {
    for signal in 0..LAST {
        add(desk, signal, signal + 1, Ok(signal + 1))?;
    }
    add(desk, LAST, 0, Err(Refusal::Looped))?;
    let editor = desk.editor();
    ensure(shows_all(editor.loop_shown()), Difference::Loop)?;
    ensure(stands_backward(editor), Difference::Order)
}

// Gate n is on n - 1, so that nothing moves; then one put moves all gates.
fn build_forward<S: Store>(desk: &mut Desk<S>) -> Result<(), Difference> {
    for signal in 1..LAST {
        add(desk, signal, signal - 1, Ok(0))?;
    }
    add(desk, 0, LAST, Ok(LAST))?;
    ensure(stands_behind_last(desk.editor()), Difference::Order)
}

fn build<S: Store>(desk: &mut Desk<S>, direction: Direction) -> Result<(), Difference> {
    desk.begin()?;
    match direction {
        Direction::Backward => build_backward(desk),
        Direction::Forward => build_forward(desk),
    }
}

// Builds a chain in a batch, and drops it: each signal is back at its place.
fn try_on<S: Store + Drop>(store: S, direction: Direction) -> Result<(), Difference> {
    let mut desk = Desk::new(store, SIGNALS);
    let built = build(&mut desk, direction);
    let editor = desk.close();
    built?;
    ensure(is_empty(&editor), Difference::Order)
}

fn try_on_both(
    heap: Global,
    direction: Direction,
) -> Result<Pair<Result<(), Difference>>, AllocError> {
    let mut memory = Memory::new(heap, words_for(SIGNALS), LIMIT, 7)?;
    Ok(Pair {
        log: try_on(memory.log(), direction),
        snapshot: try_on(memory.snapshot(), direction),
    })
}

pub fn try_chains(report: &mut Report) -> anyhow::Result<()> {
    let heap = report.rt.alloc();
    report.case(
        "chain of 1024 entered backward, each put moving all before, then closed:",
        try_on_both(heap, Direction::Backward)?,
    )?;
    report.case(
        "chain of 1023 entered forward, then moved by one put:",
        try_on_both(heap, Direction::Forward)?,
    )
}
