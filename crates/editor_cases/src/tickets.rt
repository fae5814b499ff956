// A ticket of another editor is a ticket: an editor without a batch hands it back, and one with a batch takes it.
ghost use Rattle.std.specs.Prelude.{◌≡◌};

use crate::difference::Difference;
use crate::fault::ensure;
use crate::report::Report;
use desk::Desk;
use editor::words_for;
use memory::{Memory, Pair};
use netlist::Refusal;
use words::Store;

const SIGNALS: u32 = 3;

const LIMIT: usize = 3;

// Keep, then drop, at an editor that has to hand back the ticket of another with a refusal.
fn hand_in<A: Store, B: Store>(
    first: &mut Desk<A>,
    second: &mut Desk<B>,
    refusal: Refusal,
) -> Result<(), Difference>
    ensures own { first.new ≡ first.old }
    ensures other { second.new ≡ second.old }
{
    ensure(first.keep_at(second) == Some(refusal), Difference::Ticket)?;
    ensure(first.drop_at(second) == Some(refusal), Difference::Ticket)
}

// The ticket of the first editor goes to the one without signals, to the second without a batch, and is taken by the second with one,
// whose own ticket the first then takes.
fn exchange<A: Store, B: Store, C: Store>(
    first: &mut Desk<A>,
    second: &mut Desk<B>,
    none: &mut Desk<C>,
) -> Result<(), Difference> {
    first.begin()?;
    hand_in(first, none, Refusal::NoEditor)?;
    hand_in(first, second, Refusal::NoBatch)?;
    swap_tickets(first, second)
}

// The second drops with the ticket of the first, and the first keeps with that of the second.
fn swap_tickets<A: Store, B: Store>(
    first: &mut Desk<A>,
    second: &mut Desk<B>,
) -> Result<(), Difference> {
    second.begin()?;
    ensure(first.swap(second), Difference::Ticket)?;
    second.drop_batch()?;
    first.keep()?;
    let levels = first.editor().levels().max(second.editor().levels());
    ensure(levels == 0, Difference::Levels)
}

// Over three stores of one kind; the third makes an editor of no signals.
fn try_on<S: Store + Drop>(first: S, second: S, none: S) -> Result<(), Difference> {
    let mut first = Desk::new(first, SIGNALS);
    let mut second = Desk::new(second, SIGNALS);
    let mut none = Desk::new(none, 0);
    let verdict = exchange(&mut first, &mut second, &mut none);
    let _ = first.close();
    let _ = second.close();
    let _ = none.close();
    verdict
}

pub fn try_tickets(report: &mut Report) -> anyhow::Result<()> {
    let heap = report.rt.alloc();
    let mut first = Memory::new(heap, words_for(SIGNALS), LIMIT, 7)?;
    let mut second = Memory::new(heap, words_for(SIGNALS), LIMIT, 7)?;
    let mut none = Memory::new(heap, words_for(SIGNALS), LIMIT, 7)?;
    let verdicts = Pair {
        log: try_on(first.log(), second.log(), none.log()),
        snapshot: try_on(first.snapshot(), second.snapshot(), none.snapshot()),
    };
    report.case(
        "tickets of another editor: handed back with 10 and 1, taken by an open batch:",
        verdicts,
    )
}
