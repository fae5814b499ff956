// An editor and the model, played side by side until they differ.
use crate::call::{Reply, Shape, Step};
use crate::difference::{Difference, Finding};
use crate::fault::{Fault, ensure, settle};
use crate::model::Model;
use crate::plan::Plan;
use crate::play::{Way, play};
use desk::Desk;
use editor::{Call, words_for};
use memory::{Memory, Pair};
use std::alloc::{AllocError, Global};
use std::collections::BTreeMap;
use std::fmt::{self, Display, Formatter, Write};
use words::Store;

// How many calls were accepted and the sum of their counts, and how many were refused with each number.
#[derive(Drop)]
pub struct Tally {
    accepted: u32,
    moved: u32,
    refused: BTreeMap<u32, u32>,
}

impl Tally {
    fn new(heap: Global) -> Tally {
        Tally {
            accepted: 0,
            moved: 0,
            refused: BTreeMap::new(heap),
        }
    }

    fn count(&mut self, reply: Reply) -> Result<(), AllocError> {
        match reply {
            Ok(count) => {
                self.accepted = self.accepted.saturating_add(1);
                self.moved = self.moved.saturating_add(count);
            }
            Err(refusal) => {
                let count = self.refused.entry(refusal.number())?.or_insert(0);
                *count = count.saturating_add(1);
            }
        }
        Ok(())
    }

    pub fn calls(&self) -> u32 {
        self.refused
            .values()
            .fold(self.accepted, |sum, count| sum.saturating_add(*count))
    }
}

// Of the refusals each number that was given, and how many times.
impl Display for Tally {
    fn fmt<W: Write>(&self, f: &mut Formatter<W>) -> fmt::Result {
        let accepted = self.accepted;
        let moved = self.moved;
        write!(f, "{accepted} accepted, {moved} moved; refused")?;
        for (number, count) in &self.refused {
            write!(f, " {number} x {count}")?;
        }
        Ok(())
    }
}

// The first difference, if there is one.
pub type Verdict = Result<(), Finding>;

// A plan tried over a store: the replies that were owed, and how it went.
#[derive(Drop)]
pub struct Trial {
    pub tally: Tally,
    pub verdict: Verdict,
}

// A plan, and the shape of the editors that it is tried on.
#[derive(Clone, Copy)]
pub struct Case<P> {
    pub heap: Global,
    pub shape: Shape,
    pub plan: P,
}

impl<P: Plan + Copy> Case<P> {
    pub fn try_on_both(self, way: Way) -> Result<Pair<Trial>, AllocError> {
        let size = words_for(self.shape.signals.min(2048));
        let mut memory = Memory::new(self.heap, size, self.shape.limit, 7)?;
        Ok(Pair {
            log: self.try_editor(memory.log(), way)?,
            snapshot: self.try_editor(memory.snapshot(), way)?,
        })
    }

    // Makes an editor over a store, and plays the plan on it and on the model. A batch that is still open then is dropped.
    fn try_editor<S: Store + Drop>(self, store: S, way: Way) -> Result<Trial, AllocError> {
        let mut desk = Desk::new(store, self.shape.signals);
        let mut tally = Tally::new(self.heap);
        let outcome = self.play_out(|model, call, owed| {
            tally.count(owed)?;
            play(&mut desk, call, way, model, owed).map_err(Fault::Told)
        });
        let _ = desk.close();
        Ok(Trial {
            tally,
            verdict: settle(outcome)?,
        })
    }

    // Plays the plan on the model alone, which has to give the replies that are written down.
    pub fn try_model(self) -> Result<Verdict, AllocError> {
        settle(self.play_out(|_, _, _| Ok(())))
    }

    // Plays the plan on the model, and hands on each call and what is owed for it, until there is a difference.
    fn play_out<F: FnMut(&Model, Call, Reply) -> Result<(), Fault<Finding>>>(
        self,
        mut follow: F,
    ) -> Result<(), Fault<Finding>>
        requires { F.IsAlwaysCallable follow }
    {
        let mut plan = self.plan;
        let mut model = Model::new(self.heap, self.shape)?;
        while let Some(step) = plan.next_step(&model) {
            let owed = model.play(step.call)?;
            check(step, owed).map_err(Fault::Told)?;
            follow(&model, step.call, owed)?;
        }
        Ok(())
    }
}

// The model has to reply what is written down.
fn check(step: Step, owed: Reply) -> Verdict {
    let finding = Finding {
        difference: Difference::Model,
        call: step.call,
        reply: owed,
    };
    ensure(step.meets(owed), finding)
}
