// Where an editor does not do as the rules say.
use crate::call::Reply;
use editor::Call;
use netlist::Refusal;
use std::fmt::{self, Display, Formatter, Write};

// The first thing in which an editor differs from the rules.
#[derive(Clone, Copy)]
pub enum Difference {
    // the model does not reply what is written down
    Model,
    Reply,
    Flags,
    Signals,
    Levels,
    Order,
    Netlist,
    Missing,
    Loop,
    // what is told of a store before an editor is made
    Test,
    // who holds a ticket after a call
    Ticket,
    // of a call that has to be accepted
    Refused(Refusal),
}

impl From<Refusal> for Difference {
    fn from(refusal: Refusal) -> Difference {
        Difference::Refused(refusal)
    }
}

impl Display for Difference {
    fn fmt<W: Write>(&self, f: &mut Formatter<W>) -> fmt::Result {
        let told = match self {
            Difference::Refused(refusal) => return write!(f, "a refusal, {refusal:?}"),
            Difference::Model => "the model",
            Difference::Reply => "the reply",
            Difference::Flags => "a flag left set",
            Difference::Signals => "the number of signals",
            Difference::Levels => "the levels",
            Difference::Order => "the order",
            Difference::Netlist => "the netlist",
            Difference::Missing => "the absent signal in use",
            Difference::Loop => "the loop shown",
            Difference::Test => "the test of the store",
            Difference::Ticket => "the ticket",
        };
        f.write_str(told)
    }
}

// A difference, and the call and the reply at which it shows.
#[derive(Clone, Copy)]
pub struct Finding {
    pub difference: Difference,
    pub call: Call,
    pub reply: Reply,
}

impl Display for Finding {
    fn fmt<W: Write>(&self, f: &mut Formatter<W>) -> fmt::Result {
        let Finding {
            difference,
            call,
            reply,
        } = self;
        write!(f, "{difference}, at {call:?}, {reply:?}")
    }
}
