// A call to be tried, and what it has to reply.
use editor::Call;
use netlist::Refusal;

// M and D of an editor. No call of a library takes both, a store being made for D and an editor for M, so that none has this type. D is of the type of
// a store's levels; in `console`, which has such a type too, it is a number that was read.
#[derive(Clone, Copy)]
pub struct Shape {
    pub signals: u32,
    pub limit: usize,
}

// The count, which is 0 for a call that has none.
pub type Reply = Result<u32, Refusal>;

// The reply that is written down, a refusal by the number that the rules give it.
pub type Expected = Result<u32, u32>;

#[derive(Clone, Copy)]
pub struct Step {
    pub call: Call,
    // if it is written down
    pub expected: Option<Expected>,
}

impl Step {
    // Whether a reply is the one that is written down, if one is.
    pub fn meets(self, reply: Reply) -> bool {
        self.expected
            .is_none_or(|expected| reply.map_err(Refusal::number) == expected)
    }
}
