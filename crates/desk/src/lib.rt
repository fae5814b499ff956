// An editor with the ticket of its open batch, so that none is left over.
#![tactic(auto)]

mod desk;

pub use desk::Desk;
