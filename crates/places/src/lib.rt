// The places of signals: putting a pin of a gate on a signal, so that the gate stands behind it.
#![tactic(auto)]

mod put;
mod refill;
mod span;

pub use put::put_pin;
