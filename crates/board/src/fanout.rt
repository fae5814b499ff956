// The gates that a signal feeds, told from the chain of the pins on it.
ghost use Rattle.std.specs.Prelude.{◌≡◌};
ghost use Rattle.std.specs.Option.{unwrap_or};
ghost use Rattle.board.specs.Fanout.{nowhere, gate_of_lem, upward as upward_of, rest_of, fed_by};

use crate::field::Field;
use crate::kind::Kind;
use crate::stored::StoredBoard;
use reach::{Neighbour, Relation};
use words::Store;

// What a pin tells that has no gate to tell: a search passes over a number that is no signal's.
const NOWHERE: u32 = u32::MAX;

// The gates that stand no further than `upto`, but the start. An edge is a link of a chain.
#[derive(Clone, Copy)]
pub struct Fanout<'a, S: Store> {
    pub board: &'a StoredBoard<S>,
    pub upto: u32,
    pub start: u32,
}

impl<S: Store> Relation for Fanout<'_, S> {
    ghost follows = { λ f x. fed_by f.board.now.signals f.board.now.words.image f.upto f.start x };

    ghost rest = { λ f edge. rest_of f.board.now.signals f.board.now.words.image f.upto f.start edge };

    fn first(&self, of: u32) -> u32 {
        self.board.first_pin(of)
    }

    fn step(&self, edge: u32) -> Option<Neighbour> {
        let pin = edge.checked_sub(1)?;
        if !self.board.has_pin(pin) {
            return None;
        }
        let link = self.board.read(Field::Next, pin);
        Some(Neighbour {
            number: self.gate_of(pin).unwrap_or(NOWHERE),
            next: upward(edge, link),
        })
    }
}

impl<S: Store> Fanout<'_, S> {
    // Whom a pin belongs to, if that is a gate to tell.
    fn gate_of(&self, pin: u32) -> Option<u32>
        ensures { unwrap_or result nowhere ≡ gate_of_lem self.now.board.now.signals self.now.board.now.words.image self.now.upto self.now.start pin }
    {
        let signal = pin / 4;
        if self.board.read_kind(signal) != Kind::Gate || signal == self.start {
            return None;
        }
        (self.board.read(Field::Seat, signal) <= self.upto).then_some(signal)
    }
}

// A link that does not lead upward ends its chain.
fn upward(edge: u32, link: u32) -> u32
    ensures { result ≡ upward_of edge link }
{
    if edge < link { link } else { 0 }
}
