// The chains of pins: a pin goes onto a signal, or off the one that it is on. That the chains are right is a premise of clauses: on any words
// each call is safe and ends. A pin or a signal that there is not is passed over.
ghost use Rattle.std.specs.Prelude.{◌≡◌, suc, ◌*◌, ◌<◌, ◌≤◌, slice_set};
ghost use Rattle.board.specs.Layout.{pin as pin_of};
ghost use Rattle.board.specs.Chain.{Least, Greatest, Chained, Repins};
ghost use Rattle.board.specs.Links.{onward_at, backed, joined, inserted, removed};
ghost use Rattle.board.specs.Stored.{OnlyWords, reworded};

use crate::field::Field;
use crate::stored::StoredBoard;
use words::Store;

// Two neighbours in a chain, each as a link: 0, or one more than the number of a pin. So the words tell it, and so a walk compares links.
#[derive(Clone, Copy)]
struct Gap {
    before: u32,
    behind: u32,
}

impl<S: Store> StoredBoard<S> {
    // Pin number `pin`, which is on no signal, goes onto `signal`.
    pub fn attach(&mut self, pin: u32, signal: u32)
        ensures attaches { Chained self.old.signals self.old.words.image
            → pin < 4 * self.old.signals
            → signal < self.old.signals
            → pin_of self.old.signals self.old.words.image pin ≡ 0
            → Repins self.old.signals self.old.words.image pin (suc signal) self.new.words.image }
        ensures no_pin { 4 * self.old.signals ≤ pin → self.new ≡ self.old }
        ensures no_signal { self.old.signals ≤ signal → self.new ≡ self.old }
        ensures only { OnlyWords self.old self.new }
    {
        if !self.has_pin(pin) || signal >= self.signals() {
            return;
        }
        let gap = self.find_gap(pin, signal);
        self.insert(pin, signal, gap);
    }

    // Pin number `pin` goes off the signal that it is on, if it is on one.
    pub fn detach(&mut self, pin: u32)
        ensures detaches { Chained self.old.signals self.old.words.image
            → pin < 4 * self.old.signals
            → 0 < pin_of self.old.signals self.old.words.image pin
            → Repins self.old.signals self.old.words.image pin 0 self.new.words.image }
        ensures idle { pin_of self.old.signals self.old.words.image pin ≡ 0 → self.new ≡ self.old }
        ensures no_pin { 4 * self.old.signals ≤ pin → self.new ≡ self.old }
        ensures only { OnlyWords self.old self.new }
    {
        if !self.has_pin(pin) {
            return;
        }
        let on = self.read(Field::Pin, pin);
        if on == 0 {
            return;
        }
        let gap = Gap {
            before: self.read(Field::Back, pin),
            behind: self.read(Field::Next, pin),
        };
        self.remove(pin, on - 1, gap);
    }

    // Where a pin belongs in the chain of a signal. The walk goes upward only, so that it ends on any words.
    fn find_gap(&self, pin: u32, signal: u32) -> Gap
        ensures { Chained self.now.signals self.now.words.image → pin < 4 * self.now.signals → signal < self.now.signals → Greatest (pin_of self.now.signals self.now.words.image) (suc signal) pin result.before × Least (pin_of self.now.signals self.now.words.image) (4 * self.now.signals) (suc signal) pin result.behind }
    {
        let mut before = 0;
        let mut behind = self.read(Field::First, signal);
        while before < behind && behind <= pin {
            before = behind;
            behind = self.read(Field::Next, before - 1);
        }
        Gap { before, behind }
    }

    fn insert(&mut self, pin: u32, signal: u32, gap: Gap)
        requires { (pin < 4294967295) × (signal < 4294967295) }
        ensures { self.new ≡ reworded self.old (inserted self.old.signals self.old.words.image pin signal gap.before gap.behind) }
    {
        self.write(Field::Pin, pin, signal + 1);
        self.write(Field::Next, pin, gap.behind);
        self.write(Field::Back, pin, gap.before);
        self.join(signal, gap, pin + 1, pin + 1);
    }

    fn remove(&mut self, pin: u32, signal: u32, gap: Gap)
        ensures { self.new ≡ reworded self.old (removed self.old.signals self.old.words.image pin signal gap.before gap.behind) }
    {
        self.write(Field::Pin, pin, 0);
        self.join(signal, gap, gap.behind, gap.before);
    }

    // The neighbour before leads onward to one link, and the neighbour behind leads back to another.
    fn join(&mut self, signal: u32, gap: Gap, onward: u32, back: u32)
        ensures { self.new ≡ reworded self.old (joined self.old.signals self.old.words.image signal gap.before gap.behind onward back) }
    {
        self.lead_onward(signal, gap.before, onward);
        self.lead_back(gap.behind, back);
    }

    // What comes after a link in the chain of a signal is another link.
    fn lead_onward(&mut self, signal: u32, link: u32, onward: u32)
        ensures { self.new ≡ reworded self.old (slice_set self.old.words.image (onward_at self.old.signals signal link) onward) }
    {
        if link == 0 {
            self.write(Field::First, signal, onward);
        } else {
            self.write(Field::Next, link - 1, onward);
        }
    }

    // The pin at a link, if there is one, leads back to another link.
    fn lead_back(&mut self, link: u32, back: u32)
        ensures { self.new ≡ reworded self.old (backed self.old.signals self.old.words.image link back) }
    {
        if link != 0 {
            self.write(Field::Back, link - 1, back);
        }
    }
}
