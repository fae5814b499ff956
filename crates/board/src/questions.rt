// What a board tells of a signal. Any number may be asked about: what is no signal is absent, unused and no output. That the words are sound is a
// premise of clauses, and no invariant: any words may be asked about too.
ghost use Rattle.std.specs.Prelude.{◌≡◌, true, ◌⊎◌, Decides};
ghost use Rattle.netlist.specs.Netlist.{absent, driver_of, output_of, pins_of, Used};
ghost use Rattle.netlist.specs.Edits.{Pinned};
ghost use Rattle.board.specs.Board.{netlist_of, Sound};
ghost use Rattle.board.specs.Kinds.{kind_of};

use crate::field::Field;
use crate::kind::Kind;
use crate::stored::StoredBoard;
use words::Store;

impl<S: Store> StoredBoard<S> {
    // What drives a signal; one that there is not is absent.
    pub fn kind(&self, signal: u32) -> Kind
        ensures { result ≡ kind_of (driver_of (netlist_of self.now.signals self.now.words.image) signal) }
    {
        if signal < self.signals() {
            self.read_kind(signal)
        } else {
            Kind::Absent
        }
    }

    pub fn is_absent(&self, signal: u32) -> bool
        ensures { Decides result (driver_of (netlist_of self.now.signals self.now.words.image) signal ≡ absent) }
    {
        self.kind(signal) == Kind::Absent
    }

    // A gate or a latch has pins.
    pub fn has_pins(&self, signal: u32) -> bool
        ensures { Decides result (Pinned (driver_of (netlist_of self.now.signals self.now.words.image) signal)) }
    {
        matches!(self.kind(signal), Kind::Gate | Kind::Latch)
    }

    // A pin is on the signal where it tells a first one.
    #[tactic(auto, using(crate::proofs::Drivers::tells_used))]
    pub fn is_used(&self, signal: u32) -> bool
        ensures { Sound self.now.signals self.now.words.image
            → Decides result (Used (netlist_of self.now.signals self.now.words.image) signal) }
    {
        self.first_pin(signal) != 0
    }

    #[tactic(auto, using(crate::proofs::Signals::output_at, crate::proofs::Signals::output_past))]
    pub fn is_output(&self, signal: u32) -> bool
        ensures { result ≡ output_of (netlist_of self.now.signals self.now.words.image) signal }
    {
        signal < self.signals() && self.read(Field::Output, signal) == 1
    }

    // A pin is on the signal, or it is an output.
    pub fn is_wanted(&self, signal: u32) -> bool
        ensures { let netlist = netlist_of self.now.signals self.now.words.image in
            Sound self.now.signals self.now.words.image
            → Decides result (Used netlist signal ⊎ (output_of netlist signal ≡ true)) }
    {
        self.is_used(signal) || self.is_output(signal)
    }
}
