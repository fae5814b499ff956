// The ticket of an open batch.
ghost use Rattle.std.specs.Prelude.{◌≡◌};
ghost use Rattle.editor.specs.Plain.{plain};
ghost use Rattle.editor.specs.Steps.{closed, HandsBack};

use netlist::Refusal;

// It cannot be copied or let go: a host that begins a batch has to keep it or to drop it.
pub struct Ticket {
    number: u32,
}

// A keep or a drop that was refused, and the ticket that it hands back.
pub struct Returned {
    pub refusal: Refusal,
    pub ticket: Ticket,
}

impl Ticket {
    pub(crate) fn issue() -> Ticket {
        Ticket { number: 1 }
    }

    // It is spent where the batch was closed, and handed back with a refusal.
    pub(crate) fn settle(self, reply: Result<(), Refusal>) -> Result<(), Returned>
        ensures closed { closed result ≡ plain reply }
        ensures back { HandsBack self result }
    {
        match reply {
            Ok(()) => {
                self.spend();
                Ok(())
            }
            Err(refusal) => Err(Returned {
                refusal,
                ticket: self,
            }),
        }
    }

    fn spend(self) {
        let Ticket { number: _ } = self;
    }
}
