// The name table.
ghost use Rattle.std.specs.Prelude.{◌≡◌, ◌≤◌, [], length, take, IfOk, Some, codes, MatchOption, MatchResult};
ghost use Rattle.std.specs.List.{slice_get};
ghost use Rattle.std.specs.Option.{option_map};
ghost use Rattle.names.specs.Names.{position, Apart, Stays, spellings};
ghost use Rattle.names.specs.Numbers.{Enters};

use crate::faults::NameFault;
use crate::signals::Signals;
use std::alloc::{AllocError, Global};
use text::Word;

// The model's name, and the names of the signals, each at its number.
#[derive(Drop)]
pub struct NameTable {
    model: Vec<u8>,
    signals: Signals,
}

impl NameTable {
    // No signal has a name yet, and the model is called `top`.
    pub fn new(heap: Global) -> Result<NameTable, AllocError>
        ensures { IfOk result (λ t. (t.signals ≡ []) × (t.model.items ≡ codes "top")) }
    {
        Ok(NameTable {
            model: Vec::from_slice(heap, b"top")?,
            signals: Signals::new(heap),
        })
    }

    // How many signals have names; each name has its place as its number, so that no name stands twice.
    pub fn len(&self) -> usize
        ensures len { result ≡ length self.now.signals }
        ensures apart { Apart self.now.signals }
    {
        self.signals.len()
    }

    // The number of a name.
    pub fn find(&self, name: &[u8]) -> Option<u32>
        ensures { result ≡ position self.now.signals name.now }
    {
        self.signals.find(name)
    }

    // The name that has a number; it is the only one that has it.
    pub fn name(&self, number: u32) -> Option<&[u8]>
        ensures value { option_map (λ x. x.now) result ≡ slice_get self.now.signals number }
        ensures number { MatchOption result (length self.now.signals ≤ number) (λ x. position self.now.signals x.now ≡ Some number) }
    {
        self.signals.name(number)
    }

    pub fn model(&self) -> &[u8]
        ensures { result.now ≡ self.now.model.items }
    {
        &self.model
    }

    // The model gets another name.
    pub fn set_model(&mut self, name: &[u8]) -> Result<(), AllocError>
        ensures model { MatchResult result (λ _. self.new.model.items ≡ name.now) (λ _. self.new.model.items ≡ self.old.model.items) }
        ensures names { self.new.signals ≡ self.old.signals }
    {
        self.model = Vec::from_slice(*self.model.allocator(), name)?;
        Ok(())
    }

    // The names of a line, in the order of its words: all of them are entered, or none. Each must have a number below `room`.
    pub fn enter(&mut self, words: &[Word], room: u32) -> Result<(), NameFault>
        ensures names { Enters room self.old.signals self.new.signals (spellings words.now) result }
        ensures stay { Stays self.old.signals self.new.signals }
        ensures front { take (length self.old.signals) self.new.signals ≡ self.old.signals }
        ensures model { self.new.model.items ≡ self.old.model.items }
    {
        self.signals.enter(words, room)
    }

    // All names but the first `count` are taken back. What `len` told before `enter` takes back the line's alone: so the two test whether a line has
    // room, at the cost of its words. To count its new names without entering them would need memory too, or a pass over the line for each word.
    pub fn truncate(&mut self, count: usize)
        ensures names { self.new.signals ≡ take count self.old.signals }
        ensures model { self.new.model.items ≡ self.old.model.items }
    {
        self.signals.truncate(count);
    }
}
