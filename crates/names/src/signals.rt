// The names of the signals.
ghost use Rattle.std.specs.Prelude.{◌≡◌, ◌-◌, [], ◌∷◌, ◌++◌, length, take, None, MatchResult};
ghost use Rattle.std.specs.List.{slice_get};
ghost use Rattle.std.specs.Option.{option_map};
ghost use Rattle.names.specs.declared.faults.NameFault.TheVariants.{Memory};
ghost use Rattle.names.specs.Names.{position, Apart, spellings};
ghost use Rattle.names.specs.Numbers.{Enters, Adds};

use crate::faults::NameFault;
use std::alloc::Global;
use std::collections::BTreeMap;
use std::marker::Model;
use text::Word;

// Each name at its number, seen as their list. `numbers` finds the number of a name.
#[derive(Drop)]
pub(crate) struct Signals {
    names: Vec<Vec<u8>>,
    numbers: BTreeMap<Vec<u8>, u32>,
}

impl Model for Signals {
    ghost use Rattle.std.specs.Prelude.{List, ℕ};
    ghost use Rattle.names.specs.Names.{listed};
    ghost use Rattle.names.specs.Maps.{Numbered};

    ghost Value = { List (List ℕ) };

    ghost view = { λ s. listed s.names };

    ghost invariant = { λ s. Numbered s.numbers (listed s.names) };
}

impl Signals {
    pub(crate) fn new(heap: Global) -> Signals
        ensures { result ≡ [] }
    {
        Signals {
            names: Vec::new(heap),
            numbers: BTreeMap::new(heap),
        }
    }

    pub(crate) fn len(&self) -> usize
        ensures len { result ≡ length self.now }
        ensures apart { Apart self.now }
    {
        self.names.len()
    }

    pub(crate) fn find(&self, name: &[u8]) -> Option<u32>
        ensures { result ≡ position self.now name.now }
    {
        self.numbers.get(name).copied()
    }

    pub(crate) fn name(&self, number: u32) -> Option<&[u8]>
        ensures value { option_map (λ x. x.now) result ≡ slice_get self.now number }
        ensures apart { Apart self.now }
    {
        self.names.get(number as usize).map(|name| name.as_slice())
    }

    // A new name gets the next number.
    fn push(&mut self, name: &[u8], number: u32) -> Result<(), NameFault>
        requires fresh { position self.old name.now ≡ None }
        requires next { number ≡ length self.old }
        ensures { MatchResult result (λ _. self.new ≡ self.old ++ name.now ∷ []) (λ f. (f ≡ Memory) × (self.new ≡ self.old)) }
    {
        let heap = *self.names.allocator();
        let key = Vec::from_slice(heap, name)?;
        let copy = Vec::from_slice(heap, name)?;
        self.names.reserve(1)?;
        self.numbers.insert(key, number)?;
        self.names.push_reserved(copy);
        Ok(())
    }

    // The last name and its number are taken back.
    fn pop(&mut self)
        ensures { self.new ≡ take (length self.old - 1) self.old }
    {
        if let Some(name) = self.names.pop() {
            let _ = self.numbers.remove(&name);
        }
    }

    // All names but the first `count` are taken back.
    pub(crate) fn truncate(&mut self, count: usize)
        ensures { self.new ≡ take count self.old }
    {
        while self.len() > count {
            self.pop();
        }
    }

    // A new name gets the next number, if that is below `room`.
    fn append(&mut self, name: &[u8], room: u32) -> Result<(), NameFault>
        requires { position self.old name.now ≡ None }
        ensures { Adds room self.old self.new name.now result }
    {
        let next = self.len();
        if next >= room as usize {
            return Err(NameFault::NoRoom);
        }
        self.push(name, next as u32)
    }

    // A name that is not there yet gets the next number. Its number must be below `room`.
    fn add(&mut self, name: &[u8], room: u32) -> Result<(), NameFault>
        ensures { Adds room self.old self.new name.now result }
    {
        match self.find(name) {
            Some(number) if number < room => Ok(()),
            Some(_) => Err(NameFault::NoRoom),
            None => self.append(name, room),
        }
    }

    // All names of a line, or none: at a refusal those that it added are taken back.
    pub(crate) fn enter(&mut self, words: &[Word], room: u32) -> Result<(), NameFault>
        ensures { Enters room self.old self.new (spellings words.now) result }
    {
        let before = self.len();
        for word in words {
            if let Err(fault) = self.add(word.bytes, room) {
                self.truncate(before);
                return Err(fault);
            }
        }
        Ok(())
    }
}
