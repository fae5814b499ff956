// The memory that a host lends to a store of words, with room for either store.
#![tactic(auto)]

mod pair;

ghost use Rattle.std.specs.Prelude.{◌≡◌, IfOk, replicate};
ghost use Rattle.std.specs.Borrow.{sem};
ghost use Rattle.memory.specs.Room.{Host, room, Tests, Gives};
ghost use Rattle.memory.specs.Lending.{LendsWords};

pub use pair::Pair;
use std::alloc::{AllocError, Global};
use std::marker::Model;
use words::{InverseLog, LEVELS_MOST, Snapshot, Store, StoreRefusal, WORDS_MOST};

#[derive(Drop)]
pub struct Memory {
    words: Vec<u32>,
    // N and D of the stores
    size: usize,
    limit: usize,
}

impl Model for Memory {
    ghost use Rattle.std.specs.Prelude.{◌≡◌, vec_len};
    ghost use Rattle.memory.specs.Room.{Host, room};

    ghost Value = { Host };

    ghost view = { λ m. record { words = m.words.items; size = m.size; limit = m.limit } };

    ghost invariant = { λ m. vec_len m.words ≡ room m.size m.limit };
}

impl Memory {
    // Memory for a store of `size` words and `limit` levels, all of it `fill`. For more words or levels than a store can have it has room for
    // the most: making such a store refuses by itself.
    pub fn new(heap: Global, size: usize, limit: usize, fill: u32) -> Result<Memory, AllocError>
        ensures { IfOk result (λ m. m ≡ record { words = replicate (room size limit) fill; size = size; limit = limit }) }
    {
        let long = size.min(WORDS_MOST) * (3 * limit.min(LEVELS_MOST) + 2);
        Ok(Memory {
            words: vec![in heap; fill; long]?,
            size,
            limit,
        })
    }

    // Whether stores of these N and D are served.
    pub fn test(&self) -> Result<(), StoreRefusal>
        ensures { Tests self.now result }
    {
        InverseLog::test(&self.words, self.size, self.limit)
    }

    // An inverse log over the memory.
    pub fn log(&mut self) -> InverseLog<'_>
        ensures* lends { sem 𝓛 (LendsWords self.entry result.words) }
        ensures gives { Gives self.old (⟦<InverseLog<'static> as Store>⟧.model result) result.words.now }
    {
        let size = self.size;
        let limit = self.limit;
        InverseLog::new(&mut self.words, size, limit)
    }

    // A snapshot over the memory. It and `log` differ in whose `new` is called: one function for both would take a trait of makings that is
    // longer than they are.
    pub fn snapshot(&mut self) -> Snapshot<'_>
        ensures* lends { sem 𝓛 (LendsWords self.entry result.words) }
        ensures gives { Gives self.old (⟦<Snapshot<'static> as Store>⟧.model result) result.words.now }
    {
        let size = self.size;
        let limit = self.limit;
        Snapshot::new(&mut self.words, size, limit)
    }
}

#[cfg(test)]
mod tests {
    use super::*;
    use std::test::Fail;

    #[test]
    fn memory_has_room_for_both_stores(rt: HostRuntime) -> Result<(), Fail> {
        let mut memory = Memory::new(rt.alloc(), 5, 3, 7)?;
        assert_eq!(rt; memory.log().size(), 5);
        assert_eq!(rt; memory.snapshot().size(), 5);
        assert_eq!(rt; memory.snapshot().get(4), Some(0));
        assert_eq!(rt; memory.test(), Ok(()));
        Ok(())
    }

    #[test]
    fn no_store_has_more_words(rt: HostRuntime) -> Result<(), Fail> {
        let mut memory = Memory::new(rt.alloc(), 65537, 2, 7)?;
        assert_eq!(rt; memory.log().size(), 0);
        assert_eq!(rt; memory.snapshot().size(), 0);
        assert_eq!(rt; memory.test(), Err(StoreRefusal::Unfit));
        Ok(())
    }
}
