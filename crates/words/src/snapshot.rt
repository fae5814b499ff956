// The store that copies the whole image for each level. Its memory is cut into parts of N words: the present image, and one for each level.
// It has no invariant that speaks of its memory, since it lends that on: sizes are held below what the memory has room for wherever they are
// used.
ghost use Rattle.std.specs.Prelude.{◌≡◌, ◌+◌, ◌*◌, ◌<◌, ◌≤◌, min, ◌⊎◌, length, drop};
ghost use Rattle.std.proofs.Math.Seq.{paste};
ghost use Rattle.words.specs.Making.{Tests, Makes};
ghost use Rattle.words.specs.Snapshot.{width, snapshot_meaning, snapshot_lent};

use crate::memory;
use crate::memory::OverMemory;
use crate::shape::Shape;
use crate::store::{Store, StoreRefusal};

#[derive(Drop)]
pub struct Snapshot<'a> {
    words: &'a mut [u32],
    shape: Shape,
    depth: u8,
}

impl<'a> Snapshot<'a> {
    // Whether the memory serves a store of `size` words and `limit` levels.
    pub fn test(words: &[u32], size: usize, limit: usize) -> Result<(), StoreRefusal>
        ensures { Tests size limit (limit + 1) (length words.now) result }
    {
        memory::test::<Self>(words, size, limit)
    }

    // The store of `size` words, all 0, or where the test refuses the one of no words that leaves the memory alone.
    pub fn new(words: &'a mut [u32], size: usize, limit: usize) -> Snapshot<'a>
        ensures makes { Makes size limit (limit + 1) (length words.old) (snapshot_meaning result.words.now result.shape.size result.shape.limit result.depth) words.old result.words.now }
        ensures lender { result.words.ghost_name ≡ words.entry.ghost_name }
    {
        memory::make(words, size, limit)
    }

    // N, never more than there is memory for
    fn part_size(&self) -> usize
        ensures { result ≡ width (length self.now.words.now) self.now.shape.size self.now.shape.limit }
    {
        self.shape
            .size
            .min(self.words.len() / (self.shape.limit + 1))
    }

    // how many levels are open, never more than the limit
    fn open_levels(&self) -> u8
        ensures { result ≡ min self.now.depth self.now.shape.limit }
    {
        self.depth.min(self.shape.limit as u8)
    }
}

// Copies `size` words from one part of the memory to another, in the form that docs/STORES.md has for it: the memory is handed on whole, and the
// part that is written is lent on, for each word.
fn copy_part(words: &mut [u32], size: usize, from: usize, to: usize)
    requires source { from + size ≤ length words.old }
    requires target { to + size ≤ length words.old }
    requires apart { (from + size ≤ to) ⊎ (to + size ≤ from) }
    ensures { words.new ≡ paste words.old to (drop from words.old) size }
{
    for i in 0..size {
        let word = words[from + i];
        memory::put(&mut words[to..to + size], i, word);
    }
}

// Writes the present image into the part for a level.
fn save(words: &mut [u32], size: usize, level: u8)
    requires { (level + 2) * size ≤ length words.old }
    ensures { words.new ≡ paste words.old ((level + 1) * size) words.old size }
{
    copy_part(words, size, 0, (usize::from(level) + 1) * size);
}

// Makes the image in the part for a level the present one.
fn restore(words: &mut [u32], size: usize, level: u8)
    requires { (level + 2) * size ≤ length words.old }
    ensures { words.new ≡ paste words.old 0 (drop ((level + 1) * size) words.old) size }
{
    copy_part(words, size, (usize::from(level) + 1) * size, 0);
}

impl<'a> OverMemory<'a> for Snapshot<'a> {
    ghost each = { λ limit. limit + 1 };

    ghost memory = { λ s. s.words.now };

    fn each(limit: usize) -> usize
        requires { limit ≤ 8 }
        ensures each { result ≡ limit + 1 }
        ensures image { 0 < result }
    {
        limit + 1
    }

    fn over(words: &'a mut [u32], size: usize, limit: usize) -> Snapshot<'a> {
        Snapshot {
            words,
            shape: Shape { size, limit },
            depth: 0,
        }
    }
}

impl Store for Snapshot<'_> {
    ghost model = { λ s. snapshot_meaning s.words.now s.shape.size s.shape.limit s.depth };

    ghost lent = { λ s. snapshot_lent s.words.ghost_name s.words.now s.shape.size s.shape.limit };

    fn size(&self) -> usize {
        self.part_size()
    }

    fn limit(&self) -> usize {
        self.shape.limit
    }

    fn levels(&self) -> usize {
        usize::from(self.open_levels())
    }

    fn get(&self, at: usize) -> Option<u32> {
        memory::word_at(self.words, self.part_size(), at)
    }

    fn set(&mut self, at: usize, word: u32) -> Result<(), StoreRefusal> {
        if at >= self.part_size() {
            return Err(StoreRefusal::NoSuchWord);
        }
        memory::put(self.words, at, word);
        Ok(())
    }

    fn open_level(&mut self) -> Result<(), StoreRefusal> {
        if usize::from(self.depth) >= self.shape.limit {
            return Err(StoreRefusal::NoLevelLeft);
        }
        let size = self.part_size();
        let level = self.depth;
        save(self.words, size, level);
        self.depth = level + 1;
        Ok(())
    }

    // It and `drop_level` differ by one call, `restore`: a check that refuses for both would need a contract longer than these three lines.
    fn keep_level(&mut self) -> Result<(), StoreRefusal> {
        let depth = self.open_levels();
        if depth == 0 {
            return Err(StoreRefusal::NoLevelOpen);
        }
        self.depth = depth - 1;
        Ok(())
    }

    fn drop_level(&mut self) -> Result<(), StoreRefusal> {
        let depth = self.open_levels();
        if depth == 0 {
            return Err(StoreRefusal::NoLevelOpen);
        }
        let size = self.part_size();
        let level = depth - 1;
        restore(self.words, size, level);
        self.depth = level;
        Ok(())
    }
}
