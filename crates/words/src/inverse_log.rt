// The store that notes a word's former value the first time that a level writes it. Its memory is cut into blocks of N words: the present
// image, and for each level the words that it has noted, their former values, and for each word its place among these. A place counts only
// where that word is noted there, so opening a level clears nothing.
ghost use Rattle.std.specs.Prelude.{◌≡◌, ℕ, ◌+◌, ◌-◌, ◌*◌, ◌<◌, ◌≤◌, MatchBool, length, take, drop, set, Ok, slice_index, slice_set};
ghost use Rattle.arrayvec.specs.ArrayVec.{array_vec_len};
ghost use Rattle.words.specs.Making.{Tests, Makes};
ghost use Rattle.words.specs.Meaning.{Keeps, Drops};
ghost use Rattle.words.specs.InverseLog.{log_meaning, log_lent, word_at, value_at, pile, NoteAt, Within, Placed};

use crate::memory;
use crate::memory::OverMemory;
use crate::shape::Shape;
use crate::store::{Store, StoreRefusal};
use arrayvec::ArrayVec;

#[derive(Drop)]
pub struct InverseLog<'a> {
    words: &'a mut [u32],
    shape: Shape,
    // how many words each open level has noted
    noted: ArrayVec<usize, 8>,
    ghost room: { shape.size * (3 * shape.limit + 2) ≤ length words.now },
    ghost shallow: { array_vec_len noted ≤ shape.limit },
    ghost counted: { (level : ℕ) → level < array_vec_len noted → slice_index noted.items level ≤ shape.size },
    ghost within: { Within words.now shape.size (array_vec_len noted) noted.items },
    ghost placed: { Placed words.now shape.size (array_vec_len noted) noted.items },
}

impl<'a> InverseLog<'a> {
    // Whether the memory serves a store of `size` words and `limit` levels.
    pub fn test(words: &[u32], size: usize, limit: usize) -> Result<(), StoreRefusal>
        ensures { Tests size limit (3 * limit + 2) (length words.now) result }
    {
        memory::test::<Self>(words, size, limit)
    }

    // The store of `size` words, all 0, or where the test refuses the one of no words that leaves the memory alone.
    pub fn new(words: &'a mut [u32], size: usize, limit: usize) -> InverseLog<'a>
        ensures makes { Makes size limit (3 * limit + 2) (length words.old) (log_meaning result.words.now result.shape.size result.shape.limit (array_vec_len result.noted) result.noted.items) words.old result.words.now }
        ensures lender { result.words.ghost_name ≡ words.entry.ghost_name }
    {
        memory::make(words, size, limit)
    }
}

impl InverseLog<'_> {
    ghost use Rattle.words.specs.LogSteps.{IsOpen, HasNotedWord, Noted, Stays, meaning_of, meaning_below, undone};

    // That a level is open is a clause here and below, and no type: a level is a number, and no type of it can follow the store as levels open
    // and close.
    fn has_noted(&self, level: usize, at: usize) -> bool
        requires { IsOpen self.now level × (at < self.now.shape.size) }
        ensures { MatchBool result (HasNotedWord self.now level at) (HasNotedWord self.now level at → ⊥) }
    {
        let place = self.words[self.shape.cell(3 * level + 3, at)] as usize;
        place < self.noted[level]
            && self.words[self.shape.cell(3 * level + 1, place)] as usize == at
    }

    // The word that a level noted at a place, and the value that it had.
    fn noted_at(&self, level: usize, place: usize) -> (usize, u32)
        requires { NoteAt (array_vec_len self.now.noted) self.now.noted.items level place }
        ensures word { result.0 ≡ word_at self.now.words.now self.now.shape.size level place }
        ensures value { result.1 ≡ value_at self.now.words.now self.now.shape.size level place }
    {
        let word = self.words[self.shape.cell(3 * level + 1, place)];
        let value = self.words[self.shape.cell(3 * level + 2, place)];
        (word as usize, value)
    }

    // Notes a word's former value in a level, unless the level has noted that word.
    fn note(&mut self, level: usize, at: usize, former: u32)
        requires { IsOpen self.old level × (at < self.old.shape.size) }
        ensures notes { Noted level (λ image. set image at former) self.old self.new }
        ensures stays { Stays self.old self.new }
    {
        if self.has_noted(level, at) {
            return;
        }
        let count = self.noted[level];
        let word_cell = self.shape.cell(3 * level + 1, count);
        let value_cell = self.shape.cell(3 * level + 2, count);
        let place_cell = self.shape.cell(3 * level + 3, at);
        self.words[word_cell] = at as u32;
        self.words[value_cell] = former;
        self.words[place_cell] = count as u32;
        self.noted[level] = count + 1;
    }

    // Notes a word's present value in the newest level, if there is one: whatever is written to that word then, the saved images stay.
    fn remember(&mut self, at: usize)
        requires { at < self.old.shape.size }
        ensures image { take self.old.shape.size self.new.words.now ≡ take self.old.shape.size self.old.words.now }
        ensures saved { (word : ℕ) → pile self.new.words.now self.old.shape.size self.new.noted.items (array_vec_len self.old.noted) (slice_set (take self.old.shape.size self.old.words.now) at word) ≡ pile self.old.words.now self.old.shape.size self.old.noted.items (array_vec_len self.old.noted) (take self.old.shape.size self.old.words.now) }
        ensures stays { Stays self.old self.new }
    {
        let Some(level) = self.noted.len().checked_sub(1) else {
            return;
        };
        let former = self.words[at];
        self.note(level, at, former);
    }

    // Writes one word of the present image.
    fn write(&mut self, at: usize, word: u32)
        requires { at < self.old.shape.size }
        ensures words { self.new.words.now ≡ slice_set self.old.words.now at word }
        ensures noted { self.new.noted ≡ self.old.noted }
        ensures stays { Stays self.old self.new }
    {
        self.words[at] = word;
    }

    // Writes back what a level has noted, the newest first.
    fn undo_notes(&mut self, level: usize)
        requires { IsOpen self.old level }
        ensures image { take self.old.shape.size self.new.words.now ≡ undone self.old level (take self.old.shape.size self.old.words.now) }
        ensures rest { drop self.old.shape.size self.new.words.now ≡ drop self.old.shape.size self.old.words.now }
        ensures noted { self.new.noted ≡ self.old.noted }
        ensures stays { Stays self.old self.new }
    {
        // by their places, since an iterator over the notes would hold the memory that is written
        for place in (0..self.noted[level]).rev() {
            let (word, value) = self.noted_at(level, place);
            self.words[word] = value;
        }
    }

    // Notes in the level below what a level has noted.
    fn merge_down(&mut self, level: usize)
        requires { (0 < level) × IsOpen self.old level }
        ensures notes { Noted (level - 1) (undone self.old level) self.old self.new }
        ensures stays { Stays self.old self.new }
    {
        // by their places, for the same reason
        for place in 0..self.noted[level] {
            let (word, value) = self.noted_at(level, place);
            self.note(level - 1, word, value);
        }
    }

    // Hands the notes of the newest level to the level below it, if there is one: without that level, the store means what keep leaves.
    fn hand_down(&mut self)
        requires { IsOpen self.old 0 }
        ensures keeps { Keeps (meaning_of self.old) (meaning_below self.new) (Ok tt) }
        ensures stays { Stays self.old self.new }
    {
        let level = self.noted.len() - 1;
        if level > 0 {
            self.merge_down(level);
        }
    }

    // Takes back what the newest level has noted: without that level, the store means what drop leaves.
    fn take_back(&mut self)
        requires { IsOpen self.old 0 }
        ensures drops { Drops (meaning_of self.old) (meaning_below self.new) (Ok tt) }
        ensures stays { Stays self.old self.new }
    {
        let level = self.noted.len() - 1;
        self.undo_notes(level);
    }
}

impl<'a> OverMemory<'a> for InverseLog<'a> {
    ghost each = { λ limit. 3 * limit + 2 };

    ghost memory = { λ s. s.words.now };

    fn each(limit: usize) -> usize
        requires { limit ≤ 8 }
        ensures each { result ≡ 3 * limit + 2 }
        ensures image { 0 < result }
    {
        3 * limit + 2
    }

    fn over(words: &'a mut [u32], size: usize, limit: usize) -> InverseLog<'a> {
        InverseLog {
            words,
            shape: Shape { size, limit },
            noted: ArrayVec::new(),
        }
    }
}

impl Store for InverseLog<'_> {
    ghost model = { λ s. log_meaning s.words.now s.shape.size s.shape.limit (array_vec_len s.noted) s.noted.items };

    ghost lent = { λ s. log_lent s.words.ghost_name s.words.now s.shape.size s.shape.limit };

    fn size(&self) -> usize {
        self.shape.size
    }

    fn limit(&self) -> usize {
        self.shape.limit
    }

    fn levels(&self) -> usize {
        self.noted.len()
    }

    fn get(&self, at: usize) -> Option<u32> {
        memory::word_at(self.words, self.shape.size, at)
    }

    fn set(&mut self, at: usize, word: u32) -> Result<(), StoreRefusal> {
        if at >= self.shape.size {
            return Err(StoreRefusal::NoSuchWord);
        }
        self.remember(at);
        self.write(at, word);
        Ok(())
    }

    fn open_level(&mut self) -> Result<(), StoreRefusal> {
        if self.noted.len() >= self.shape.limit {
            return Err(StoreRefusal::NoLevelLeft);
        }
        self.noted.push(0);
        Ok(())
    }

    // It and `drop_level` part in one call, `hand_down` or `take_back`: a function that is given either would have to state what both promise.
    fn keep_level(&mut self) -> Result<(), StoreRefusal> {
        if self.noted.is_empty() {
            return Err(StoreRefusal::NoLevelOpen);
        }
        self.hand_down();
        self.noted.pop();
        Ok(())
    }

    fn drop_level(&mut self) -> Result<(), StoreRefusal> {
        if self.noted.is_empty() {
            return Err(StoreRefusal::NoLevelOpen);
        }
        self.take_back();
        self.noted.pop();
        Ok(())
    }
}
