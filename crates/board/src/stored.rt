// A board of so many signals in the words of a store. Words can be read and written at any number: reading past the end tells 0, and writing
// there does nothing.
ghost use Rattle.std.specs.Prelude.{◌≡◌, ◌*◌, ◌≤◌, min, nat_lt, slice_index, slice_set};
ghost use Rattle.words.specs.Meaning.{Opens, Keeps, Drops, size as size_of, levels as levels_of};
ghost use Rattle.board.specs.Kinds.{kind_by, word_of};
ghost use Rattle.board.specs.Layout.{cell_of, kind as kind_word, first_told, pin_told};
ghost use Rattle.board.specs.Stored.{Stays, OnlyWords, Cleared, reworded};

use crate::field::Field;
use crate::kind::Kind;
use std::marker::Model;
use words::{Store, StoreRefusal};

// The most signals that a board has.
pub const SIGNALS_MOST: u32 = 1024;

#[derive(Drop)]
pub struct StoredBoard<S: Store> {
    store: S,
    signals: u32,
}

impl<S: Store> Model for StoredBoard<S> {
    ghost use Rattle.std.specs.Prelude.{◌≤◌};
    ghost use Rattle.board.specs.Stored.{Stored};

    ghost Value = { Stored };

    ghost view = { λ b. record { signals = b.signals; words = S.Store.model b.store; lent = S.Store.lent b.store } };

    ghost invariant = { λ b. b.signals ≤ 1024 };
}

impl<S: Store> StoredBoard<S> {
    // A board never has more signals than the most.
    pub fn new(store: S, signals: u32) -> Self
        ensures { result ≡ record {
          signals = min signals 1024;
          words = S.Store.model store;
          lent = S.Store.lent store;
        } }
    {
        StoredBoard {
            store,
            signals: signals.min(SIGNALS_MOST),
        }
    }

    // Gives the store back, with its words and levels as they are.
    pub fn into_store(self) -> S
        ensures words { S.Store.model result ≡ self.words }
        ensures behind { S.Store.lent result ≡ self.lent }
    {
        let StoredBoard { store, .. } = self;
        store
    }

    // M
    pub fn signals(&self) -> u32
        ensures signals { result ≡ self.now.signals }
        ensures few { result ≤ 1024 }
    {
        self.signals
    }

    // N
    pub fn size(&self) -> usize
        ensures size { result ≡ size_of self.now.words }
        ensures few { result ≤ 65536 }
    {
        self.store.size()
    }

    // D
    pub fn limit(&self) -> usize
        ensures limit { result ≡ self.now.words.limit }
        ensures range { (2 ≤ result) × (result ≤ 8) }
    {
        self.store.limit()
    }

    // how many levels are open
    pub fn levels(&self) -> usize
        ensures { result ≡ levels_of self.now.words }
    {
        self.store.levels()
    }

    pub fn open_level(&mut self) -> Result<(), StoreRefusal>
        ensures opens { Opens self.old.words self.new.words result }
        ensures stays { Stays self.old self.new }
    {
        self.store.open_level()
    }

    pub fn keep_level(&mut self) -> Result<(), StoreRefusal>
        ensures keeps { Keeps self.old.words self.new.words result }
        ensures stays { Stays self.old self.new }
    {
        self.store.keep_level()
    }

    pub fn drop_level(&mut self) -> Result<(), StoreRefusal>
        ensures drops { Drops self.old.words self.new.words result }
        ensures stays { Stays self.old self.new }
    {
        self.store.drop_level()
    }

    // whether there is a pin of this number
    pub fn has_pin(&self, pin: u32) -> bool
        ensures { result ≡ nat_lt pin (4 * self.now.signals) }
    {
        pin < 4 * self.signals
    }

    // Which word a field has for a signal, a place or a pin.
    fn cell(&self, field: Field, number: u32) -> usize
        ensures { result ≡ cell_of self.now.signals field number }
    {
        field.start() * self.signals as usize + number as usize
    }

    // Any number has its word: past a field's own come those of the field behind it, and past the last word 0.
    pub fn read(&self, field: Field, number: u32) -> u32
        ensures { result ≡ slice_index self.now.words.image (cell_of self.now.signals field number) }
    {
        self.get(self.cell(field, number))
    }

    // The word of one of the four pins of a signal; 0 of any other.
    pub fn pin(&self, signal: u32, i: u32) -> u32
        ensures { result ≡ pin_told self.now.signals self.now.words.image signal i }
    {
        if i < 4 && signal < self.signals {
            self.read(Field::Pin, 4 * signal + i)
        } else {
            0
        }
    }

    // The first pin on a signal, as a link: 0, or one more than its number. On what is no signal there is none.
    pub(crate) fn first_pin(&self, signal: u32) -> u32
        ensures { result ≡ first_told self.now.signals self.now.words.image signal }
    {
        if signal < self.signals {
            self.read(Field::First, signal)
        } else {
            0
        }
    }

    fn get(&self, at: usize) -> u32
        ensures { result ≡ slice_index self.now.words.image at }
    {
        self.store.get(at).unwrap_or(0)
    }

    // Likewise of any number; past the last word nothing is written.
    pub fn write(&mut self, field: Field, number: u32, word: u32)
        ensures { self.new ≡ reworded self.old (slice_set self.old.words.image (cell_of self.old.signals field number) word) }
    {
        let cell = self.cell(field, number);
        self.put(cell, word);
    }

    fn put(&mut self, at: usize, word: u32)
        ensures { self.new ≡ reworded self.old (slice_set self.old.words.image at word) }
    {
        let _ = self.store.set(at, word);
    }

    // Every word is 0.
    pub fn clear(&mut self)
        ensures cleared { Cleared self.old.words self.new.words }
        ensures only { OnlyWords self.old self.new }
    {
        // a store lends no slice of its words
        for at in 0..self.size() {
            self.put(at, 0);
        }
    }

    // The kind that the word of a signal names.
    pub(crate) fn read_kind(&self, signal: u32) -> Kind
        ensures { result ≡ kind_by (kind_word self.now.signals self.now.words.image signal) }
    {
        Kind::from(self.read(Field::Kind, signal))
    }

    pub fn set_kind(&mut self, signal: u32, kind: Kind)
        ensures { self.new ≡ reworded self.old (slice_set self.old.words.image signal (word_of kind)) }
    {
        self.write(Field::Kind, signal, u32::from(kind));
    }
}
