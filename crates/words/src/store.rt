// What every store of words owes, said over its meaning, so that code above is proved once for all of them.
ghost use Rattle.std.specs.Prelude.{◌≡◌, ◌≤◌};
ghost use Rattle.words.specs.Meaning.{Meaning, Lent, Tells, Sets, Opens, Keeps, Drops, size as size_of, levels as levels_of};
ghost use Rattle.words.specs.Refusals.{number as number_of};

#[derive(Clone, Copy, PartialEq, Eq, Debug)]
pub enum StoreRefusal {
    // the memory is too short, or N or D is outside its range
    Unfit = 1,
    // the number of the word is not below N
    NoSuchWord = 2,
    // D levels are open
    NoLevelLeft = 3,
    // no level is open
    NoLevelOpen = 4,
}

impl StoreRefusal {
    // A host is told numbers, and clauses of other crates name them, so each refusal has one.
    pub fn number(self) -> u32
        ensures { result ≡ number_of self }
    {
        self as u32
    }
}

pub trait Store {
    // D, the present image and the saved images
    ghost model: { Self → Meaning };

    // the memory that a host lends, as far as the store never writes it
    ghost lent: { Self → Lent };

    // N
    fn size(&self) -> usize
        ensures size { result ≡ size_of (model self.now) }
        ensures few { result ≤ 65536 };

    // D
    fn limit(&self) -> usize
        ensures limit { result ≡ (model self.now).limit }
        ensures range { (2 ≤ result) × (result ≤ 8) };

    // how many levels are open
    fn levels(&self) -> usize
        ensures { result ≡ levels_of (model self.now) };

    fn get(&self, at: usize) -> Option<u32>
        ensures { Tells (model self.now) at result };

    fn set(&mut self, at: usize, word: u32) -> Result<(), StoreRefusal>
        ensures sets { Sets (model self.old) (model self.new) at word result }
        ensures behind { lent self.new ≡ lent self.old };

    fn open_level(&mut self) -> Result<(), StoreRefusal>
        ensures opens { Opens (model self.old) (model self.new) result }
        ensures behind { lent self.new ≡ lent self.old };

    fn keep_level(&mut self) -> Result<(), StoreRefusal>
        ensures keeps { Keeps (model self.old) (model self.new) result }
        ensures behind { lent self.new ≡ lent self.old };

    fn drop_level(&mut self) -> Result<(), StoreRefusal>
        ensures drops { Drops (model self.old) (model self.new) result }
        ensures behind { lent self.new ≡ lent self.old };
}
