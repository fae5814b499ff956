// The table of flags that a search borrows.
ghost use Rattle.std.specs.Prelude.{◌≡◌, ◌<◌, replicate, MatchBool, ◌≢◌, slice_index, slice_set};

// A table of flags that is lent, each of them 0. What borrows it, as a search does, gives it back so.
pub struct Flags<'a> {
    pub table: &'a mut [u8; 1024],
    ghost clean: { table.now ≡ replicate 1024 0 },
}

impl Drop for Flags<'_> {
    fn drop(self)
        ensures { self.exit.0.now ≡ replicate 1024 0 }
    {
        let Flags { table: _ } = self;
    }
}

impl<'a> Flags<'a> {
    // Whatever the flags held, each is 0.
    pub fn new(table: &'a mut [u8; 1024]) -> Self
        ensures lent { result.table.ghost_name ≡ table.entry.ghost_name }
    {
        clear(table);
        Flags { table }
    }
}

// Whatever the flags held, each is 0.
pub fn clear(flags: &mut [u8; 1024])
    ensures { flags.new ≡ replicate 1024 0 }
{
    *flags = [0; 1024];
}

// Whether a number is below the limit and flagged.
pub(crate) fn is_marked(flags: &[u8; 1024], number: u32) -> bool
    ensures { MatchBool result ((number < 1024) × (slice_index flags.now number ≢ 0)) (number < 1024 → slice_index flags.now number ≡ 0) }
{
    flags.get(number as usize).is_some_and(|flag| *flag != 0)
}

// Flags a number that is below the limit and not flagged yet. As the `insert` of a set does, it says whether the number was new.
pub(crate) fn mark(flags: &mut [u8; 1024], number: u32) -> bool
    ensures { MatchBool result ((number < 1024) × (slice_index flags.old number ≡ 0) × (flags.new ≡ slice_set flags.old number 1)) ((number < 1024 → slice_index flags.old number ≢ 0) × (flags.new ≡ flags.old)) }
{
    let free = flags.get(number as usize).is_some_and(|flag| *flag == 0);
    if free {
        flags[number as usize] = 1;
    }
    free
}
