// What both stores do with the memory that they are lent.
ghost use Rattle.std.specs.Prelude.{◌≡◌, ℕ, ◌<◌, ◌≤◌, List, length, MatchOption, OnOk, slice_index, slice_set};
ghost use Rattle.words.specs.Making.{Fits, Tests, Makes, laid, cleared};

use crate::store::{Store, StoreRefusal};

pub const WORDS_MOST: usize = 65536;

pub const LEVELS_LEAST: usize = 2;

pub const LEVELS_MOST: usize = 8;

// A store that lies in memory which a host lends. The memory, N and D stand side by side in each call, as a host names them (docs/STORES.md):
// before `test` has looked at all three no type can say that they fit, and behind it they are a store's.
pub(crate) trait OverMemory<'a>: Store {
    // how many words of memory a store of so many levels takes for a word of its own
    ghost each: { ℕ → ℕ };

    // the memory
    ghost memory: { Self → List ℕ };

    fn each(limit: usize) -> usize
        requires { limit ≤ 8 }
        ensures each { result ≡ each limit }
        ensures image { 0 < result };

    // The store whose image is what the memory holds.
    fn over(words: &'a mut [u32], size: usize, limit: usize) -> Self
        requires { Fits size limit (each limit) (length words.old) }
        ensures laid { Self.model result ≡ laid size limit words.old }
        ensures memory { memory result ≡ words.old }
        ensures lender { (Self.lent result).lender ≡ words.entry.ghost_name };
}

// Whether the memory serves a store of `size` words and `limit` levels.
pub(crate) fn test<'a, S: OverMemory<'a>>(
    words: &[u32],
    size: usize,
    limit: usize,
) -> Result<(), StoreRefusal>
    ensures tests { Tests size limit (S.each limit) (length words.now) result }
    ensures image { OnOk result (size ≤ length words.now) }
{
    if size > WORDS_MOST || !(LEVELS_LEAST..=LEVELS_MOST).contains(&limit) {
        return Err(StoreRefusal::Unfit);
    }
    match size.checked_mul(S::each(limit)) {
        Some(needed) if needed <= words.len() => Ok(()),
        _ => Err(StoreRefusal::Unfit),
    }
}

// The store of `size` words, all 0, or where the test refuses the one of no words that leaves the memory alone.
pub(crate) fn make<'a, S: OverMemory<'a>>(words: &'a mut [u32], size: usize, limit: usize) -> S
    ensures makes { Makes size limit (S.each limit) (length words.old) (S.model result) words.old (S.memory result) }
    ensures lender { (S.lent result).lender ≡ words.entry.ghost_name }
{
    match test::<S>(words, size, limit) {
        Ok(()) => {
            clear(words, size);
            S::over(words, size, limit)
        }
        Err(_) => S::over(words, 0, LEVELS_LEAST),
    }
}

fn clear(words: &mut [u32], size: usize)
    requires { size ≤ length words.old }
    ensures { words.new ≡ cleared size words.old }
{
    words[..size].fill(0);
}

// One word of the first `size`.
pub(crate) fn word_at(words: &[u32], size: usize, at: usize) -> Option<u32>
    requires { size ≤ length words.now }
    ensures { MatchOption result (size ≤ at) (λ w. (at < size) × (w ≡ slice_index words.now at)) }
{
    words[..size].get(at).copied()
}

// Writes one word. A function, since the part of a snapshot for a level is lent to it.
pub(crate) fn put(words: &mut [u32], at: usize, word: u32)
    requires { at < length words.old }
    ensures { words.new ≡ slice_set words.old at word }
{
    words[at] = word;
}
