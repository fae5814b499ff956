// A command played on a store, and on two stores at once.
ghost use Rattle.std.specs.Prelude.{◌≡◌, IfOk, slice_index};
ghost use Rattle.store_script.specs.Plays.{Plays, Agree};

use crate::command::Command;
use std::alloc::{AllocError, Global};
use words::{Store, StoreRefusal};

pub fn play<S: Store>(store: &mut S, command: Command) -> Result<(), StoreRefusal>
    ensures plays { Plays (S.Store.model store.old) (S.Store.model store.new) command result }
    ensures behind { S.Store.lent store.new ≡ S.Store.lent store.old }
{
    match command {
        Command::Set { at, word } => store.set(at as usize, word),
        Command::Open => store.open_level(),
        Command::Keep => store.keep_level(),
        Command::Drop => store.drop_level(),
        Command::Show => Ok(()),
    }
}

// What both stores reply.
pub fn play_both<A: Store, B: Store>(
    first: &mut A,
    second: &mut B,
    command: Command,
) -> (Result<(), StoreRefusal>, Result<(), StoreRefusal>)
    ensures first { Plays (A.Store.model first.old) (A.Store.model first.new) command result.0 }
    ensures second { Plays (B.Store.model second.old) (B.Store.model second.new) command result.1 }
    ensures agree { Agree (A.Store.model first.old) (A.Store.model first.new) result.0 (B.Store.model second.old) (B.Store.model second.new) result.1 }
{
    let reply = play(first, command);
    (reply, play(second, command))
}

// A word of the present image, or 0 behind it.
fn word_of<S: Store>(store: &S, at: usize) -> u32
    ensures { result ≡ slice_index (S.Store.model store.now).image at }
{
    store.get(at).unwrap_or(0)
}

// The present image, word by word: a store lends no slice of it.
pub fn image_of<S: Store>(heap: Global, store: &S) -> Result<Vec<u32>, AllocError>
    ensures { IfOk result (λ v. v.items ≡ (S.Store.model store.now).image) }
{
    (0..store.size()).map(|at| word_of(store, at)).collect(heap)
}
