// What a store tells of itself between two commands.
use std::alloc::{AllocError, Global};
use store_script::image_of;
use words::Store;

#[derive(PartialEq, Eq, Drop)]
pub struct State {
    pub image: Vec<u32>,
    pub levels: usize,
    // the word that is told behind the last
    pub behind: Option<u32>,
}

impl State {
    pub fn of<S: Store>(heap: Global, store: &S) -> Result<State, AllocError> {
        Ok(State {
            image: image_of(heap, store)?,
            levels: store.levels(),
            behind: store.get(store.size()),
        })
    }
}
