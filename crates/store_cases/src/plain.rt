// A store as a plain list of images, written apart from the real ones, to compare them with.
use crate::state::State;
use std::alloc::{AllocError, Global};
use store_script::Command;
use words::StoreRefusal;

#[derive(Drop)]
pub struct Plain {
    limit: usize,
    image: Vec<u32>,
    saved: Vec<Vec<u32>>,
}

impl Plain {
    pub fn new(heap: Global, size: usize, limit: usize) -> Result<Plain, AllocError> {
        Ok(Plain {
            limit,
            image: vec![in heap; 0u32; size]?,
            saved: Vec::new(heap),
        })
    }

    // What a store has to tell.
    pub fn state(&self) -> Result<State, AllocError> {
        Ok(State {
            image: self.image.clone()?,
            levels: self.saved.len(),
            behind: None,
        })
    }

    // The reply to a command. To open a level alone takes memory, and so alone may find none.
    pub fn play(&mut self, command: Command) -> Result<Result<(), StoreRefusal>, AllocError> {
        match command {
            Command::Open => self.open_level(),
            Command::Set { at, word } => Ok(self.set(at, word)),
            Command::Keep => Ok(self.newest().map(|_| ())),
            Command::Drop => Ok(self.drop_level()),
            Command::Show => Ok(Ok(())),
        }
    }

    fn set(&mut self, at: u32, word: u32) -> Result<(), StoreRefusal> {
        *self
            .image
            .get_mut(at as usize)
            .ok_or(StoreRefusal::NoSuchWord)? = word;
        Ok(())
    }

    fn open_level(&mut self) -> Result<Result<(), StoreRefusal>, AllocError> {
        if self.saved.len() >= self.limit {
            return Ok(Err(StoreRefusal::NoLevelLeft));
        }
        let copy = self.image.clone()?;
        self.saved.push(copy).map_err(AllocError::from)?;
        Ok(Ok(()))
    }

    fn drop_level(&mut self) -> Result<(), StoreRefusal> {
        self.image = self.newest()?;
        Ok(())
    }

    // The image that the newest level saved, which is no longer kept.
    fn newest(&mut self) -> Result<Vec<u32>, StoreRefusal> {
        self.saved.pop().ok_or(StoreRefusal::NoLevelOpen)
    }
}
