// Why a step does not come to its end.
use std::alloc::AllocError;

#[derive(Clone, Copy)]
pub enum Stop<E> {
    // what it tells in place of a value
    Told(E),
    NoMemory(AllocError),
}

impl<E> From<AllocError> for Stop<E> {
    fn from(error: AllocError) -> Stop<E> {
        Stop::NoMemory(error)
    }
}

// What was told is a value here; to run out of memory is still an error.
pub fn settle<T, E>(outcome: Result<T, Stop<E>>) -> Result<Result<T, E>, AllocError> {
    match outcome {
        Ok(value) => Ok(Ok(value)),
        Err(Stop::Told(told)) => Ok(Err(told)),
        Err(Stop::NoMemory(error)) => Err(error),
    }
}

pub fn ensure<E: Drop>(holds: bool, otherwise: E) -> Result<(), Stop<E>> {
    if holds {
        Ok(())
    } else {
        Err(Stop::Told(otherwise))
    }
}
