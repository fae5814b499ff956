// Why a step that needs memory does not come to its end.
use netlist::Refusal;
use std::alloc::AllocError;

#[derive(Clone, Copy)]
pub enum Fault<E> {
    // what it tells in place of a value
    Told(E),
    NoMemory(AllocError),
}

impl From<Refusal> for Fault<Refusal> {
    fn from(refusal: Refusal) -> Fault<Refusal> {
        Fault::Told(refusal)
    }
}

impl<E> From<AllocError> for Fault<E> {
    fn from(error: AllocError) -> Fault<E> {
        Fault::NoMemory(error)
    }
}

// What was told is a value here, to be compared or printed; to run out of memory is still an error.
pub fn settle<T, E>(outcome: Result<T, Fault<E>>) -> Result<Result<T, E>, AllocError> {
    match outcome {
        Ok(value) => Ok(Ok(value)),
        Err(Fault::Told(told)) => Ok(Err(told)),
        Err(Fault::NoMemory(error)) => Err(error),
    }
}

pub fn ensure<E: Drop>(holds: bool, otherwise: E) -> Result<(), E> {
    if holds { Ok(()) } else { Err(otherwise) }
}
