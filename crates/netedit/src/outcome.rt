// How the program ends.

#[derive(Clone, Copy)]
pub enum Outcome {
    // it has written what was asked for
    Done = 0,
    // it has written a report
    Reported = 1,
    // it was called badly, could not read or write, or had too little memory, and said so on standard error
    Failed = 2,
}

impl Outcome {
    // The status that a shell sees.
    pub fn status(self) -> u8 {
        self as u8
    }
}
