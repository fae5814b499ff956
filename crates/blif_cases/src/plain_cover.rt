// Covers, read in a plain way.
use std::alloc::{AllocError, Global};

// A gate whose cover lines are being read.
#[derive(Drop)]
pub struct OpenGate<'a> {
    pub line: usize,
    pub pins: Vec<&'a [u8]>,
    pub output: &'a [u8],
    planes: Vec<&'a [u8]>,
    // what all lines end in
    end: u8,
}

// Whether a plane says that a minterm is listed: character i stands for bit i.
fn covers(plane: &[u8], minterm: u32) -> bool {
    plane.iter().zip([1u32, 2, 4, 8]).all(|(digit, weight)| *digit == b'-'
        || (*digit == b'1') == (minterm & weight != 0))
}

fn minterms(pins: usize) -> u32 {
    match pins {
        0 => 1,
        1 => 2,
        2 => 4,
        3 => 8,
        _ => 16,
    }
}

fn is_plane(plane: &[u8], pins: usize) -> bool {
    plane.len() == pins && plane.iter().all(|digit| b"01-".contains(digit))
}

impl<'a> OpenGate<'a> {
    pub fn new(
        heap: Global,
        line: usize,
        words: &[&'a [u8]],
    ) -> Result<Option<OpenGate<'a>>, AllocError> {
        let Some((output, pins)) = words.split_last() else {
            return Ok(None);
        };
        Ok(Some(OpenGate {
            line,
            pins: Vec::from_slice(heap, pins)?,
            output: *output,
            planes: Vec::new(heap),
            end: b'1',
        }))
    }

    // Takes a cover line, or tells the number that it is refused with.
    pub fn take(&mut self, words: &[&'a [u8]]) -> Result<Option<u32>, AllocError> {
        let (plane, end): (&'a [u8], &'a [u8]) = match words {
            [end] if self.pins.is_empty() => (b"", *end),
            [plane, end] if !self.pins.is_empty() => (*plane, *end),
            _ => return Ok(Some(34)),
        };
        let end = match end {
            [digit @ (b'0' | b'1')] if is_plane(plane, self.pins.len()) => *digit,
            _ => return Ok(Some(35)),
        };
        if !self.planes.is_empty() && end != self.end {
            return Ok(Some(37));
        }
        self.end = end;
        self.planes.push(plane)?;
        Ok(None)
    }

    fn value(&self, minterm: u32) -> bool {
        let listed = self.planes.iter().any(|plane| covers(plane, minterm));
        listed == (self.end == b'1')
    }

    pub fn table(&self) -> u32 {
        let count = minterms(self.pins.len());
        let mut table = 0;
        for minterm in 0..16u32 {
            if minterm < count && self.value(minterm) {
                table |= 1 << minterm;
            }
        }
        table
    }
}
