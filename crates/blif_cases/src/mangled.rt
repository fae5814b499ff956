// Texts that a seed fixes: random bytes, good files cut or changed, and lines put together.
use draws::Draws;
use std::alloc::{AllocError, Global};

static GOOD: [&[u8]; 6] = [
    b".model t\n.inputs a b\n.outputs y\n.names a b n\n11 1\n.names n y\n1 1\n.end\n",
    b".model t\n.latch a b 1\n.latch b a\n.end\n",
    b".model t\n.inputs a # an input\n.names a b c\n1- 0\n01 0\n.names b\n1\n.outputs c\n.end\n",
    b".model t\n.names\tc b\n0 1\n.names d c\n\n1 1\n.inputs d\n.end\n",
    b".model t\n.names a a b a y\n----\t1\n.latch y a 0\n.inputs b\n.end\n",
    b".model e\n.end\n",
];

static LINES: [&[u8]; 28] = [
    b".inputs a\n",
    b".inputs b c\n",
    b".inputs\n",
    b".outputs a d\n",
    b".outputs e\n",
    b".latch a d\n",
    b".latch d e 2\n",
    b".latch e f 7\n",
    b".names a b f\n",
    b"11 1\n",
    b"-0 1\n",
    b"10 0\n",
    b".names f e\n",
    b"1 1\n",
    b"0 0\n",
    b".names e d\n",
    b".names d f\n",
    b".names g\n",
    b"1\n",
    b"\n",
    b" # said by the way\n",
    b".model u\n",
    b".names a c f\n-1 1\n",
    b".names f d\n0 1\n",
    b".names d e\n1 0\n0 0\n",
    b".names f a g\n1 1\n0 0\n",
    b".inputs d e f g h\n",
    b".outputs abcdefghijklmnopqrstuvwxyz0123456\n",
];

static BYTES: [u8; 26] = *b"abc01-. \t\n#.\n 1em,=\\\r\x7fndil";

#[derive(Drop)]
pub struct Mangled {
    heap: Global,
    draws: Draws,
}

impl Mangled {
    pub fn new(heap: Global, seed: u64) -> Mangled {
        Mangled {
            heap,
            draws: Draws::new(seed),
        }
    }

    // A place in so many, of which there may be none.
    fn place(&mut self, count: usize) -> usize {
        self.draws.below(count.min(65536) as u32) as usize
    }

    fn byte(&mut self) -> u8 {
        let at = self.place(BYTES.len());
        BYTES.get(at).copied().unwrap_or(b' ')
    }

    fn good(&mut self) -> &'static [u8] {
        let at = self.place(GOOD.len());
        GOOD.get(at).copied().unwrap_or(b"")
    }

    fn any_bytes(&mut self) -> Result<Vec<u8>, AllocError> {
        let mut text = Vec::new(self.heap);
        for _ in 0..self.draws.below(40) {
            let byte = self.byte();
            text.push(byte)?;
        }
        Ok(text)
    }

    fn cut(&mut self) -> Result<Vec<u8>, AllocError> {
        let good = self.good();
        let length = self.place(good.len());
        Vec::from_slice(self.heap, good.get(..length).unwrap_or(good))
    }

    // One byte changed, put in or taken out.
    fn change(&mut self, text: &mut Vec<u8>) -> Result<(), AllocError> {
        let at = self.place(text.len());
        let byte = self.byte();
        if at >= text.len() {
            return Ok(());
        }
        match self.draws.below(3) {
            0 => {
                let _ = text.remove(at);
            }
            1 => text.insert(at, byte)?,
            _ => text[at] = byte,
        }
        Ok(())
    }

    fn changed(&mut self) -> Result<Vec<u8>, AllocError> {
        let mut text = Vec::from_slice(self.heap, self.good())?;
        for _ in 0..1 + self.draws.below(3) {
            self.change(&mut text)?;
        }
        Ok(text)
    }

    fn put_together(&mut self) -> Result<Vec<u8>, AllocError> {
        let mut text = Vec::new(self.heap);
        if self.draws.below(16) > 0 {
            text.extend_from_slice(b".model t\n")?;
        }
        for _ in 0..self.draws.below(8) {
            let at = self.place(LINES.len());
            text.extend_from_slice(LINES.get(at).copied().unwrap_or(b""))?;
        }
        if self.draws.below(16) > 0 {
            text.extend_from_slice(b".end\n")?;
        }
        Ok(text)
    }

    pub fn text(&mut self) -> Result<Vec<u8>, AllocError> {
        match self.draws.below(8) {
            0 => self.any_bytes(),
            1 => self.cut(),
            2..=4 => self.changed(),
            _ => self.put_together(),
        }
    }

    // Mostly no limit that counts.
    pub fn limit(&mut self) -> usize {
        match self.draws.below(32) {
            0 => 20,
            1 => usize::MAX,
            _ => 1048576,
        }
    }
}
