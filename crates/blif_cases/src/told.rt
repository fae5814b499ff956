// A refusal as a report tells it.
use blif_io::FileFault;
use names::NameTable;
use std::fmt::{self, Display, Formatter, Write};

// The name is empty where the refusal is of no signal.
#[derive(Clone, Copy)]
pub struct Told<'a> {
    pub number: u32,
    pub line: usize,
    pub name: &'a [u8],
}

impl Told<'_> {
    pub fn is(&self, other: &Told) -> bool {
        self.number == other.number && self.line == other.line && self.name == other.name
    }

    fn layer(&self) -> &'static str {
        match self.number {
            0..=29 => "editor",
            30..=32 => "text",
            _ => "form",
        }
    }
}

impl Display for Told<'_> {
    fn fmt<W: Write>(&self, f: &mut Formatter<W>) -> fmt::Result {
        let layer = self.layer();
        let Told { number, line, name } = self;
        write!(f, "{layer},{number},{line},{}", shown(name))
    }
}

pub fn shown(bytes: &[u8]) -> &str {
    std::str::from_utf8(bytes).unwrap_or("?")
}

// What a fault is told as; want of memory has no number.
pub fn tell<'a>(fault: FileFault, names: &'a NameTable) -> Option<Told<'a>> {
    match fault {
        FileFault::Memory => None,
        FileFault::Text(fault) => Some(Told {
            number: fault.fault.number(),
            line: fault.line,
            name: b"",
        }),
        FileFault::Form(error) => Some(Told {
            number: error.fault as u32,
            line: error.line,
            name: b"",
        }),
        FileFault::Editor(error) => Some(Told {
            number: error.refusal.number(),
            line: error.line,
            name: error
                .signal
                .and_then(|signal| names.name(signal))
                .unwrap_or(b""),
        }),
    }
}
