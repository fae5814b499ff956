// What is wrong with a file.
ghost use Rattle.std.specs.Prelude.{◌≡◌};
ghost use Rattle.blif.specs.Faults.{form_number, file_number, file_layer};
ghost use Rattle.blif.specs.Promises.{write_number};

use netlist::Refusal;
use std::fmt;
use text::LineFault;

#[derive(Clone, Copy, PartialEq, Eq, Debug)]
pub enum FormFault {
    // a first word that begins no line of a file
    UnknownWord = 33,
    WordCount = 34,
    // a cover line, or a start value
    Malformed = 35,
    TooManyNames = 36,
    BothWays = 37,
    // `.model` missing or again, `.end` missing, a line behind it
    Misplaced = 38,
    // a signal is driven
    Driven = 40,
}

impl FormFault {
    // A host and a report are told a fault by number.
    pub fn number(self) -> u32
        ensures { result ≡ form_number self }
    {
        self as u32
    }
}

#[derive(Clone, Copy, PartialEq, Eq, Debug)]
pub struct FormError {
    pub fault: FormFault,
    pub line: usize,
}

// A refusal of the editor, whole, with the line and the first signal of the refused call.
#[derive(Clone, Copy, PartialEq, Eq, Debug)]
pub struct EditorError {
    pub refusal: Refusal,
    pub line: usize,
    pub signal: Option<u32>,
}

#[derive(Clone, Copy, PartialEq, Eq, Debug)]
pub enum FileFault {
    Memory,
    Text(LineFault),
    Form(FormError),
    Editor(EditorError),
}

// What finds a fault of a file: the reading of bytes and words (30 to 32), the form of the lines (33 to 40), or the
// editor (1 to 25).
#[derive(Clone, Copy, PartialEq, Eq, Debug)]
pub enum Layer {
    Text,
    Form,
    Editor,
}

impl fmt::Display for Layer {
    ghost use Rattle.std.specs.Prelude.{Some};
    ghost use Rattle.blif.specs.Faults.{layer_text};

    ghost output = { λ l. Some (layer_text l) };

    fn fmt<W: fmt::Write>(&self, f: &mut fmt::Formatter<W>) -> fmt::Result {
        f.write_str(match self {
            Layer::Text => "text",
            Layer::Form => "form",
            Layer::Editor => "editor",
        })
    }
}

impl FileFault {
    // Want of memory is no fault of the file: it has no number, and no layer.
    pub fn number(self) -> Option<u32>
        ensures { result ≡ file_number self }
    {
        match self {
            FileFault::Memory => None,
            FileFault::Text(error) => Some(error.fault.number()),
            FileFault::Form(error) => Some(error.fault.number()),
            FileFault::Editor(error) => Some(error.refusal.number()),
        }
    }

    pub fn layer(self) -> Option<Layer>
        ensures { result ≡ file_layer self }
    {
        match self {
            FileFault::Memory => None,
            FileFault::Text(_) => Some(Layer::Text),
            FileFault::Form(_) => Some(Layer::Form),
            FileFault::Editor(_) => Some(Layer::Editor),
        }
    }
}

#[derive(Clone, Copy, PartialEq, Eq, Debug)]
pub enum WriteFault {
    NoEditor,
    BatchOpen,
    // a driven signal without a name
    Nameless,
    // the buffer
    Short,
    Memory,
}

impl WriteFault {
    // A host and a report are told a fault by number. Want of memory has none.
    pub fn number(self) -> Option<u32>
        ensures { result ≡ write_number self }
    {
        match self {
            WriteFault::NoEditor => Some(1),
            WriteFault::BatchOpen => Some(11),
            WriteFault::Nameless => Some(36),
            WriteFault::Short => Some(39),
            WriteFault::Memory => None,
        }
    }
}
