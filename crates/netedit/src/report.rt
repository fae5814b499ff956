// The report of a fault, as it is printed.
ghost use Rattle.std.specs.Prelude.{◌≡◌, ◌==◌};
ghost use Rattle.blif.specs.Description.{name_of};
ghost use Rattle.netedit.specs.Report.{layer_of, number_of, line_of, signal_of, name_at};

use blif_io::{EditorError, FileFault, FormError, Layer};
use names::NameTable;
use netlist::Refusal;
use std::alloc::AllocError;
use std::fmt;
use text::LineFault;

// What a report tells. An editor's refusal is kept whole.
#[derive(Clone, Copy)]
pub enum Fault {
    Text(LineFault),
    Form(FormError),
    Editor(EditorError),
}

impl TryFrom<FileFault> for Fault {
    // want of memory is no fault of a file
    type Error = AllocError;

    fn try_from(fault: FileFault) -> Result<Fault, AllocError> {
        match fault {
            FileFault::Memory => Err(AllocError),
            FileFault::Text(fault) => Ok(Fault::Text(fault)),
            FileFault::Form(error) => Ok(Fault::Form(error)),
            FileFault::Editor(error) => Ok(Fault::Editor(error)),
        }
    }
}

impl Fault {
    fn layer(self) -> Layer
        ensures { result ≡ layer_of self }
    {
        match self {
            Fault::Text(_) => Layer::Text,
            Fault::Form(_) => Layer::Form,
            Fault::Editor(_) => Layer::Editor,
        }
    }

    fn number(self) -> u32
        ensures { result ≡ number_of self }
    {
        match self {
            Fault::Text(fault) => fault.fault.number(),
            Fault::Form(error) => error.fault.number(),
            Fault::Editor(error) => error.refusal.number(),
        }
    }

    fn line(self) -> usize
        ensures { result ≡ line_of self }
    {
        match self {
            Fault::Text(fault) => fault.line,
            Fault::Form(error) => error.line,
            Fault::Editor(error) => error.line,
        }
    }

    // The first signal of the refused call, or the smallest absent signal in use.
    fn signal(self) -> Option<u32>
        ensures { result ≡ signal_of self }
    {
        match self {
            Fault::Text(_) | Fault::Form(_) => None,
            Fault::Editor(error) => error.signal,
        }
    }

    fn is_loop(self) -> bool
        ensures { result ≡ (number_of self == 25) }
    {
        self.number() == Refusal::Looped.number()
    }
}

// A name, which is empty where a signal has none.
#[derive(Clone, Copy)]
struct Name<'a> {
    bytes: &'a [u8],
}

impl fmt::Display for Name<'_> {
    ghost use Rattle.std.specs.Prelude.{Some};
    ghost use Rattle.text.specs.Printed.{bytes_text};

    ghost output = { λ n. Some (bytes_text n.bytes.now) };

    fn fmt<W: fmt::Write>(&self, f: &mut fmt::Formatter<W>) -> fmt::Result {
        for byte in self.bytes {
            f.write_char(char::from(*byte))?;
        }
        Ok(())
    }
}

fn named(names: &NameTable, signal: u32) -> Name<'_>
    ensures { result.bytes.now ≡ name_of names.now.signals signal }
{
    match names.name(signal) {
        Some(bytes) => Name { bytes },
        None => Name { bytes: &[] },
    }
}

// The line of a loop.
#[derive(Clone, Copy)]
struct Loop<'a> {
    names: &'a NameTable,
    signals: &'a [u32],
}

impl fmt::Display for Loop<'_> {
    ghost use Rattle.std.specs.Prelude.{Some};
    ghost use Rattle.netedit.specs.Report.{loop_text};

    ghost output = { λ l. Some (loop_text l.names.now.signals l.signals.now) };

    fn fmt<W: fmt::Write>(&self, f: &mut fmt::Formatter<W>) -> fmt::Result {
        f.write_str("loop")?;
        for signal in self.signals {
            write!(f, ",{}", named(self.names, *signal))?;
        }
        f.write_str("\n")
    }
}

// A fault with the names of the signals, and the loop that the editor shows.
#[derive(Clone, Copy)]
pub struct Report<'a> {
    pub fault: Fault,
    pub names: &'a NameTable,
    pub shown: &'a [u32],
}

impl Report<'_> {
    fn name(&self) -> Name<'_>
        ensures { result.bytes.now ≡ name_at self.now.names.now.signals (signal_of self.now.fault) }
    {
        match self.fault.signal() {
            Some(signal) => named(self.names, signal),
            None => Name { bytes: &[] },
        }
    }

    fn shown(&self) -> Loop<'_>
        ensures names { result.names.now.signals ≡ self.now.names.now.signals }
        ensures signals { result.signals.now ≡ self.now.shown.now }
    {
        Loop {
            names: self.names,
            signals: self.shown,
        }
    }
}

impl fmt::Display for Report<'_> {
    ghost use Rattle.std.specs.Prelude.{Some};
    ghost use Rattle.netedit.specs.Report.{report_text};

    ghost output = { λ r. Some (report_text r.fault r.names.now.signals r.shown.now) };

    fn fmt<W: fmt::Write>(&self, f: &mut fmt::Formatter<W>) -> fmt::Result {
        let fault = self.fault;
        write!(
            f,
            "fault,file,{},{},{},{},\n",
            fault.layer(),
            fault.number(),
            fault.line(),
            self.name()
        )?;
        if fault.is_loop() {
            write!(f, "{}", self.shown())?;
        }
        Ok(())
    }
}
