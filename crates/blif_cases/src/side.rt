// An editor that reads and writes.
use crate::compare::same_netlist;
use crate::difference::Difference;
use crate::plain::Netlist;
use crate::stop::{Stop, ensure};
use blif_io::{FileFault, read, write};
use desk::Desk;
use names::NameTable;
use std::alloc::Global;
use words::Store;

// An editor at its desk, with its names.
pub struct Side<S: Store> {
    pub heap: Global,
    pub desk: Desk<S>,
    pub names: NameTable,
}

impl<S: Store> Side<S> {
    // A new editor. The names come from the caller, since to make them may fail.
    pub fn new(heap: Global, store: S, signals: u32, names: NameTable) -> Side<S> {
        Side {
            heap,
            desk: Desk::new(store, signals),
            names,
        }
    }

    // The flags that it is handed may hold anything.
    pub fn read(
        &mut self,
        text: &[u8],
        limit: usize,
    ) -> Result<Result<u64, FileFault>, Stop<Difference>> {
        let mut flags = [165; 1024];
        let reply = read(
            self.heap,
            &mut self.desk,
            &mut self.names,
            text,
            limit,
            &mut flags,
        );
        let clear = flags.iter().all(|flag| *flag == 0);
        ensure(clear, Difference::Flags)?;
        Ok(reply)
    }

    // What is written to the front of the buffer, as a list of its own.
    pub fn write(&self, buffer: &mut [u8]) -> Result<Vec<u8>, Stop<Difference>> {
        match write(self.heap, self.desk.editor(), &self.names, buffer) {
            Ok(length) => {
                let written = buffer.get(..length).unwrap_or(&[]);
                Ok(Vec::from_slice(self.heap, written)?)
            }
            Err(_) => Err(Stop::Told(Difference::Unwritten)),
        }
    }

    // Reads what it has to accept, and has the netlist then.
    pub fn accept(&mut self, text: &[u8], netlist: &Netlist) -> Result<(), Stop<Difference>> {
        let reply = self.read(text, text.len())?;
        ensure(reply.is_ok(), Difference::Reply)?;
        let editor = self.desk.editor();
        ensure(editor.levels() == 0, Difference::Netlist)?;
        ensure(
            same_netlist(editor, &self.names, netlist),
            Difference::Netlist,
        )
    }

    // An open batch is dropped.
    pub fn close(self)
    where
        S: Drop,
    {
        let Side {
            heap: _heap,
            desk,
            names: _names,
        } = self;
        let _ = desk.close();
    }
}
