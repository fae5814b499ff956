// Where reading or writing does not do as the plain reader says.
use std::fmt::{self, Display, Formatter, Write};

#[derive(Clone, Copy)]
pub enum Difference {
    // a reply is not the one that is written down
    Row,
    // the plain reader says otherwise
    Reply,
    Names,
    Netlist,
    // a refused read changed netlist, order or levels
    Changed,
    Flags,
    // a netlist that was read is not written
    Unwritten,
    // of a written file
    Fed,
    Text,
    Buffer,
    // the stores do not reply, or write, alike
    Stores,
    // want of memory in the library, which left the editor as it was
    NoMemory,
}

impl Display for Difference {
    fn fmt<W: Write>(&self, f: &mut Formatter<W>) -> fmt::Result {
        f.write_str(match self {
            Difference::Row => "the reply that is written down",
            Difference::Reply => "the reply",
            Difference::Names => "the names",
            Difference::Netlist => "the netlist",
            Difference::Changed => "a refused read that changed the editor",
            Difference::Flags => "a flag left set",
            Difference::Unwritten => "a netlist that is not written",
            Difference::Fed => "a gate written above one that feeds it",
            Difference::Text => "the text written again",
            Difference::Buffer => "the buffer",
            Difference::Stores => "the two stores",
            Difference::NoMemory => "want of memory, the editor as it was",
        })
    }
}
