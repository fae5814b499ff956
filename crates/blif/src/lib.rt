// What a BLIF file says, which netlist it describes, and what follows for reading and writing it.
#![tactic(auto)]

mod fault;
mod form;
mod laws;

pub use fault::{EditorError, FileFault, FormError, FormFault, Layer, WriteFault};
pub use form::{Form, Keyword, form_of};
pub use laws::{
    accepted_is_said, accepts_stated, builds_described, clock_holds, describes_one_law,
    empty_holds, faults_hold, faulty_byte_holds, faulty_cover_holds, line_taken,
    names_stay_readable, reads_accept, reads_give, round_trip, spelling_holds, ten_holds,
    writes_read_back, written_describes, written_is_a_file, written_is_fed_from_above,
};
