// What holds of files beside any call.
ghost use Rattle.blif.specs.Written.{WrittenDescribes, DescribesOne, WrittenIsFile, WrittenFedFromAbove};
ghost use Rattle.blif.specs.Building.{BuildsDescribed, AcceptsStated};
ghost use Rattle.blif.specs.Following.{LineIsTaken, StatementsAreFollowed};
ghost use Rattle.blif.specs.Rows.{SpellingHolds};
ghost use Rattle.blif.specs.Accepted.{AcceptedIsSaid};
ghost use Rattle.blif.specs.Outcome.{ReadsGive, ReadsAccept};
ghost use Rattle.blif.specs.Returning.{RoundTrip, WrittenIsShort, ReadsKeepNames, NewNamesReadable, WritesReadBack};
ghost use Rattle.blif.specs.Examples.{Ten, Clock, Empty, Faults, FaultyCover, FaultyByte};

pub fn ten_holds()
    ensures { Ten }
{}

pub fn clock_holds()
    ensures { Clock }
{}

pub fn empty_holds()
    ensures { Empty }
{}

pub fn faults_hold()
    ensures { Faults }
{}

pub fn faulty_cover_holds()
    ensures { FaultyCover }
{}

pub fn faulty_byte_holds()
    ensures { FaultyByte }
{}

// Lines that are spelled are read as they were.
pub fn spelling_holds()
    ensures { SpellingHolds }
{}

// What describes two netlists describes them as one, name by name.
pub fn describes_one_law()
    ensures { DescribesOne }
{}

// What is written of a netlist describes it, name by name.
pub fn written_describes()
    ensures { WrittenDescribes }
{}

// The claims' edits, all accepted, make what the claims describe.
pub fn builds_described()
    ensures { BuildsDescribed }
{}

// Claims of a whole netlist without a loop ask for no edit that is refused.
pub fn accepts_stated()
    ensures { AcceptsStated }
{}

pub fn line_taken()
    ensures taken { LineIsTaken }
    ensures followed { StatementsAreFollowed }
{}

// What is written is a file of words, of the statements that are written.
pub fn written_is_a_file()
    ensures { WrittenIsFile }
{}

// Each gate of a written file stands below the gates that feed it.
pub fn written_is_fed_from_above()
    ensures { WrittenFedFromAbove }
{}

// Rows that are read to the end without a fault are a file.
pub fn accepted_is_said()
    ensures { AcceptedIsSaid }
{}

// An accepted read gives what its text describes.
pub fn reads_give()
    ensures { ReadsGive }
{}

// A text that describes a netlist is read as that netlist, unless memory runs out.
pub fn reads_accept()
    ensures { ReadsAccept }
{}

// A written text, read into a new editor with a new name table, gives the same netlist by names.
pub fn round_trip()
    ensures returns { RoundTrip }
    ensures short { WrittenIsShort }
{}

// Names that can be read back stay so at every read, and those of a new table are.
pub fn names_stay_readable()
    ensures keeps { ReadsKeepNames }
    ensures new { NewNamesReadable }
{}

// What any write has written can be read back, states each gate below its feeders, and is the same when it is
// written again.
pub fn writes_read_back()
    ensures { WritesReadBack }
{}
