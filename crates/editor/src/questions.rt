// What the words tell of a signal or a place, each at a cost that does not grow with the netlist, but for the smallest absent signal in use.
ghost use Rattle.std.specs.Prelude.{◌≡◌, ℕ, ◌<◌, List, [], ◌∷◌, ◌++◌, take, slice_index};
ghost use Rattle.netlist.specs.Netlist.{driver_of, pins_of};
ghost use Rattle.board.specs.Layout.{value as value_word_of};
ghost use Rattle.board.specs.Board.{netlist_of, nets as nets_of};
ghost use Rattle.editor.specs.Steps.{InOrder};
ghost use Rattle.editor.specs.Questions.{Answers, asks_signals, asks_levels, asks_batch, asks_marks, asks_kind, asks_output, asks_pins, asks_table, asks_start, asks_place, asks_signal, asks_missing, AreOn, Tabled, pin_words_lem};

use crate::batch::smallest_missing;
use crate::editor::Editor;
use board::{Field, Kind, StoredBoard};
use table::Table;
use words::Store;

// The signals that the pins of a gate or a latch are on. An array and its count can be copied, as an `ArrayVec` cannot.
#[derive(Clone, Copy, PartialEq, Eq, Debug)]
pub struct Pins {
    // at most four
    pub count: u32,
    // those past the count are 0
    pub nets: [u32; 4],
}

impl Pins {
    fn none() -> Self
        ensures { AreOn result [] }
    {
        Pins {
            count: 0,
            nets: [0; 4],
        }
    }

    // one pin more
    fn push(&mut self, net: u32)
        requires { self.old.count < 4 }
        ensures { (on : List ℕ) → AreOn self.old on → AreOn self.new (on ++ net ∷ []) }
    {
        self.nets[self.count as usize] = net;
        self.count += 1;
    }

    // the nets up to the count
    pub fn as_slice(&self) -> &[u32]
        ensures { result.now ≡ take self.now.count self.now.nets }
    {
        self.nets.get(..self.count as usize).unwrap_or(&self.nets)
    }
}

impl<S: Store> Editor<S> {
    // M. Netlist and order of any editor are right.
    pub fn signals(&self) -> u32
        ensures count { Answers self.now.signals self.now.words asks_signals result }
        ensures order { InOrder self.now.signals self.now.words }
    {
        self.board.signals()
    }

    // how many levels are open: those of the store, at M = 0 too
    pub fn levels(&self) -> usize
        ensures { Answers self.now.signals self.now.words asks_levels result }
    {
        self.board.levels()
    }

    // whether a batch is open
    pub fn batch_open(&self) -> bool
        ensures { Answers self.now.signals self.now.words asks_batch result }
    {
        self.board.levels() > 0
    }

    // every level but that of the batch is a mark
    pub fn marks_open(&self) -> usize
        ensures { Answers self.now.signals self.now.words asks_marks result }
    {
        self.board.levels().saturating_sub(1)
    }

    // Nothing is told of a signal that is not below M.
    pub fn kind(&self, signal: u32) -> Option<Kind>
        ensures { Answers self.now.signals self.now.words (asks_kind signal) result }
    {
        (signal < self.signals()).then_some(self.board.kind(signal))
    }

    pub fn output_mark(&self, signal: u32) -> Option<bool>
        ensures { Answers self.now.signals self.now.words (asks_output signal) result }
    {
        (signal < self.signals()).then_some(self.board.is_output(signal))
    }

    // the signals that its pins are on
    pub fn pins(&self, signal: u32) -> Option<Pins>
        ensures { Answers self.now.signals self.now.words (asks_pins signal) result }
    {
        (signal < self.signals()).then_some(pins_at(&self.board, signal))
    }

    // the table of a gate
    pub fn table(&self, signal: u32) -> Option<Table>
        ensures { Answers self.now.signals self.now.words (asks_table signal) result }
    {
        match self.board.kind(signal) {
            Kind::Gate => table_at(&self.board, signal),
            _ => None,
        }
    }

    // the start value of a latch
    pub fn start(&self, signal: u32) -> Option<u32>
        ensures { Answers self.now.signals self.now.words (asks_start signal) result }
    {
        match self.board.kind(signal) {
            Kind::Latch => Some(self.board.read(Field::Value, signal)),
            _ => None,
        }
    }

    pub fn place(&self, signal: u32) -> Option<u32>
        ensures { Answers self.now.signals self.now.words (asks_place signal) result }
    {
        (signal < self.signals()).then_some(self.board.read(Field::Seat, signal))
    }

    pub fn signal_at(&self, place: u32) -> Option<u32>
        ensures { Answers self.now.signals self.now.words (asks_signal place) result }
    {
        (place < self.signals()).then_some(self.board.read(Field::Holder, place))
    }

    // the loop shown since the last edit, its smallest signal first
    pub fn loop_shown(&self) -> &[u32]
        ensures { result.now ≡ self.now.shown }
    {
        self.shown.numbers()
    }

    // the smallest absent signal in use
    pub fn missing(&self) -> Option<u32>
        ensures { Answers self.now.signals self.now.words asks_missing result }
    {
        smallest_missing(&self.board)
    }
}

fn pins_at<S: Store>(board: &StoredBoard<S>, signal: u32) -> Pins
    ensures { let n = netlist_of board.now.signals board.now.words.image in
        AreOn result (pins_of (driver_of n signal)) }
{
    match board.kind(signal) {
        Kind::Absent | Kind::Input => Pins::none(),
        Kind::Gate => pins_on(pin_words(board, signal)),
        Kind::Latch => one_pin(pin_words(board, signal)),
    }
}

// The value of a signal as a table of as many pins as are on something, if it fits them.
fn table_at<S: Store>(board: &StoredBoard<S>, signal: u32) -> Option<Table>
    ensures { let m = board.now.signals in
        let ws = board.now.words.image in
        Tabled (value_word_of m ws signal) (pin_words_lem m ws signal) result }
{
    let pins = pins_on(pin_words(board, signal));
    Table::new(pins.count, board.read(Field::Value, signal)).ok()
}

// The words of a signal's four pins. Each is read by a call of its own, in the caller, where what is asked of the store comes once for all four.
#[inline]
fn pin_words<S: Store>(board: &StoredBoard<S>, signal: u32) -> [u32; 4]
    ensures { result ≡ pin_words_lem board.now.signals board.now.words.image signal }
{
    [
        board.pin(signal, 0),
        board.pin(signal, 1),
        board.pin(signal, 2),
        board.pin(signal, 3),
    ]
}

// The signals that pins are on, up to the first pin that is on none.
fn pins_on(words: [u32; 4]) -> Pins
    ensures { AreOn result (nets_of words) }
{
    // a loop, since a count beside an array is nothing to collect into
    let mut pins = Pins::none();
    for word in words {
        let Some(net) = word.checked_sub(1) else {
            break;
        };
        pins.push(net);
    }
    pins
}

// A latch has one pin, whatever the words say.
fn one_pin(words: [u32; 4]) -> Pins
    ensures { AreOn result (slice_index (nets_of words) 0 ∷ []) }
{
    let mut pins = Pins::none();
    pins.push(words[0].saturating_sub(1));
    pins
}
