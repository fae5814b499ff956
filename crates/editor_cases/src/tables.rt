// Calls with the replies that the rules give, refusals by the numbers that stand there, an edit as in the call of its name.
use crate::plan::Row;
use editor::Call;
use netlist::Edit;

macro_rules! input {
    ($signal:expr) => {
        Call::Make(Edit::Input { signal: $signal })
    };
}

macro_rules! output {
    ($signal:expr, $mark:expr) => {
        Call::Make(Edit::Output {
            signal: $signal,
            mark: $mark,
        })
    };
}

macro_rules! gate {
    ($signal:expr, $pins:expr, $nets:expr, $table:expr) => {
        Call::Make(Edit::Gate {
            signal: $signal,
            pins: $pins,
            nets: $nets,
            table: $table,
        })
    };
}

macro_rules! latch {
    ($signal:expr, $net:expr, $start:expr) => {
        Call::Make(Edit::Latch {
            signal: $signal,
            net: $net,
            start: $start,
        })
    };
}

macro_rules! delete {
    ($signal:expr) => {
        Call::Make(Edit::Delete { signal: $signal })
    };
}

macro_rules! move_pin {
    ($signal:expr, $pin:expr, $net:expr) => {
        Call::Make(Edit::Move {
            signal: $signal,
            pin: $pin,
            net: $net,
        })
    };
}

// M 5, D 3: the order 0 3 4 1 2, a loop of three and a loop of one.
pub static WORKED: [Row; 12] = [
    Row(Call::Begin, Ok(0)),
    Row(input!(0), Ok(0)),
    Row(gate!(4, 1, [0, 0, 0, 0], 2), Ok(0)),
    Row(gate!(2, 1, [1, 0, 0, 0], 2), Ok(0)),
    Row(gate!(1, 1, [4, 0, 0, 0], 2), Ok(2)),
    Row(move_pin!(4, 0, 2), Err(25)),
    Row(move_pin!(4, 0, 4), Err(25)),
    Row(input!(0), Err(14)),
    Row(Call::Mark, Ok(0)),
    Row(Call::Mark, Err(20)),
    Row(Call::DropMark, Ok(0)),
    Row(Call::Keep, Ok(0)),
];

// M 4, D 4: each number that an editor of signals gives.
pub static REFUSALS: [Row; 36] = [
    Row(Call::Mark, Err(10)),
    Row(Call::KeepMark, Err(10)),
    Row(Call::DropMark, Err(10)),
    Row(Call::Keep, Err(10)),
    Row(Call::Drop, Err(10)),
    Row(input!(0), Err(10)),
    Row(Call::Begin, Ok(0)),
    Row(Call::Begin, Err(11)),
    Row(input!(4), Err(12)),
    Row(delete!(4294967295), Err(12)),
    Row(output!(0, 2), Err(13)),
    Row(latch!(0, 0, 4), Err(13)),
    Row(gate!(0, 5, [0, 0, 0, 0], 0), Err(13)),
    Row(gate!(0, 0, [0, 0, 0, 0], 2), Err(13)),
    Row(gate!(0, 4, [0, 0, 0, 0], 65536), Err(13)),
    Row(input!(0), Ok(0)),
    Row(latch!(0, 1, 3), Err(14)),
    Row(gate!(0, 0, [0, 0, 0, 0], 1), Err(14)),
    Row(delete!(1), Err(15)),
    Row(move_pin!(0, 0, 1), Err(15)),
    Row(move_pin!(1, 0, 0), Err(15)),
    Row(gate!(1, 0, [9, 9, 9, 9], 1), Ok(0)),
    Row(move_pin!(1, 0, 0), Err(16)),
    Row(latch!(2, 2, 1), Ok(0)),
    Row(move_pin!(2, 1, 0), Err(16)),
    Row(delete!(2), Err(19)),
    Row(output!(0, 1), Ok(0)),
    Row(delete!(0), Err(19)),
    Row(Call::KeepMark, Err(21)),
    Row(Call::DropMark, Err(21)),
    Row(Call::Mark, Ok(0)),
    Row(Call::Keep, Err(22)),
    Row(Call::Mark, Ok(0)),
    Row(Call::Mark, Err(20)),
    Row(gate!(3, 1, [3, 0, 0, 0], 1), Err(25)),
    Row(Call::Drop, Ok(0)),
];

// M 4, D 3: an absent signal in use, by an output mark, a gate's pin and a latch's pin.
pub static ABSENT: [Row; 16] = [
    Row(Call::Begin, Ok(0)),
    Row(output!(3, 1), Ok(0)),
    Row(output!(3, 1), Ok(0)),
    Row(Call::Keep, Err(24)),
    Row(output!(3, 0), Ok(0)),
    Row(output!(3, 0), Ok(0)),
    Row(gate!(0, 2, [1, 2, 0, 0], 6), Ok(2)),
    Row(Call::Keep, Err(24)),
    Row(input!(1), Ok(0)),
    Row(Call::Keep, Err(24)),
    Row(latch!(2, 3, 0), Ok(0)),
    Row(Call::Keep, Err(24)),
    Row(move_pin!(2, 0, 2), Ok(0)),
    Row(Call::Keep, Ok(0)),
    Row(Call::Begin, Ok(0)),
    Row(Call::Keep, Ok(0)),
];

// M 4, D 3: several numbers apply, and the smallest is the reply.
pub static SMALLEST: [Row; 24] = [
    Row(input!(4), Err(10)),
    Row(gate!(0, 5, [9, 9, 9, 9], 0), Err(10)),
    Row(Call::Begin, Ok(0)),
    Row(output!(4, 2), Err(12)),
    Row(latch!(0, 4, 4), Err(12)),
    Row(gate!(0, 5, [0, 0, 0, 4], 0), Err(12)),
    Row(gate!(0, 3, [0, 0, 0, 4], 256), Err(13)),
    Row(input!(0), Ok(0)),
    Row(gate!(0, 1, [4, 0, 0, 0], 2), Err(12)),
    Row(gate!(0, 1, [0, 0, 0, 0], 4), Err(13)),
    Row(gate!(0, 1, [0, 0, 0, 0], 2), Err(14)),
    Row(latch!(0, 0, 4), Err(13)),
    Row(move_pin!(1, 7, 4), Err(12)),
    Row(move_pin!(0, 7, 0), Err(15)),
    Row(output!(1, 1), Ok(0)),
    Row(delete!(1), Err(15)),
    Row(gate!(2, 1, [0, 0, 0, 0], 2), Ok(0)),
    Row(move_pin!(2, 1, 2), Err(16)),
    Row(move_pin!(2, 1, 4), Err(12)),
    Row(gate!(3, 1, [3, 0, 0, 0], 4), Err(13)),
    Row(Call::Mark, Ok(0)),
    Row(Call::Keep, Err(22)),
    Row(Call::KeepMark, Ok(0)),
    Row(Call::Keep, Err(24)),
];

// M 6, D 3: four pins on one signal, of which a move takes one at a time, and a gate on itself.
pub static FOUR_PINS: [Row; 14] = [
    Row(Call::Begin, Ok(0)),
    Row(gate!(0, 4, [5, 5, 5, 5], 65535), Ok(1)),
    Row(gate!(1, 4, [0, 0, 0, 0], 1), Ok(1)),
    Row(delete!(0), Err(19)),
    Row(move_pin!(1, 3, 2), Ok(0)),
    Row(move_pin!(1, 2, 2), Ok(0)),
    Row(move_pin!(1, 1, 2), Ok(0)),
    Row(delete!(0), Err(19)),
    Row(move_pin!(1, 0, 2), Ok(0)),
    Row(delete!(0), Ok(0)),
    Row(move_pin!(1, 0, 1), Err(25)),
    Row(gate!(0, 4, [1, 2, 3, 0], 0), Err(25)),
    Row(gate!(0, 4, [1, 1, 2, 1], 0), Ok(1)),
    Row(Call::Drop, Ok(0)),
];

// M 3, D 3: what a drop and a dropped mark bring back, places included.
pub static TAKEN_BACK: [Row; 17] = [
    Row(Call::Begin, Ok(0)),
    Row(gate!(0, 1, [1, 0, 0, 0], 2), Ok(1)),
    Row(Call::Mark, Ok(0)),
    Row(gate!(1, 1, [2, 0, 0, 0], 2), Ok(2)),
    Row(input!(2), Ok(0)),
    Row(Call::DropMark, Ok(0)),
    Row(delete!(1), Err(15)),
    Row(Call::Mark, Ok(0)),
    Row(input!(1), Ok(0)),
    Row(Call::KeepMark, Ok(0)),
    Row(Call::Keep, Ok(0)),
    Row(Call::Begin, Ok(0)),
    Row(delete!(0), Ok(0)),
    Row(Call::Mark, Ok(0)),
    Row(delete!(1), Ok(0)),
    Row(Call::Drop, Ok(0)),
    Row(delete!(0), Err(10)),
];

// D 2: there is no level for a mark. M 1.
pub static NO_MARK: [Row; 6] = [
    Row(Call::Begin, Ok(0)),
    Row(Call::Mark, Err(20)),
    Row(Call::DropMark, Err(21)),
    Row(gate!(0, 1, [0, 0, 0, 0], 0), Err(25)),
    Row(latch!(0, 0, 0), Ok(0)),
    Row(Call::Keep, Ok(0)),
];

// D 8: six marks, and none more. M 2.
pub static SIX_MARKS: [Row; 17] = [
    Row(Call::Begin, Ok(0)),
    Row(Call::Mark, Ok(0)),
    Row(Call::Mark, Ok(0)),
    Row(Call::Mark, Ok(0)),
    Row(Call::Mark, Ok(0)),
    Row(Call::Mark, Ok(0)),
    Row(Call::Mark, Ok(0)),
    Row(Call::Mark, Err(20)),
    Row(gate!(0, 1, [1, 0, 0, 0], 3), Ok(1)),
    Row(Call::KeepMark, Ok(0)),
    Row(Call::KeepMark, Ok(0)),
    Row(Call::KeepMark, Ok(0)),
    Row(Call::KeepMark, Ok(0)),
    Row(Call::KeepMark, Ok(0)),
    Row(Call::Keep, Err(22)),
    Row(Call::DropMark, Ok(0)),
    Row(Call::Keep, Ok(0)),
];

// M 1,024: the last signal.
pub static MOST: [Row; 6] = [
    Row(Call::Begin, Ok(0)),
    Row(input!(1024), Err(12)),
    Row(input!(1023), Ok(0)),
    Row(gate!(0, 1, [1023, 0, 0, 0], 2), Ok(1)),
    Row(latch!(1, 0, 2), Ok(0)),
    Row(Call::Keep, Ok(0)),
];

// An editor without signals refuses each call with 1.
pub static NONE: [Row; 12] = [
    Row(Call::Begin, Err(1)),
    Row(Call::Mark, Err(1)),
    Row(Call::KeepMark, Err(1)),
    Row(Call::DropMark, Err(1)),
    Row(Call::Keep, Err(1)),
    Row(Call::Drop, Err(1)),
    Row(input!(0), Err(1)),
    Row(output!(0, 2), Err(1)),
    Row(gate!(0, 5, [0, 0, 0, 0], 0), Err(1)),
    Row(latch!(0, 0, 4), Err(1)),
    Row(delete!(0), Err(1)),
    Row(move_pin!(0, 0, 0), Err(1)),
];
