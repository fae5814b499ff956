// Reads by an editor that may not read, and writes by one that may not write.
use crate::bench::Verdict;
use crate::compare::same_editors;
use crate::difference::Difference;
use crate::report::Report;
use crate::side::Side;
use crate::stop::{Stop, ensure, settle};
use crate::told::tell;
use blif_io::{WriteFault, write};
use editor::words_for;
use memory::{Memory, Pair};
use names::NameTable;
use std::alloc::{AllocError, Global};
use words::Store;

const SIGNALS: u32 = 5;

const LEVELS: usize = 3;

const LENGTH: usize = 55;

static TEXT: [u8; LENGTH] = *b".model t\n.inputs a b\n.outputs y\n.names a b y\n10 1\n.end\n";

// A read that is refused with this, and leaves the editor as another that did not read.
fn refuse_read<S: Store>(
    side: &mut Side<S>,
    other: &Side<S>,
    limit: usize,
    number: u32,
) -> Result<(), Stop<Difference>> {
    let names = side.names.len();
    let Err(fault) = side.read(&TEXT, limit)? else {
        return Err(Stop::Told(Difference::Reply));
    };
    let told = tell(fault, &side.names);
    ensure(
        told.is_some_and(|told| told.number == number && told.line == 0 && told.name.is_empty()),
        Difference::Reply,
    )?;
    ensure(side.names.len() == names, Difference::Names)?;
    ensure(
        same_editors(side.desk.editor(), other.desk.editor()),
        Difference::Changed,
    )
}

// A write under these names that is refused with this, and leaves the buffer.
fn refuse_write_under<S: Store>(
    side: &Side<S>,
    names: &NameTable,
    room: usize,
    owed: WriteFault,
) -> Result<(), Stop<Difference>> {
    let mut buffer = [165u8; 64];
    if let Some(part) = buffer.get_mut(..room) {
        let reply = write(side.heap, side.desk.editor(), names, part);
        ensure(reply == Err(owed), Difference::Reply)?;
    }
    ensure(buffer == [165; 64], Difference::Buffer)
}

fn refuse_write<S: Store>(
    side: &Side<S>,
    room: usize,
    owed: WriteFault,
) -> Result<(), Stop<Difference>> {
    refuse_write_under(side, &side.names, room, owed)
}

// A write into so much room, which leaves what stands behind the text.
fn write_into<S: Store>(side: &Side<S>, room: usize) -> Result<(), Stop<Difference>> {
    let mut buffer = [165u8; 64];
    if let Some(part) = buffer.get_mut(..room) {
        let reply = write(side.heap, side.desk.editor(), &side.names, part);
        ensure(reply == Ok(LENGTH), Difference::Reply)?;
    }
    let (text, behind) = buffer.split_at(LENGTH);
    ensure(text == TEXT.as_slice(), Difference::Text)?;
    ensure(behind.iter().all(|byte| *byte == 165), Difference::Buffer)
}

// 11 while a batch is open, though the text is too long and the buffer too short.
fn with_batch_open<S: Store>(
    side: &mut Side<S>,
    other: &mut Side<S>,
) -> Result<(), Stop<Difference>> {
    let opened = side.desk.begin().and(other.desk.begin());
    ensure(opened.is_ok(), Difference::Reply)?;
    refuse_read(side, other, LENGTH, 11)?;
    refuse_read(side, other, 0, 11)?;
    refuse_write(side, 64, WriteFault::BatchOpen)?;
    refuse_write(side, 0, WriteFault::BatchOpen)?;
    let dropped = side.desk.drop_batch().and(other.desk.drop_batch());
    ensure(dropped.is_ok(), Difference::Reply)
}

// 40 once a signal is driven, behind 30; 36 without names, before 39; 39 where the buffer is short.
fn with_signals_driven<S: Store>(
    side: &mut Side<S>,
    other: &mut Side<S>,
) -> Result<(), Stop<Difference>> {
    let reply = side.read(&TEXT, LENGTH)?;
    let other_reply = other.read(&TEXT, LENGTH)?;
    ensure(reply.is_ok() && reply == other_reply, Difference::Reply)?;
    refuse_read(side, other, LENGTH, 40)?;
    refuse_read(side, other, 0, 30)?;
    let nameless = NameTable::new(side.heap)?;
    refuse_write_under(side, &nameless, 64, WriteFault::Nameless)?;
    refuse_write_under(side, &nameless, 0, WriteFault::Nameless)?;
    refuse_write(side, LENGTH - 1, WriteFault::Short)?;
    refuse_write(side, 0, WriteFault::Short)?;
    write_into(side, LENGTH)?;
    write_into(side, 64)
}

// 1 without signals, whatever else there is.
fn without_signals<S: Store>(
    side: &mut Side<S>,
    other: &mut Side<S>,
) -> Result<(), Stop<Difference>> {
    refuse_read(side, other, LENGTH, 1)?;
    refuse_read(side, other, 0, 1)?;
    refuse_write(side, 64, WriteFault::NoEditor)?;
    refuse_write(side, 0, WriteFault::NoEditor)
}

#[derive(Clone, Copy)]
enum Setting {
    NoSignals,
    BatchOpen,
    Driven,
}

fn try_sides<S: Store>(
    side: &mut Side<S>,
    other: &mut Side<S>,
    setting: Setting,
) -> Result<(), Stop<Difference>> {
    match setting {
        Setting::NoSignals => without_signals(side, other),
        Setting::BatchOpen => with_batch_open(side, other),
        Setting::Driven => with_signals_driven(side, other),
    }
}

fn try_on<S: Store + Drop>(
    heap: Global,
    first: S,
    second: S,
    setting: Setting,
) -> Result<Verdict, AllocError> {
    let signals = match setting {
        Setting::NoSignals => 0,
        Setting::BatchOpen | Setting::Driven => SIGNALS,
    };
    let names = NameTable::new(heap)?;
    let other_names = NameTable::new(heap)?;
    let mut side = Side::new(heap, first, signals, names);
    let mut other = Side::new(heap, second, signals, other_names);
    let outcome = try_sides(&mut side, &mut other, setting);
    side.close();
    other.close();
    settle(outcome)
}

fn try_setting(report: &mut Report, title: &str, setting: Setting) -> anyhow::Result<()> {
    let heap = report.rt.alloc();
    let mut first = Memory::new(heap, words_for(SIGNALS), LEVELS, 7)?;
    let mut second = Memory::new(heap, words_for(SIGNALS), LEVELS, 7)?;
    let verdicts = Pair {
        log: try_on(heap, first.log(), second.log(), setting)?,
        snapshot: try_on(heap, first.snapshot(), second.snapshot(), setting)?,
    };
    report.case(format_args!("barred: {title}:"), verdicts)
}

pub fn try_barred(report: &mut Report) -> anyhow::Result<()> {
    try_setting(
        report,
        "no signals: a read and a write give 1",
        Setting::NoSignals,
    )?;
    try_setting(
        report,
        "a batch open: a read and a write give 11",
        Setting::BatchOpen,
    )?;
    try_setting(
        report,
        "a signal driven: a read gives 40, behind 30; a write without names 36, before 39; a byte short 39; then it fits, and what is behind stays",
        Setting::Driven,
    )
}
