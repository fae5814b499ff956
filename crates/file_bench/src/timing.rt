// Where files are read and written, and the time that it takes.
use anyhow::{Result, anyhow};
use blif_io::{read, write};
use desk::Desk;
use editor::{Editor, words_for};
use memory::{Memory, Pair};
use names::NameTable;
use std::alloc::{AllocError, Global};
use std::time::Instant;
use words::Store;

const SIGNALS: u32 = 1024;

const LEVELS: usize = 3;

const ROOM: usize = 1048576;

const TURNS: u32 = 50;

// Of a read and of a write, in nanoseconds, or in tenths of those a byte.
#[derive(Clone, Copy)]
pub struct Times {
    pub read: u128,
    pub write: u128,
}

impl Times {
    fn add(self, other: Times) -> Times {
        Times {
            read: self.read.saturating_add(other.read),
            write: self.write.saturating_add(other.write),
        }
    }
}

// Tenths of a nanosecond a byte, where so many turns over so many bytes took this time.
fn tenths(time: u128, bytes: usize) -> u128 {
    let all = u128::from(TURNS).saturating_mul(bytes as u128);
    time.saturating_mul(10) / all.max(1)
}

fn time_read<S: Store>(
    rt: &HostRuntime,
    desk: &mut Desk<S>,
    names: &mut NameTable,
    text: &[u8],
) -> Result<u128> {
    let mut flags = [0; 1024];
    let start = Instant::now(rt)?;
    let reply = read(rt.alloc(), desk, names, text, text.len(), &mut flags);
    let time = start.elapsed(rt)?.as_nanos();
    reply.map_err(|fault| anyhow!("the file is refused: {fault:?}"))?;
    Ok(time)
}

fn time_write<S: Store>(
    rt: &HostRuntime,
    editor: &Editor<S>,
    names: &NameTable,
    buffer: &mut [u8],
) -> Result<u128> {
    let start = Instant::now(rt)?;
    let reply = write(rt.alloc(), editor, names, buffer);
    let time = start.elapsed(rt)?.as_nanos();
    reply.map_err(|fault| anyhow!("the file is not written: {fault:?}"))?;
    Ok(time)
}

// One read by a new editor, and one write.
fn turn<S: Store + Drop>(
    rt: &HostRuntime,
    store: S,
    text: &[u8],
    buffer: &mut [u8],
) -> Result<Times> {
    let mut names = NameTable::new(rt.alloc())?;
    let mut desk = Desk::new(store, SIGNALS);
    let time = time_read(rt, &mut desk, &mut names, text);
    let editor = desk.close();
    let read = time?;
    let write = time_write(rt, &editor, &names, buffer)?;
    Ok(Times { read, write })
}

// The mean of the turns, in tenths of a nanosecond a byte.
fn mean<F: FnMut() -> Result<Times>>(bytes: usize, mut turn: F) -> Result<Times>
    requires { F.IsAlwaysCallable turn }
{
    let mut times = Times { read: 0, write: 0 };
    for _ in 0..TURNS {
        times = times.add(turn()?);
    }
    Ok(Times {
        read: tenths(times.read, bytes),
        write: tenths(times.write, bytes),
    })
}

// Memory for editors of the most signals, and a buffer for the longest file.
#[derive(Drop)]
pub struct Place {
    memory: Memory,
    buffer: Vec<u8>,
}

impl Place {
    pub fn new(heap: Global) -> Result<Place, AllocError> {
        Ok(Place {
            memory: Memory::new(heap, words_for(SIGNALS), LEVELS, 0)?,
            buffer: vec![in heap; 0u8; ROOM]?,
        })
    }

    pub fn measure(&mut self, rt: &HostRuntime, text: &[u8]) -> Result<Pair<Times>> {
        let Place { memory, buffer } = self;
        Ok(Pair {
            log: mean(text.len(), || turn(rt, memory.log(), text, buffer))?,
            snapshot: mean(text.len(), || turn(rt, memory.snapshot(), text, buffer))?,
        })
    }
}
