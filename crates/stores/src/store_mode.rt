// Store commands from standard input, one a line, played on both stores over lent memory.
use anyhow::anyhow;
use memory::{Memory, Pair};
use std::alloc::{AllocError, Global};
use std::fmt;
use std::io::{BufRead, BufReader};
use store_script::{Command, Numbers, image_of, parse, play_both};
use words::{LEVELS_MOST, Snapshot, Store, StoreRefusal, WORDS_MOST};

// Plays every line on an inverse log and a snapshot of `size` words and `limit` levels.
pub fn play_input(rt: &HostRuntime, size: usize, limit: usize) -> anyhow::Result<()> {
    let heap = rt.alloc();
    let mut log_memory = Memory::new(heap, size, limit, 0)?;
    // just the needed size, about a third of what an inverse log takes: `memory` would lend it as much
    let long = size.min(WORDS_MOST) * (limit.min(LEVELS_MOST) + 1);
    let mut snapshot_memory = vec![in heap; 0u32; long]?;
    log_memory
        .test()
        .map_err(|_| anyhow!("N is 0 to 65536 and D is 2 to 8"))?;
    play_lines(
        rt,
        log_memory.log(),
        Snapshot::new(&mut snapshot_memory, size, limit),
    )
}

fn play_lines<A: Store + Drop, B: Store + Drop>(
    rt: &HostRuntime,
    mut log: A,
    mut snapshot: B,
) -> anyhow::Result<()> {
    let heap = rt.alloc();
    let lines = BufReader::new(heap, rt.stdin())?.split(heap, b'\n');
    for (number, line) in (1u64..).zip(lines) {
        match parse(line?.as_slice()) {
            None => println!(rt;
                "line {number}: no command; a line is one of: set AT WORD, open, keep, drop, show"
            )?,
            Some(command) => {
                let told = played(heap, &mut log, &mut snapshot, command)?;
                show(rt, number, command, &told)?;
            }
        }
    }
    Ok(())
}

// What both stores tell of a command.
fn played<A: Store, B: Store>(
    heap: Global,
    log: &mut A,
    snapshot: &mut B,
    command: Command,
) -> Result<Pair<Told>, AllocError> {
    let (reply, other) = play_both(log, snapshot, command);
    Ok(Pair {
        log: Told::of(heap, reply, log)?,
        snapshot: Told::of(heap, other, snapshot)?,
    })
}

fn show(rt: &HostRuntime, number: u64, command: Command, told: &Pair<Told>) -> anyhow::Result<()> {
    let Pair { log, snapshot } = told;
    println!(rt;
        "line {number}: {command}: {log}; {}",
        if log == snapshot {
            "both agree"
        } else {
            "THE STORES DIFFER"
        }
    )?;
    Ok(())
}

// What a store tells once it has replied to a command.
#[derive(PartialEq, Eq, Drop)]
struct Told {
    reply: Result<(), StoreRefusal>,
    levels: usize,
    image: Vec<u32>,
}

impl Told {
    fn of<S: Store>(
        heap: Global,
        reply: Result<(), StoreRefusal>,
        store: &S,
    ) -> Result<Told, AllocError> {
        Ok(Told {
            reply,
            levels: store.levels(),
            image: image_of(heap, store)?,
        })
    }
}

impl fmt::Display for Told {
    fn fmt<W: fmt::Write>(&self, f: &mut fmt::Formatter<W>) -> fmt::Result {
        match self.reply {
            Ok(()) => write!(f, "ok")?,
            Err(refusal) => write!(f, "refused {}", refusal.number())?,
        }
        write!(
            f,
            "; levels {}; image{}",
            self.levels,
            Numbers(self.image.as_slice())
        )
    }
}
