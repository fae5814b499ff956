// Where a text comes from.
use anyhow::anyhow;
use std::alloc::Global;
use std::fs::File;
use std::io;
use std::io::Read;
use text::{File as FileText, through_line};

#[derive(Clone, Copy)]
pub enum Source<'a> {
    Named(&'a str),
    Standard,
}

// What a reader gives, but no more than one byte over the limit: so much tells that it is too long, though it may never end.
fn read_within<R: Read + Drop>(heap: Global, from: R, limit: usize) -> io::Result<Vec<u8>> {
    let mut bytes = Vec::new(heap);
    from.take((limit as u64).saturating_add(1))
        .read_to_end(&mut bytes)?;
    Ok(bytes)
}

// The file at the front of standard input, through its line `.end`; what stands behind is not read as part of it.
fn read_standard(rt: &HostRuntime, limit: usize) -> io::Result<Vec<u8>> {
    let mut bytes = read_within(rt.alloc(), rt.stdin(), limit)?;
    let length = through_line::<FileText>(&bytes, b".end");
    bytes.truncate(length);
    Ok(bytes)
}

fn read_named(rt: &HostRuntime, name: &str, limit: usize) -> io::Result<Vec<u8>> {
    read_within(rt.alloc(), File::open(rt, name)?, limit)
}

impl Source<'_> {
    pub fn read(self, rt: &HostRuntime, limit: usize) -> anyhow::Result<Vec<u8>> {
        match self {
            Source::Named(name) => {
                read_named(rt, name, limit).map_err(|e| anyhow!("{name}: {e}"))
            }
            Source::Standard => {
                read_standard(rt, limit).map_err(|e| anyhow!("standard input: {e}"))
            }
        }
    }
}
