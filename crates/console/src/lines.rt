// Lines of an input, counted from 1, each without the byte that ends it.
use std::alloc::Global;
use std::io::{BufRead, Split};
use std::iter::Zip;
use std::ops::RangeFrom;

pub type Lines<R> = Zip<RangeFrom<u64>, Split<R>>;

pub fn lines_of<R: BufRead + Drop>(heap: Global, reader: R) -> Lines<R> {
    (1u64..).zip(reader.split(heap, b'\n'))
}
