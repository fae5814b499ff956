// Runs the search over a few graphs, and compares it with the closure of the same edges.
#![tactic(auto)]

mod client;
mod closure;
mod compare;
mod graph;
mod link;
mod links;
mod shapes;

use client::{Tally, avoid};
use compare::Case;
use graph::Graph;
use shapes::Shape;
use std::alloc::Global;
use std::io;

fn run(
    rt: &impl Print,
    heap: Global,
    shape: Shape,
    start: u32,
    flags: &mut [u8; 1024],
) -> anyhow::Result<()> {
    let graph = shape.graph(heap)?;
    match Case::new(shape, graph.relation(), start).compare(flags) {
        Ok(n) => println!(rt;
            "{shape} from {start}: {n} reached; count, flags, paths and early exits agree with the closure"
        )?,
        Err(why) => println!(rt; "{why}")?,
    }
    Ok(())
}

fn ask(rt: &impl Print, graph: &Graph, sought: u32, flags: &mut [u8; 1024]) -> io::Result<()> {
    match avoid(&graph.relation(), 0, sought, 6, flags) {
        Ok(Tally { count, other }) => println!(rt;
            "0 does not lead to {sought}: {count} reached, 6 among them: {other}"
        ),
        Err(path) => println!(rt; "0 leads to {sought}: {:?}", path.numbers()),
    }
}

fn ask_both(rt: &impl Print, heap: Global, flags: &mut [u8; 1024]) -> anyhow::Result<()> {
    let graph = Shape::Outside.graph(heap)?;
    ask(rt, &graph, 8, flags)?;
    ask(rt, &graph, 7, flags)?;
    Ok(())
}

fn main(rt: HostRuntime) -> anyhow::Result<()> {
    let heap = rt.alloc();
    let mut flags = [9; 1024];
    for (shape, start) in [
        (Shape::Chain, 0),
        (Shape::Chain, 1000),
        (Shape::Chain, 1024),
        (Shape::Ring, 17),
        (Shape::Grid, 40),
        (Shape::Dense, 5),
        (Shape::Outside, 0),
    ] {
        run(&rt, heap, shape, start, &mut flags)?;
    }
    ask_both(&rt, heap, &mut flags)
}
