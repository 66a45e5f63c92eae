//! How fast a stream is read, and becomes a tree, a graph and a text: `rt run -- streams FILE` reads the file in each way
//! and prints megabytes per second, the best of three; `rt run -- streams FILE WAY` does it once in that way.

use crate::ways::{WAYS, Way, prepare, run};
use anyhow::{Result, bail};
use jser_graph::Graph;
use std::alloc::Global;
use std::fmt;
use std::rt::Clock;
use std::time::Instant;

/// Prints how fast the stream is read in each way.
pub fn print_speeds(rt: &HostRuntime, stream: &[u8]) -> Result<()> {
    for (name, way) in WAYS {
        let speed = best(rt, rt.alloc(), stream, way)?;
        println!(rt; "{name}: {speed}")?;
    }
    Ok(())
}

/// Reads the stream once in the way of this name.
pub fn read_once(alloc: Global, stream: &[u8], asked: &str) -> Result<()> {
    for (name, way) in WAYS {
        if name == asked {
            let graph = prepare(alloc, stream, way)?;
            return run(alloc, stream, graph.as_ref(), way).map(|_| ());
        }
    }
    bail!("no such way: {asked}")
}

/// Megabytes per second; none where the stream is deeper than trees may be.
#[derive(Clone, Copy)]
struct Speed(Option<u64>);

impl fmt::Display for Speed {
    fn fmt<W: fmt::Write>(&self, f: &mut fmt::Formatter<W>) -> fmt::Result {
        match self.0 {
            Some(speed) => write!(f, "{speed} MB/s"),
            None => write!(f, "too deep"),
        }
    }
}

/// The best of three speeds.
fn best(rt: &impl Clock, alloc: Global, stream: &[u8], way: Way) -> Result<Speed> {
    let graph = prepare(alloc, stream, way)?;
    best_with(rt, alloc, stream, graph.as_ref(), way)
}

/// The best of three speeds, with the graph of the stream where this way begins with one.
fn best_with(
    rt: &impl Clock,
    alloc: Global,
    stream: &[u8],
    graph: Option<&Graph>,
    way: Way,
) -> Result<Speed> {
    let mut best = None;
    for _ in 0..3u8 {
        let start = Instant::now(rt)?;
        let count = run(alloc, stream, graph, way)?;
        let micros = u64::try_from(start.elapsed(rt)?.as_micros())?;
        best = best.max(count.map(|count| count / micros.max(1)));
    }
    Ok(Speed(best))
}
