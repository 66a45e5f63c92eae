//! Worked streams: a graph hands each of them out as it was read, and so does its tree.

use crate::tests::{hands_out, is_written, with_graph, write};
use jser_graph::GraphFault;
use jser_prim::ToWrite;
use std::io::{self, Write};
use std::test::Fail;
use test_support::streams::{LINKED_PAIR, STREAMS, nest};

#[test]
fn worked_streams(rt: HostRuntime) {
    for (name, bytes) in STREAMS {
        hands_out(&rt, name, bytes);
    }
}

/// A graph whose objects lie 999 deep is written and let go as any other.
#[test]
fn write_nest_999(rt: HostRuntime) -> Result<(), Fail> {
    let bytes = nest(rt.alloc(), 999)?;
    with_graph(&rt, &bytes, |rt, graph| {
        is_written(rt, "nest(999)", graph, &bytes)
    });
    Ok(())
}

/// A writer that takes no byte of any that it is given.
#[derive(Drop)]
struct Stuck;

impl Write for Stuck {
    fn write(&mut self, _: &[u8]) -> io::Result<usize> {
        Ok(0)
    }

    fn flush(&mut self) -> io::Result<()> {
        Ok(())
    }
}

/// A write that takes nothing is a failed one.
#[test]
fn a_writer_that_takes_nothing(rt: HostRuntime) {
    with_graph(&rt, LINKED_PAIR, |rt, graph| {
        let written = write(rt, graph, &mut ToWrite::new(Stuck));
        assert_eq!(rt; written, Err(GraphFault::Write { written: 0 }));
    });
}
