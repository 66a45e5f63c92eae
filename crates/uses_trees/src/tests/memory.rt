//! To be run with each allocation refused in turn: the answer is out of memory, or the right one.

use crate::tests::asserted::{holds, same};
use jser_trees::{OpenGate, Stop, read_all};
use jser_value::encode;
use std::alloc::AllocGlobal;
use std::process::Abort;
use test_support::Compared;
use test_support::streams::STREAMS;

/// Two linked objects, an annotation with block data and a string, and an array of ints.
const STREAM: &[u8] =
    b"\xAC\xED\x00\x05\x73\x72\x00\x04List\x69\xC8\x8A\x15\x40\x16\xAE\x68\x02\x00\x02\
    I\x00\x05valueL\x00\x04next\x74\x00\x06LList;\x78\x70\x00\x00\x00\x11\x73\x71\x00\x7E\x00\x00\x00\x00\x00\x13\x70\
    \x73\x72\x00\x01A\x00\x00\x00\x00\x00\x00\x00\x01\x03\x00\x00\x78\x70\x77\x01\x05\x74\x00\x01a\x78\
    \x75\x72\x00\x02[I\x4D\xBA\x60\x26\x76\xEA\xB2\xA5\x02\x00\x00\x78\x70\x00\x00\x00\x01\x00\x00\x00\x07";

/// The tree of the stream is written as it was read, or memory ran out.
fn is_read(rt: &(impl Abort + AllocGlobal), name: &str, bytes: &[u8]) {
    match read_all(rt.alloc(), bytes, &OpenGate) {
        Ok(contents) => {
            let mut sink = Compared::new(bytes);
            holds(rt, encode(&contents, &mut sink).is_ok(), name);
            holds(rt, sink.is_whole(), name);
        }
        Err(stop) => same(rt, &stop, &Stop::OutOfMemory, name),
    }
}

#[test]
fn right_or_out_of_memory(rt: HostRuntime) {
    is_read(&rt, "three objects and an array", STREAM);
}

#[test]
fn each_stream_or_out_of_memory(rt: HostRuntime) {
    for (name, bytes) in STREAMS {
        is_read(&rt, name, bytes);
    }
}
