//! The example of the README of `jser_trees`.

// README: jser_trees
use jser_trees::{OpenGate, Stop, read_all};
use std::alloc::Global;

/// How many contents a stream has, and None where the bytes are not a stream.
fn content_count(alloc: Global, bytes: &[u8]) -> Result<Option<usize>, Stop> {
    match read_all(alloc, bytes, &OpenGate) {
        Ok(contents) => Ok(Some(contents.list().len())),
        Err(Stop::Refused(_)) => Ok(None),
        Err(stop) => Err(stop),
    }
}
// end

use crate::tests::asserted::same;

#[test]
fn contents_counted(rt: HostRuntime) {
    let alloc = rt.alloc();
    let found = content_count(alloc, &[0xAC, 0xED, 0, 5, 0x70, 0x79]);
    same(&rt, &found, &Ok(Some(2)), "null and a reset");
    let found = content_count(alloc, &[0xAC, 0xED, 0, 5, 0x78]);
    same(&rt, &found, &Ok(None), "no tag");
}
