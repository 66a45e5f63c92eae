//! Worked streams: each becomes a tree, whose bytes are those of the stream.

use crate::tests::reads_back;
use std::test::Fail;
use test_support::streams::STREAMS;

#[test]
fn worked_streams(rt: HostRuntime) -> Result<(), Fail> {
    for (name, bytes) in STREAMS {
        reads_back(&rt, name, bytes)?;
    }
    Ok(())
}
