//! The example of the README of `jser_check`.

// README: jser_check
use jser_check::{Options, Stop, check_bytes};
use jser_filter::{Filter, FilterFault};
use std::alloc::Global;

/// Whether the bytes are a stream whose classes all are of `java.util`. A class that no pattern names is refused too.
fn holds_only_utilities(alloc: Global, bytes: &[u8]) -> Result<Result<bool, Stop>, FilterFault> {
    let filter = Filter::parse(alloc, "java.util.*")?;
    let answer = check_bytes(alloc, bytes, &filter, Options { strict: true });
    Ok(match answer {
        Ok(_) => Ok(true),
        Err(Stop::Refused(_)) => Ok(false),
        Err(stop) => Err(stop),
    })
}
// end

use crate::tests::asserted::same;
use crate::tests::{ARRAY_LIST, LINKED_PAIR, with_stream};
use std::alloc::AllocGlobal;
use std::process::Abort;
use std::test::Fail;

/// What the example answers of the stream that is written down.
fn assert_utilities(rt: &(impl Abort + AllocGlobal), text: &str, wanted: bool) -> Result<(), Fail> {
    with_stream(rt, text, |rt, bytes| {
        let found = holds_only_utilities(rt.alloc(), bytes);
        same(rt, &found, &Ok(Ok(wanted)), text);
        Ok(())
    })
}

#[test]
fn utilities(rt: HostRuntime) -> Result<(), Fail> {
    assert_utilities(&rt, ARRAY_LIST, true)?;
    assert_utilities(&rt, LINKED_PAIR, false)
}
