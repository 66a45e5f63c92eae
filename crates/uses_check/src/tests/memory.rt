//! What is answered where memory runs out: `tools/refuse-allocations` runs these tests with each allocation
//! refused in turn.

use crate::tests::asserted::holds;
use crate::tests::rows::{ACCEPTED, REFUSED};
use crate::tests::{LAX, stream, wanted_answer};
use jser_check::{CheckFault, Report, Stop, check_bytes, check_reader};
use jser_filter::Filter;
use jser_prim::FromRead;
use std::alloc::{AllocError, AllocGlobal, Global};
use std::process::Abort;

/// The stream and the empty filter, where there is memory for them.
fn setting(alloc: Global, text: &str) -> Result<(Vec<u8>, Filter), AllocError> {
    let bytes = stream(alloc, text)?;
    match Filter::parse(alloc, "") {
        Ok(filter) => Ok((bytes, filter)),
        Err(_) => Err(AllocError),
    }
}

/// Both checks answer this, or that memory ran out.
fn right_or_out_of_memory(
    rt: &(impl Abort + AllocGlobal),
    text: &str,
    wanted: Result<Report, Stop>,
) {
    if let Ok((bytes, filter)) = setting(rt.alloc(), text) {
        assert_both_answer(rt, &bytes, &filter, wanted);
    }
}

/// Both checks of the bytes answer this, or that memory ran out.
fn assert_both_answer(
    rt: &(impl Abort + AllocGlobal),
    bytes: &[u8],
    filter: &Filter,
    wanted: Result<Report, Stop>,
) {
    let answer = check_bytes(rt.alloc(), bytes, filter, LAX);
    let right = answer == wanted || answer == Err(Stop::OutOfMemory);
    holds(
        rt,
        right,
        format_args!("{wanted:?} or out of memory: {answer:?}"),
    );
    let answer = check_reader(rt.alloc(), &mut FromRead::new(bytes), filter, LAX);
    let right = answer == wanted.map_err(CheckFault::Stop)
        || answer == Err(CheckFault::Stop(Stop::OutOfMemory));
    holds(
        rt,
        right,
        format_args!("{wanted:?} or out of memory: {answer:?}"),
    );
}

#[test]
fn accepted_or_out_of_memory(rt: HostRuntime) {
    for (_, text, wanted) in ACCEPTED {
        right_or_out_of_memory(&rt, text, wanted_answer(wanted));
    }
}

#[test]
fn refused_or_out_of_memory(rt: HostRuntime) {
    for (_, text, wanted) in REFUSED {
        right_or_out_of_memory(&rt, text, wanted_answer(wanted));
    }
}
