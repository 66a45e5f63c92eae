//! Arrays inside arrays, as deep as the cap allows and one deeper.

use crate::tests::asserted::same;
use crate::tests::{LAX, answer_in_pieces, refused, report};
use jser_check::{CheckFault, Reason, Report, Stop, check_bytes};
use jser_filter::Filter;
use std::alloc::AllocGlobal;
use std::process::Abort;
use std::test::Fail;
use test_support::streams::nest;

/// Both checks answer this to so many arrays.
fn assert_nest(
    rt: &(impl Abort + AllocGlobal),
    arrays: usize,
    answer: Result<Report, Stop>,
) -> Result<(), Fail> {
    let bytes = nest(rt.alloc(), arrays)?;
    let filter = Filter::parse(rt.alloc(), "")?;
    assert_both_answer(rt, &bytes, &filter, answer);
    Ok(())
}

/// Both checks answer this to the bytes.
fn assert_both_answer(
    rt: &(impl Abort + AllocGlobal),
    bytes: &[u8],
    filter: &Filter,
    answer: Result<Report, Stop>,
) {
    let found = check_bytes(rt.alloc(), bytes, filter, LAX);
    same(rt, &found, &answer, "the check of a slice");
    let pieced = answer_in_pieces(rt.alloc(), bytes, 4096, filter, LAX);
    same(
        rt,
        &pieced,
        &answer.map_err(CheckFault::Stop),
        "4096 bytes a call",
    );
}

#[test]
fn nests(rt: HostRuntime) -> Result<(), Fail> {
    assert_nest(&rt, 999, Ok(report(10_010, 1, 1001, 1000, 1000)))?;
    assert_nest(&rt, 1000, Ok(report(10_020, 1, 1002, 1001, 1001)))
}

#[test]
fn nest_as_deep_as_can_be(rt: HostRuntime) -> Result<(), Fail> {
    let counts = report(655_360, 1, 65_536, 65_535, 65_535);
    assert_nest(&rt, 65_534, Ok(counts))
}

#[test]
fn nest_too_deep(rt: HostRuntime) -> Result<(), Fail> {
    let deep = refused(Reason::DepthExceeded, 655_369, 655_370);
    assert_nest(&rt, 65_535, Err(deep))
}
