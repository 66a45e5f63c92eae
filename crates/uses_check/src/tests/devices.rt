//! Sources that fail, and how many bytes are taken.

use crate::tests::asserted::{holds, same};
use crate::tests::{
    LAX, LINKED_PAIR, LINKED_PAIR_TAIL, push_copies, refused, stream, with_filter, with_stream,
};
use jser_check::{CheckFault, Reason, Report, check_reader};
use jser_filter::Filter;
use jser_prim::Source;
use std::alloc::{AllocError, AllocGlobal, Global};
use std::process::Abort;
use std::test::Fail;
use test_support::Pieces;

/// `check_reader` answers this to a source that fails after these bytes, and then it has failed, if it was read
/// to there.
fn assert_failing(
    rt: &(impl Abort + AllocGlobal),
    filter: &Filter,
    bytes: &[u8],
    most: usize,
    answer: Result<Report, CheckFault>,
) {
    let mut source = Pieces::failing(bytes, most);
    let found = check_reader(rt.alloc(), &mut source, filter, LAX);
    let count = bytes.len();
    same(
        rt,
        &found,
        &answer,
        format_args!("fails after {count} bytes"),
    );
    let told = found == Err(CheckFault::ReadFault);
    same(
        rt,
        &source.failed(),
        &told,
        format_args!("has failed after {count} bytes"),
    );
}

/// A failed read after any number of these bytes is told.
fn assert_failing_anywhere(rt: &(impl Abort + AllocGlobal), filter: &Filter, bytes: &[u8]) {
    for count in 0..70 {
        for most in [1, 1000] {
            let (front, _) = bytes.split_at(count.min(bytes.len()));
            assert_failing(rt, filter, front, most, Err(CheckFault::ReadFault));
        }
    }
}

/// A read that fails after any number of bytes is told, and never taken for the end.
#[test]
fn read_fails_anywhere(rt: HostRuntime) -> Result<(), Fail> {
    with_filter(&rt, "", |rt, filter| {
        with_stream(rt, LINKED_PAIR, |rt, bytes| {
            assert_failing_anywhere(rt, filter, bytes);
            Ok(())
        })
    })
}

/// A refusal that the bytes before a failed read decide is told in place of the failure.
#[test]
fn read_fails_after_refusal(rt: HostRuntime) -> Result<(), Fail> {
    with_filter(&rt, "", |rt, filter| {
        with_stream(rt, LINKED_PAIR_TAIL, |rt, bytes| {
            assert_refusal_is_told(rt, filter, bytes);
            Ok(())
        })
    })
}

/// The first 69 of the bytes decide nothing, and the 70th is refused.
fn assert_refusal_is_told(rt: &(impl Abort + AllocGlobal), filter: &Filter, bytes: &[u8]) {
    let (front, _) = bytes.split_at(bytes.len().min(69));
    assert_failing(rt, filter, front, 7, Err(CheckFault::ReadFault));
    let answer = Err(CheckFault::Stop(refused(Reason::BadTag, 69, 70)));
    assert_failing(rt, filter, bytes, 7, answer);
}

/// `LINKED_PAIR_TAIL`, and 200,000 zeros.
fn tail_and_zeros(alloc: Global) -> Result<Vec<u8>, AllocError> {
    let mut bytes = stream(alloc, LINKED_PAIR_TAIL)?;
    push_copies(&mut bytes, 0, 200_000)?;
    Ok(bytes)
}

/// The bytes are refused at their 70th, and few of those after it are taken.
fn assert_tail_is_left(rt: &(impl Abort + AllocGlobal), filter: &Filter, bytes: &[u8]) {
    let mut source = Pieces::new(bytes, bytes.len());
    let found = check_reader(rt.alloc(), &mut source, filter, LAX);
    let answer = Err(CheckFault::Stop(refused(Reason::BadTag, 69, 70)));
    same(rt, &found, &answer, "a refusal, and zeros");
    let taken = bytes.len().saturating_sub(source.left());
    holds(rt, taken <= 65_605, format_args!("{taken} bytes are few"));
}

/// After a refusal nothing is read but the rest of the read that has the deciding byte.
#[test]
fn tail_then_zeros(rt: HostRuntime) -> Result<(), Fail> {
    let bytes = tail_and_zeros(rt.alloc())?;
    let filter = Filter::parse(rt.alloc(), "")?;
    assert_tail_is_left(&rt, &filter, &bytes);
    Ok(())
}
