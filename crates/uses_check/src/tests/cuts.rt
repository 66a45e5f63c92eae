//! Streams that are cut after each byte, and streams with one byte replaced.

use crate::tests::asserted::{holds, same};
use crate::tests::{
    ARRAY_LIST, ENUM_CONSTANT, LAX, LINKED_PAIR, Wanted, answer_in_pieces, assert_answer,
    wanted_answer, with_filter, with_stream,
};
use jser_check::{CheckFault, Reason, Refusal, Report, Stop, check_bytes};
use jser_filter::Filter;
use std::alloc::AllocGlobal;
use std::process::Abort;
use std::test::Fail;
use test_support::streams::{STREAMS, nest};

/// The answer is yes, or Truncated at so many bytes.
fn is_cut_at(answer: Result<Report, Stop>, cut: usize) -> bool {
    match answer {
        Ok(counts) => counts.bytes == cut as u64,
        Err(Stop::Refused(refusal)) => {
            refusal.reason == Reason::Truncated && refusal.to_byte == cut as u64
        }
        Err(_) => false,
    }
}

/// Each beginning of these bytes is a stream, or Truncated at its end.
fn assert_cuts(rt: &(impl Abort + AllocGlobal), filter: &Filter, name: &str, bytes: &[u8]) {
    for cut in 0..bytes.len() {
        let (front, _) = bytes.split_at(cut);
        let answer = check_bytes(rt.alloc(), front, filter, LAX);
        holds(
            rt,
            is_cut_at(answer, cut),
            format_args!("{name} cut after {cut} bytes"),
        );
        assert_answer(rt, name, front, filter, LAX, answer);
    }
}

/// Each beginning of each of the worked streams is a stream, or Truncated at its end.
fn assert_each_cut(rt: &(impl Abort + AllocGlobal), filter: &Filter) -> Result<(), Fail> {
    for (name, bytes) in STREAMS {
        assert_cuts(rt, filter, name, bytes);
    }
    Ok(())
}

#[test]
fn cuts(rt: HostRuntime) -> Result<(), Fail> {
    with_filter(&rt, "", |rt, filter| assert_each_cut(rt, filter))
}

/// Each beginning of these bytes is a stream, or Truncated at its end, for the check of a slice.
fn assert_slices_cut(rt: &(impl Abort + AllocGlobal), filter: &Filter, bytes: &[u8]) {
    for cut in 0..bytes.len() {
        let (front, _) = bytes.split_at(cut);
        let answer = check_bytes(rt.alloc(), front, filter, LAX);
        holds(
            rt,
            is_cut_at(answer, cut),
            format_args!("arrays 999 deep, cut after {cut} bytes"),
        );
    }
}

#[test]
fn cuts_of_nest_999(rt: HostRuntime) -> Result<(), Fail> {
    let bytes = nest(rt.alloc(), 999)?;
    with_filter(&rt, "", |rt, filter| {
        assert_slices_cut(rt, filter, &bytes);
        Ok(())
    })
}

/// The row `linked-pair-cuts`: where the linked pair may end, and where its tokens are cut.
const LINKED_PAIR_CUTS: [(usize, Wanted); 6] = [
    (3, Err((Reason::Truncated, 0, 3))),
    (4, Ok([4, 0, 0, 0, 0])),
    (10, Err((Reason::Truncated, 6, 10))),
    (64, Ok([64, 1, 4, 3, 4])),
    (65, Err((Reason::Truncated, 65, 65))),
    (68, Err((Reason::Truncated, 65, 68))),
];

/// Each of these cuts of the bytes of the linked pair is answered as it is wanted.
fn assert_linked_pair_cuts(
    rt: &(impl Abort + AllocGlobal),
    filter: &Filter,
    bytes: &[u8],
) -> Result<(), Fail> {
    for (cut, wanted) in LINKED_PAIR_CUTS {
        let (front, _) = bytes.split_at(bytes.len().min(cut));
        let answer = wanted_answer(wanted);
        assert_answer(rt, "linked-pair-cuts", front, filter, LAX, answer);
    }
    Ok(())
}

#[test]
fn linked_pair_cuts(rt: HostRuntime) -> Result<(), Fail> {
    with_filter(&rt, "", |rt, filter| {
        with_stream(rt, LINKED_PAIR, |rt, bytes| {
            assert_linked_pair_cuts(rt, filter, bytes)
        })
    })
}

/// The bytes before the deciding one are no refusal but Truncated, and the bytes after it change nothing.
fn assert_decided(
    rt: &(impl Abort + AllocGlobal),
    filter: &Filter,
    bytes: &[u8],
    refusal: Refusal,
) -> Result<(), Fail> {
    let end = bytes.len().min(refusal.to_byte as usize);
    let (front, _) = bytes.split_at(end.saturating_sub(1));
    let answer = check_bytes(rt.alloc(), front, filter, LAX);
    holds(
        rt,
        is_cut_at(answer, front.len()),
        "is cut before the deciding byte",
    );
    let (decided, _) = bytes.split_at(end);
    let mut other = decided.to_vec(rt.alloc())?;
    for tail in [0x00, 0x70, 0xFF] {
        other.push(tail)?;
        let answer = check_bytes(rt.alloc(), &other, filter, LAX);
        same(rt, &answer, &Err(Stop::Refused(refusal)), "with a tail");
    }
    Ok(())
}

/// The checks of a slice, and of a source by one byte and by three, agree on the bytes, and a refusal is decided where it
/// says.
fn assert_agree(
    rt: &(impl Abort + AllocGlobal),
    filter: &Filter,
    bytes: &[u8],
) -> Result<(), Fail> {
    let answer = check_bytes(rt.alloc(), bytes, filter, LAX);
    for size in [1, 3] {
        let pieced = answer_in_pieces(rt.alloc(), bytes, size, filter, LAX);
        let text = format_args!("{size} bytes a call");
        same(rt, &pieced, &answer.map_err(CheckFault::Stop), text);
    }
    match answer {
        Err(Stop::Refused(refusal)) if refusal.reason != Reason::Truncated => {
            assert_decided(rt, filter, bytes, refusal)
        }
        Err(Stop::Refused(_)) | Ok(_) => Ok(()),
        Err(_) => panic!(rt; "out of memory"),
    }
}

/// The byte at this place of the stream, replaced by each byte.
fn assert_replaced(
    rt: &(impl Abort + AllocGlobal),
    filter: &Filter,
    bytes: &[u8],
    at: usize,
) -> Result<(), Fail> {
    let mut replaced = bytes.to_vec(rt.alloc())?;
    assert_each_byte(rt, filter, &mut replaced, at)
}

/// Each byte in turn, at this place of the bytes.
fn assert_each_byte(
    rt: &(impl Abort + AllocGlobal),
    filter: &Filter,
    bytes: &mut [u8],
    at: usize,
) -> Result<(), Fail> {
    for other in 0..=u8::MAX {
        if let Some(byte) = bytes.get_mut(at) {
            *byte = other;
        }
        assert_agree(rt, filter, bytes)?;
    }
    Ok(())
}

/// Each byte of the stream, replaced by each byte.
fn assert_each_replaced(
    rt: &(impl Abort + AllocGlobal),
    filter: &Filter,
    bytes: &[u8],
) -> Result<(), Fail> {
    for at in 0..bytes.len() {
        assert_replaced(rt, filter, bytes, at)?;
    }
    Ok(())
}

/// Each byte of each of the streams.
fn assert_streams_replaced(rt: &(impl Abort + AllocGlobal), filter: &Filter) -> Result<(), Fail> {
    for text in [LINKED_PAIR, ENUM_CONSTANT, ARRAY_LIST] {
        with_stream(
            rt,
            text,
            |rt, bytes| assert_each_replaced(rt, filter, bytes),
        )?;
    }
    Ok(())
}

#[test]
fn replaced_bytes(rt: HostRuntime) -> Result<(), Fail> {
    with_filter(&rt, "", |rt, filter| assert_streams_replaced(rt, filter))
}
