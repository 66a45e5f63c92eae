//! Arrays inside arrays, and how many frames are open.

use crate::tests::asserted::{holds, same};
use crate::tests::{answer_of, skip, totals};
use jser_reader::{OpenGate, Reader, Reason, Refusal, Stop};
use std::process::Abort;
use std::test::Fail;
use test_support::streams::nest;

#[test]
fn nest_999(rt: HostRuntime) -> Result<(), Fail> {
    let bytes = nest(rt.alloc(), 999)?;
    same!(rt;
        answer_of(rt.alloc(), &bytes, bytes.len()),
        Ok(totals(10010, 1, 1001, 1000, 1000))
    );
    Ok(())
}

#[test]
fn nest_65534(rt: HostRuntime) -> Result<(), Fail> {
    let bytes = nest(rt.alloc(), 65_534)?;
    same!(rt;
        answer_of(rt.alloc(), &bytes, 4096),
        Ok(totals(655_360, 1, 65_536, 65_535, 65_535))
    );
    Ok(())
}

#[test]
fn nest_65535(rt: HostRuntime) -> Result<(), Fail> {
    let bytes = nest(rt.alloc(), 65_535)?;
    let refusal = Refusal {
        from_byte: 655_369,
        to_byte: 655_370,
        reason: Reason::DepthExceeded,
    };
    same!(rt;
        answer_of(rt.alloc(), &bytes, 4096),
        Err(Stop::Refused(refusal))
    );
    Ok(())
}

/// How many arrays have begun of a nest of which so many bytes were taken: the first is 29 bytes long, each other 10, and the
/// last byte ends them all.
fn begun(taken: usize) -> u64 {
    if taken == 10_010 {
        return 0;
    }
    match taken.checked_sub(29) {
        None => 0,
        Some(more) => (more / 10 + 1) as u64,
    }
}

/// There is a frame for each array of these bytes that has begun; before the first one there may be that of its class.
fn assert_frames(rt: &impl Abort, reader: &mut Reader<OpenGate>, bytes: &[u8]) {
    for (index, byte) in bytes.chunks(1).enumerate() {
        let taken = index.saturating_add(1);
        let text = format_args!("after {taken} bytes");
        same(rt, &skip(reader, byte), &Ok(()), text);
        let frames = reader.open_frames();
        let right = frames == begun(taken) || (taken < 29 && frames == 1);
        holds(
            rt,
            right,
            format_args!("{frames} frames after {taken} bytes"),
        );
    }
}

#[test]
fn nest_999_frames(rt: HostRuntime) -> Result<(), Fail> {
    let bytes = nest(rt.alloc(), 999)?;
    same!(rt; bytes.len(), 10_010);
    assert_frames(&rt, &mut Reader::new(rt.alloc(), OpenGate), &bytes);
    Ok(())
}
