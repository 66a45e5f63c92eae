//! Streams from the format, read as trees and written again, and what is refused.

use crate::tests::asserted::{holds, same};
use jser_trees::{Contents, OpenGate, Reason, Refusal, Stop, read_all};
use jser_value::{Content, Value, encode};
use std::alloc::{AllocError, AllocGlobal, Global};
use std::process::Abort;
use std::test::Fail;
use test_support::Page;
use test_support::streams::{ABC_NULL_REF, nest};

mod asserted;
mod chance;
mod example;
mod maker;
mod memory;
mod replaced;
mod rows;

/// The contents of a stream that passes.
fn contents_of(rt: &(impl Abort + AllocGlobal), bytes: &[u8]) -> Contents {
    match read_all(rt.alloc(), bytes, &OpenGate) {
        Ok(contents) => contents,
        Err(_) => panic!(rt; "no stream, or no memory"),
    }
}

/// The bytes become a tree, and the tree becomes the bytes.
fn reads_back(rt: &(impl Abort + AllocGlobal), name: &str, bytes: &[u8]) -> Result<(), Fail> {
    match read_all(rt.alloc(), bytes, &OpenGate) {
        Ok(contents) => writes(rt, &contents, bytes),
        Err(_) => panic!(rt; "{name}: no stream, or no memory"),
    }
}

/// The contents are written as these bytes.
fn writes(rt: &(impl Abort + AllocGlobal), contents: &Contents, bytes: &[u8]) -> Result<(), Fail> {
    let mut page = Page::new(rt.alloc(), usize::MAX, usize::MAX);
    let count = encode(contents, &mut page)?;
    same(rt, &page.bytes.as_slice(), &bytes, "what is written");
    same(rt, &count, &(bytes.len() as u64), "how many bytes are told");
    Ok(())
}

/// Where the bytes become a tree, it becomes the bytes; else they are refused.
fn writes_what_it_reads(rt: &(impl Abort + AllocGlobal), bytes: &[u8]) -> Result<(), Fail> {
    match read_all(rt.alloc(), bytes, &OpenGate) {
        Ok(contents) => writes(rt, &contents, bytes),
        Err(Stop::Refused(_)) => Ok(()),
        Err(_) => panic!(rt; "no memory"),
    }
}

/// This byte stands there.
fn put(bytes: &mut [u8], place: usize, byte: u8) {
    if let Some(slot) = bytes.get_mut(place) {
        *slot = byte;
    }
}

/// The bytes are refused.
fn refuses(
    rt: &(impl Abort + AllocGlobal),
    bytes: &[u8],
    reason: Reason,
    from_byte: u64,
    to_byte: u64,
) {
    let refusal = Refusal {
        from_byte,
        to_byte,
        reason,
    };
    let found = read_all(rt.alloc(), bytes, &OpenGate).err();
    same(rt, &found, &Some(Stop::Refused(refusal)), "the refusal");
}

/// Arrays within arrays, as deep as trees may be.
#[test]
fn nest_999(rt: HostRuntime) -> Result<(), Fail> {
    let bytes = nest(rt.alloc(), 999)?;
    reads_back(&rt, "nest(999)", &bytes)
}

/// One deeper.
#[test]
fn nest_1000(rt: HostRuntime) -> Result<(), Fail> {
    let bytes = nest(rt.alloc(), 1000)?;
    refuses(&rt, &bytes, Reason::DepthExceeded, 10_019, 10_020);
    Ok(())
}

/// The list is a string, null, and a reference to the string.
fn is_abc_null_ref(rt: &impl Abort, list: &[Content]) {
    match list {
        [
            Content::Value(Value::Text(text)),
            Content::Value(Value::Null),
            Content::Value(Value::Back(0)),
        ] => {
            holds(rt, !text.long, "a short string");
            let wanted = [0x61u16, 0x62, 0x63];
            same(rt, &text.units.as_slice(), &wanted.as_slice(), "its units");
        }
        _ => panic!(rt; "another list"),
    }
}

#[test]
fn abc_null_ref_list(rt: HostRuntime) {
    let contents = contents_of(&rt, ABC_NULL_REF);
    is_abc_null_ref(&rt, contents.list());
}

#[test]
fn refusals(rt: HostRuntime) {
    refuses(&rt, b"", Reason::Truncated, 0, 0);
    refuses(&rt, b"\xAC\xED\x00\x06", Reason::BadHeader, 0, 4);
    refuses(
        &rt,
        b"\xAC\xED\x00\x05\x75\x72\x00\x02\x5B\x49\x4D\xBA\x60\x26\x76\xEA\xB2\xA5\x02\x00\x00\x78\x70\x7F\xFF\xFF\xFF",
        Reason::Truncated,
        27,
        27,
    );
}
