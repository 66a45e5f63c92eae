//! Worked streams, and what each of them is: the counts of a stream, or the refusal of bytes that are none.

use crate::tests::asserted::{holds, same};
use crate::tests::{
    answer_of, answer_to_items, assert_accepted, assert_refused, totals, with_zeros,
};
use jser_reader::{Reason, Stop};
use std::alloc::AllocGlobal;
use std::process::Abort;
use std::test::Fail;
use test_support::streams::{
    ABC_NULL_REF, ARRAY_LIST, BLOCKS, EMPTY_STREAM, ENUM_CONSTANT, EXTERNAL_OVER_SERIAL,
    EXTERNAL_RAW, INT_ARRAY, INT_ARRAY_EMPTY, LINKED_PAIR, LONG_STRING, ODD_TEXTS, OWN_SUPERCLASS,
    PROXY, RESET_EPOCHS, SUPERCLASS_FIRST,
};

/// A stream, and what is counted in it: bytes, contents, places, depth and handles.
type Accepted = (&'static [u8], [u64; 5]);

const ACCEPTED: [Accepted; 16] = [
    (EMPTY_STREAM, [4, 0, 0, 0, 0]),
    (ABC_NULL_REF, [16, 3, 3, 1, 1]),
    (LINKED_PAIR, [69, 2, 5, 3, 4]),
    (INT_ARRAY, [35, 1, 2, 2, 2]),
    (INT_ARRAY_EMPTY, [27, 1, 2, 2, 2]),
    (ENUM_CONSTANT, [55, 1, 3, 3, 4]),
    (PROXY, [98, 1, 4, 3, 4]),
    (RESET_EPOCHS, [18, 4, 3, 1, 2]),
    (OWN_SUPERCLASS, [26, 1, 3, 2, 1]),
    (EXTERNAL_RAW, [22, 1, 2, 2, 2]),
    (EXTERNAL_OVER_SERIAL, [46, 1, 3, 3, 3]),
    (ODD_TEXTS, [10, 1, 1, 1, 1]),
    (BLOCKS, [6, 1, 0, 0, 0]),
    (ARRAY_LIST, [62, 1, 3, 2, 3]),
    (SUPERCLASS_FIRST, [52, 1, 3, 3, 3]),
    (LONG_STRING, [14, 1, 1, 1, 1]),
];

#[test]
fn accepted_streams(rt: HostRuntime) -> Result<(), Fail> {
    for (bytes, [size, contents, refs, depth, handles]) in ACCEPTED {
        let counts = totals(size, contents, refs, depth, handles);
        assert_accepted(&rt, bytes, counts)?;
    }
    Ok(())
}

/// A beginning of a stream is one, or it is refused for its end alone.
fn assert_cut(rt: &(impl Abort + AllocGlobal), front: &[u8]) {
    let end = front.len() as u64;
    match answer_of(rt.alloc(), front, 3) {
        Ok(found) => holds(rt, found.bytes == end, "the bytes of a stream"),
        Err(Stop::Refused(found)) => {
            same(rt, &found.reason, &Reason::Truncated, "the reason");
            same(rt, &found.to_byte, &end, "the end");
        }
        Err(_) => panic!(rt; "no memory"),
    }
}

#[test]
fn each_stream_cut_after_each_byte(rt: HostRuntime) {
    for (bytes, _) in ACCEPTED {
        for cut in 0..bytes.len() {
            let (front, _) = bytes.split_at(cut);
            assert_cut(&rt, front);
        }
    }
}

/// Each byte in turn at this place of the stream: item by item in pieces of three the answer is that to all bytes at once.
fn assert_each_byte(rt: &(impl Abort + AllocGlobal), bytes: &mut [u8], at: usize) {
    for other in 0..=u8::MAX {
        if let Some(byte) = bytes.get_mut(at) {
            *byte = other;
        }
        let wanted = answer_of(rt.alloc(), bytes, bytes.len());
        let found = answer_to_items(rt.alloc(), bytes, 3);
        let text = format_args!("{other} at {at}");
        same(rt, &found, &wanted, text);
    }
}

#[test]
fn each_byte_replaced_by_each(rt: HostRuntime) -> Result<(), Fail> {
    for (bytes, _) in ACCEPTED {
        for at in 0..bytes.len() {
            let mut replaced = bytes.to_vec(rt.alloc())?;
            assert_each_byte(&rt, &mut replaced, at);
        }
    }
    Ok(())
}

/// Bytes that are refused, the reason, and the two places.
type Refused = (&'static [u8], Reason, u64, u64);

const REFUSED: [Refused; 32] = [
    // empty-stream
    (b"", Reason::Truncated, 0, 0),
    (b"\xAC", Reason::Truncated, 0, 1),
    (b"\x00", Reason::BadHeader, 0, 1),
    (b"\xAC\xED\x00\x06", Reason::BadHeader, 0, 4),
    // linked-pair
    (
        b"\xAC\xED\x00\x05\x73\x72\x00\x04\x4C\x69\x73\x74\x69\xC8\x8A\x15\x40\x16\xAE\x68\x02\x00\x02\x49\x00\x05\x76\x61\x6C\x75\x65\x4C\x00\x04\x6E\x65\x78\x74\x74\x00\x06\x4C\x4C\x69\x73\x74\x3B\x78\x70\x00\x00\x00\x11\x73\x71\x00\x7E\x00\x00\x00\x00\x00\x13\x70\x71\x00\x7E\x00\x03\x78",
        Reason::BadTag,
        69,
        70,
    ),
    // int-array
    (
        b"\xAC\xED\x00\x05\x75\x72\x00\x02\x5B\x49\x4D\xBA\x60\x26\x76\xEA\xB2\xA5\x02\x00\x00\x78\x70\x7F\xFF\xFF\xFF",
        Reason::Truncated,
        27,
        27,
    ),
    // reset-epochs
    (
        b"\xAC\xED\x00\x05\x74\x00\x01\x61\x79\x74\x00\x01\x62\x71\x00\x7E\x00\x01",
        Reason::NoSuchHandle,
        14,
        18,
    ),
    // no-handle-yet
    (
        b"\xAC\xED\x00\x05\x71\x00\x7E\x00\x00",
        Reason::NoSuchHandle,
        5,
        9,
    ),
    (
        b"\xAC\xED\x00\x05\x71\xFF\xFF\xFF\xFF",
        Reason::NoSuchHandle,
        5,
        9,
    ),
    // own-superclass
    (
        b"\xAC\xED\x00\x05\x72\x00\x01\x41\x00\x00\x00\x00\x00\x00\x00\x01\x02\x00\x00\x78\x71\x00\x7E\x00\x00",
        Reason::OpenDescriptor,
        21,
        25,
    ),
    // external-raw
    (
        b"\xAC\xED\x00\x05\x73\x72\x00\x01\x41\x00\x00\x00\x00\x00\x00\x00\x01\x04\x00\x00\x78\x70",
        Reason::ExternalRaw,
        17,
        18,
    ),
    (
        b"\xAC\xED\x00\x05\x73\x72\x00\x01\x41\x00\x00\x00\x00\x00\x00\x00\x01\x00\x00\x00\x78\x70",
        Reason::NotSerializable,
        17,
        18,
    ),
    // exception-and-inner-reset
    (b"\xAC\xED\x00\x05\x7B", Reason::ExceptionTag, 4, 5),
    (
        b"\xAC\xED\x00\x05\x72\x00\x01\x41\x00\x00\x00\x00\x00\x00\x00\x01\x02\x00\x00\x79",
        Reason::ResetInside,
        19,
        20,
    ),
    // odd-texts
    (
        b"\xAC\xED\x00\x05\x72\x00\x02\xC1\x81",
        Reason::BadText,
        5,
        8,
    ),
    // blocks
    (
        b"\xAC\xED\x00\x05\x7A\xFF\xFF\xFF\xFF",
        Reason::NegativeLength,
        5,
        9,
    ),
    (
        b"\xAC\xED\x00\x05\x7A\x7F\xFF\xFF\xFF",
        Reason::Truncated,
        9,
        9,
    ),
    // wrong-kinds
    (b"\xAC\xED\x00\x05\x73\x70", Reason::NullClass, 5, 6),
    (
        b"\xAC\xED\x00\x05\x75\x72\x00\x01\x41",
        Reason::WrongClass,
        6,
        9,
    ),
    (b"\xAC\xED\x00\x05\x75\x7D", Reason::WrongClass, 5, 6),
    (
        b"\xAC\xED\x00\x05\x72\x00\x02\x5B\x56",
        Reason::BadArrayName,
        5,
        9,
    ),
    (
        b"\xAC\xED\x00\x05\x74\x00\x01\x61\x73\x71\x00\x7E\x00\x00",
        Reason::WrongKind,
        10,
        14,
    ),
    // descriptor-faults
    (
        b"\xAC\xED\x00\x05\x72\x00\x01\x41\x00\x00\x00\x00\x00\x00\x00\x01\x06",
        Reason::BadFlags,
        16,
        17,
    ),
    (
        b"\xAC\xED\x00\x05\x72\x00\x01\x41\x00\x00\x00\x00\x00\x00\x00\x01\x02\x00\x01\x56",
        Reason::BadTypeCode,
        19,
        20,
    ),
    (
        b"\xAC\xED\x00\x05\x72\x00\x01\x41\x00\x00\x00\x00\x00\x00\x00\x01\x02\x00\x02\x4C\x00\x01\x61\x74\x00\x01\x4C\x49",
        Reason::FieldOrder,
        27,
        28,
    ),
    (
        b"\xAC\xED\x00\x05\x72\x00\x01\x41\x00\x00\x00\x00\x00\x00\x00\x01\x02\xFF\xFF",
        Reason::NegativeLength,
        17,
        19,
    ),
    // long-string
    (
        b"\xAC\xED\x00\x05\x7C\xFF\xFF\xFF\xFF\xFF\xFF\xFF\xFF",
        Reason::NegativeLength,
        5,
        13,
    ),
    (
        b"\xAC\xED\x00\x05\x7C\x7F\xFF\xFF\xFF\xFF\xFF\xFF\xFF",
        Reason::Truncated,
        5,
        13,
    ),
    // tag-tie
    (
        b"\xAC\xED\x00\x05\x75\x72\x00\x02\x5B\x56",
        Reason::BadArrayName,
        6,
        10,
    ),
    // object-tag-alone
    (b"\xAC\xED\x00\x05\x73", Reason::Truncated, 5, 5),
    // superclass-not-serial
    (
        b"\xAC\xED\x00\x05\x73\x72\x00\x01\x41\x00\x00\x00\x00\x00\x00\x00\x01\x02\x00\x00\x78\x72\x00\x01\x42\x00\x00\x00\x00\x00\x00\x00\x02\x00",
        Reason::NotSerializable,
        33,
        34,
    ),
    // superclass-ref-not-serial
    (
        b"\xAC\xED\x00\x05\x72\x00\x01\x42\x00\x00\x00\x00\x00\x00\x00\x01\x0C\x00\x00\x78\x70\x73\x72\x00\x01\x41\x00\x00\x00\x00\x00\x00\x00\x01\x02\x00\x00\x78\x71\x00\x7E\x00\x00",
        Reason::NotSerializable,
        39,
        43,
    ),
];

#[test]
fn refused_streams(rt: HostRuntime) -> Result<(), Fail> {
    for (bytes, reason, from_byte, to_byte) in REFUSED {
        assert_refused(&rt, bytes, reason, from_byte, to_byte)?;
    }
    Ok(())
}

/// A block of zeros is accepted: these bytes, so many zeros, and so many bytes in all.
fn assert_block(
    rt: &(impl Abort + AllocGlobal),
    front: &[u8],
    zeros: usize,
    size: u64,
) -> Result<(), Fail> {
    let bytes = with_zeros(rt.alloc(), front, zeros)?;
    assert_accepted(rt, &bytes, totals(size, 1, 0, 0, 0))
}

#[test]
fn blocks(rt: HostRuntime) -> Result<(), Fail> {
    assert_block(&rt, b"\xAC\xED\x00\x05\x77\xFF", 255, 261)?;
    assert_block(&rt, b"\xAC\xED\x00\x05\x7A\x00\x00\x01", 257, 265)
}
