//! Class names that no pattern of a filter can safely name, and bytes that are no stream.

use crate::tests::asserted::{holds, same};
use jser_suggest::{SampleFault, Samples};
use std::alloc::{AllocError, AllocGlobal, Global};
use std::process::Abort;

/// A class object of a serializable class with this name, of fewer than 256 bytes.
fn class_named(alloc: Global, name: &[u8]) -> Result<Vec<u8>, AllocError> {
    let mut bytes = Vec::new(alloc);
    bytes.extend_from_slice(b"\xAC\xED\x00\x05\x76\x72\x00")?;
    bytes.push(name.len().min(255) as u8)?;
    bytes.extend_from_slice(name)?;
    bytes.extend_from_slice(b"\x00\x00\x00\x00\x00\x00\x00\x01\x02\x00\x00\x78\x70")?;
    Ok(bytes)
}

/// The units of the name that cannot be written, if that is the answer to a stream with a class of this name.
fn answer_to(rt: &(impl Abort + AllocGlobal), name: &[u8]) -> Option<Vec<u16>> {
    let Ok(bytes) = class_named(rt.alloc(), name) else {
        panic!(rt; "no memory");
    };
    let mut samples = Samples::new(rt.alloc());
    match samples.add(rt.alloc(), &bytes) {
        Ok(()) => None,
        Err(SampleFault::Unwritable(units)) => Some(units),
        Err(SampleFault::Stop(_)) => panic!(rt; "no stream, or no memory"),
    }
}

#[test]
fn names_that_no_pattern_can_safely_name(rt: HostRuntime) {
    let names: [&[u8]; 19] = [
        b"",
        b"A;B",
        b"A=",
        b"a/B",
        b"!A",
        b"A*",
        b"a.**",
        b"A\nB",
        b"A\xC0\x80B",
        b"A\xED\xA0\x80",
        b"A!",
        b"A*B",
        b" A ",
        b"\x1B[2J\x1B[31m",
        b"a.\\u002a",
        b"$(touch x)",
        b"A\xE2\x80\xAE",
        b"A\xC2\xA0",
        b"A\xEE\x80\x80",
    ];
    for name in names {
        holds(&rt, answer_to(&rt, name).is_some(), "it is told");
    }
}

#[test]
fn the_name_is_told(rt: HostRuntime) {
    match answer_to(&rt, b"a.B*") {
        Some(units) => same(
            &rt,
            &units.as_slice(),
            &[0x61, 0x2E, 0x42, 0x2A].as_slice(),
            "the name",
        ),
        None => panic!(rt; "it was taken"),
    }
}

#[test]
fn names_that_can_be_written(rt: HostRuntime) {
    let names: [&[u8]; 7] = [
        b"A",
        b"a.B$C",
        b"a-b.C_9",
        b"9",
        b"\xC3\xA9",
        b"\xE4\xB8\x80",
        b"\xD9\xA3",
    ];
    for name in names {
        holds(&rt, answer_to(&rt, name).is_none(), "it is taken");
    }
}

#[test]
fn no_streams(rt: HostRuntime) {
    let mut samples = Samples::new(rt.alloc());
    for bytes in [b"".as_slice(), b"\xAC\xED\x00", b"\xAC\xED\x00\x05\x78"] {
        let refused = matches!(samples.add(rt.alloc(), bytes), Err(SampleFault::Stop(_)));
        holds(&rt, refused, "it is refused");
    }
}
