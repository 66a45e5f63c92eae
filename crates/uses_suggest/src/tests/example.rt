//! The example of the README of `jser_suggest`.

// README: jser_suggest
use jser_reader::Stop;
use jser_suggest::{SampleFault, Samples};
use std::alloc::Global;

/// The least filter that admits both streams.
fn least_filter(alloc: Global, first: &[u8], second: &[u8]) -> Result<String, SampleFault> {
    let mut samples = Samples::new(alloc);
    samples.add(alloc, first)?;
    samples.add(alloc, second)?;
    match samples.text(alloc) {
        Ok(text) => Ok(text),
        Err(_) => Err(SampleFault::Stop(Stop::OutOfMemory)),
    }
}
// end

use crate::tests::asserted::holds;

#[test]
fn two_streams(rt: HostRuntime) {
    // A block of the byte 5; and the string `a`.
    let blocks = b"\xAC\xED\x00\x05\x77\x01\x05";
    let string = b"\xAC\xED\x00\x05\x74\x00\x01a";
    let wanted = "maxbytes=8;maxrefs=1;maxdepth=1;maxarray=0;!*";
    match least_filter(rt.alloc(), blocks, string) {
        Ok(text) => holds(
            &rt,
            text.as_str() == wanted,
            "the filter of a block and a string",
        ),
        Err(_) => panic!(rt; "no filter"),
    }
}
