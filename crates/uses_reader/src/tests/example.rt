//! The example of the README of `jser_reader`.

// README: jser_reader
use jser_reader::{OpenGate, Reader, Stop, Totals};
use std::alloc::Global;

/// The counts of a stream that comes in two pieces.
fn counts_of(alloc: Global, first: &[u8], second: &[u8]) -> Result<Totals, Stop> {
    let mut reader = Reader::new(alloc, OpenGate);
    reader.skip(first)?;
    reader.skip(second)?;
    reader.finish()
}
// end

#[test]
fn a_stream_in_two_pieces(rt: HostRuntime) {
    let counts = counts_of(rt.alloc(), &[0xAC, 0xED, 0x00], &[0x05, 0x70]);
    same!(rt; counts, Ok(crate::tests::totals(5, 1, 1, 1, 0)));
}
