//! To be run with each allocation refused in turn: a reader answers the right counts, or out of memory and then, to
//! each call, that it is spent.

use crate::tests::asserted::{holds, same};
use crate::tests::{answer_from, finish, next, skip, totals};
use jser_reader::{OpenGate, Reader, Step, Stop};
use std::alloc::AllocGlobal;
use std::process::Abort;
use test_support::streams::LINKED_PAIR;

/// A reader that ran out of memory is restarted, and reads the stream, since there is memory again.
fn assert_reads_anew(rt: &impl Abort, reader: &mut Reader<OpenGate>, size: usize) {
    reader.restart();
    let answer = answer_from(reader, LINKED_PAIR, size);
    same(rt, &answer, &Ok(totals(69, 2, 5, 3, 4)), "once more");
}

/// Reads the stream in pieces of this size; whether there was memory.
fn reads(rt: &(impl Abort + AllocGlobal), size: usize) -> bool {
    reads_by(rt, &mut Reader::new(rt.alloc(), OpenGate), size)
}

/// Reads the stream in pieces of this size by this reader, which is new; whether there was memory.
fn reads_by(rt: &impl Abort, reader: &mut Reader<OpenGate>, size: usize) -> bool {
    for piece in LINKED_PAIR.chunks(size.max(1)) {
        if let Err(stop) = skip(reader, piece) {
            same(rt, &stop, &Stop::OutOfMemory, "out of memory");
            same(rt, &skip(reader, &[0x70]), &Err(Stop::Spent), "then spent");
            same(rt, &finish(reader), &Err(Stop::Spent), "and at the end");
            assert_reads_anew(rt, reader, size);
            return false;
        }
    }
    let answer = finish(reader);
    same(
        rt,
        &answer,
        &Ok(totals(69, 2, 5, 3, 4)),
        "all of the stream",
    );
    true
}

#[test]
fn right_or_out_of_memory(rt: HostRuntime) {
    for size in [1, 69] {
        if !reads(&rt, size) {
            let _ = println!(rt; "refused");
        }
    }
}

/// An array of 0x7FFFFFFF ints, up to its length.
const INT_ARRAY_FRONT: &[u8] =
    b"\xAC\xED\x00\x05\x75\x72\x00\x02[I\x4D\xBA\x60\x26\x76\xEA\xB2\xA5\x02\x00\x00\x78\x70\x7F\xFF\xFF\xFF";

/// Whether there was memory for the class; then the reader takes raw values, which need none.
fn takes_raw_values(rt: &impl Abort, reader: &mut Reader<OpenGate>) -> bool {
    if skip(reader, INT_ARRAY_FRONT).is_err() {
        return false;
    }
    takes_raw_bytes(rt, reader);
    true
}

#[test]
fn raw_without_memory(rt: HostRuntime) {
    if !takes_raw_values(&rt, &mut Reader::new(rt.alloc(), OpenGate)) {
        let _ = println!(rt; "refused");
    }
}

/// The reader takes a hundred bytes of raw values, one at a time.
fn takes_raw_bytes(rt: &impl Abort, reader: &mut Reader<OpenGate>) {
    for count in 0..100 {
        let step = next(reader, &[0x55]);
        let taken = matches!(step, Ok(Step::Item { used: 1, .. }));
        holds(rt, taken, format_args!("a byte is taken after {count}"));
    }
}
