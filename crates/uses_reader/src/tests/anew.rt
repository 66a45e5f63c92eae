//! A reader that is restarted is as new, whatever it took or answered before.

use crate::tests::asserted::same;
use crate::tests::{answer_from, skip, totals, with_reader};
use jser_reader::{OpenGate, Reader, Reason, Refusal, Stop};
use std::process::Abort;
use test_support::streams::LINKED_PAIR;

/// Makes the reader as new.
fn restart(reader: &mut Reader<OpenGate>) {
    reader.restart()
}

/// After each number of bytes of a stream, the next stream is read from its beginning, and after its end too.
fn restarts_after_each_byte(rt: &impl Abort, reader: &mut Reader<OpenGate>) {
    for count in 0..=LINKED_PAIR.len() {
        let (front, _) = LINKED_PAIR.split_at(count);
        let _ = skip(reader, front);
        restart(reader);
        let found = answer_from(reader, LINKED_PAIR, 3);
        let text = format_args!("after {count} bytes");
        same(rt, &found, &Ok(totals(69, 2, 5, 3, 4)), text);
        restart(reader);
    }
}

/// A reference to the first handle.
const FIRST_HANDLE: &[u8] = b"\xAC\xED\x00\x05\x71\x00\x7E\x00\x00";

/// Of the stream before no handle is left, and of a refusal nothing.
fn forgets_handles_and_refusals(rt: &impl Abort, reader: &mut Reader<OpenGate>) {
    let _ = skip(reader, LINKED_PAIR);
    restart(reader);
    same(rt, &reader.epoch_handles(), &0, "no handle is assigned");
    let refusal = Refusal {
        from_byte: 5,
        to_byte: 9,
        reason: Reason::NoSuchHandle,
    };
    let found = answer_from(reader, FIRST_HANDLE, 1);
    same(rt, &found, &Err(Stop::Refused(refusal)), "no such handle");
    restart(reader);
    let found = answer_from(reader, LINKED_PAIR, 1);
    same(rt, &found, &Ok(totals(69, 2, 5, 3, 4)), "after a refusal");
}

#[test]
fn a_restarted_reader_is_as_new(rt: HostRuntime) {
    with_reader(&rt, |rt, reader| {
        restarts_after_each_byte(rt, reader);
        restart(reader);
        forgets_handles_and_refusals(rt, reader);
    });
}
