//! Streams from the format, whole and in pieces, and what the reader answers to them.
//!
//! Each call of a reader that several tests make has a function of its own here, with no contract: what a test compares is
//! then proved without all that the reader promises.

use crate::tests::asserted::same;
use jser_reader::{Gate, OpenGate, Reader, Reason, Refusal, Step, Stop, Totals};
use std::alloc::{AllocError, AllocGlobal, Global};
use std::process::Abort;
use std::test::Fail;

/// Stops the test unless a fact holds: `holds!(rt; fact)`, or `holds!(rt; fact, text)` with the name of what is looked at.
macro_rules! holds {
    ($rt:expr; $fact:expr $(,)?) => {
        $crate::tests::asserted::holds(&$rt, $fact, stringify!($fact))
    };
    ($rt:expr; $fact:expr, $text:expr $(,)?) => {
        $crate::tests::asserted::holds(&$rt, $fact, $text)
    };
}

/// Stops the test unless two values are the same: `same!(rt; found, wanted)`, or `same!(rt; found, wanted, text)` with the
/// name of what is looked at.
macro_rules! same {
    ($rt:expr; $found:expr, $wanted:expr $(,)?) => {
        $crate::tests::asserted::same(&$rt, &$found, &$wanted, stringify!($found))
    };
    ($rt:expr; $found:expr, $wanted:expr, $text:expr $(,)?) => {
        $crate::tests::asserted::same(&$rt, &$found, &$wanted, $text)
    };
}

mod anew;
mod asserted;
mod classes;
mod example;
mod gates;
mod memory;
mod nests;
mod pieces;
mod rows;

/// The counts of a stream.
fn totals(bytes: u64, contents: u64, refs: u64, depth: u64, handles: u64) -> Totals {
    Totals {
        bytes,
        contents,
        refs,
        depth,
        handles,
    }
}

/// These bytes, and so many zeros after them.
fn with_zeros(alloc: Global, front: &[u8], zeros: usize) -> Result<Vec<u8>, AllocError> {
    let mut bytes = front.to_vec(alloc)?;
    for _ in 0..zeros {
        bytes.push(0)?;
    }
    Ok(bytes)
}

/// The next item.
fn next<'p, G: Gate>(reader: &mut Reader<G>, piece: &'p [u8]) -> Result<Step<'p>, Stop> {
    reader.next(piece)
}

/// Takes the whole piece.
fn skip<G: Gate>(reader: &mut Reader<G>, piece: &[u8]) -> Result<(), Stop> {
    reader.skip(piece)
}

/// The end of the input.
fn finish<G: Gate>(reader: &mut Reader<G>) -> Result<Totals, Stop> {
    reader.finish()
}

/// Hands a new reader to what tests it, so that making and dropping one is proved once and not in each test.
fn with_reader<R: Abort + AllocGlobal, F: FnOnce(&R, &mut Reader<OpenGate>)>(rt: &R, test: F)
    requires { F.IsAlwaysCallable test }
{
    test(rt, &mut Reader::new(rt.alloc(), OpenGate))
}

/// What a reader answers to the bytes in pieces of this size.
fn answer_of(alloc: Global, bytes: &[u8], size: usize) -> Result<Totals, Stop> {
    answer_under(alloc, OpenGate, bytes, size)
}

/// What a reader answers to the bytes in pieces of this size, under this gate.
fn answer_under<G: Gate + Drop>(
    alloc: Global,
    gate: G,
    bytes: &[u8],
    size: usize,
) -> Result<Totals, Stop> {
    let mut reader = Reader::new(alloc, gate);
    answer_from(&mut reader, bytes, size)
}

/// What this reader answers to the bytes in pieces of this size.
fn answer_from<G: Gate>(reader: &mut Reader<G>, bytes: &[u8], size: usize) -> Result<Totals, Stop> {
    for piece in bytes.chunks(size.max(1)) {
        skip(reader, piece)?;
    }
    finish(reader)
}

/// What a reader answers to the items of the bytes, one after another, in pieces of this size.
fn answer_to_items(alloc: Global, bytes: &[u8], size: usize) -> Result<Totals, Stop> {
    let mut reader = Reader::new(alloc, OpenGate);
    for piece in bytes.chunks(size.max(1)) {
        take_items(&mut reader, piece)?;
    }
    finish(&mut reader)
}

/// Takes the items of a piece, one after another.
fn take_items<G: Gate>(reader: &mut Reader<G>, piece: &[u8]) -> Result<(), Stop> {
    let mut rest = piece;
    for _ in 0..=piece.len() {
        match next(reader, rest)? {
            Step::More => return Ok(()),
            Step::Item { used, .. } => {
                let (_, after) = rest.split_at(used.min(rest.len()));
                rest = after;
            }
        }
    }
    Ok(())
}

/// The bytes are a stream with these counts, at once and item by item, in pieces of one byte, of three, and whole.
fn assert_accepted(
    rt: &(impl Abort + AllocGlobal),
    bytes: &[u8],
    totals: Totals,
) -> Result<(), Fail> {
    for size in [1, 3, bytes.len()] {
        let text = format_args!("{bytes:?}, {size} bytes a piece");
        same(rt, &answer_of(rt.alloc(), bytes, size), &Ok(totals), text);
        let found = answer_to_items(rt.alloc(), bytes, size);
        let text = format_args!("{bytes:?}, {size} bytes a piece, item by item");
        same(rt, &found, &Ok(totals), text);
    }
    Ok(())
}

/// The bytes are refused for this reason, at once and item by item, in pieces of one byte, of three, and whole.
fn assert_refused(
    rt: &(impl Abort + AllocGlobal),
    bytes: &[u8],
    reason: Reason,
    from_byte: u64,
    to_byte: u64,
) -> Result<(), Fail> {
    let refusal = Refusal {
        from_byte,
        to_byte,
        reason,
    };
    for size in [1, 3, bytes.len()] {
        let found = answer_of(rt.alloc(), bytes, size);
        let text = format_args!("{bytes:?}, {size} bytes a piece");
        same(rt, &found, &Err(Stop::Refused(refusal)), text);
        let found = answer_to_items(rt.alloc(), bytes, size);
        let text = format_args!("{bytes:?}, {size} bytes a piece, item by item");
        same(rt, &found, &Err(Stop::Refused(refusal)), text);
    }
    Ok(())
}
