//! Items, states and cut streams, piece by piece.

use crate::showing::{NoMore, Wholes, show_at_most};
use crate::standing::last_of;
use crate::tests::asserted::{holds, same};
use crate::tests::{answer_of, finish, next, skip, totals, with_reader};
use jser_reader::{FeedFault, Item, OpenGate, Reader, Reason, Refusal, Step, Stop, Whereabouts};
use std::alloc::Global;
use std::process::Abort;
use std::test::Fail;
use test_support::streams::LINKED_PAIR;

fn refused(reason: Reason, from_byte: u64, to_byte: u64) -> Stop {
    Stop::Refused(Refusal {
        from_byte,
        to_byte,
        reason,
    })
}

/// An item and how many bytes of the piece it has, or nothing where more bytes are wanted.
type Found = Option<(Item<'static>, usize)>;

/// Pieces, and what a reader finds in them, one after another.
const FOUND: [(&[u8], Found); 11] = [
    (b"\xAC\xED\x00", None),
    (b"\x05\x74\x00", Some((Item::Header, 1))),
    (b"\x74\x00", Some((Item::Tag(0x74), 1))),
    (b"\x00", None),
    (b"\x03ab", Some((Item::TextLength(3), 1))),
    (b"ab", Some((Item::TextPart(b"ab"), 2))),
    (b"c\x70\x71", Some((Item::TextPart(b"c"), 1))),
    (b"\x70\x71", Some((Item::Tag(0x70), 1))),
    (b"\x71", Some((Item::Tag(0x71), 1))),
    (b"\x00\x7E\x00", None),
    (b"\x00", Some((Item::Handle(0x7E_0000), 1))),
];

/// The step of which this is found.
fn step_of(found: Found) -> Step<'static> {
    match found {
        Some((item, used)) => Step::Item { item, used },
        None => Step::More,
    }
}

/// A reader finds all this, and then tells the counts; then it is spent.
fn finds_all(rt: &impl Abort, reader: &mut Reader<OpenGate>) {
    for (piece, found) in FOUND {
        let step = Ok(step_of(found));
        same!(rt; next(reader, piece), step, format_args!("{piece:?}"));
    }
    same!(rt; finish(reader), Ok(totals(16, 3, 3, 1, 1)));
    same!(rt; finish(reader), Err(Stop::Spent));
    same!(rt; next(reader, b""), Err(Stop::Spent));
    same!(rt; next(reader, b"\x70"), Err(Stop::Spent));
}

#[test]
fn pieces_of_three(rt: HostRuntime) {
    with_reader(&rt, |rt, reader| finds_all(rt, reader));
}

/// A header is refused, and so is each call after it.
fn refuses_for_good(rt: &impl Abort, reader: &mut Reader<OpenGate>) {
    let wrong = refused(Reason::BadHeader, 0, 1);
    same!(rt; next(reader, b"\x00"), Err(wrong));
    same!(rt; next(reader, b"\xAC"), Err(wrong));
    same!(rt; skip(reader, b""), Err(wrong));
    same!(rt; finish(reader), Err(wrong));
}

#[test]
fn refused_for_good(rt: HostRuntime) {
    with_reader(&rt, |rt, reader| refuses_for_good(rt, reader));
}

/// No byte is no stream.
fn finishes_at_once(rt: &impl Abort, reader: &mut Reader<OpenGate>) {
    same!(rt; next(reader, b""), Ok(Step::More));
    same!(rt; finish(reader), Err(refused(Reason::Truncated, 0, 0)));
}

#[test]
fn finish_at_once(rt: HostRuntime) {
    with_reader(&rt, |rt, reader| finishes_at_once(rt, reader));
}

/// The stream cut after so many bytes: Truncated, but where only the header is left or the first object.
fn assert_cut(rt: &impl Abort, alloc: Global, cut: usize) {
    let (front, _) = LINKED_PAIR.split_at(cut.min(LINKED_PAIR.len()));
    let answer = answer_of(alloc, front, 1);
    let text = format_args!("cut after {cut} bytes");
    match (cut, answer) {
        (4, answer) => same(rt, &answer, &Ok(totals(4, 0, 0, 0, 0)), &text),
        (64, answer) => same(rt, &answer, &Ok(totals(64, 1, 4, 3, 4)), &text),
        (_, Err(Stop::Refused(refusal))) => {
            same(rt, &refusal.reason, &Reason::Truncated, &text);
            same(rt, &refusal.to_byte, &(cut as u64), &text);
            holds(rt, cut > 3 || refusal.from_byte == 0, &text);
            holds(rt, cut != 10 || refusal.from_byte == 6, &text);
            holds(rt, cut < 65 || refusal.from_byte == 65, &text);
        }
        (_, answer) => holds(rt, answer.is_err(), &text),
    }
}

#[test]
fn linked_pair_cuts(rt: HostRuntime) {
    for cut in 0..69 {
        assert_cut(&rt, rt.alloc(), cut);
    }
}

/// A stream of six items: the header, a string as a tag, a length and bytes, and a reference to it as a tag and a handle.
const SIX_ITEMS: [u8; 13] = [
    0xAC, 0xED, 0x00, 0x05, 0x74, 0x00, 0x01, 0x61, 0x71, 0x00, 0x7E, 0x00, 0x00,
];

/// Shows the items of a piece, and answers whether there were at most so many.
fn shows(reader: &mut Reader<OpenGate>, piece: &[u8], most: u64) -> Result<(), FeedFault<NoMore>> {
    show_at_most(reader, piece, most)
}

/// Six items are shown of six, and of a piece of one byte at most one; a visitor that takes five stops.
fn shows_six_items(rt: &impl Abort, reader: &mut Reader<OpenGate>) {
    same!(rt; shows(reader, &SIX_ITEMS, 6), Ok(()));
    reader.restart();
    for byte in SIX_ITEMS.chunks(1) {
        same!(rt; shows(reader, byte, 1), Ok(()), format_args!("{byte:?}"));
    }
    reader.restart();
    same!(rt; shows(reader, &SIX_ITEMS, 5), Err(FeedFault::Visitor(NoMore)));
}

#[test]
fn six_items(rt: HostRuntime) {
    with_reader(&rt, |rt, reader| shows_six_items(rt, reader));
}

/// How many values of a piece are shown at once.
fn whole_values_in(reader: &mut Reader<OpenGate>, piece: &[u8]) -> u64 {
    let mut wholes = Wholes { count: 0 };
    let _ = reader.feed(piece, &mut wholes);
    wholes.count
}

/// A string and a reference that are whole in a piece are shown at once; of what comes byte by byte nothing is.
fn shows_whole_values(rt: &impl Abort, reader: &mut Reader<OpenGate>) {
    same!(rt; whole_values_in(reader, &SIX_ITEMS), 2);
    reader.restart();
    for byte in SIX_ITEMS.chunks(1) {
        same!(rt; whole_values_in(reader, byte), 0, format_args!("{byte:?}"));
    }
}

#[test]
fn whole_values(rt: HostRuntime) {
    with_reader(&rt, |rt, reader| shows_whole_values(rt, reader));
}

/// Where each item of `SIX_ITEMS` stands, at its last byte: the handles before it, and its end.
const STANDS: [Option<(u64, u64)>; 13] = [
    None,
    None,
    None,
    Some((0, 4)),
    Some((0, 5)),
    None,
    Some((1, 7)),
    Some((1, 8)),
    Some((1, 9)),
    None,
    None,
    None,
    Some((1, 13)),
];

/// These numbers as a visitor is told them.
fn whereabouts(stands: Option<(u64, u64)>) -> Option<Whereabouts> {
    match stands {
        Some((handles, end)) => Some(Whereabouts { handles, end }),
        None => None,
    }
}

/// Where the last item of a piece stands.
fn last_in(
    reader: &mut Reader<OpenGate>,
    piece: &[u8],
) -> Result<Option<Whereabouts>, FeedFault<NoMore>> {
    last_of(reader, piece)
}

/// The last item of a piece ends behind all bytes up to there, wherever the bytes are cut.
fn tells_the_last(rt: &impl Abort, reader: &mut Reader<OpenGate>) {
    same!(rt; last_in(reader, &SIX_ITEMS), Ok(whereabouts(Some((1, 13)))));
    reader.restart();
    for (byte, stands) in SIX_ITEMS.chunks(1).zip(STANDS) {
        same!(rt; last_in(reader, byte), Ok(whereabouts(stands)), format_args!("{byte:?}"));
    }
}

#[test]
fn last_items(rt: HostRuntime) {
    with_reader(&rt, |rt, reader| tells_the_last(rt, reader));
}
