//! The reader under a gate of one's own: jser_reader.

ghost use Rattle.jser_reader.specs.Gates.{open_gate};

use jser_reader::{Answer, Gate, Item, OpenGate, Reader, Reason, Refusal, Step, Stop, Totals};
use std::alloc::Global;

/// A gate of the six answers, and no other call: it lets all names pass, and ten places.
#[derive(Drop)]
pub struct TenPlaces;

impl Gate for TenPlaces {
    ghost told = { λ _. record {
      bytes = open_gate.bytes;
      depth = open_gate.depth;
      refs = 10;
      array = open_gate.array;
      handles = open_gate.handles;
      answer = open_gate.answer;
    } };

    fn name(&self, name: &[u16]) -> Answer {
        OpenGate.name(name)
    }

    fn max_bytes(&self) -> u64 {
        OpenGate.max_bytes()
    }

    fn max_depth(&self) -> u32 {
        OpenGate.max_depth()
    }

    fn max_refs(&self) -> u64 {
        10
    }

    fn max_array(&self) -> u32 {
        OpenGate.max_array()
    }

    fn max_handles(&self) -> u32 {
        OpenGate.max_handles()
    }

    ghost use Rattle.std.proofs.Common.{rules};

    ghost within = { λ _. Prim.search rules };
}

/// What a gate answers, as a number.
pub fn answer(answer: Answer) -> u8 {
    match answer {
        Answer::Pass => 0,
        Answer::Rejected => 1,
        Answer::Unmatched => 2,
    }
}

/// A reader of one's own gate, which its maker gives away.
pub fn reader(alloc: Global) -> Reader<TenPlaces> {
    Reader::new(alloc, TenPlaces)
}

/// The items of a piece by their numbers, and how much of it was taken.
pub fn items(reader: &mut Reader<TenPlaces>, piece: &[u8]) -> Result<(u64, usize), Stop> {
    let mut sum = 0u64;
    let mut at = 0usize;
    for _ in 0..piece.len() {
        let (_, rest) = piece.split_at(at.min(piece.len()));
        match reader.next(rest)? {
            Step::Item { item, used } => {
                sum = sum.saturating_add(number_of(item));
                at = at.saturating_add(used);
            }
            Step::More => break,
        }
    }
    Ok((sum, at))
}

fn number_of(item: Item<'_>) -> u64 {
    match item {
        Item::Header => 1,
        Item::Tag(tag) => u64::from(tag),
        Item::Handle(handle) => u64::from(handle),
        Item::TextLength(length) => length,
        Item::TextPart(part) => part.len() as u64,
        Item::Suid(suid) => suid,
        Item::Flags(flags) => u64::from(flags),
        Item::FieldCount(count) => u64::from(count),
        Item::InterfaceCount(count) => u64::from(count),
        Item::TypeCode(code) => u64::from(code),
        Item::ArrayLength(length) => u64::from(length),
        Item::BlockLength(length) => u64::from(length),
        Item::RawPart(part) => part.len() as u64,
    }
}

/// The counts of a stream of one piece, with how many frames were open before its end.
pub fn totals(alloc: Global, bytes: &[u8]) -> Result<([u64; 5], u64), Stop> {
    let mut reader: Reader<OpenGate> = Reader::new(alloc, OpenGate);
    reader.skip(bytes)?;
    let open: u64 = reader.open_frames();
    let Totals {
        bytes,
        contents,
        refs,
        depth,
        handles,
    } = reader.finish()?;
    Ok(([bytes, contents, refs, depth, handles], open))
}

/// The bytes of a refusal, and the number of its reason.
pub fn refusal(stop: Stop) -> Option<(u64, u64, u8)> {
    match stop {
        Stop::Refused(
            Refusal {
                from_byte,
                to_byte,
                reason,
            },
        ) => Some((from_byte, to_byte, reason_number(reason))),
        Stop::OutOfMemory => None,
        Stop::Spent => None,
    }
}

/// The number of a reason, in the order of the page of refusals.
pub fn reason_number(reason: Reason) -> u8 {
    match reason {
        Reason::BytesExceeded => 1,
        Reason::BadHeader => 2,
        Reason::BadTag => 3,
        Reason::ExceptionTag => 4,
        Reason::ResetInside => 5,
        Reason::BadText => 6,
        Reason::NegativeLength => 7,
        Reason::BadTypeCode => 8,
        Reason::FieldOrder => 9,
        Reason::BadFlags => 10,
        Reason::NullClass => 11,
        Reason::NoSuchHandle => 12,
        Reason::WrongKind => 13,
        Reason::OpenDescriptor => 14,
        Reason::BadArrayName => 15,
        Reason::WrongClass => 16,
        Reason::ExternalRaw => 17,
        Reason::NotSerializable => 18,
        Reason::ClassRejected => 19,
        Reason::ClassUnmatched => 20,
        Reason::DepthExceeded => 21,
        Reason::RefsExceeded => 22,
        Reason::ArrayExceeded => 23,
        Reason::Truncated => 24,
        Reason::HandleSpace => 25,
    }
}
