//! Gates of the tests' own: limits, names that they do not let pass, and how many handles an epoch may have.
ghost use Rattle.std.specs.Prelude.{◌≡◌, ◌^◌, ◌-◌, ◌==◌, min, get_or, if◌then◌else◌};
ghost use Rattle.jser_verdict.specs.Gates.{pass, rejected, unmatched};

use crate::tests::asserted::{holds, same};
use crate::tests::{answer_under, totals};
use jser_reader::{Answer, Gate, OpenGate, Reader, Reason, Refusal, Stop, Totals};
use std::alloc::AllocGlobal;
use std::process::Abort;
use std::test::Fail;
use test_support::streams::{
    ARRAY_LIST, ENUM_CONSTANT, EXTERNAL_OVER_SERIAL, INT_ARRAY, LINKED_PAIR, PROXY, RESET_EPOCHS,
};

/// Limits, each at most its cap, and the first letters of the names that are rejected, and that no pattern matches.
#[derive(Clone, Copy, Drop)]
struct Limited {
    bytes: u64,
    depth: u32,
    refs: u64,
    array: u32,
    handles: u32,
    rejected: u16,
    unmatched: u16,
}

/// The greatest limits. No name of these streams begins with U+FFFF.
const WIDE: Limited = Limited {
    bytes: 0x100_0000_0000,
    depth: 65_535,
    refs: 0x7FFF_FFFF_FFFF_FFFF,
    array: 0x7FFF_FFFF,
    handles: 2_139_226_112,
    rejected: 0xFFFF,
    unmatched: 0xFFFF,
};

impl Gate for Limited {
    ghost told = { λ gate. record {
      bytes = min gate.bytes (2 ^ 40);
      depth = min gate.depth 65535;
      refs = min gate.refs (2 ^ 63 - 1);
      array = min gate.array (2 ^ 31 - 1);
      handles = min gate.handles 2139226112;
      answer = λ name. if get_or name 0 0 == gate.rejected then rejected else (if get_or name 0 0 == gate.unmatched then unmatched else pass);
    } };

    fn name(&self, name: &[u16]) -> Answer {
        let first = if name.is_empty() { 0 } else { name[0] };
        if first == self.rejected {
            Answer::Rejected
        } else if first == self.unmatched {
            Answer::Unmatched
        } else {
            Answer::Pass
        }
    }

    fn max_bytes(&self) -> u64 {
        self.bytes.min(0x100_0000_0000)
    }

    fn max_depth(&self) -> u32 {
        self.depth.min(65_535)
    }

    fn max_refs(&self) -> u64 {
        self.refs.min(0x7FFF_FFFF_FFFF_FFFF)
    }

    fn max_array(&self) -> u32 {
        self.array.min(0x7FFF_FFFF)
    }

    fn max_handles(&self) -> u32 {
        self.handles.min(2_139_226_112)
    }

    ghost use Rattle.std.proofs.Common.{rules};

    ghost within = { λ _. Prim.search rules };
}

/// The bytes are refused for this reason under this gate, in pieces of one byte, of three, and whole.
fn assert_refused(
    rt: &(impl Abort + AllocGlobal),
    gate: Limited,
    bytes: &[u8],
    reason: Reason,
    from_byte: u64,
    to_byte: u64,
) -> Result<(), Fail> {
    let refusal = Refusal {
        from_byte,
        to_byte,
        reason,
    };
    for size in [1, 3, bytes.len()] {
        let found = answer_under(rt.alloc(), gate, bytes, size);
        let text = format_args!("{size} bytes a piece");
        same(rt, &found, &Err(Stop::Refused(refusal)), text);
    }
    Ok(())
}

/// The bytes are a stream with these counts under this gate, in pieces of one byte, of three, and whole.
fn assert_accepted(
    rt: &(impl Abort + AllocGlobal),
    gate: Limited,
    bytes: &[u8],
    totals: Totals,
) -> Result<(), Fail> {
    for size in [1, 3, bytes.len()] {
        let found = answer_under(rt.alloc(), gate, bytes, size);
        same(
            rt,
            &found,
            &Ok(totals),
            format_args!("{size} bytes a piece"),
        );
    }
    Ok(())
}

#[test]
fn limits(rt: HostRuntime) -> Result<(), Fail> {
    let shallow = Limited { depth: 2, ..WIDE };
    assert_refused(&rt, shallow, LINKED_PAIR, Reason::DepthExceeded, 63, 64)?;
    let few = Limited { refs: 4, ..WIDE };
    assert_refused(&rt, few, LINKED_PAIR, Reason::RefsExceeded, 64, 65)?;
    let short = Limited { bytes: 68, ..WIDE };
    assert_refused(&rt, short, LINKED_PAIR, Reason::BytesExceeded, 65, 69)?;
    let narrow = Limited { array: 1, ..WIDE };
    assert_refused(&rt, narrow, INT_ARRAY, Reason::ArrayExceeded, 23, 27)?;
    Ok(())
}

/// What is just enough lets the stream pass.
#[test]
fn limits_enough(rt: HostRuntime) -> Result<(), Fail> {
    let gate = Limited {
        bytes: 69,
        depth: 3,
        refs: 5,
        ..WIDE
    };
    assert_accepted(&rt, gate, LINKED_PAIR, totals(69, 2, 5, 3, 4))?;
    let two = Limited { array: 2, ..WIDE };
    assert_accepted(&rt, two, INT_ARRAY, totals(35, 1, 2, 2, 2))?;
    Ok(())
}

/// A gate that rejects the names that begin with this letter.
fn rejects(letter: u8) -> Limited {
    Limited {
        rejected: u16::from(letter),
        ..WIDE
    }
}

#[test]
fn enum_constant_rejected(rt: HostRuntime) -> Result<(), Fail> {
    assert_refused(
        &rt,
        rejects(b'E'),
        ENUM_CONSTANT,
        Reason::ClassRejected,
        6,
        9,
    )?;
    Ok(())
}

#[test]
fn interface_rejected(rt: HostRuntime) -> Result<(), Fail> {
    assert_refused(&rt, rejects(b'I'), PROXY, Reason::ClassRejected, 10, 13)?;
    Ok(())
}

#[test]
fn gate_rejects_b(rt: HostRuntime) -> Result<(), Fail> {
    assert_refused(
        &rt,
        rejects(b'B'),
        EXTERNAL_OVER_SERIAL,
        Reason::ClassRejected,
        22,
        25,
    )?;
    Ok(())
}

#[test]
fn array_list_rejected(rt: HostRuntime) -> Result<(), Fail> {
    assert_refused(&rt, rejects(b'j'), ARRAY_LIST, Reason::ClassRejected, 6, 27)?;
    Ok(())
}

#[test]
fn name_unmatched(rt: HostRuntime) -> Result<(), Fail> {
    let gate = Limited {
        unmatched: u16::from(b'A'),
        ..WIDE
    };
    assert_refused(
        &rt,
        gate,
        b"\xAC\xED\x00\x05\x72\x00\x01\x41\x00\x00\x00\x00\x00\x00\x00\x01\x02\x00\x00\x78\x70",
        Reason::ClassUnmatched,
        5,
        8,
    )?;
    Ok(())
}

/// Fed byte by byte, the call that takes the last byte of the name refuses it, and none before.
#[test]
fn reject_at_name_end(rt: HostRuntime) {
    let mut reader = Reader::new(rt.alloc(), rejects(b'j'));
    assert_rejected_at_name_end(&rt, &mut reader);
}

/// The reader takes the name up to its last byte, and with that it refuses the name.
fn assert_rejected_at_name_end(rt: &impl Abort, reader: &mut Reader<Limited>) {
    let (name, _) = ARRAY_LIST.split_at(26);
    for byte in name.chunks(1) {
        holds(rt, reader.next(byte).is_ok(), "no refusal before the end");
    }
    let refusal = Refusal {
        from_byte: 6,
        to_byte: 27,
        reason: Reason::ClassRejected,
    };
    let found = reader.next(b"\x74");
    same(rt, &found, &Err(Stop::Refused(refusal)), "the last byte");
}

/// A gate under which an epoch has so many handles at most.
fn handles(handles: u32) -> Limited {
    Limited { handles, ..WIDE }
}

#[test]
fn handle_space(rt: HostRuntime) -> Result<(), Fail> {
    assert_refused(&rt, handles(0), LINKED_PAIR, Reason::HandleSpace, 12, 20)?;
    assert_refused(&rt, handles(1), LINKED_PAIR, Reason::HandleSpace, 38, 39)?;
    assert_refused(&rt, handles(2), LINKED_PAIR, Reason::HandleSpace, 48, 49)?;
    assert_refused(&rt, handles(3), LINKED_PAIR, Reason::HandleSpace, 55, 59)?;
    let (front, _) = LINKED_PAIR.split_at(20);
    assert_refused(&rt, handles(0), front, Reason::HandleSpace, 12, 20)?;
    Ok(())
}

#[test]
fn handle_space_enough(rt: HostRuntime) -> Result<(), Fail> {
    assert_accepted(&rt, handles(4), LINKED_PAIR, totals(69, 2, 5, 3, 4))?;
    assert_accepted(&rt, handles(1), RESET_EPOCHS, totals(18, 4, 3, 1, 2))?;
    Ok(())
}

#[test]
fn handle_space_tie(rt: HostRuntime) -> Result<(), Fail> {
    let gate = Limited {
        depth: 1,
        ..handles(2)
    };
    assert_refused(&rt, gate, LINKED_PAIR, Reason::DepthExceeded, 48, 49)?;
    Ok(())
}

#[test]
fn greatest_limits(rt: HostRuntime) {
    same!(rt; OpenGate.max_bytes(), 1_099_511_627_776);
    same!(rt; OpenGate.max_depth(), 65_535);
}
