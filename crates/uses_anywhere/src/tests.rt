//! Names that stand in blocks, in pieces of any sizes.

use crate::tests::asserted::{holds, same};
use jser_check::{AnywhereChecker, AnywhereFault, Options, Reason, Stop};
use jser_filter::Filter;
use std::alloc::AllocGlobal;
use std::process::Abort;

mod asserted;

/// A block of four bytes, in which a descriptor's name `a` stands from byte 6 to byte 10.
const NAME_IN_A_BLOCK: &[u8] = b"\xAC\xED\x00\x05\x77\x04\x72\x00\x01a";

/// A class object of the class `a`, whose name ends at byte 9.
const CLASS_A: &[u8] =
    b"\xAC\xED\x00\x05\x76\x72\x00\x01a\x00\x00\x00\x00\x00\x00\x00\x01\x02\x00\x00\x78\x70";

/// The check under a filter.
fn checker_of(rt: &(impl Abort + AllocGlobal), text: &str) -> AnywhereChecker {
    let Ok(filter) = Filter::parse(rt.alloc(), text) else {
        panic!(rt; "no filter, or no memory");
    };
    match AnywhereChecker::new(rt.alloc(), filter, Options { strict: false }) {
        Ok(checker) => checker,
        Err(_) => panic!(rt; "no memory"),
    }
}

/// The first fault of these bytes in pieces of this size, if there is one.
fn fault_of(checker: &mut AnywhereChecker, bytes: &[u8], size: usize) -> Option<AnywhereFault> {
    checker.restart();
    for piece in bytes.chunks(size.max(1)) {
        if let Err(fault) = checker.feed(piece) {
            return Some(fault);
        }
    }
    checker.finish().err()
}

#[test]
fn a_name_in_a_block(rt: HostRuntime) {
    let mut checker = checker_of(&rt, "!a");
    let wanted = Some(AnywhereFault::Hidden {
        from_byte: 6,
        to_byte: 10,
    });
    for size in 1..11 {
        same(
            &rt,
            &fault_of(&mut checker, NAME_IN_A_BLOCK, size),
            &wanted,
            "a name over any cut",
        );
    }
}

#[test]
fn a_name_that_passes(rt: HostRuntime) {
    let mut checker = checker_of(&rt, "a;!*");
    for size in 1..11 {
        same(
            &rt,
            &fault_of(&mut checker, NAME_IN_A_BLOCK, size),
            &None,
            "the name is allowed",
        );
    }
}

#[test]
fn of_equal_ends_the_check_is_told(rt: HostRuntime) {
    let mut checker = checker_of(&rt, "!a");
    for size in 1..11 {
        match fault_of(&mut checker, CLASS_A, size) {
            Some(AnywhereFault::Stop(Stop::Refused(refusal))) => {
                same(
                    &rt,
                    &refusal.reason,
                    &Reason::ClassRejected,
                    "the reason of the check",
                );
                same(&rt, &refusal.to_byte, &9, "where the name ends");
            }
            _ => holds(&rt, false, "it is refused by the check"),
        }
    }
}

#[test]
fn faults_as_texts(rt: HostRuntime) {
    let hidden = AnywhereFault::Hidden {
        from_byte: 6,
        to_byte: 10,
    };
    match hidden.to_string(rt.alloc()) {
        Ok(text) => same(
            &rt,
            &text.as_str(),
            &"at 6 to 10: HiddenName",
            "a hidden name",
        ),
        Err(_) => panic!(rt; "no memory"),
    }
}
