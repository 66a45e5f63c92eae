//! Long runs of units of two and of three bytes: at each alignment, of each length, with a fault and with a unit at the end
//! of its range at each place. What is right follows from the layout of modified UTF-8.
ghost use Rattle.std.specs.Prelude.{◌<◌};

use crate::tests::scans::pushed_in_two;
use jser_prim::TextScan;
use std::process::Abort;

/// How many bytes there are of a run, and of letters before it.
const ROOM: usize = 136;

/// How many bytes of a run are changed: 60 units of two bytes, or 40 of three.
const RUN: usize = 120;

/// The first and the last unit of each row of the layout, and some of alphabets.
const UNITS: [(&str, &[u8]); 14] = [
    ("the null", &[0xC0, 0x80]),
    ("the first of two bytes", &[0xC2, 0x80]),
    ("a Greek letter", &[0xCE, 0xB1]),
    ("a Cyrillic letter", &[0xD0, 0x96]),
    ("the last of two bytes", &[0xDF, 0xBF]),
    ("the first of three bytes", &[0xE0, 0xA0, 0x80]),
    ("a Devanagari letter", &[0xE0, 0xA4, 0x95]),
    ("the last that begins with E0", &[0xE0, 0xBF, 0xBF]),
    ("the first that begins with E1", &[0xE1, 0x80, 0x80]),
    ("a Chinese letter", &[0xE4, 0xB8, 0xAD]),
    ("the first surrogate", &[0xED, 0xA0, 0x80]),
    ("the last surrogate", &[0xED, 0xBF, 0xBF]),
    ("the first of a private area", &[0xEE, 0x80, 0x80]),
    ("the last of three bytes", &[0xEF, 0xBF, 0xBF]),
];

/// Two bytes where a unit should begin, and how many of them are right, among letters of two bytes.
const PAIRS: [(&str, [u8; 2], usize); 9] = [
    ("null", [0xC0, 0x80], 2),
    ("a letter in two bytes, C0 81", [0xC0, 0x81], 1),
    ("a letter in two bytes, C1 81", [0xC1, 0x81], 0),
    ("the first of two bytes", [0xC2, 0x80], 2),
    ("the byte below the second ones", [0xC2, 0x7F], 1),
    ("the byte above the second ones", [0xDF, 0xC0], 1),
    ("the last of two bytes", [0xDF, 0xBF], 2),
    ("a bare null", [0x00, 0x61], 0),
    ("a second byte without its first", [0x80, 0x80], 0),
];

/// The same of three bytes, among letters of three bytes.
const TRIPLES: [(&str, [u8; 3], usize); 15] = [
    ("two bytes in three, E0 80", [0xE0, 0x80, 0x80], 1),
    ("two bytes in three, E0 9F", [0xE0, 0x9F, 0xBF], 1),
    ("the first of three bytes", [0xE0, 0xA0, 0x80], 3),
    ("the last that begins with E0", [0xE0, 0xBF, 0xBF], 3),
    (
        "the byte above the second ones after E0",
        [0xE0, 0xC0, 0x80],
        1,
    ),
    ("the first that begins with E1", [0xE1, 0x80, 0x80], 3),
    ("the byte below the second ones", [0xE1, 0x7F, 0x80], 1),
    ("the byte below the third ones", [0xE4, 0x80, 0x7F], 2),
    ("the byte above the third ones", [0xE4, 0xBF, 0xC0], 2),
    ("a surrogate", [0xED, 0xA0, 0x80], 3),
    ("the last surrogate", [0xED, 0xBF, 0xBF], 3),
    ("the last of three bytes", [0xEF, 0xBF, 0xBF], 3),
    ("the byte above the second ones", [0xEF, 0xC0, 0x80], 1),
    ("four bytes", [0xF0, 0x90, 0x80], 0),
    ("a second byte without its first", [0xBF, 0xBF, 0xBF], 0),
];

/// So many letters, and units of one spelling behind them.
fn run_behind(letters: usize, unit: &[u8]) -> [u8; ROOM] {
    let mut text = [0x61u8; ROOM];
    let (_, run) = text.split_at_mut(letters.min(ROOM));
    for (at, byte) in run.iter_mut().enumerate() {
        *byte = unit.get(at % unit.len().max(1)).copied().unwrap_or(0x61);
    }
    text
}

/// The first bytes of a text, so many.
fn front(text: &[u8], len: usize) -> &[u8] {
    text.get(..len).unwrap_or(text)
}

/// How many bytes of a text of just these are accepted in one slice.
fn accepted(text: &[u8]) -> usize {
    let mut scan = TextScan::new(text.len() as u64);
    match scan.push_all(text) {
        Ok(()) => text.len(),
        Err(fault) => fault.accepted,
    }
}

/// Of each front of a text, all bytes are right but those of the unit that the end cuts.
fn compare_fronts(rt: &impl Abort, name: &str, unit: &[u8], letters: usize)
    requires { letters < 16 }
{
    let text = run_behind(letters, unit);
    for len in letters..=ROOM {
        let cut = (len - letters) % unit.len().max(1);
        same!(rt; accepted(front(&text, len)), len.saturating_sub(cut), format_args!("{name} {letters} {len}"));
    }
}

#[test]
fn runs_of_each_length_at_each_alignment(rt: HostRuntime) {
    for (name, unit) in &UNITS {
        for letters in 0..16 {
            compare_fronts(&rt, name, unit, letters);
        }
    }
}

/// A run may come in two pieces, and a byte that stands nowhere is found at each place of it.
fn compare_place(rt: &impl Abort, name: &str, mut text: [u8; ROOM], place: usize)
    requires { place < 120 }
{
    same!(rt; pushed_in_two(front(&text, RUN), place), RUN, format_args!("{name} cut at {place}"));
    text[place] = 0xFF;
    same!(rt; accepted(front(&text, RUN)), place, format_args!("{name} {place}"));
}

#[test]
fn a_fault_and_a_cut_at_each_place_of_a_run(rt: HostRuntime) {
    for (name, unit) in &UNITS {
        let text = run_behind(0, unit);
        for place in 0..RUN {
            compare_place(&rt, name, text, place);
        }
    }
}

/// Puts these bytes at a place of a run of letters: so many of them are right, and if all are, so is the run.
fn compare_among(
    rt: &impl Abort,
    name: &str,
    letter: &[u8],
    place: usize,
    bytes: &[u8],
    right: usize,
)
    requires { place < 120 }
{
    let mut text = run_behind(0, letter);
    let (_, rest) = text.split_at_mut(place);
    for (old, new) in rest.iter_mut().zip(bytes) {
        *old = *new;
    }
    let wanted = if right < bytes.len() {
        place.saturating_add(right)
    } else {
        RUN
    };
    same!(rt; accepted(front(&text, RUN)), wanted, format_args!("{name} at {place}"));
}

#[test]
fn each_range_of_two_bytes_at_each_place_of_a_run(rt: HostRuntime) {
    for (name, bytes, right) in &PAIRS {
        for place in 0..60 {
            compare_among(&rt, name, &[0xD0, 0x96], 2 * place, bytes, *right);
        }
    }
}

#[test]
fn each_range_of_three_bytes_at_each_place_of_a_run(rt: HostRuntime) {
    for (name, bytes, right) in &TRIPLES {
        for place in 0..40 {
            compare_among(&rt, name, &[0xE4, 0xB8, 0xAD], 3 * place, bytes, *right);
            compare_among(&rt, name, &[0xE0, 0xA4, 0x95], 3 * place, bytes, *right);
        }
    }
}
