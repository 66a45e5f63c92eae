//! Scans of texts, byte by byte and in slices.
ghost use Rattle.std.specs.Prelude.{◌<◌, ◌≤◌};

use jser_prim::{TextFault, TextFaultAfter, TextScan, text_bytes};
use std::alloc::{AllocError, Global};
use std::process::Abort;
use std::test::Fail;

/// What a scan of a text of the bytes' length answers to the first bytes, pushed one by one.
fn pushed(bytes: &[u8], scan: &mut TextScan) -> usize {
    for (accepted, byte) in bytes.iter().enumerate() {
        if scan.is_done() || scan.push(*byte).is_err() {
            return accepted;
        }
    }
    bytes.len()
}

/// Pushes one byte, which the scan still expects.
fn push(rt: &impl Abort, scan: &mut TextScan, byte: u8) -> Result<Option<u16>, TextFault> {
    holds!(rt; !scan.is_done());
    scan.push(byte)
}

/// A byte, and what the scan answers to it.
type Push = (u8, Result<Option<u16>, TextFault>);

/// Texts: how many bytes each has, its first bytes with what the scan answers to them, and whether the scan is then done.
const PUSHES: [(&str, u64, &[Push], bool); 6] = [
    ("scan-empty", 0, &[], true),
    (
        "scan-lone-c3",
        1,
        &[(0xC3, Err(TextFault)), (0x61, Err(TextFault))],
        false,
    ),
    (
        "scan-c080",
        2,
        &[(0xC0, Ok(None)), (0x80, Ok(Some(0x0000)))],
        true,
    ),
    (
        "scan-surrogate",
        3,
        &[(0xED, Ok(None)), (0xA0, Ok(None)), (0x80, Ok(Some(0xD800)))],
        true,
    ),
    (
        "scan-never, too long for what is left",
        2,
        &[(0xE0, Err(TextFault))],
        false,
    ),
    (
        "scan-never, a zero byte",
        1,
        &[(0x00, Err(TextFault))],
        false,
    ),
];

/// The scan of a text of so many bytes answers this to its first bytes, and is then done, or not.
fn compare_pushes(rt: &impl Abort, name: &str, len: u64, pushes: &[Push], is_done: bool) {
    let mut scan = TextScan::new(len);
    for (byte, answer) in pushes {
        same!(rt; push(rt, &mut scan, *byte), *answer, name);
    }
    same!(rt; scan.is_done(), is_done, name);
}

#[test]
fn scans_byte_by_byte(rt: HostRuntime) {
    for (name, len, pushes, is_done) in &PUSHES {
        compare_pushes(&rt, name, *len, pushes, *is_done);
    }
}

/// Whether a byte may stand after these bytes of its unit, with `left` bytes left in the text, itself
/// included: the rows of a table that was made by hand from the layout of modified UTF-8.
fn may_stand(unit: &[u8], byte: u8, left: usize) -> bool {
    match unit {
        [] => may_begin(byte, left),
        [0xC0] => byte == 0x80,
        [0xE0] => matches!(byte, 0xA0..=0xBF),
        _ => matches!(byte, 0x80..=0xBF),
    }
}

/// The rows of that table for a byte that begins its unit.
fn may_begin(byte: u8, left: usize) -> bool {
    match byte {
        0x01..=0x7F => true,
        0xC0 | 0xC2..=0xDF => left >= 2,
        0xE0..=0xEF => left >= 3,
        _ => false,
    }
}

/// How many bytes a unit has that begins with this one.
fn unit_len(first: u8) -> usize {
    match first {
        0x00..=0x7F => 1,
        0x80..=0xDF => 2,
        _ => 3,
    }
}

/// How many bytes of a text of just these are right, by the table.
fn right_by_table(text: &[u8]) -> usize {
    let mut unit: &[u8] = &[];
    let mut start = 0;
    for (at, byte) in text.iter().enumerate() {
        if !may_stand(unit, *byte, text.len() - at) {
            return at;
        }
        unit = text.get(start..at + 1).unwrap_or(&[]);
        if unit
            .first()
            .is_none_or(|first| unit.len() >= unit_len(*first))
        {
            unit = &[];
            start = at + 1;
        }
    }
    text.len()
}

/// How many bytes of a text of just these a scan accepts, given in two slices.
pub fn pushed_in_two(text: &[u8], cut: usize) -> usize {
    let mut scan = TextScan::new(text.len() as u64);
    let (front, back) = text.split_at(cut.min(text.len()));
    if let Err(fault) = scan.push_all(front) {
        return fault.accepted;
    }
    match scan.push_all(back) {
        Ok(()) => text.len(),
        Err(fault) => front.len() + fault.accepted,
    }
}

/// The same, byte by byte.
fn pushed_alone(text: &[u8]) -> usize {
    pushed(text, &mut TextScan::new(text.len() as u64))
}

#[test]
fn each_two_and_three_bytes_by_table(rt: HostRuntime) {
    for first in 0..=u8::MAX {
        for second in 0..=u8::MAX {
            let pair = [first, second];
            let right = right_by_table(&pair);
            same!(rt; pushed_alone(&pair), right, format_args!("{first:02x} {second:02x}"));
            same!(rt; pushed_in_two(&pair, 1), right, format_args!("{first:02x} {second:02x}"));
            for third in 0..=u8::MAX {
                let triple = [first, second, third];
                let right = right_by_table(&triple);
                same!(rt; pushed_alone(&triple), right, format_args!("{first:02x} {second:02x} {third:02x}"));
                // Where an earlier byte is wrong already, the third is not looked at.
                if right < 2 {
                    break;
                }
            }
        }
    }
}

/// Bytes that texts of one kind of unit repeat.
const PATTERNS: [[u8; 6]; 4] = [
    *b"serial",
    [0xC3, 0xA9, 0xC3, 0xA9, 0xC3, 0xA9],
    [0xE4, 0xB8, 0x80, 0xE4, 0xB8, 0x80],
    [0x61, 0xC3, 0xA9, 0xE4, 0xB8, 0x80],
];

/// Bytes at the ends of the ranges of those that may stand somewhere, and beside them.
const ODD_BYTES: [u8; 16] = [
    0x00, 0x01, 0x7F, 0x80, 0x9F, 0xA0, 0xBF, 0xC0, 0xC1, 0xC2, 0xDF, 0xE0, 0xE1, 0xED, 0xEF, 0xF0,
];

/// A text that repeats a pattern.
fn repeated(pattern: [u8; 6]) -> [u8; 72] {
    let mut text = [0u8; 72];
    for (at, byte) in text.iter_mut().enumerate() {
        *byte = pattern[at % 6];
    }
    text
}

/// The text in two slices, cut nowhere and at this place, means its bytes one by one.
fn compare_slices(rt: &impl Abort, text: &[u8], place: usize, odd: u8) {
    let accepted = pushed_alone(text);
    for cut in [0, place] {
        same!(rt; pushed_in_two(text, cut), accepted, format_args!("{} {place} {odd:02x} {cut}", text.len()));
    }
}

/// The first bytes of a text, with each odd byte at this place, mean their bytes one by one.
fn compare_odd_bytes(rt: &impl Abort, mut text: [u8; 72], len: usize, place: usize)
    requires place { place < len }
    requires len { len ≤ 72 }
{
    for odd in ODD_BYTES {
        text[place] = odd;
        compare_slices(rt, &text[..len], place, odd);
    }
}

#[test]
fn slices_mean_the_bytes_one_by_one(rt: HostRuntime) {
    for pattern in PATTERNS {
        let text = repeated(pattern);
        for len in 0..=70 {
            for place in 0..len {
                compare_odd_bytes(&rt, text, len, place);
            }
        }
    }
}

#[test]
fn each_cut_of_a_text_gives_the_same(rt: HostRuntime) {
    for pattern in PATTERNS {
        let text = repeated(pattern);
        for cut in 0..=text.len() {
            same!(rt; pushed_in_two(&text, cut), text.len(), cut);
        }
    }
}

/// All units, in order.
fn all_units(alloc: Global) -> Result<Vec<u16>, AllocError> {
    (0..=u16::MAX).collect(alloc)
}

/// Appends the units that a scan of the bytes gives.
fn read_back(rt: &impl Abort, bytes: &[u8], units: &mut Vec<u16>) -> Result<(), Fail> {
    let mut scan = TextScan::new(bytes.len() as u64);
    for byte in bytes {
        if let Some(unit) = push(rt, &mut scan, *byte)? {
            units.push(unit)?;
        }
    }
    holds!(rt; scan.is_done());
    Ok(())
}

/// The units that a scan of the bytes gives are these.
fn compare_read(rt: &impl Abort, alloc: Global, bytes: &[u8], units: &[u16]) -> Result<(), Fail> {
    let mut read = Vec::new(alloc);
    read_back(rt, bytes, &mut read)?;
    same!(rt; read.as_slice(), units);
    Ok(())
}

/// The spelling of these units, which has so many bytes, gives them back.
fn compare_spelled(rt: &impl Abort, alloc: Global, units: &[u16], len: usize) -> Result<(), Fail> {
    let bytes = text_bytes(alloc, units)?;
    same!(rt; bytes.len(), len);
    compare_read(rt, alloc, &bytes, units)
}

#[test]
fn each_unit_comes_back_from_its_spelling(rt: HostRuntime) -> Result<(), Fail> {
    let units = all_units(rt.alloc())?;
    compare_spelled(&rt, rt.alloc(), &units, 2 + 127 + 2 * 1920 + 3 * 63488)
}

#[test]
fn a_fault_in_a_slice_stays(rt: HostRuntime) {
    let mut scan = TextScan::new(4);
    same!(rt; scan.push_all(b"ab\0c"), Err(TextFaultAfter { accepted: 2 }));
    holds!(rt; !scan.is_done());
    same!(rt; push(&rt, &mut scan, b'c'), Err(TextFault));
}

/// A slice of plain ASCII is taken at once, and one with another byte is not.
#[test]
fn plain_slices(rt: HostRuntime) {
    let mut scan = TextScan::new(4);
    holds!(rt; scan.push_plain(b"ab"));
    holds!(rt; !scan.push_plain(b"a\0"));
    same!(rt; scan.left(), 2);
}
