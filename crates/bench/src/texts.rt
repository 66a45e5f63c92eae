//! How fast texts are scanned, byte by byte and in slices: `rt run -- texts 200` scans 200 MB of each kind of unit in
//! both ways, and prints megabytes per second.

use anyhow::{Error, Result};
use jser_prim::TextScan;
use std::alloc::{AllocError, Global};
use std::rt::Clock;
use std::time::Instant;

/// How often a text repeats its six bytes.
const REPEATS: usize = 8192;

/// The kinds of text: a name, and the bytes that it repeats.
static KINDS: [(&str, [u8; 6]); 4] = [
    ("units of one byte", *b"serial"),
    ("units of two bytes", [0xC3, 0xA9, 0xC3, 0xA9, 0xC3, 0xA9]),
    ("units of three bytes", [0xE4, 0xB8, 0x80, 0xE4, 0xB8, 0x80]),
    ("all kinds in turn", [0x61, 0xC3, 0xA9, 0xE4, 0xB8, 0x80]),
];

/// How the bytes of a text are handed to its scan.
#[derive(Clone, Copy)]
enum Way {
    /// One by one, by `push`.
    Alone,
    /// All at once, by `push_all`.
    Together,
}

/// Scans so many megabytes of each kind of text, and prints how fast, if that is wanted.
pub fn scan_kinds(rt: &HostRuntime, megabytes: u32, prints: bool) -> Result<()> {
    for (name, pattern) in &KINDS {
        let (alone, together) = speeds_of(rt, rt.alloc(), pattern, megabytes)?;
        if prints {
            println!(rt; "{name}: push {alone} MB/s, push_all {together} MB/s")?;
        }
    }
    Ok(())
}

/// How many megabytes of the bytes, repeated, are scanned in a second: alone, and together.
fn speeds_of(rt: &impl Clock, alloc: Global, pattern: &[u8], megabytes: u32) -> Result<(u64, u64)> {
    let text = repeated(alloc, pattern)?;
    both_speeds(rt, &text, megabytes)
}

/// How many megabytes of a text are scanned in a second: alone, and together.
fn both_speeds(rt: &impl Clock, text: &[u8], megabytes: u32) -> Result<(u64, u64)> {
    let alone = speed(rt, text, megabytes, Way::Alone)?;
    let together = speed(rt, text, megabytes, Way::Together)?;
    Ok((alone, together))
}

/// The bytes, repeated.
fn repeated(alloc: Global, pattern: &[u8]) -> Result<Vec<u8>, AllocError> {
    let mut text = Vec::new(alloc);
    for _ in 0..REPEATS {
        text.extend_from_slice(pattern)?;
    }
    Ok(text)
}

/// How many megabytes of a text are scanned in a second.
fn speed(rt: &impl Clock, text: &[u8], megabytes: u32, way: Way) -> Result<u64> {
    let len = text.len() as u64;
    let turns = u64::from(megabytes) * 1_000_000 / len.max(1);
    let start = Instant::now(rt)?;
    if !accepts(text, turns, way) {
        return Err(Error::msg("a right text was refused"));
    }
    let micros = u64::try_from(start.elapsed(rt)?.as_micros())?;
    Ok(turns.saturating_mul(len) / micros.max(1))
}

/// Whether the text is accepted in this way, so many times.
fn accepts(text: &[u8], turns: u64, way: Way) -> bool {
    for _ in 0..turns {
        let accepted = match way {
            Way::Alone => accepts_alone(text),
            Way::Together => accepts_together(text),
        };
        if !accepted {
            return false;
        }
    }
    true
}

/// Whether each byte of the text is accepted, one by one.
fn accepts_alone(text: &[u8]) -> bool {
    let mut scan = TextScan::new(text.len() as u64);
    for byte in text {
        if scan.push(*byte).is_err() {
            return false;
        }
    }
    scan.left() == 0
}

/// Whether the text's bytes are accepted, all at once.
fn accepts_together(text: &[u8]) -> bool {
    let mut scan = TextScan::new(text.len() as u64);
    scan.push_all(text).is_ok() && scan.left() == 0
}
