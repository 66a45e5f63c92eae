//! Bytes that begin no name: most of them are passed over sixteen together.
ghost use Rattle.std.specs.Prelude.{◌≡◌, ◌+◌, ◌-◌, ◌≤◌, ◌==◌, length};
ghost use Rattle.jser_anywhere.specs.Steps.{IsQuiet, IsText, AreNone, first_set, may_begin};

use jser_grammar::wire::{TC_CLASSDESC, TC_PROXYCLASSDESC};
use std::simd::prelude::*;

/// How many bytes are looked at together.
const LANES: usize = 16;

/// How far the bytes of a piece from `from` on begin no name.
#[tactic(auto, using(crate::proofs::QuietLemmas::quiet_none, crate::proofs::QuietLemmas::quiet_more, crate::proofs::QuietLemmas::quiet_joined))]
pub(crate) fn quiet_until(piece: &[u8], from: usize) -> usize
    requires { (6 ≤ from) × (from ≤ length piece.now) }
    ensures { IsQuiet piece.now from result }
{
    let mut at = from;
    'loads: while piece.len() - at >= LANES {
        let run = quiet_run(piece, at);
        at += run;
        if run < LANES {
            if may_begin(piece, at) {
                return at;
            }
            at += 1;
        }
    }
    quiet_until_each(piece, at)
}

/// How far the bytes of a piece from `from` on begin no name, found byte by byte.
#[tactic(auto, using(crate::proofs::QuietLemmas::quiet_none, crate::proofs::QuietLemmas::quiet_more, crate::proofs::QuietLemmas::quiet_whole))]
fn quiet_until_each(piece: &[u8], from: usize) -> usize
    requires { (6 ≤ from) × (from ≤ length piece.now) }
    ensures { IsQuiet piece.now from result }
{
    'bytes: for at in from..piece.len() {
        if may_begin(piece, at) {
            return at;
        }
    }
    piece.len()
}

/// Whether a name may begin with the length that ends at this byte.
#[inline(always)]
pub(crate) fn may_begin(piece: &[u8], at: usize) -> bool
    requires { (6 ≤ at) × (at ≤ length piece.now) }
    ensures { result ≡ may_begin piece.now at }
{
    piece[at - 1] <= 0x23 && (piece[at - 2] == TC_CLASSDESC || piece[at - 6] == TC_PROXYCLASSDESC)
}

/// How many bytes of the load at this place stand at no place at which the tag of a descriptor would begin a name.
#[tactic(auto, using(crate::proofs::QuietLemmas::quiet_without_tags))]
#[inline(always)]
fn quiet_run(piece: &[u8], at: usize) -> usize
    requires { (6 ≤ at) × (at + LANES ≤ length piece.now) }
    ensures within { result ≤ LANES }
    ensures quiet { IsQuiet piece.now at (at + result) }
{
    let plain = run_without(piece, at - 2, TC_CLASSDESC);
    let proxy = run_without(piece, at - 6, TC_PROXYCLASSDESC);
    plain.min(proxy)
}

/// How many bytes of the load at this place come before the first that is this one.
#[inline(always)]
fn run_without(bytes: &[u8], at: usize, byte: u8) -> usize
    requires { at + LANES ≤ length bytes.now }
    ensures within { result ≤ LANES }
    ensures none { AreNone (λ other. other == byte) bytes.now at (at + result) }
{
    let same = u8x16::from_slice(&bytes[at..]).simd_eq(u8x16::splat(byte));
    first_set(same.to_bitmask())
}

/// The place of the lowest bit that is set, or the number of lanes where none is.
#[inline(always)]
fn first_set(mask: u64) -> usize
    ensures { result ≡ first_set mask LANES }
{
    if mask == 0 {
        LANES
    } else {
        mask.trailing_zeros() as usize
    }
}

/// How far the bytes of a piece from `from` on are letters of a name that have one byte each, of so many at most.
#[tactic(auto, using(crate::proofs::ReadLemmas::text_none, crate::proofs::ReadLemmas::text_joined, crate::proofs::ReadLemmas::text_front))]
#[inline(always)]
pub(crate) fn text_until(piece: &[u8], from: usize, most: usize) -> usize
    requires { from ≤ length piece.now }
    ensures text { IsText piece.now from result }
    ensures few { result - from ≤ most }
{
    let end = from + most.min(piece.len() - from);
    let mut at = from;
    'loads: while piece.len() - at >= LANES {
        let run = letters_run(piece, at);
        if end - at <= run {
            return end;
        }
        at += run;
        if run < LANES {
            return at;
        }
    }
    text_until_each(piece, from, at, end)
}

/// How far the bytes of a piece from `at` on are letters, found byte by byte as far as `end`; those from `from` on are.
#[tactic(auto, using(crate::proofs::ReadLemmas::text_more))]
fn text_until_each(piece: &[u8], from: usize, at: usize, end: usize) -> usize
    requires text { IsText piece.now from at }
    requires end { (at ≤ end) × (end ≤ length piece.now) }
    ensures text { IsText piece.now from result }
    ensures few { result ≤ end }
{
    'bytes: for here in at..end {
        if piece[here] < 0x24 || piece[here] > 0x7F {
            return here;
        }
    }
    end
}

/// How many bytes of the load at this place come before the first that is no letter of a name, or only part of one.
#[inline(always)]
fn letters_run(piece: &[u8], at: usize) -> usize
    requires { at + LANES ≤ length piece.now }
    ensures within { result ≤ LANES }
    ensures text { IsText piece.now at (at + result) }
{
    let others = (u8x16::from_slice(&piece[at..]) - u8x16::splat(0x24)).simd_ge(u8x16::splat(0x5C));
    first_set(others.to_bitmask())
}
