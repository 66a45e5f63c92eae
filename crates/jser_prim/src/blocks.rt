//! Units of two bytes and of three, as many as one load has. Units whose first byte is 0xE0 are tested by themselves, since
//! their second byte has fewer values.
ghost use Rattle.std.specs.Prelude.{◌≡◌, ◌+◌, ◌≤◌, IsTrue, length};
ghost use Rattle.jser_prim.specs.WholeUnits.{AreUnitsBetween, IsWithinLanes};

use std::simd::prelude::*;

/// How many bytes are loaded together. Units of two bytes fill them.
pub(crate) const LANES: usize = 16;

/// How many of them units of three bytes fill.
pub(crate) const THREES: usize = 15;

/// The least values of the bytes of units of two bytes, without the null. How far a byte may be above its least value
/// is beside them.
const TWOS_LEAST: [u8; LANES] = [
    0xC2, 0x80, 0xC2, 0x80, 0xC2, 0x80, 0xC2, 0x80, 0xC2, 0x80, 0xC2, 0x80, 0xC2, 0x80, 0xC2, 0x80,
];

const TWOS_SPAN: [u8; LANES] = [
    0x1D, 0x3F, 0x1D, 0x3F, 0x1D, 0x3F, 0x1D, 0x3F, 0x1D, 0x3F, 0x1D, 0x3F, 0x1D, 0x3F, 0x1D, 0x3F,
];

/// The least values of the bytes of units of three bytes of which the first is 0xE0. The last byte is of no unit, and may be
/// any.
const LOW_THREES_LEAST: [u8; LANES] = [
    0xE0, 0xA0, 0x80, 0xE0, 0xA0, 0x80, 0xE0, 0xA0, 0x80, 0xE0, 0xA0, 0x80, 0xE0, 0xA0, 0x80, 0x00,
];

const LOW_THREES_SPAN: [u8; LANES] = [
    0x00, 0x1F, 0x3F, 0x00, 0x1F, 0x3F, 0x00, 0x1F, 0x3F, 0x00, 0x1F, 0x3F, 0x00, 0x1F, 0x3F, 0xFF,
];

/// The least values of the bytes of the other units of three bytes.
const THREES_LEAST: [u8; LANES] = [
    0xE1, 0x80, 0x80, 0xE1, 0x80, 0x80, 0xE1, 0x80, 0x80, 0xE1, 0x80, 0x80, 0xE1, 0x80, 0x80, 0x00,
];

const THREES_SPAN: [u8; LANES] = [
    0x0E, 0x3F, 0x3F, 0x0E, 0x3F, 0x3F, 0x0E, 0x3F, 0x3F, 0x0E, 0x3F, 0x3F, 0x0E, 0x3F, 0x3F, 0xFF,
];

/// Whether eight units of two bytes begin at `at`.
#[tactic(auto, using(crate::proofs::BlockLemmas::eight_twos))]
#[inline(always)]
pub(crate) fn are_twos(bytes: &[u8], at: usize) -> bool
    requires { at + LANES ≤ length bytes.now }
    ensures { IsTrue result → AreUnitsBetween bytes.now at (at + LANES) }
{
    is_within(bytes, at, TWOS_LEAST, TWOS_SPAN)
}

/// Whether five units of three bytes begin at `at`, the first byte of each of which is 0xE0.
#[tactic(auto, using(crate::proofs::BlockLemmas::five_low_threes))]
#[inline(always)]
pub(crate) fn are_low_threes(bytes: &[u8], at: usize) -> bool
    requires { at + LANES ≤ length bytes.now }
    ensures { IsTrue result → AreUnitsBetween bytes.now at (at + THREES) }
{
    is_within(bytes, at, LOW_THREES_LEAST, LOW_THREES_SPAN)
}

/// Whether five units of three bytes begin at `at`, the first byte of each of which is above 0xE0.
#[tactic(auto, using(crate::proofs::BlockLemmas::five_threes))]
#[inline(always)]
pub(crate) fn are_threes(bytes: &[u8], at: usize) -> bool
    requires { at + LANES ≤ length bytes.now }
    ensures { IsTrue result → AreUnitsBetween bytes.now at (at + THREES) }
{
    is_within(bytes, at, THREES_LEAST, THREES_SPAN)
}

/// Whether each byte of the load at `at` is at its least value or above it, and by no more than its span.
#[inline(always)]
fn is_within(bytes: &[u8], at: usize, least: [u8; LANES], span: [u8; LANES]) -> bool
    requires within { at + LANES ≤ length bytes.now }
    requires least { length least ≡ LANES }
    requires span { length span ≡ LANES }
    ensures { IsTrue result → IsWithinLanes bytes.now at least span }
{
    let above = u8x16::from_slice(&bytes[at..]) - u8x16::from_array(least);
    above.simd_gt(u8x16::from_array(span)).to_bitmask() == 0
}
