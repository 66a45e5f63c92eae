//! Tests of 32 bytes together: a lane has all its bits where its byte passes, and none where it does not.
ghost use Rattle.std.specs.Prelude.{◌≡◌, ◌≢◌, ◌↔◌, ◌+◌, ◌<◌, ◌≤◌, ◌==◌, ◌&&◌, ◌||◌, ℕ, Bool, length, get_or};
ghost use Rattle.std.specs.Int.{bit_at};
ghost use Rattle.jser_find.specs.Marks.{IsTest, PassesFrom};

use std::simd::prelude::*;

/// How many bytes are tested together.
pub(crate) const LANES: usize = 32;

/// Whether a byte of the load at this place is this one.
#[inline(always)]
pub(crate) fn are(bytes: &[u8], at: usize, byte: u8) -> u8x32
    requires { at + LANES ≤ length bytes.now }
    ensures { IsTest result (λ k. get_or bytes.now (at + k) 0 == byte) }
{
    u8x32::from_slice(&bytes[at..])
        .simd_eq(u8x32::splat(byte))
        .select(u8x32::splat(255), u8x32::splat(0))
}

/// Whether a byte passes both tests.
#[inline(always)]
pub(crate) fn both(a: u8x32, b: u8x32) -> u8x32
    ensures { (f g : ℕ → Bool) → IsTest a f → IsTest b g → IsTest result (λ k. f k && g k) }
{
    a & b
}

/// Whether a byte passes one of the tests.
#[inline(always)]
pub(crate) fn either(a: u8x32, b: u8x32) -> u8x32
    ensures { (f g : ℕ → Bool) → IsTest a f → IsTest b g → IsTest result (λ k. f k || g k) }
{
    a | b
}

/// How many bytes come before the first that passes.
#[inline(always)]
pub(crate) fn first_of(lanes: u8x32) -> usize
    ensures { (test : ℕ → Bool) → IsTest lanes test → PassesFrom test result }
{
    let mask = top_bits(lanes);
    if mask == 0 { LANES } else { lowest(mask) }
}

/// Bit k is the top bit of lane k.
#[inline(always)]
fn top_bits(lanes: u8x32) -> u64
    ensures { (k : ℕ) → (bit_at result k ≡ 1) ↔ (128 ≤ get_or lanes k 0) }
{
    lanes.simd_ge(u8x32::splat(128)).to_bitmask()
}

/// The lowest bit that is set.
#[inline(always)]
fn lowest(mask: u64) -> usize
    requires { mask ≢ 0 }
    ensures set { bit_at mask result ≡ 1 }
    ensures below { (k : ℕ) → k < result → bit_at mask k ≡ 0 }
{
    mask.trailing_zeros() as usize
}
