//! Plain ASCII, many bytes at a time: a text's units of one byte each, 0x0001 to 0x007F.
ghost use Rattle.std.specs.Prelude.{◌≡◌, ◌+◌, ◌≤◌, IsTrue, length};
ghost use Rattle.jser_prim.specs.WholeUnits.{IsAsciiBetween, first_set};

use std::simd::prelude::*;

/// How many bytes are searched together for the first that is something else.
const LANES: usize = 16;

/// How many bytes are searched together where there are fewer.
const HALF: usize = 8;

/// How many bytes are tested together within a long run.
const BLOCK: usize = 64;

/// How many bytes at the front of `bytes` come before the first that is not a unit of one byte. The last bytes, where they
/// are too few for a load, are searched with some that were searched before.
#[tactic(auto, using(crate::proofs::LaneLemmas::ascii_joined))]
pub(crate) fn ascii_len(bytes: &[u8]) -> usize
    ensures within { result ≤ length bytes.now }
    ensures ascii { IsAsciiBetween bytes.now 0 result }
{
    let mut len = 0;
    'loads: while bytes.len() - len >= LANES {
        let run = ascii_run(bytes, len);
        len += run;
        if run < LANES {
            return len;
        }
        len = after_blocks(bytes, len);
    }
    if bytes.len() >= LANES {
        let at = bytes.len() - LANES;
        return at + ascii_run(bytes, at);
    }
    if bytes.len() >= HALF {
        let run = ascii_half(bytes, 0);
        if run < HALF {
            return run;
        }
        let at = bytes.len() - HALF;
        return at + ascii_half(bytes, at);
    }
    'bytes: while len < bytes.len() && 0x01 <= bytes[len] && bytes[len] < 0x80 {
        len += 1;
    }
    len
}

/// Whether the bytes from `from` on, before `to`, are units of one byte each: 0x01 to 0x7F. It loads 16 bytes at a time, and
/// where the load that has the last of them would reach over the end of `bytes`, it says no. So it is for a short text
/// in a long piece; what it does not find, a scan does.
#[tactic(auto, using(crate::proofs::LaneLemmas::ascii_joined))]
#[inline(always)]
pub fn is_plain_between(bytes: &[u8], from: usize, to: usize) -> bool
    requires order { from ≤ to }
    requires within { from ≤ length bytes.now }
    ensures ascii { IsTrue result → IsAsciiBetween bytes.now from to }
    ensures inside { IsTrue result → to ≤ length bytes.now }
{
    let mut at = from;
    'loads: while bytes.len() - at >= LANES {
        let run = ascii_run(bytes, at);
        if to - at <= LANES {
            return to - at <= run;
        }
        if run < LANES {
            return false;
        }
        at += LANES;
    }
    false
}

/// The end of the blocks from `at` on that hold only units of one byte.
fn after_blocks(bytes: &[u8], at: usize) -> usize
    requires { at ≤ length bytes.now }
    ensures within { result ≤ length bytes.now }
    ensures ahead { at ≤ result }
    ensures ascii { IsAsciiBetween bytes.now at result }
{
    let mut end = at;
    'plain: while bytes.len() - end >= BLOCK && is_ascii_block(bytes, end) {
        end += BLOCK;
    }
    end
}

/// Whether the block of bytes from `at` on holds only units of one byte.
#[inline(always)]
fn is_ascii_block(bytes: &[u8], at: usize) -> bool
    requires { at + BLOCK ≤ length bytes.now }
    ensures { IsTrue result → IsAsciiBetween bytes.now at (at + BLOCK) }
{
    let stops = (u8x64::from_slice(&bytes[at..]) - u8x64::splat(1)).simd_ge(u8x64::splat(0x7F));
    stops.to_bitmask() == 0
}

/// How many bytes from `at` on, of one load, come before the first that is not a unit of one byte.
#[inline(always)]
fn ascii_run(bytes: &[u8], at: usize) -> usize
    requires { at + LANES ≤ length bytes.now }
    ensures within { result ≤ LANES }
    ensures ascii { IsAsciiBetween bytes.now at (at + result) }
{
    let stops = (u8x16::from_slice(&bytes[at..]) - u8x16::splat(1)).simd_ge(u8x16::splat(0x7F));
    first_set(stops.to_bitmask(), LANES)
}

/// How many bytes from `at` on, of a load of half as many, come before the first that is not a unit of one byte.
#[inline(always)]
fn ascii_half(bytes: &[u8], at: usize) -> usize
    requires { at + HALF ≤ length bytes.now }
    ensures within { result ≤ HALF }
    ensures ascii { IsAsciiBetween bytes.now at (at + result) }
{
    let stops = (u8x8::from_slice(&bytes[at..]) - u8x8::splat(1)).simd_ge(u8x8::splat(0x7F));
    first_set(stops.to_bitmask(), HALF)
}

/// The place of the lowest bit that is set, or the number of lanes where none is.
#[inline(always)]
fn first_set(mask: u64, lanes: usize) -> usize
    ensures { result ≡ first_set mask lanes }
{
    if mask == 0 {
        lanes
    } else {
        mask.trailing_zeros() as usize
    }
}
