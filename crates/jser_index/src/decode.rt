//! The units of a text from its bytes.
ghost use Rattle.std.specs.Prelude.{ℕ, List, ◌≡◌, ◌+◌, ◌≤◌, true, length, IfOk};
ghost use Rattle.jser_prim.specs.ModifiedUtf8.{IsUnits, modified_utf8};
ghost use Rattle.jser_index.specs.Decoding.{AreNarrow, Widens};

use jser_prim::read_units;
use std::alloc::AllocError;
use std::simd::prelude::*;

/// How many bytes are put together in a long text.
const LANES: usize = 16;

/// How many are put together where there are fewer.
const HALF: usize = 8;

/// How many are put together where there are fewer than that.
const QUARTER: usize = 4;

/// The UTF-16 units of a text in modified UTF-8, lent from `room`. Bytes that are no such text have others.
#[tactic(auto, using(crate::proofs::DecodeLemmas::narrow_text))]
#[inline(always)]
pub(crate) fn decode<'r>(bytes: &[u8], room: &'r mut Vec<u16>) -> Result<&'r [u16], AllocError>
    ensures { IfOk result (λ units. (told : List ℕ) → IsUnits told → modified_utf8 told ≡ bytes.now → units.now ≡ told) }
{
    if widen(bytes, room)? {
        let (units, _) = room.split_at(bytes.len());
        return Ok(units);
    }
    let _ = read_units(bytes, room)?;
    Ok(room.as_slice())
}

/// Puts the bytes as units at the front of `room`, which is made longer where it is too short. False where the units of
/// a text may be others, since not each of them is one byte.
#[inline(always)]
fn widen(bytes: &[u8], room: &mut Vec<u16>) -> Result<bool, AllocError>
    ensures { IfOk result (λ narrow. narrow ≡ true → AreNarrow bytes.now room.new.items) }
{
    if room.len() < bytes.len() {
        room.resize(bytes.len(), 0)?;
    }
    Ok(widen_all(bytes, room))
}

/// Puts the bytes as units at the front of `room`, which has room for all. The last bytes of a text, where they are too few
/// for all lanes, are put with some that were put before.
#[inline(always)]
pub(crate) fn widen_all(bytes: &[u8], room: &mut [u16]) -> bool
    requires { length bytes.now ≤ length room.old }
    ensures { result ≡ true → AreNarrow bytes.now room.new }
{
    if bytes.len() >= LANES {
        return widen_loads(bytes, room);
    }
    if bytes.len() >= HALF {
        return widen_ends::<HALF>(bytes, room);
    }
    if bytes.len() >= QUARTER {
        return widen_ends::<QUARTER>(bytes, room);
    }
    widen_few(bytes, room)
}

/// Puts the bytes of a long text as units at the front of the room, load by load.
#[tactic(auto, using(crate::proofs::DecodeLemmas::none_widened, crate::proofs::DecodeLemmas::more_widened, crate::proofs::DecodeLemmas::all_widened))]
#[inline(never)]
fn widen_loads(bytes: &[u8], room: &mut [u16]) -> bool
    requires some { LANES ≤ length bytes.now }
    requires room { length bytes.now ≤ length room.old }
    ensures { result ≡ true → AreNarrow bytes.now room.new }
{
    let mut at = 0;
    'loads: while bytes.len() - at > LANES {
        if !widen_lanes::<LANES>(bytes, room, at) {
            return false;
        }
        at += LANES;
    }
    widen_lanes::<LANES>(bytes, room, bytes.len() - LANES)
}

/// Puts as many bytes as there are lanes, or up to twice as many, as units at the front of the room.
#[tactic(auto, using(crate::proofs::DecodeLemmas::none_widened, crate::proofs::DecodeLemmas::more_widened, crate::proofs::DecodeLemmas::all_widened))]
#[inline(always)]
fn widen_ends<const N: usize>(bytes: &[u8], room: &mut [u16]) -> bool
    requires few { N ≤ 64 }
    requires some { N ≤ length bytes.now }
    requires most { length bytes.now ≤ N + N }
    requires room { length bytes.now ≤ length room.old }
    ensures { result ≡ true → AreNarrow bytes.now room.new }
{
    let front = widen_lanes::<N>(bytes, room, 0);
    let back = widen_lanes::<N>(bytes, room, bytes.len() - N);
    front && back
}

/// Puts the bytes of one load as units at the same place of the room. False where one of them is not below 0x80.
#[inline(always)]
fn widen_lanes<const N: usize>(bytes: &[u8], room: &mut [u16], at: usize) -> bool
    requires few { N ≤ 64 }
    requires bytes { at + N ≤ length bytes.now }
    requires room { at + N ≤ length room.old }
    ensures { Widens N bytes.now at result room.old room.new }
{
    let lanes = Simd::<u8, N>::from_slice(&bytes[at..]);
    lanes.cast::<u16>().copy_to_slice(&mut room[at..]);
    lanes.simd_ge(Simd::splat(0x80)).to_bitmask() == 0
}

/// Puts a few bytes as units at the front of the room, one by one.
#[inline(always)]
fn widen_few(bytes: &[u8], room: &mut [u16]) -> bool
    requires { length bytes.now ≤ length room.old }
    ensures { result ≡ true → AreNarrow bytes.now room.new }
{
    let mut narrow = true;
    for (place, byte) in bytes.iter().enumerate() {
        room[place] = u16::from(*byte);
        if *byte >= 0x80 {
            narrow = false;
        }
    }
    narrow
}
