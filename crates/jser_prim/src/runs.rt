//! Whole units of a text at once.
ghost use Rattle.std.specs.Prelude.{◌≡◌, ◌+◌, ◌<◌, ◌≤◌, [], ◌∷◌, IsTrue, IfSome, length, take};
ghost use Rattle.jser_prim.specs.WholeUnits.{AreUnitsSpelled, FollowsUnits, IsUnitSpelled, PassesUnits};

use crate::blocks::{LANES, THREES, are_low_threes, are_threes, are_twos};
use crate::lanes::ascii_len;

/// How many bytes at the front of `bytes` are spellings of whole units. It may stop before their end.
#[tactic(auto, using(crate::proofs::RunLemmas::passed_none, crate::proofs::RunLemmas::passed_more, crate::proofs::RunLemmas::shorter_tail, crate::proofs::RunLemmas::passed_within, crate::proofs::RunLemmas::passed_front))]
pub(crate) fn spelled_len(bytes: &[u8]) -> usize
    ensures within { result ≤ length bytes.now }
    ensures spelled { AreUnitsSpelled (take result bytes.now) }
{
    let mut rest = bytes;
    'units: while let Some(tail) = after_units(rest) {
        rest = tail;
    }
    bytes.len() - rest.len()
}

/// What follows the run of units of as many bytes each that is at the front of `bytes`, if one is.
#[tactic(auto, using(crate::proofs::RunLemmas::follows_one))]
fn after_units(bytes: &[u8]) -> Option<&[u8]>
    ensures { IfSome result (λ tail. FollowsUnits bytes.now tail.now) }
{
    match bytes {
        [first, tail @ ..] if is_one(*first) => {
            let (_, after) = tail.split_at(ascii_len(tail));
            Some(after)
        }
        [first, ..] if *first < 0xE0 => after_twos(bytes),
        _ => after_threes(bytes),
    }
}

/// What follows the run of units of two bytes that is at the front of `bytes`, if one is.
#[tactic(auto, using(crate::proofs::RunLemmas::follows_two))]
#[inline(always)]
fn after_twos(bytes: &[u8]) -> Option<&[u8]>
    ensures { IfSome result (λ tail. FollowsUnits bytes.now tail.now) }
{
    match bytes {
        [first, second, tail @ ..] if is_two(*first, *second) => Some(past_twos(tail)),
        _ => None,
    }
}

/// What follows the run of units of three bytes that is at the front of `bytes`, if one is.
#[tactic(auto, using(crate::proofs::RunLemmas::follows_three))]
#[inline(always)]
fn after_threes(bytes: &[u8]) -> Option<&[u8]>
    ensures { IfSome result (λ tail. FollowsUnits bytes.now tail.now) }
{
    match bytes {
        [first, second, third, tail @ ..] if is_three(*first, *second, *third) => {
            Some(past_threes(tail))
        }
        _ => None,
    }
}

/// What follows the run of units of two bytes at the front of `bytes`, which are all of them where none begins there.
#[tactic(auto, using(crate::proofs::RunLemmas::passed_none, crate::proofs::RunLemmas::passed_run))]
#[inline(always)]
fn past_twos(bytes: &[u8]) -> &[u8]
    ensures { PassesUnits bytes.now result.now }
{
    if bytes.is_empty() || bytes[0] < 0xC0 {
        return bytes;
    }
    let (_, after) = bytes.split_at(twos_len(bytes));
    after
}

/// How many bytes at the front of `bytes` are spellings of units of two bytes.
#[tactic(auto, using(crate::proofs::RunLemmas::front_none, crate::proofs::RunLemmas::front_more, crate::proofs::RunLemmas::two_more))]
#[inline(always)]
fn twos_len(bytes: &[u8]) -> usize
    ensures within { result ≤ length bytes.now }
    ensures spelled { AreUnitsSpelled (take result bytes.now) }
{
    if bytes.is_empty() || bytes[0] >= 0xE0 {
        return 0;
    }
    let mut len = 0;
    'loads: while bytes.len() - len >= LANES && are_twos(bytes, len) {
        len += LANES;
    }
    'units: while bytes.len() - len >= 2 && is_two(bytes[len], bytes[len + 1]) {
        len += 2;
    }
    len
}

/// What follows the run of units of three bytes at the front of `bytes`, which are all of them where none begins there.
#[tactic(auto, using(crate::proofs::RunLemmas::passed_none, crate::proofs::RunLemmas::passed_run))]
#[inline(always)]
fn past_threes(bytes: &[u8]) -> &[u8]
    ensures { PassesUnits bytes.now result.now }
{
    if bytes.is_empty() || bytes[0] < 0xE0 {
        return bytes;
    }
    let (_, after) = bytes.split_at(threes_len(bytes));
    after
}

/// How many bytes at the front of `bytes` are spellings of units of three bytes.
#[tactic(auto, using(crate::proofs::RunLemmas::front_none, crate::proofs::RunLemmas::front_more, crate::proofs::RunLemmas::three_more))]
#[inline(always)]
fn threes_len(bytes: &[u8]) -> usize
    ensures within { result ≤ length bytes.now }
    ensures spelled { AreUnitsSpelled (take result bytes.now) }
{
    let mut len = 0;
    'loads: while bytes.len() - len >= LANES && are_threes(bytes, len) {
        len += THREES;
    }
    'low_loads: while bytes.len() - len >= LANES && are_low_threes(bytes, len) {
        len += THREES;
    }
    'units: while bytes.len() - len >= 3 && is_three(bytes[len], bytes[len + 1], bytes[len + 2]) {
        len += 3;
    }
    len
}

/// Whether the byte is a unit's spelling.
#[tactic(auto, using(crate::proofs::RunLemmas::one_is_spelled))]
fn is_one(first: u8) -> bool
    ensures { IsTrue result → IsUnitSpelled (first ∷ []) }
{
    0x01 <= first && first < 0x80
}

/// Whether the two bytes are a unit's spelling.
#[tactic(auto, using(crate::proofs::RunLemmas::two_are_spelled))]
fn is_two(first: u8, second: u8) -> bool
    ensures { IsTrue result → IsUnitSpelled (first ∷ second ∷ []) }
{
    if first < 0xC2 {
        return first == 0xC0 && second == 0x80;
    }
    first < 0xE0 && 0x80 <= second && second < 0xC0
}

/// Whether the three bytes are a unit's spelling.
#[tactic(auto, using(crate::proofs::RunLemmas::three_are_spelled))]
fn is_three(first: u8, second: u8, third: u8) -> bool
    ensures { IsTrue result → IsUnitSpelled (first ∷ second ∷ third ∷ []) }
{
    match first {
        0xE0 => 0xA0 <= second && second < 0xC0 && 0x80 <= third && third < 0xC0,
        0xE1..=0xEF => 0x80 <= second && second < 0xC0 && 0x80 <= third && third < 0xC0,
        _ => false,
    }
}
