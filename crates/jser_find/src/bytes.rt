//! The front of the bytes that a text spells.
ghost use Rattle.std.specs.Prelude.{◌≡◌, ◌≤◌, ◌↔◌, IfOk, IsTrue, length, take};
ghost use Rattle.jser_find.specs.Spelled.{IsIn, bytes_from, place_until};

use crate::group::next_group;
use crate::spelled::{Reading, next_byte};
use std::alloc::{AllocError, Global};

/// The first bytes that a text spells, at most so many.
#[tactic(auto, using(crate::proofs::FrontLemmas::front_more, crate::proofs::FrontLemmas::front_group, crate::proofs::FrontLemmas::front_none, crate::proofs::FrontLemmas::front_full, crate::proofs::FrontLemmas::front_over))]
pub(crate) fn front_of(
    alloc: Global,
    text: &[u8],
    from: Reading,
    count: usize,
) -> Result<Vec<u8>, AllocError>
    requires { IsIn text.now from }
    ensures { IfOk result (λ bytes. bytes.items ≡ take count (bytes_from text.now from)) }
{
    let mut bytes = Vec::new(alloc);
    let mut now = from;
    let mut left = count;
    'bytes: while left > 0 {
        if left >= 3
            && let Some(group) = next_group(text, now)
        {
            bytes.extend_from_slice(&[group.first, group.second, group.third])?;
            now = group.then;
            left -= 3;
            continue;
        }
        match next_byte(text, now) {
            Some(given) => {
                bytes.push(given.byte)?;
                now = given.then;
                left -= 1;
            }
            None => return Ok(bytes),
        }
    }
    Ok(bytes)
}

/// Whether the bytes that a text spells begin with these.
#[tactic(auto, using(crate::proofs::FrontLemmas::begins_none, crate::proofs::FrontLemmas::begins_other, crate::proofs::FrontLemmas::begins_more, crate::proofs::FrontLemmas::begins_all))]
pub(crate) fn begins_with(text: &[u8], from: Reading, needle: &[u8]) -> bool
    requires { IsIn text.now from }
    ensures { IsTrue result ↔ (take (length needle.now) (bytes_from text.now from) ≡ needle.now) }
{
    let mut now = from;
    let mut rest = needle;
    'bytes: while let Some((first, after)) = rest.split_first() {
        match next_byte(text, now) {
            Some(given) => {
                if given.byte != *first {
                    return false;
                }
                now = given.then;
                rest = after;
            }
            None => return false,
        }
    }
    true
}

/// The place behind the digit that completes the last of the first `count` bytes that a text spells.
#[tactic(auto, using(crate::proofs::FrontLemmas::places_none, crate::proofs::FrontLemmas::places_more, crate::proofs::FrontLemmas::places_group, crate::proofs::FrontLemmas::places_all, crate::proofs::FrontLemmas::places_over))]
pub(crate) fn place_behind(text: &[u8], from: Reading, count: usize) -> usize
    requires inside { IsIn text.now from }
    requires enough { count ≤ length (bytes_from text.now from) }
    ensures is { result ≡ place_until text.now from count }
    ensures inside { result ≤ length text.now }
{
    let mut now = from;
    let mut left = count;
    'bytes: while left > 0 {
        if left >= 3
            && let Some(group) = next_group(text, now)
        {
            now = group.then;
            left -= 3;
            continue;
        }
        match next_byte(text, now) {
            Some(given) => {
                now = given.then;
                left -= 1;
            }
            None => return now.at,
        }
    }
    now.at
}
