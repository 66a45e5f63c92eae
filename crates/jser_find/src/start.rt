//! Where the header of a stream begins in a text.
ghost use Rattle.std.specs.Prelude.{◌≡◌, ◌<◌, ◌≤◌, ◌-◌, ◌↔◌, get_or, IfSome, IsTrue, length};
ghost use Rattle.hex.specs.Hex.{hex_digit_value};
ghost use Rattle.jser_digits.specs.Digits.{either_value};
ghost use Rattle.memchr.specs.Find.{Nowhere};
ghost use Rattle.jser_find.specs.Starts.{HasHeaderTextAt, IsFirstStart, leads, reading_before, ReadsGroup, ReadsPair, SpellsHeader, StartsAt, StartsBy};
ghost use Rattle.jser_find.specs.Spelled.{IsIn};

use crate::bytes::begins_with;
use crate::finder::HEADER;
use crate::marks::{parts_digits, unmarked_until};
use crate::spelled::Reading;
use crate::spot::{Digit, Last, Spot};
use jser_digits::{Alphabet, base64_digit, hex_digit};

/// A text that spells a header.
#[derive(Clone, Copy, PartialEq, Eq, Debug)]
pub struct Start {
    /// Where its first digit stands.
    pub from: usize,
    /// From where its bytes are read.
    pub reading: Reading,
}

/// The first place from `from` on where a text spells a header.
#[tactic(auto, using(crate::proofs::StartLemmas::none_yet, crate::proofs::StartLemmas::none_here, crate::proofs::StartLemmas::found_here, crate::proofs::StartLemmas::none_at_all))]
pub fn first_start(text: &[u8], from: usize) -> Option<Start>
    requires { from ≤ length text.now }
    ensures first { IsFirstStart text.now from result }
    ensures inside { IfSome result (λ start. IsIn text.now start.reading × (start.from < length text.now)) }
{
    let mut at = from;
    'places: while at < text.len() {
        let here = next_place(text, at);
        match start_at(text, here) {
            Some(reading) => {
                return Some(Start {
                    from: here,
                    reading,
                });
            }
            None => at = here + 1,
        }
    }
    None
}

/// A place from here on at which a header may begin: none begins before it.
#[tactic(auto, using(crate::proofs::MarkLemmas::none_before, crate::proofs::MarkLemmas::none_none))]
#[inline(always)]
fn next_place(text: &[u8], at: usize) -> usize
    requires { at < length text.now }
    ensures low { at ≤ result }
    ensures inside { result < length text.now }
    ensures none { Nowhere (HasHeaderTextAt text.now) at result }
{
    if at + 1 < text.len() && parts_digits(text[at + 1]) {
        return at;
    }
    let end = unmarked_until(text, at + 1);
    if end - at > 2 { end - 2 } else { at }
}

/// How the header is read whose first digit stands here, if one does.
#[tactic(auto, using(crate::proofs::StartLemmas::no_start, crate::proofs::StartLemmas::pair_starts, crate::proofs::StartLemmas::group_starts))]
#[inline(always)]
fn start_at(text: &[u8], at: usize) -> Option<Reading>
    requires { at < length text.now }
    ensures starts { StartsAt text.now at result }
    ensures inside { IfSome result (IsIn text.now) }
{
    match pair_at(text, at) {
        Some(reading) => Some(reading),
        None => group_at(text, at),
    }
}

/// How the header is read, where it is hexadecimal.
#[tactic(auto, using(crate::proofs::StartLemmas::no_pair_digit, crate::proofs::StartLemmas::no_pair, crate::proofs::StartLemmas::pair_found))]
#[inline(always)]
fn pair_at(text: &[u8], at: usize) -> Option<Reading>
    requires { at < length text.now }
    ensures starts { StartsBy (ReadsPair at (hex_digit_value (get_or text.now at 0))) text.now result }
    ensures inside { IfSome result (IsIn text.now) }
{
    let Some(value) = hex_digit(text[at]) else {
        return None;
    };
    let pair = reading_before(at + 1, Digit::Low(value));
    if spells_header(text, pair) {
        return Some(pair);
    }
    None
}

/// How the header is read, where it is base64: it may begin at the first, the second or the third byte of a group.
#[tactic(auto, using(crate::proofs::StartLemmas::no_group_digit, crate::proofs::StartLemmas::no_group, crate::proofs::StartLemmas::first_found, crate::proofs::StartLemmas::second_found, crate::proofs::StartLemmas::third_found))]
#[inline(always)]
fn group_at(text: &[u8], at: usize) -> Option<Reading>
    requires { at < length text.now }
    ensures starts { StartsBy (ReadsGroup at (either_value (get_or text.now at 0))) text.now result }
    ensures inside { IfSome result (IsIn text.now) }
{
    let Some(value) = base64_digit(Alphabet::Either, text[at]) else {
        return None;
    };
    let first = reading_before(at + 1, Digit::Second(value));
    if spells_header(text, first) {
        return Some(first);
    }
    let second = reading_before(at + 1, Digit::Third(value % 16));
    if spells_header(text, second) {
        return Some(second);
    }
    let third = reading_before(at + 1, Digit::Fourth(value % 4));
    if spells_header(text, third) {
        return Some(third);
    }
    None
}

/// Before this digit.
#[inline(always)]
fn reading_before(at: usize, next: Digit) -> Reading
    ensures { result ≡ reading_before at next }
{
    Reading {
        at,
        spot: Spot {
            next,
            last: Last::Digit,
        },
    }
}

/// Whether a text spells a header from here on.
#[tactic(auto, using(crate::proofs::StartLemmas::not_led))]
#[inline(always)]
fn spells_header(text: &[u8], from: Reading) -> bool
    requires { IsIn text.now from }
    ensures { IsTrue result ↔ SpellsHeader text.now from }
{
    if !leads(from.spot.next) {
        return false;
    }
    begins_with(text, from, &HEADER)
}

/// Whether the bits that the digits before this one leave can begin a header, whose first byte is `AC`.
#[inline(always)]
fn leads(next: Digit) -> bool
    ensures { result ≡ leads next }
{
    match next {
        Digit::High | Digit::First => true,
        Digit::Low(bits) | Digit::Third(bits) => bits == 0xA,
        Digit::Second(bits) => bits == 0x2B,
        Digit::Fourth(bits) => bits == 2,
    }
}
