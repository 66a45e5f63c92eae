//! A whole group of base64, four digits which are three bytes, and a whole pair of hexadecimal digits. Texts hold little else.
ghost use Rattle.std.specs.Prelude.{◌≡◌, IfSome, Some, true};
ghost use Rattle.jser_find.specs.declared.spot.Digit.TheVariants as TheDigit;
ghost use Rattle.jser_find.specs.Spelled.{GivesGroup, GivesNext, IsIn};
ghost use Rattle.jser_find.specs.Spots.{before};

use crate::spelled::{Given, Reading};
use crate::spot::{Digit, Last, Spot};
use jser_digits::{Alphabet, NO_GROUP, NO_PAIR, group_bits, pair_bits};

/// Three bytes, and how far a text is read then.
#[derive(Clone, Copy, Debug)]
pub(crate) struct Group {
    pub(crate) first: u8,
    pub(crate) second: u8,
    pub(crate) third: u8,
    pub(crate) then: Reading,
}

/// The next three bytes of a text, where the next four characters are a group.
#[tactic(auto, using(crate::proofs::GroupLemmas::gives_group))]
#[inline(always)]
pub(crate) fn next_group(text: &[u8], from: Reading) -> Option<Group>
    requires { IsIn text.now from }
    ensures { IfSome result (GivesGroup text.now from) }
{
    let at = from.at;
    if !begins_group(from.spot) || text.len() - at < 4 {
        return None;
    }
    let bits = group_bits(
        Alphabet::Either,
        text[at],
        text[at + 1],
        text[at + 2],
        text[at + 3],
    );
    if bits >= NO_GROUP {
        return None;
    }
    Some(Group {
        first: (bits / 65536) as u8,
        second: (bits / 256 % 256) as u8,
        third: (bits % 256) as u8,
        then: Reading {
            at: at + 4,
            spot: from.spot,
        },
    })
}

/// The next byte of a text, where the next two characters are a pair of hexadecimal digits.
#[tactic(auto, using(crate::proofs::GroupLemmas::gives_pair))]
#[inline(always)]
pub(crate) fn next_pair(text: &[u8], from: Reading) -> Option<Given>
    requires { IsIn text.now from }
    ensures { IfSome result (λ given. GivesNext text.now from (Some given)) }
{
    let at = from.at;
    if !begins_pair(from.spot) || text.len() - at < 2 {
        return None;
    }
    let bits = pair_bits(text[at], text[at + 1]);
    if bits >= NO_PAIR {
        return None;
    }
    Some(Given {
        byte: bits as u8,
        then: Reading {
            at: at + 2,
            spot: from.spot,
        },
    })
}

/// Whether the first digit of a group comes next, behind another digit.
#[inline(always)]
fn begins_group(spot: Spot) -> bool
    ensures { result ≡ true → spot ≡ before TheDigit.First }
{
    match spot.last {
        Last::Digit => match spot.next {
            Digit::First => true,
            _ => false,
        },
        _ => false,
    }
}

/// Whether the first digit of a pair comes next, behind another digit.
#[inline(always)]
fn begins_pair(spot: Spot) -> bool
    ensures { result ≡ true → spot ≡ before TheDigit.High }
{
    match spot.last {
        Last::Digit => match spot.next {
            Digit::High => true,
            _ => false,
        },
        _ => false,
    }
}
