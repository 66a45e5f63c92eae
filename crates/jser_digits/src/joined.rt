//! The bits of a pair of hexadecimal digits, and of a group of four of base64.
ghost use Rattle.std.specs.Prelude.{◌<◌};
ghost use Rattle.jser_digits.specs.Joined.{AreGroup, ArePair};

use crate::digit::{Alphabet, hex_value, value_in};

/// What `pair_bits` is not below where one of the two is no digit.
pub const NO_PAIR: u32 = 256;

/// What `group_bits` is not below where one of the four is no digit.
pub const NO_GROUP: u64 = 16_777_216;

/// The byte that a pair of digits is. From `NO_PAIR` on one of them is none.
#[tactic(auto, using(crate::proofs::JoinedLemmas::pair_bits))]
#[inline(always)]
pub fn pair_bits(high: u8, low: u8) -> u32
    ensures { result < 256 → ArePair high low result }
{
    hex_value(high) * 16 | hex_value(low)
}

/// The three bytes that a group of four digits is, as one number. From `NO_GROUP` on one of them is no digit.
#[tactic(auto, using(crate::proofs::JoinedLemmas::group_bits))]
#[inline(always)]
pub fn group_bits(alphabet: Alphabet, one: u8, two: u8, three: u8, four: u8) -> u64
    ensures { result < 16777216 → AreGroup alphabet one two three four result }
{
    let one = u64::from(value_in(alphabet, one)) * 262_144;
    let two = u64::from(value_in(alphabet, two)) * 4096;
    let three = u64::from(value_in(alphabet, three)) * 64;
    let four = u64::from(value_in(alphabet, four));
    one | two | three | four
}
