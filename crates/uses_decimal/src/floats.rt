//! The decimals of floats that are finite and not zero.
ghost use Rattle.std.specs.Prelude.{◌<◌, ◌*◌, ◌%◌, ◌^◌, IfSome, IsSome};
ghost use Rattle.uses_decimal.specs.Laws.{double_range, single_range};
ghost use Rattle.uses_decimal.specs.Meaning.{IsShortest};

use crate::laws::{doubles_are_shortest, singles_are_shortest};
use jser_decimal::{Decimal, Magnitude, double_of, single_of};

/// The shortest decimal of a double with these bits: there is one if it is finite and not zero.
pub fn decimal_of_double(bits: u64) -> Option<Decimal>
    ensures shortest { IfSome result (λ taken. IsShortest (double_range (bits % 2 ^ 63)) taken) }
    ensures some { 0 < bits % 2 ^ 63 → bits % 2 ^ 63 < 2047 * 2 ^ 52 → IsSome result }
{
    doubles_are_shortest();
    match double_of(bits).magnitude {
        Magnitude::Finite(decimal) => Some(decimal),
        Magnitude::Zero | Magnitude::Infinite | Magnitude::NotANumber => None,
    }
}

/// The shortest decimal of a float with these bits: there is one if it is finite and not zero.
pub fn decimal_of_single(bits: u32) -> Option<Decimal>
    ensures shortest { IfSome result (λ taken. IsShortest (single_range (bits % 2 ^ 31)) taken) }
    ensures some { 0 < bits % 2 ^ 31 → bits % 2 ^ 31 < 255 * 2 ^ 23 → IsSome result }
{
    singles_are_shortest();
    match single_of(bits).magnitude {
        Magnitude::Finite(decimal) => Some(decimal),
        Magnitude::Zero | Magnitude::Infinite | Magnitude::NotANumber => None,
    }
}
