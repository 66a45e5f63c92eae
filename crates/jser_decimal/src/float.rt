//! What the bits of a float mean.
ghost use Rattle.std.specs.Prelude.{◌≡◌, ◌<◌, ◌≤◌, ◌+◌, ◌/◌, ◌%◌, ◌^◌};
ghost use Rattle.jser_decimal.specs.Floats.{double_of, magnitude_of, single_of, size_with};

use crate::shortest::{Decimal, Size, shortest};

/// A float of Java: `float` or `double`.
#[derive(Clone, Copy)]
pub struct Float {
    /// Whether it has the sign: a zero may have it too.
    pub is_negative: bool,
    /// What it is without the sign.
    pub magnitude: Magnitude,
}

/// A float without its sign.
#[derive(Clone, Copy)]
pub enum Magnitude {
    Zero,
    Finite(Decimal),
    Infinite,
    NotANumber,
}

/// What the bits of a `double` mean (IEEE 754, section 3.4).
pub fn double_of(bits: u64) -> Float
    ensures { result ≡ double_of bits }
{
    Float {
        is_negative: bits >= 1 << 63,
        magnitude: magnitude_of(1 << 52, 1074, 2047 << 52, bits % (1 << 63)),
    }
}

/// What the bits of a `float` mean (IEEE 754, section 3.4).
pub fn single_of(bits: u32) -> Float
    ensures { result ≡ single_of bits }
{
    Float {
        is_negative: bits >= 1 << 31,
        magnitude: magnitude_of(1 << 23, 149, 255 << 23, u64::from(bits % (1 << 31))),
    }
}

/// What bits without a sign mean, where a fraction is less than `one`, and the bits of infinity are `infinite`.
fn magnitude_of(one: u64, least: u32, infinite: u64, bits: u64) -> Magnitude
    requires one { 0 < one }
    requires few { one ≤ 2 ^ 52 }
    requires least { least ≤ 1074 }
    requires exponents { infinite / one ≤ least + 1001 }
    ensures { result ≡ magnitude_of one least infinite bits }
{
    if bits == 0 {
        Magnitude::Zero
    } else if bits < infinite {
        Magnitude::Finite(shortest(least, &size_of(one, bits)))
    } else if infinite < bits {
        Magnitude::NotANumber
    } else {
        Magnitude::Infinite
    }
}

/// The size that an exponent and a fraction spell.
fn size_of(one: u64, bits: u64) -> Size
    requires one { 0 < one }
    requires few { one ≤ 2 ^ 52 }
    requires exponent { bits / one ≤ 2075 }
    ensures size { result ≡ size_with one (bits / one) (bits % one) }
    ensures significand { result.significand < 2 ^ 53 }
    ensures power { result.power ≤ bits / one }
{
    let exponent = bits / one;
    let fraction = bits % one;
    if exponent == 0 {
        Size {
            significand: fraction,
            power: 0,
            at_edge: false,
        }
    } else {
        Size {
            significand: one + fraction,
            power: (exponent - 1) as u32,
            at_edge: fraction == 0 && exponent > 1,
        }
    }
}
