//! The edges of the kinds of floats, with the decimals that the documentation of Java's classes tells.

use crate::floats::{decimal_of_double, decimal_of_single};

// README: jser_decimal
use jser_decimal::{Magnitude, double_of};

/// The digits of the double with these bits, and the power of ten that the last of them counts.
fn digits_of(bits: u64) -> Option<(u64, i64)> {
    match double_of(bits).magnitude {
        Magnitude::Finite(decimal) => Some((decimal.units, i64::from(decimal.place) - 344)),
        Magnitude::Zero | Magnitude::Infinite | Magnitude::NotANumber => None,
    }
}
// end

#[test]
fn digits_of_a_tenth(rt: HostRuntime) {
    match digits_of(0x3FB9_9999_9999_999A) {
        Some((digits, power)) => {
            assert_eq!(rt; digits, 10_000_000_000_000_000);
            assert_eq!(rt; power, -17);
        }
        None => assert!(rt; false, "it has digits"),
    }
    assert!(rt; digits_of(0).is_none(), "zero has none");
}

#[test]
fn edges_of_doubles(rt: HostRuntime) {
    // 4.9E-324, 2.2250738585072014E-308, 2.0E23 and 1.7976931348623157E308: a unit is 10^(place - 344)
    for (bits, units, place) in [
        (1, 49_000_000_000_000_000, 4),
        (0x0010_0000_0000_0000, 22_250_738_585_072_014, 20),
        (0x44C5_2D02_C7E1_4AF6, 20_000_000_000_000_000, 351),
        (0x7FEF_FFFF_FFFF_FFFF, 17_976_931_348_623_157, 636),
    ] {
        match decimal_of_double(bits) {
            Some(decimal) => {
                assert_eq!(rt; decimal.units, units, "at {bits}");
                assert_eq!(rt; decimal.place, place, "at {bits}");
            }
            None => assert!(rt; false, "none at {bits}"),
        }
    }
    assert!(rt;
        decimal_of_double(0x7FF0_0000_0000_0000).is_none(),
        "infinity has none"
    );
}

#[test]
fn edges_of_singles(rt: HostRuntime) {
    // 1.4E-45, 0.1 and 3.4028235E38
    for (bits, units, place) in [
        (1, 14_000_000_000_000_000, 283),
        (0x3DCC_CCCD, 10_000_000_000_000_000, 327),
        (0x7F7F_FFFF, 34_028_235_000_000_000, 366),
    ] {
        match decimal_of_single(bits) {
            Some(decimal) => {
                assert_eq!(rt; decimal.units, units, "at {bits}");
                assert_eq!(rt; decimal.place, place, "at {bits}");
            }
            None => assert!(rt; false, "none at {bits}"),
        }
    }
}
