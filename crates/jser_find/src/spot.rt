//! Where a text is between its digits, and what a character does there.
ghost use Rattle.std.specs.Prelude.{◌≡◌, ◌<◌, IfSome};
ghost use Rattle.jser_find.specs.Spots.{Fits, FitsStep, before, behind, digit_step, digit_value, escaped_step, line_step, open_step, radix, step_of, value_step};

use jser_digits::{Alphabet, base64_digit, hex_digit};

/// Which digit of a pair or of a group of four comes next, and the bits that the digits before it leave.
#[derive(Clone, Copy, PartialEq, Eq, Debug)]
pub enum Digit {
    /// The first of a hexadecimal pair.
    High,
    /// The second, behind these four bits.
    Low(u8),
    /// The first of a group of base64.
    First,
    /// The second, behind these six bits.
    Second(u8),
    /// The third, behind these four bits.
    Third(u8),
    /// The fourth, behind these two bits.
    Fourth(u8),
}

/// What was read last.
#[derive(Clone, Copy, PartialEq, Eq, Debug)]
pub enum Last {
    /// A digit.
    Digit,
    /// A line end, or a blank or a tab behind one.
    LineEnd,
    /// A `\`.
    Backslash,
}

/// Where a text is.
#[derive(Clone, Copy, PartialEq, Eq, Debug)]
pub struct Spot {
    /// The next digit.
    pub next: Digit,
    /// What stands before.
    pub last: Last,
}

/// What a character does.
#[derive(Clone, Copy, PartialEq, Eq, Debug)]
pub enum Step {
    /// It completes no byte.
    Goes(Spot),
    /// It completes this byte.
    Gives(u8, Spot),
    /// The digits end before it.
    Ends,
}

/// What a character does: a digit, a line end, a blank or a tab that begins a line, or one of the pairs `\n`, `\r`, `\/` of JSON
/// strings and of logs.
pub(crate) fn step_of(spot: Spot, byte: u8) -> Step
    requires { Fits spot.next }
    ensures is { result ≡ step_of spot byte }
    ensures fits { FitsStep result }
{
    match spot.last {
        Last::Digit => open_step(spot.next, byte),
        Last::LineEnd => line_step(spot.next, byte),
        Last::Backslash => escaped_step(spot.next, byte),
    }
}

/// What a character does behind a digit.
#[inline(always)]
fn open_step(next: Digit, byte: u8) -> Step
    requires { Fits next }
    ensures is { result ≡ open_step next byte }
    ensures fits { FitsStep result }
{
    if byte == b'\n' || byte == b'\r' {
        Step::Goes(behind(Last::LineEnd, next))
    } else if byte == b'\\' {
        Step::Goes(behind(Last::Backslash, next))
    } else {
        digit_step(next, byte)
    }
}

/// What a character does at the beginning of a line.
fn line_step(next: Digit, byte: u8) -> Step
    requires { Fits next }
    ensures is { result ≡ line_step next byte }
    ensures fits { FitsStep result }
{
    if byte == b' ' || byte == b'\t' {
        Step::Goes(behind(Last::LineEnd, next))
    } else {
        open_step(next, byte)
    }
}

/// What a character behind a `\` does.
fn escaped_step(next: Digit, byte: u8) -> Step
    requires { Fits next }
    ensures is { result ≡ escaped_step next byte }
    ensures fits { FitsStep result }
{
    if byte == b'n' || byte == b'r' {
        Step::Goes(behind(Last::LineEnd, next))
    } else if byte == b'/' {
        digit_step(next, byte)
    } else {
        Step::Ends
    }
}

/// What a digit does, or another character.
fn digit_step(next: Digit, byte: u8) -> Step
    requires { Fits next }
    ensures is { result ≡ digit_step next byte }
    ensures fits { FitsStep result }
{
    match digit_value(next, byte) {
        Some(value) => value_step(next, value),
        None => Step::Ends,
    }
}

/// The value of a character in the alphabet of the next digit.
fn digit_value(next: Digit, byte: u8) -> Option<u8>
    ensures is { result ≡ digit_value next byte }
    ensures small { IfSome result (λ value. value < radix next) }
{
    match next {
        Digit::High | Digit::Low(_) => hex_digit(byte),
        Digit::First | Digit::Second(_) | Digit::Third(_) | Digit::Fourth(_) => base64_digit(
            Alphabet::Either,
            byte,
        ),
    }
}

/// What a digit of this value does: its bits go behind those that are left, and eight of them are a byte.
fn value_step(next: Digit, value: u8) -> Step
    requires bits { Fits next }
    requires small { value < radix next }
    ensures is { result ≡ value_step next value }
    ensures fits { FitsStep result }
{
    match next {
        Digit::High => Step::Goes(before(Digit::Low(value))),
        Digit::Low(bits) => Step::Gives(bits * 16 + value, before(Digit::High)),
        Digit::First => Step::Goes(before(Digit::Second(value))),
        Digit::Second(bits) => {
            Step::Gives(bits * 4 + value / 16, before(Digit::Third(value % 16)))
        }
        Digit::Third(bits) => Step::Gives(bits * 16 + value / 4, before(Digit::Fourth(value % 4))),
        Digit::Fourth(bits) => Step::Gives(bits * 64 + value, before(Digit::First)),
    }
}

/// Before this digit, behind another.
fn before(next: Digit) -> Spot
    ensures { result ≡ before next }
{
    behind(Last::Digit, next)
}

/// Before this digit, behind something.
fn behind(last: Last, next: Digit) -> Spot
    ensures { result ≡ behind last next }
{
    Spot { next, last }
}
