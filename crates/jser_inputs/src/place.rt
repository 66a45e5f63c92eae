//! Where a text is, character by character: in a pair of hexadecimal digits, or in a group of four of base64.
ghost use Rattle.std.specs.Prelude.{◌≡◌, ◌<◌};
ghost use Rattle.jser_inputs.specs.Places.{Fits, FitsStep, first_place, is_whole, is_wrong, step_by_place, after_high, after_low, after_first, after_second, after_third, after_fourth, after_padding, pads};

use crate::form::Form;
use jser_digits::{Alphabet, base64_digit, hex_digit};

/// Where a text is.
#[derive(Clone, Copy, PartialEq, Eq, Debug)]
pub enum Place {
    /// In bytes as they are.
    Bytes,
    /// Before the first digit of a pair.
    High,
    /// Before the second digit of a pair.
    Low {
        /// The value of the first, below 16.
        high: u8,
    },
    /// Before the first digit of a group of base64.
    First {
        /// The alphabet.
        alphabet: Alphabet,
    },
    /// Before the second.
    Second {
        /// The alphabet.
        alphabet: Alphabet,
        /// The bits that have not gone out, below 64.
        bits: u8,
    },
    /// Before the third.
    Third {
        /// The alphabet.
        alphabet: Alphabet,
        /// The bits that have not gone out, below 16.
        bits: u8,
    },
    /// Before the fourth.
    Fourth {
        /// The alphabet.
        alphabet: Alphabet,
        /// The bits that have not gone out, below 4.
        bits: u8,
    },
    /// Before the second of two `=`.
    Padding,
    /// Behind the padding.
    Padded,
    /// Behind the character at which the text is no longer of its form.
    Wrong,
}

/// What a character does.
#[derive(Clone, Copy, PartialEq, Eq, Debug)]
pub enum Step {
    /// It completes no byte, and this place is behind it.
    Goes(Place),
    /// It completes this byte, and this place is behind it.
    Gives(u8, Place),
    /// It may not come there.
    Wrong,
}

/// Where a text of a form begins.
pub(crate) fn first_place(form: Form) -> Place
    ensures place { result ≡ first_place form }
    ensures fits { Fits result }
{
    match form {
        Form::Binary => Place::Bytes,
        Form::Hex => Place::High,
        Form::Base64 => Place::First {
            alphabet: Alphabet::Standard,
        },
        Form::Base64Url => Place::First {
            alphabet: Alphabet::UrlSafe,
        },
    }
}

/// Whether a text may end here.
pub(crate) fn is_whole(place: Place) -> bool
    ensures { result ≡ is_whole place }
{
    match place {
        Place::Bytes | Place::High | Place::First { .. } | Place::Padded => true,
        Place::Third { bits, .. } | Place::Fourth { bits, .. } => bits == 0,
        Place::Low { .. } | Place::Second { .. } | Place::Padding | Place::Wrong => false,
    }
}

/// Whether the text is no longer of its form.
pub(crate) fn is_wrong(place: Place) -> bool
    ensures { result ≡ is_wrong place }
{
    match place {
        Place::Wrong => true,
        _ => false,
    }
}

/// What a character does that is no white space.
pub(crate) fn step_by_place(place: Place, byte: u8) -> Step
    requires { Fits place }
    ensures is { result ≡ step_by_place place byte }
    ensures fits { FitsStep result }
{
    match place {
        Place::Bytes => Step::Gives(byte, Place::Bytes),
        Place::High => after_high(byte),
        Place::Low { high } => after_low(high, byte),
        Place::First { alphabet } => after_first(alphabet, byte),
        Place::Second { alphabet, bits } => after_second(alphabet, bits, byte),
        Place::Third { alphabet, bits } => after_third(alphabet, bits, byte),
        Place::Fourth { alphabet, bits } => after_fourth(alphabet, bits, byte),
        Place::Padding => after_padding(byte),
        Place::Padded | Place::Wrong => Step::Wrong,
    }
}

/// The first digit of a pair.
fn after_high(byte: u8) -> Step
    ensures is { result ≡ after_high byte }
    ensures fits { FitsStep result }
{
    match hex_digit(byte) {
        Some(high) => Step::Goes(Place::Low { high }),
        None => Step::Wrong,
    }
}

/// The second digit of a pair, which completes a byte.
fn after_low(high: u8, byte: u8) -> Step
    requires { high < 16 }
    ensures is { result ≡ after_low high byte }
    ensures fits { FitsStep result }
{
    match hex_digit(byte) {
        Some(low) => Step::Gives(high * 16 + low, Place::High),
        None => Step::Wrong,
    }
}

/// The first digit of a group.
fn after_first(alphabet: Alphabet, byte: u8) -> Step
    ensures is { result ≡ after_first alphabet byte }
    ensures fits { FitsStep result }
{
    match base64_digit(alphabet, byte) {
        Some(value) => Step::Goes(Place::Second {
            alphabet,
            bits: value,
        }),
        None => Step::Wrong,
    }
}

/// The second digit of a group, which completes its first byte.
fn after_second(alphabet: Alphabet, bits: u8, byte: u8) -> Step
    requires { bits < 64 }
    ensures is { result ≡ after_second alphabet bits byte }
    ensures fits { FitsStep result }
{
    match base64_digit(alphabet, byte) {
        Some(value) => Step::Gives(
            bits * 4 + value / 16,
            Place::Third {
                alphabet,
                bits: value % 16,
            },
        ),
        None => Step::Wrong,
    }
}

/// The third digit of a group, which completes its second byte, or the first `=` of two.
fn after_third(alphabet: Alphabet, bits: u8, byte: u8) -> Step
    requires { bits < 16 }
    ensures is { result ≡ after_third alphabet bits byte }
    ensures fits { FitsStep result }
{
    if byte == b'=' {
        return pads(bits, Place::Padding);
    }
    match base64_digit(alphabet, byte) {
        Some(value) => Step::Gives(
            bits * 16 + value / 4,
            Place::Fourth {
                alphabet,
                bits: value % 4,
            },
        ),
        None => Step::Wrong,
    }
}

/// The fourth digit of a group, which completes its third byte, or the only `=`.
fn after_fourth(alphabet: Alphabet, bits: u8, byte: u8) -> Step
    requires { bits < 4 }
    ensures is { result ≡ after_fourth alphabet bits byte }
    ensures fits { FitsStep result }
{
    if byte == b'=' {
        return pads(bits, Place::Padded);
    }
    match base64_digit(alphabet, byte) {
        Some(value) => Step::Gives(bits * 64 + value, Place::First { alphabet }),
        None => Step::Wrong,
    }
}

/// The second `=` of two.
fn after_padding(byte: u8) -> Step
    ensures is { result ≡ after_padding byte }
    ensures fits { FitsStep result }
{
    if byte == b'=' {
        Step::Goes(Place::Padded)
    } else {
        Step::Wrong
    }
}

/// A `=`, before which no bits may be left.
fn pads(bits: u8, place: Place) -> Step
    requires { Fits place }
    ensures is { result ≡ pads bits place }
    ensures fits { FitsStep result }
{
    if bits == 0 {
        Step::Goes(place)
    } else {
        Step::Wrong
    }
}
