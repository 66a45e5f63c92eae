//! The digits of hexadecimal and of base64, and their values.
ghost use Rattle.std.specs.Prelude.{◌≡◌, ◌<◌, IfSome, unwrap_or};
ghost use Rattle.hex.specs.Hex.{hex_digit_value};
ghost use Rattle.jser_digits.specs.Digits.{either_value, standard_value, url_safe_value, value_in};

/// The alphabets of base64. Each of the first two lacks the last two digits of the other.
#[derive(Clone, Copy, PartialEq, Eq, Debug)]
pub enum Alphabet {
    /// That with `+` and `/`.
    Standard,
    /// That with `-` and `_`.
    UrlSafe,
    /// That with all four.
    Either,
}

/// In place of the value of what is no digit: above all that four digits can be together.
const N: u32 = 16_777_216;

/// The values of the digits of hexadecimal.
#[rattlefmt::skip]
static HEX: [u32; 256] = [
    N, N, N, N, N, N, N, N, N, N, N, N, N, N, N, N,
    N, N, N, N, N, N, N, N, N, N, N, N, N, N, N, N,
    N, N, N, N, N, N, N, N, N, N, N, N, N, N, N, N,
    0, 1, 2, 3, 4, 5, 6, 7, 8, 9, N, N, N, N, N, N,
    N, 10, 11, 12, 13, 14, 15, N, N, N, N, N, N, N, N, N,
    N, N, N, N, N, N, N, N, N, N, N, N, N, N, N, N,
    N, 10, 11, 12, 13, 14, 15, N, N, N, N, N, N, N, N, N,
    N, N, N, N, N, N, N, N, N, N, N, N, N, N, N, N,
    N, N, N, N, N, N, N, N, N, N, N, N, N, N, N, N,
    N, N, N, N, N, N, N, N, N, N, N, N, N, N, N, N,
    N, N, N, N, N, N, N, N, N, N, N, N, N, N, N, N,
    N, N, N, N, N, N, N, N, N, N, N, N, N, N, N, N,
    N, N, N, N, N, N, N, N, N, N, N, N, N, N, N, N,
    N, N, N, N, N, N, N, N, N, N, N, N, N, N, N, N,
    N, N, N, N, N, N, N, N, N, N, N, N, N, N, N, N,
    N, N, N, N, N, N, N, N, N, N, N, N, N, N, N, N,
];

/// The values of the digits of the standard alphabet.
#[rattlefmt::skip]
static STANDARD: [u32; 256] = [
    N, N, N, N, N, N, N, N, N, N, N, N, N, N, N, N,
    N, N, N, N, N, N, N, N, N, N, N, N, N, N, N, N,
    N, N, N, N, N, N, N, N, N, N, N, 62, N, N, N, 63,
    52, 53, 54, 55, 56, 57, 58, 59, 60, 61, N, N, N, N, N, N,
    N, 0, 1, 2, 3, 4, 5, 6, 7, 8, 9, 10, 11, 12, 13, 14,
    15, 16, 17, 18, 19, 20, 21, 22, 23, 24, 25, N, N, N, N, N,
    N, 26, 27, 28, 29, 30, 31, 32, 33, 34, 35, 36, 37, 38, 39, 40,
    41, 42, 43, 44, 45, 46, 47, 48, 49, 50, 51, N, N, N, N, N,
    N, N, N, N, N, N, N, N, N, N, N, N, N, N, N, N,
    N, N, N, N, N, N, N, N, N, N, N, N, N, N, N, N,
    N, N, N, N, N, N, N, N, N, N, N, N, N, N, N, N,
    N, N, N, N, N, N, N, N, N, N, N, N, N, N, N, N,
    N, N, N, N, N, N, N, N, N, N, N, N, N, N, N, N,
    N, N, N, N, N, N, N, N, N, N, N, N, N, N, N, N,
    N, N, N, N, N, N, N, N, N, N, N, N, N, N, N, N,
    N, N, N, N, N, N, N, N, N, N, N, N, N, N, N, N,
];

/// The values of the digits of the URL-safe alphabet.
#[rattlefmt::skip]
static URL_SAFE: [u32; 256] = [
    N, N, N, N, N, N, N, N, N, N, N, N, N, N, N, N,
    N, N, N, N, N, N, N, N, N, N, N, N, N, N, N, N,
    N, N, N, N, N, N, N, N, N, N, N, N, N, 62, N, N,
    52, 53, 54, 55, 56, 57, 58, 59, 60, 61, N, N, N, N, N, N,
    N, 0, 1, 2, 3, 4, 5, 6, 7, 8, 9, 10, 11, 12, 13, 14,
    15, 16, 17, 18, 19, 20, 21, 22, 23, 24, 25, N, N, N, N, 63,
    N, 26, 27, 28, 29, 30, 31, 32, 33, 34, 35, 36, 37, 38, 39, 40,
    41, 42, 43, 44, 45, 46, 47, 48, 49, 50, 51, N, N, N, N, N,
    N, N, N, N, N, N, N, N, N, N, N, N, N, N, N, N,
    N, N, N, N, N, N, N, N, N, N, N, N, N, N, N, N,
    N, N, N, N, N, N, N, N, N, N, N, N, N, N, N, N,
    N, N, N, N, N, N, N, N, N, N, N, N, N, N, N, N,
    N, N, N, N, N, N, N, N, N, N, N, N, N, N, N, N,
    N, N, N, N, N, N, N, N, N, N, N, N, N, N, N, N,
    N, N, N, N, N, N, N, N, N, N, N, N, N, N, N, N,
    N, N, N, N, N, N, N, N, N, N, N, N, N, N, N, N,
];

/// The values of the digits of both.
#[rattlefmt::skip]
static EITHER: [u32; 256] = [
    N, N, N, N, N, N, N, N, N, N, N, N, N, N, N, N,
    N, N, N, N, N, N, N, N, N, N, N, N, N, N, N, N,
    N, N, N, N, N, N, N, N, N, N, N, 62, N, 62, N, 63,
    52, 53, 54, 55, 56, 57, 58, 59, 60, 61, N, N, N, N, N, N,
    N, 0, 1, 2, 3, 4, 5, 6, 7, 8, 9, 10, 11, 12, 13, 14,
    15, 16, 17, 18, 19, 20, 21, 22, 23, 24, 25, N, N, N, N, 63,
    N, 26, 27, 28, 29, 30, 31, 32, 33, 34, 35, 36, 37, 38, 39, 40,
    41, 42, 43, 44, 45, 46, 47, 48, 49, 50, 51, N, N, N, N, N,
    N, N, N, N, N, N, N, N, N, N, N, N, N, N, N, N,
    N, N, N, N, N, N, N, N, N, N, N, N, N, N, N, N,
    N, N, N, N, N, N, N, N, N, N, N, N, N, N, N, N,
    N, N, N, N, N, N, N, N, N, N, N, N, N, N, N, N,
    N, N, N, N, N, N, N, N, N, N, N, N, N, N, N, N,
    N, N, N, N, N, N, N, N, N, N, N, N, N, N, N, N,
    N, N, N, N, N, N, N, N, N, N, N, N, N, N, N, N,
    N, N, N, N, N, N, N, N, N, N, N, N, N, N, N, N,
];

/// The value of a hexadecimal digit, below 16.
pub fn hex_digit(byte: u8) -> Option<u8>
    ensures value { result ≡ hex_digit_value byte }
    ensures small { IfSome result (λ value. value < 16) }
{
    let value = hex_value(byte);
    if value < 16 { Some(value as u8) } else { None }
}

/// The value of a digit of this alphabet, below 64.
pub fn base64_digit(alphabet: Alphabet, byte: u8) -> Option<u8>
    ensures value { result ≡ value_in alphabet byte }
    ensures small { IfSome result (λ value. value < 64) }
{
    let value = value_in(alphabet, byte);
    if value < 64 { Some(value as u8) } else { None }
}

/// The value of a hexadecimal digit, or 2^24.
#[inline(always)]
pub(crate) fn hex_value(byte: u8) -> u32
    ensures { result ≡ unwrap_or (hex_digit_value byte) 16777216 }
{
    HEX[usize::from(byte)]
}

/// The value of a digit of this alphabet, or 2^24.
#[inline(always)]
pub(crate) fn value_in(alphabet: Alphabet, byte: u8) -> u32
    ensures { result ≡ unwrap_or (value_in alphabet byte) 16777216 }
{
    match alphabet {
        Alphabet::Standard => standard_value(byte),
        Alphabet::UrlSafe => url_safe_value(byte),
        Alphabet::Either => either_value(byte),
    }
}

#[inline(always)]
fn standard_value(byte: u8) -> u32
    ensures { result ≡ unwrap_or (standard_value byte) 16777216 }
{
    STANDARD[usize::from(byte)]
}

#[inline(always)]
fn url_safe_value(byte: u8) -> u32
    ensures { result ≡ unwrap_or (url_safe_value byte) 16777216 }
{
    URL_SAFE[usize::from(byte)]
}

#[inline(always)]
fn either_value(byte: u8) -> u32
    ensures { result ≡ unwrap_or (either_value byte) 16777216 }
{
    EITHER[usize::from(byte)]
}
