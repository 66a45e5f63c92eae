//! The line before the bytes of a record: it ends in their number, and what is before that is the KEY.

ghost use Rattle.std.specs.Prelude.{◌≡◌, ◌≤◌, ◌<◌, ◌++◌, ◌∷◌, ℕ, List, [], All, None, IfSome, if◌then◌else◌, length, take, drop};
ghost use Rattle.jser_records.specs.Headers.{EndsIn, EndsKey, IsDigit, IsHeader, NullKey, SaysHeader, is_error, is_reply, number_from};

use crate::line_end::has_line_end;

/// What a line says of the record behind it.
#[derive(Clone, Copy, PartialEq, Eq, Debug)]
pub(crate) enum Header {
    /// It is no header: an empty line, `END`, or one of `*`, `+`, `-` or `:` without a length.
    Other,
    /// A reader of lines may end one in it.
    LineEnd,
    /// It is a server's error, behind which nothing is of it.
    Error,
    /// So many bytes follow.
    Bytes {
        /// The end of the KEY.
        key: usize,
        /// How many.
        count: u64,
    },
    /// The record has no value.
    Null {
        /// The end of the KEY.
        key: usize,
    },
    /// It should say a length, and says none.
    NoLength,
}

/// The greatest number of digits of a length.
const DIGITS: usize = 18;

/// What a line says, without its end.
#[tactic(auto, using(crate::proofs::HeaderLemmas::is_header))]
pub(crate) fn header_of(line: &[u8]) -> Header
    ensures { IsHeader line.now result }
{
    if has_line_end(line) {
        Header::LineEnd
    } else if is_error(line) {
        Header::Error
    } else {
        length_of(line)
    }
}

/// Whether a line is a server's error: `-` and its name in capital letters.
fn is_error(line: &[u8]) -> bool
    ensures { result ≡ is_error line.now }
{
    match line {
        [b'-', b'A'..=b'Z', ..] => true,
        _ => false,
    }
}

/// What a line says of a length.
#[tactic(auto, using(crate::proofs::HeaderLemmas::says_null, crate::proofs::HeaderLemmas::says_none))]
fn length_of(line: &[u8]) -> Header
    ensures { SaysHeader line.now result }
{
    let (front, digits) = line.split_at(number_start(line));
    if digits.is_empty() || digits.len() > DIGITS {
        return without_length(line);
    }
    if let Some(key) = key_end(front) {
        return Header::Bytes {
            key,
            count: value_of(digits),
        };
    }
    match null_key_end(front, digits) {
        Some(key) => Header::Null { key },
        None => without_length(line),
    }
}

/// Where the digits at the end of a line begin.
fn number_start(line: &[u8]) -> usize
    ensures within { result ≤ length line.now }
    ensures ends { EndsIn line.now (take result line.now) (drop result line.now) }
{
    let mut at = line.len();
    'digits: while at > 0 && line[at - 1].is_ascii_digit() {
        at -= 1;
    }
    at
}

/// The end of the KEY, if a length may stand behind this.
fn key_end(front: &[u8]) -> Option<usize>
    ensures key { IfSome result (λ key. EndsKey front.now (take key front.now)) }
    ensures within { IfSome result (λ key. key ≤ length front.now) }
    ensures none { result ≡ None → (key : List ℕ) → EndsKey front.now key → ⊥ }
{
    match front {
        [] => Some(0),
        [key @ .., b' ' | b'\t' | b'$'] => Some(key.len()),
        _ => None,
    }
}

/// The end of the KEY, if the length is -1.
#[tactic(auto, using(crate::proofs::HeaderLemmas::null_key, crate::proofs::HeaderLemmas::no_null_key))]
fn null_key_end(front: &[u8], digits: &[u8]) -> Option<usize>
    ensures key { IfSome result (λ key. NullKey front.now digits.now key) }
    ensures none { result ≡ None → (before key : List ℕ) → front.now ≡ before ++ (0x2D ∷ []) → digits.now ≡ 0x31 ∷ [] → EndsKey before key → ⊥ }
{
    if digits != b"1".as_slice() {
        return None;
    }
    match before_minus(front) {
        Some(before) => key_end(before),
        None => None,
    }
}

/// What is before the minus sign at the end.
fn before_minus(front: &[u8]) -> Option<&[u8]>
    ensures minus { IfSome result (λ before. front.now ≡ before.now ++ (0x2D ∷ [])) }
    ensures none { result ≡ None → (before : List ℕ) → front.now ≡ before ++ (0x2D ∷ []) → ⊥ }
{
    match front {
        [before @ .., b'-'] => Some(before),
        _ => None,
    }
}

/// What a line says that has no length.
fn without_length(line: &[u8]) -> Header
    ensures { result ≡ (if is_reply line.now then Header.Other else Header.NoLength) }
{
    match line {
        [] | [b'*' | b'+' | b'-' | b':', ..] | [b'E', b'N', b'D'] => Header::Other,
        _ => Header::NoLength,
    }
}

/// The number of at most 18 digits.
fn value_of(digits: &[u8]) -> u64
    requires digits { All IsDigit digits.now }
    requires few { length digits.now ≤ 18 }
    ensures { result ≡ number_from 0 digits.now }
{
    let mut number: u64 = 0;
    'digits: for digit in digits {
        number = number
            .saturating_mul(10)
            .saturating_add(u64::from(digit.saturating_sub(b'0')));
    }
    number
}
