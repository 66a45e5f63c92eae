//! Limits: their names and values.
ghost use Rattle.std.specs.Prelude.{◌≡◌, ◌+◌, ◌*◌, ◌<◌, ◌≤◌, ◌^◌, IfSome, IfNone};
ghost use Rattle.jser_filter.specs.Limits.{limit_named, limit_value, number_up_to, digit_value, with_limit};

use jser_table::is_text;

/// What a limit limits.
#[derive(Clone, Copy)]
pub(crate) enum Limit {
    Depth,
    Refs,
    Bytes,
    Array,
}

/// The limits of a filter's text: for each, the last value that the text sets.
#[derive(Clone, Copy, PartialEq, Eq, Debug, Default)]
pub struct Limits {
    /// The greatest depth of a place: `maxdepth`.
    pub depth: Option<u64>,
    /// The greatest number of places: `maxrefs`.
    pub refs: Option<u64>,
    /// The greatest number of bytes: `maxbytes`.
    pub bytes: Option<u64>,
    /// The greatest length of an array: `maxarray`.
    pub array: Option<u64>,
}

impl Limits {
    /// The limits with this value of one of them.
    pub(crate) fn with(self, limit: Limit, value: u64) -> Limits
        ensures { result ≡ with_limit self limit value }
    {
        let value = Some(value);
        match limit {
            Limit::Depth => Limits {
                depth: value,
                ..self
            },
            Limit::Refs => Limits {
                refs: value,
                ..self
            },
            Limit::Bytes => Limits {
                bytes: value,
                ..self
            },
            Limit::Array => Limits {
                array: value,
                ..self
            },
        }
    }
}

/// The greatest value of a limit.
const GREATEST: u64 = 9_223_372_036_854_775_807;

impl Limit {
    /// The limit of this name, if there is one.
    pub(crate) fn named(name: &[u16]) -> Option<Limit>
        ensures { result ≡ limit_named name.now }
    {
        if is_text(name, b"maxdepth") {
            Some(Limit::Depth)
        } else if is_text(name, b"maxrefs") {
            Some(Limit::Refs)
        } else if is_text(name, b"maxbytes") {
            Some(Limit::Bytes)
        } else if is_text(name, b"maxarray") {
            Some(Limit::Array)
        } else {
            None
        }
    }
}

/// The value of a limit: an optional sign, and digits that write a number from 0 to 2^63 - 1.
pub(crate) fn limit_value(units: &[u16]) -> Option<u64>
    ensures { result ≡ limit_value units.now }
{
    match units {
        [] => None,
        [PLUS, digits @ ..] => number_up_to(GREATEST, digits),
        [MINUS, digits @ ..] => number_up_to(0, digits),
        digits => number_up_to(GREATEST, digits),
    }
}

const PLUS: u16 = 0x2B;

const MINUS: u16 = 0x2D;

const ZERO: u16 = 0x30;

const NINE: u16 = 0x39;

/// The number that these digits write, if it is at most `most`.
#[tactic(auto, using(crate::proofs::LimitLemmas::number_written_next, crate::proofs::LimitLemmas::no_number_other, crate::proofs::LimitLemmas::no_number_above, crate::proofs::LimitLemmas::number_is))]
fn number_up_to(most: u64, digits: &[u16]) -> Option<u64>
    requires { most < 2 ^ 63 }
    ensures { result ≡ number_up_to most digits.now }
{
    if digits.is_empty() {
        return None;
    }
    let mut value: u64 = 0;
    for unit in digits {
        let Some(digit) = digit_of(*unit) else {
            return None;
        };
        let Some(next) = appended(value, digit, most) else {
            return None;
        };
        value = next;
    }
    Some(value)
}

/// The number with one more digit, if it is at most `most`.
fn appended(value: u64, digit: u64, most: u64) -> Option<u64>
    requires digit { digit < 10 }
    requires most { most < 2 ^ 63 }
    ensures next { IfSome result (λ next. next ≡ 10 * value + digit) }
    ensures within { IfSome result (λ next. next ≤ most) }
    ensures above { IfNone result (most < 10 * value + digit) }
{
    if value > most / 10 {
        return None;
    }
    let next = 10 * value + digit;
    if next <= most { Some(next) } else { None }
}

/// The value of a decimal digit.
fn digit_of(unit: u16) -> Option<u64>
    ensures value { result ≡ digit_value unit }
    ensures digit { IfSome result (λ digit. digit < 10) }
{
    if unit >= ZERO && unit <= NINE {
        Some(u64::from(unit - ZERO))
    } else {
        None
    }
}
