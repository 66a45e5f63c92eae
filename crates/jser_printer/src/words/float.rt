//! Floats as Java prints them.
ghost use Rattle.std.specs.Prelude.{◌≡◌, ◌++◌, ◌∷◌, ◌≤◌, replicate};
ghost use Rattle.jser_shown.specs.Floats.{below_one, decimal_text, exponent_text, float_text, laid_out, magnitude_text, minus_if, or_zero, scientific, sign_of, trimmed, with_point};
ghost use Rattle.jser_printer.specs.Says.{SaysTo};

use crate::words::line::write;
use crate::words::number::write_decimal;
use itoa::Buffer;
use jser_decimal::{Decimal, Float, Magnitude};
use jser_prim::{Outbox, Sink};

/// Writes a float.
pub(crate) fn write_float<W: Sink>(outbox: &mut Outbox, sink: &mut W, float: &Float)
    ensures { SaysTo W.gone_out W.has_failed outbox.old outbox.new sink.old sink.new (λ k. float_text float.now ++ k) }
{
    write_sign(outbox, sink, float.is_negative, float.magnitude);
    write_magnitude(outbox, sink, float.magnitude);
}

/// Writes the sign, which no NaN shows.
fn write_sign<W: Sink>(outbox: &mut Outbox, sink: &mut W, is_negative: bool, magnitude: Magnitude)
    ensures { SaysTo W.gone_out W.has_failed outbox.old outbox.new sink.old sink.new (λ k. sign_of is_negative magnitude ++ k) }
{
    match magnitude {
        Magnitude::NotANumber => {}
        Magnitude::Zero | Magnitude::Finite(_) | Magnitude::Infinite => {
            write_minus(outbox, sink, is_negative);
        }
    }
}

/// Writes a minus before a negative number.
fn write_minus<W: Sink>(outbox: &mut Outbox, sink: &mut W, is_negative: bool)
    ensures { SaysTo W.gone_out W.has_failed outbox.old outbox.new sink.old sink.new (λ k. minus_if is_negative ++ k) }
{
    if is_negative {
        write(outbox, sink, b"-");
    }
}

/// Writes a float without its sign.
fn write_magnitude<W: Sink>(outbox: &mut Outbox, sink: &mut W, magnitude: Magnitude)
    ensures { SaysTo W.gone_out W.has_failed outbox.old outbox.new sink.old sink.new (λ k. magnitude_text magnitude ++ k) }
{
    match magnitude {
        Magnitude::Zero => write(outbox, sink, b"0.0"),
        Magnitude::Finite(number) => write_number(outbox, sink, number),
        Magnitude::Infinite => write(outbox, sink, b"Infinity"),
        Magnitude::NotANumber => write(outbox, sink, b"NaN"),
    }
}

/// Writes a decimal.
fn write_number<W: Sink>(outbox: &mut Outbox, sink: &mut W, number: Decimal)
    ensures { SaysTo W.gone_out W.has_failed outbox.old outbox.new sink.old sink.new (λ k. decimal_text number ++ k) }
{
    let mut buffer = Buffer::new();
    let digits = buffer.format(number.units).as_bytes();
    write_digits(outbox, sink, digits, digits.len() + number.place as usize);
}

/// Writes digits whose point is so many places behind their front, and 344 more.
fn write_digits<W: Sink>(outbox: &mut Outbox, sink: &mut W, digits: &[u8], point: usize)
    ensures { SaysTo W.gone_out W.has_failed outbox.old outbox.new sink.old sink.new (λ k. laid_out point digits.now ++ k) }
{
    match point {
        345..=351 => write_with_point(outbox, sink, point - 344, digits),
        342..=344 => write_below_one(outbox, sink, digits, point),
        _ => write_scientific(outbox, sink, digits, point),
    }
}

/// Writes digits of a number that is less than 1, with the zeros before them.
fn write_below_one<W: Sink>(outbox: &mut Outbox, sink: &mut W, digits: &[u8], point: usize)
    requires from { 342 ≤ point }
    requires to { point ≤ 344 }
    ensures { SaysTo W.gone_out W.has_failed outbox.old outbox.new sink.old sink.new (λ k. below_one point digits.now ++ k) }
{
    write(outbox, sink, b"0.");
    write(outbox, sink, zeros(344 - point));
    write(outbox, sink, without_zeros(digits));
}

/// Writes digits with a point behind the first, and an exponent.
fn write_scientific<W: Sink>(outbox: &mut Outbox, sink: &mut W, digits: &[u8], point: usize)
    ensures { SaysTo W.gone_out W.has_failed outbox.old outbox.new sink.old sink.new (λ k. scientific point digits.now ++ k) }
{
    write_with_point(outbox, sink, 1, digits);
    write(outbox, sink, b"E");
    write_exponent(outbox, sink, point);
}

/// Up to two zeros.
fn zeros(count: usize) -> &'static [u8]
    requires { count ≤ 2 }
    ensures { result.now ≡ replicate count 0x30 }
{
    match count {
        0 => b"",
        1 => b"0",
        _ => b"00",
    }
}

/// Writes digits with a point behind so many of them.
fn write_with_point<W: Sink>(outbox: &mut Outbox, sink: &mut W, whole: usize, digits: &[u8])
    ensures { SaysTo W.gone_out W.has_failed outbox.old outbox.new sink.old sink.new (λ k. with_point whole digits.now ++ k) }
{
    let (front, behind) = digits.split_at(whole.min(digits.len()));
    write(outbox, sink, front);
    write(outbox, sink, b".");
    write_fraction(outbox, sink, behind);
}

/// Writes digits without the zeros at their end, or a zero.
fn write_fraction<W: Sink>(outbox: &mut Outbox, sink: &mut W, digits: &[u8])
    ensures { SaysTo W.gone_out W.has_failed outbox.old outbox.new sink.old sink.new (λ k. or_zero (trimmed digits.now) ++ k) }
{
    match without_zeros(digits) {
        [] => write(outbox, sink, b"0"),
        kept => write(outbox, sink, kept),
    }
}

/// Writes an exponent, of which `point` is 345 more.
fn write_exponent<W: Sink>(outbox: &mut Outbox, sink: &mut W, point: usize)
    ensures { SaysTo W.gone_out W.has_failed outbox.old outbox.new sink.old sink.new (λ k. exponent_text point ++ k) }
{
    if point < 345 {
        write(outbox, sink, b"-");
        write_decimal(outbox, sink, (345 - point) as u64);
    } else {
        write_decimal(outbox, sink, (point - 345) as u64);
    }
}

/// The digits without the zeros at their end.
#[tactic(auto, using(crate::proofs::FloatLemmas::trimmed_zero, crate::proofs::FloatLemmas::trimmed_digit))]
fn without_zeros(digits: &[u8]) -> &[u8]
    ensures { result.now ≡ trimmed digits.now }
{
    match digits.split_last() {
        Some((b'0', front)) => without_zeros(front),
        _ => digits,
    }
}
