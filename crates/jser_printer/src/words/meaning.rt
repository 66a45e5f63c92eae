//! What raw values mean.
ghost use Rattle.std.specs.Prelude.{◌<◌, ◌+◌, ◌++◌, true, Some};
ghost use Rattle.jser_grammar.specs.Codes.{byte_code, char_code, double_code, float_code, int_code, long_code, short_code, boolean_code};
ghost use Rattle.jser_shown.specs.Floats.{float_text};
ghost use Rattle.jser_shown.specs.Values.{bytes_word, boolean_text, in_brackets, signed_text};
ghost use Rattle.jser_printer.specs.Primitives.{view_elements, view_primitive};
ghost use Rattle.jser_printer.specs.Says.{SaysTo};

use crate::primitive::Primitive;
use crate::words::float::write_float;
use crate::words::line::write;
use crate::words::number::write_decimal;
use crate::words::quote::write_quoted;
use jser_decimal::{Float, double_of, single_of};
use jser_prim::{Outbox, Sink, read_u16, read_u32, read_u64};

/// Writes what bytes of this type mean, if they are those of a value and mean anything.
#[inline(never)]
pub(crate) fn write_meaning<W: Sink>(
    outbox: &mut Outbox,
    sink: &mut W,
    primitive: Option<Primitive>,
    bytes: &[u8],
)
    ensures { SaysTo W.gone_out W.has_failed outbox.old outbox.new sink.old sink.new (λ k. bytes_word true (view_elements primitive) bytes.now k) }
{
    match primitive {
        Some(primitive) => write_value(outbox, sink, primitive, bytes),
        None => {}
    }
}

/// Writes what bytes of a primitive type mean.
fn write_value<W: Sink>(outbox: &mut Outbox, sink: &mut W, primitive: Primitive, bytes: &[u8])
    ensures { SaysTo W.gone_out W.has_failed outbox.old outbox.new sink.old sink.new (λ k. bytes_word true (Some (view_primitive primitive)) bytes.now k) }
{
    match primitive {
        Primitive::Byte => write_byte(outbox, sink, bytes),
        Primitive::Char => write_char(outbox, sink, bytes),
        Primitive::Double => write_double(outbox, sink, bytes),
        Primitive::Float => write_single(outbox, sink, bytes),
        Primitive::Int => write_int(outbox, sink, bytes),
        Primitive::Long => write_long(outbox, sink, bytes),
        Primitive::Short => write_short(outbox, sink, bytes),
        Primitive::Boolean => write_boolean(outbox, sink, bytes),
    }
}

/// Writes a double as Java prints it.
fn write_double<W: Sink>(outbox: &mut Outbox, sink: &mut W, bytes: &[u8])
    ensures { SaysTo W.gone_out W.has_failed outbox.old outbox.new sink.old sink.new (λ k. bytes_word true (Some double_code) bytes.now k) }
{
    if bytes.len() == 8 {
        write_float_in_brackets(outbox, sink, &double_of(read_u64(bytes)));
    }
}

/// Writes a float as Java prints it.
fn write_single<W: Sink>(outbox: &mut Outbox, sink: &mut W, bytes: &[u8])
    ensures { SaysTo W.gone_out W.has_failed outbox.old outbox.new sink.old sink.new (λ k. bytes_word true (Some float_code) bytes.now k) }
{
    if bytes.len() == 4 {
        write_float_in_brackets(outbox, sink, &single_of(read_u32(bytes)));
    }
}

/// Writes a float in brackets.
fn write_float_in_brackets<W: Sink>(outbox: &mut Outbox, sink: &mut W, float: &Float)
    ensures { SaysTo W.gone_out W.has_failed outbox.old outbox.new sink.old sink.new (λ k. in_brackets (Some (float_text float.now)) k) }
{
    write(outbox, sink, b" (");
    write_float(outbox, sink, float);
    write(outbox, sink, b")");
}

/// Writes a byte in decimal.
fn write_byte<W: Sink>(outbox: &mut Outbox, sink: &mut W, bytes: &[u8])
    ensures { SaysTo W.gone_out W.has_failed outbox.old outbox.new sink.old sink.new (λ k. bytes_word true (Some byte_code) bytes.now k) }
{
    if bytes.len() == 1 {
        write_signed(outbox, sink, 1 << 7, bytes[0] as u64);
    }
}

/// Writes a short in decimal.
fn write_short<W: Sink>(outbox: &mut Outbox, sink: &mut W, bytes: &[u8])
    ensures { SaysTo W.gone_out W.has_failed outbox.old outbox.new sink.old sink.new (λ k. bytes_word true (Some short_code) bytes.now k) }
{
    if bytes.len() == 2 {
        write_signed(outbox, sink, 1 << 15, read_u16(bytes) as u64);
    }
}

/// Writes an int in decimal.
fn write_int<W: Sink>(outbox: &mut Outbox, sink: &mut W, bytes: &[u8])
    ensures { SaysTo W.gone_out W.has_failed outbox.old outbox.new sink.old sink.new (λ k. bytes_word true (Some int_code) bytes.now k) }
{
    if bytes.len() == 4 {
        write_signed(outbox, sink, 1 << 31, read_u32(bytes) as u64);
    }
}

/// Writes a long in decimal.
fn write_long<W: Sink>(outbox: &mut Outbox, sink: &mut W, bytes: &[u8])
    ensures { SaysTo W.gone_out W.has_failed outbox.old outbox.new sink.old sink.new (λ k. bytes_word true (Some long_code) bytes.now k) }
{
    if bytes.len() == 8 {
        write_signed(outbox, sink, 1 << 63, read_u64(bytes));
    }
}

/// Writes a char in quotes.
fn write_char<W: Sink>(outbox: &mut Outbox, sink: &mut W, bytes: &[u8])
    ensures { SaysTo W.gone_out W.has_failed outbox.old outbox.new sink.old sink.new (λ k. bytes_word true (Some char_code) bytes.now k) }
{
    if bytes.len() == 2 {
        write(outbox, sink, b" (");
        write_quoted(outbox, sink, &[read_u16(bytes)]);
        write(outbox, sink, b")");
    }
}

/// Writes a boolean by its word.
fn write_boolean<W: Sink>(outbox: &mut Outbox, sink: &mut W, bytes: &[u8])
    ensures { SaysTo W.gone_out W.has_failed outbox.old outbox.new sink.old sink.new (λ k. bytes_word true (Some boolean_code) bytes.now k) }
{
    if bytes.len() == 1 {
        write_truth(outbox, sink, bytes[0]);
    }
}

/// Writes the boolean that stands for this byte, if one does.
fn write_truth<W: Sink>(outbox: &mut Outbox, sink: &mut W, byte: u8)
    ensures { SaysTo W.gone_out W.has_failed outbox.old outbox.new sink.old sink.new (λ k. in_brackets (boolean_text byte) k) }
{
    if byte == 0 {
        write(outbox, sink, b" (false)");
    } else if byte == 1 {
        write(outbox, sink, b" (true)");
    }
}

/// Writes in brackets the number that stands for `number` in two's complement, where `least` is that for the least one.
fn write_signed<W: Sink>(outbox: &mut Outbox, sink: &mut W, least: u64, number: u64)
    requires { number < least + least }
    ensures { SaysTo W.gone_out W.has_failed outbox.old outbox.new sink.old sink.new (λ k. in_brackets (Some (signed_text least number)) k) }
{
    write(outbox, sink, b" (");
    write_number(outbox, sink, least, number);
    write(outbox, sink, b")");
}

/// Writes that number.
fn write_number<W: Sink>(outbox: &mut Outbox, sink: &mut W, least: u64, number: u64)
    requires { number < least + least }
    ensures { SaysTo W.gone_out W.has_failed outbox.old outbox.new sink.old sink.new (λ k. signed_text least number ++ k) }
{
    if number < least {
        write_decimal(outbox, sink, number);
    } else {
        write(outbox, sink, b"-");
        write_decimal(outbox, sink, least - (number - least));
    }
}
