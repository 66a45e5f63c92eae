//! Lines of values: what stands before a value, raw values, and the bytes of blocks.
ghost use Rattle.std.specs.Prelude.{suc, ◌++◌, ◌∷◌};
ghost use Rattle.hex.specs.Hex.{encode_lower};
ghost use Rattle.jser_grammar.specs.Codes.{prim_code_of};
ghost use Rattle.jser_shown.specs.Values.{bytes_word};
ghost use Rattle.jser_shown.specs.Words.{begin_line, end_line};
ghost use Rattle.jser_shown.specs.Shown.{field_named, element_at, name_text};
ghost use Rattle.jser_shown.specs.Telling.{raw_line, raw_lines, raw_elements_lines, block_length_says, seen_block_length};
ghost use Rattle.jser_printer.specs.Primitives.{view_elements};
ghost use Rattle.jser_printer.specs.Says.{SaysTo};

use crate::frame::Elements;
use crate::layer::NamedField;
use crate::name::Name;
use crate::primitive::{Primitive, primitive_of};
use crate::words::line::{write, write_deeper_quote, write_line_start};
use crate::words::meaning::write_meaning;
use crate::words::number::{write_decimal, write_hex};
use jser_prim::{Outbox, Sink};

/// Writes the beginning of the line of a field, in a section of this level, as `"next" = `.
#[inline(always)]
pub(crate) fn write_field_start<W: Sink>(outbox: &mut Outbox, sink: &mut W, level: u64, name: &Name)
    ensures { SaysTo W.gone_out W.has_failed outbox.old outbox.new sink.old sink.new (λ k. begin_line (suc level) (name_text (field_named name.now) k)) }
{
    write_deeper_quote(outbox, sink, level);
    write(outbox, sink, name.quoted());
    write(outbox, sink, b"\" = ");
}

/// Writes the index of an element before its value, as `[0] `.
pub(crate) fn write_element_index<W: Sink>(outbox: &mut Outbox, sink: &mut W, index: u64)
    ensures { SaysTo W.gone_out W.has_failed outbox.old outbox.new sink.old sink.new (λ k. name_text (element_at index) k) }
{
    write(outbox, sink, b"[");
    write_decimal(outbox, sink, index);
    write(outbox, sink, b"] ");
}

/// Writes bytes in hexadecimal, and the end of their line.
pub(crate) fn write_raw<W: Sink>(outbox: &mut Outbox, sink: &mut W, bytes: &[u8])
    ensures { SaysTo W.gone_out W.has_failed outbox.old outbox.new sink.old sink.new (λ k. encode_lower bytes.now ++ end_line k) }
{
    write_hex(outbox, sink, bytes);
    write(outbox, sink, b"\n");
}

/// Writes a raw value in hexadecimal, with what it means where `values` asks for that, and the end of its line.
fn write_raw_value<W: Sink>(
    outbox: &mut Outbox,
    sink: &mut W,
    values: bool,
    primitive: Option<Primitive>,
    bytes: &[u8],
)
    ensures { SaysTo W.gone_out W.has_failed outbox.old outbox.new sink.old sink.new (λ k. encode_lower bytes.now ++ bytes_word values (view_elements primitive) bytes.now (end_line k)) }
{
    write_hex(outbox, sink, bytes);
    write_word(outbox, sink, values, primitive, bytes);
    write(outbox, sink, b"\n");
}

/// Writes what a raw value means, where `values` asks for that.
#[inline(always)]
fn write_word<W: Sink>(
    outbox: &mut Outbox,
    sink: &mut W,
    values: bool,
    primitive: Option<Primitive>,
    bytes: &[u8],
)
    ensures { SaysTo W.gone_out W.has_failed outbox.old outbox.new sink.old sink.new (λ k. bytes_word values (view_elements primitive) bytes.now k) }
{
    match values {
        true => write_meaning(outbox, sink, primitive, bytes),
        false => {}
    }
}

/// Writes the line of a raw value that is this field, in a section of this level.
#[inline(never)]
pub(crate) fn write_raw_field<W: Sink>(
    outbox: &mut Outbox,
    sink: &mut W,
    values: bool,
    level: u64,
    field: &NamedField,
    bytes: &[u8],
)
    ensures { SaysTo W.gone_out W.has_failed outbox.old outbox.new sink.old sink.new (λ k. raw_line values (prim_code_of field.now.code) (suc level) (field_named field.now.name) bytes.now k) }
{
    write_field_start(outbox, sink, level, &field.name);
    write_raw_value(outbox, sink, values, primitive_of(field.code), bytes);
}

/// Writes the line of a raw value that is an element.
fn write_raw_element<W: Sink>(
    outbox: &mut Outbox,
    sink: &mut W,
    values: bool,
    primitive: Option<Primitive>,
    level: u64,
    index: u64,
    bytes: &[u8],
)
    ensures { SaysTo W.gone_out W.has_failed outbox.old outbox.new sink.old sink.new (λ k. raw_line values (view_elements primitive) level (element_at index) bytes.now k) }
{
    write_line_start(outbox, sink, level);
    write_element_index(outbox, sink, index);
    write_raw_value(outbox, sink, values, primitive, bytes);
}

/// Writes the lines of these raw elements, whose bytes are cut into pieces of one size.
#[inline(never)]
pub(crate) fn write_raw_elements<W: Sink>(
    outbox: &mut Outbox,
    sink: &mut W,
    values: bool,
    at: Elements,
    bytes: &[u8],
)
    ensures { SaysTo W.gone_out W.has_failed outbox.old outbox.new sink.old sink.new (λ k. raw_elements_lines values (view_elements at.elements) at.level at.index at.left bytes.now k) }
{
    if at.left == 0 {
        return;
    }
    let size = bytes.len() / at.left as usize;
    write_pieces(outbox, sink, values, at, size, bytes);
}

/// Writes the lines of raw elements of this size. After a failure no more lines are made, which nobody would get.
fn write_pieces<W: Sink>(
    outbox: &mut Outbox,
    sink: &mut W,
    values: bool,
    at: Elements,
    size: usize,
    bytes: &[u8],
)
    ensures { SaysTo W.gone_out W.has_failed outbox.old outbox.new sink.old sink.new (λ k. raw_lines values (view_elements at.elements) at.level at.index size at.left bytes.now k) }
{
    let mut rest = bytes;
    'elements: for index in 0..at.left {
        if outbox.has_failed() {
            return;
        }
        let (element, after) = rest.split_at(size.min(rest.len()));
        write_raw_element(
            outbox,
            sink,
            values,
            at.elements,
            at.level,
            at.index as u64 + index as u64,
            element,
        );
        rest = after;
    }
}

/// Writes the length of a block; where it is 0, the line ends there.
#[inline(never)]
pub(crate) fn write_block_length<W: Sink>(outbox: &mut Outbox, sink: &mut W, length: u32)
    ensures { SaysTo W.gone_out W.has_failed outbox.old outbox.new sink.old sink.new (λ k. block_length_says (seen_block_length length) k) }
{
    write_decimal(outbox, sink, length as u64);
    if length == 0 {
        write(outbox, sink, b":\n");
    } else {
        write(outbox, sink, b": ");
    }
}
