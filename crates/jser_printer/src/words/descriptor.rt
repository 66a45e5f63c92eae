//! Words of class descriptors.
ghost use Rattle.std.specs.Prelude.{◌++◌, ◌∷◌, [], codes};
ghost use Rattle.hex.specs.Hex.{encode_lower};
ghost use Rattle.jser_prim.specs.Bytes.{big_bytes};
ghost use Rattle.jser_shown.specs.Words.{begin_line, end_line, quoted};
ghost use Rattle.jser_printer.specs.Names.{view_text};
ghost use Rattle.jser_printer.specs.Says.{SaysTo};

use crate::text::Text;
use crate::words::line::{write, write_line_start};
use crate::words::number::write_hex;
use crate::words::quote::write_text_line;
use crate::words::value::write_raw;
use byteorder::{BigEndian, ByteOrder};
use jser_prim::{Outbox, Sink};

/// Writes a serial version UID.
#[inline(never)]
pub(crate) fn write_suid_word<W: Sink>(outbox: &mut Outbox, sink: &mut W, suid: u64)
    ensures { SaysTo W.gone_out W.has_failed outbox.old outbox.new sink.old sink.new (λ k. codes " suid " ++ (encode_lower (big_bytes 8 suid) ++ k)) }
{
    let mut bytes = [0; 8];
    BigEndian::write_u64(&mut bytes, suid);
    write(outbox, sink, b" suid ");
    write_hex(outbox, sink, &bytes);
}

/// Writes the flags of a descriptor.
#[inline(never)]
pub(crate) fn write_flags_word<W: Sink>(outbox: &mut Outbox, sink: &mut W, flags: u8)
    ensures { SaysTo W.gone_out W.has_failed outbox.old outbox.new sink.old sink.new (λ k. codes " flags " ++ (encode_lower (flags ∷ []) ++ end_line k)) }
{
    write(outbox, sink, b" flags ");
    write_raw(outbox, sink, &[flags]);
}

/// Writes the type code of a field, which its name is to follow.
#[inline(never)]
pub(crate) fn write_field_word<W: Sink>(outbox: &mut Outbox, sink: &mut W, level: u64, code: u8)
    ensures { SaysTo W.gone_out W.has_failed outbox.old outbox.new sink.old sink.new (λ k. begin_line level (codes "field " ++ (code ∷ 0x20 ∷ k))) }
{
    write_line_start(outbox, sink, level);
    write(outbox, sink, b"field ");
    write(outbox, sink, &[code, b' ']);
}

/// Writes the name of an interface.
#[inline(never)]
pub(crate) fn write_interface_word<W: Sink>(
    outbox: &mut Outbox,
    sink: &mut W,
    level: u64,
    name: Text<'_>,
)
    ensures { SaysTo W.gone_out W.has_failed outbox.old outbox.new sink.old sink.new (λ k. begin_line level (codes "interface " ++ quoted (view_text name.entry) (end_line k))) }
{
    write_line_start(outbox, sink, level);
    write(outbox, sink, b"interface ");
    write_text_line(outbox, sink, name);
}
