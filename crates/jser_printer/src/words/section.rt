//! The first lines of sections.
ghost use Rattle.std.specs.Prelude.{None, Some};
ghost use Rattle.jser_printer.specs.DueWords.{section_words};
ghost use Rattle.jser_printer.specs.Names.{view_name};
ghost use Rattle.jser_printer.specs.Says.{SaysTo};

use crate::name::Name;
use crate::words::line::{write, write_line_start};
use crate::words::quote::write_name_line;
use jser_prim::{Outbox, Sink};

/// Writes the first line of a section, of a class with this name or of a proxy.
#[inline(never)]
pub(crate) fn write_section<W: Sink>(
    outbox: &mut Outbox,
    sink: &mut W,
    level: u64,
    word: &[u8],
    name: Option<&Name>,
)
    ensures { SaysTo W.gone_out W.has_failed outbox.old outbox.new sink.old sink.new (λ k. section_words level word.now (view_name name.entry) k) }
{
    match name {
        Some(name) => write_class_section(outbox, sink, level, word, name),
        None => write_proxy_section(outbox, sink, level, word),
    }
}

/// Writes the first line of the section of a class.
#[inline(always)]
fn write_class_section<W: Sink>(
    outbox: &mut Outbox,
    sink: &mut W,
    level: u64,
    word: &[u8],
    name: &Name,
)
    ensures { SaysTo W.gone_out W.has_failed outbox.old outbox.new sink.old sink.new (λ k. section_words level word.now (Some name.now) k) }
{
    write_line_start(outbox, sink, level);
    write(outbox, sink, word);
    write_name_line(outbox, sink, name);
}

/// Writes the first line of the section of a proxy.
fn write_proxy_section<W: Sink>(outbox: &mut Outbox, sink: &mut W, level: u64, word: &[u8])
    ensures { SaysTo W.gone_out W.has_failed outbox.old outbox.new sink.old sink.new (λ k. section_words level word.now None k) }
{
    write_line_start(outbox, sink, level);
    write(outbox, sink, word);
    write(outbox, sink, b"proxy\n");
}
