//! The line of a file: its path, and what was found.
ghost use Rattle.std.specs.Prelude.{◌++◌};
ghost use Rattle.jser_printer.specs.Says.{SaysTo};
ghost use Rattle.jser_scan.specs.Paths.{path_words, text_words};
ghost use Rattle.jser_scan.specs.Lines.{line_words};

use crate::answer::write_answer;
use crate::found::Found;
use crate::path::{FilePath, is_plain};
use jser_prim::{Outbox, Sink};
use jser_printer::{write, write_quoted};

/// Writes the line of a file.
pub(crate) fn write_line<W: Sink>(outbox: &mut Outbox, sink: &mut W, path: &FilePath, found: &Found)
    ensures { SaysTo W.gone_out W.has_failed outbox.old outbox.new sink.old sink.new (λ k. line_words path.now found.now k) }
{
    write_path(outbox, sink, path);
    write(outbox, sink, b": ");
    write_answer(outbox, sink, found);
    write(outbox, sink, b"\n");
}

/// Writes a path.
pub fn write_path<W: Sink>(outbox: &mut Outbox, sink: &mut W, path: &FilePath)
    ensures { SaysTo W.gone_out W.has_failed outbox.old outbox.new sink.old sink.new (λ k. path_words path.now k) }
{
    write_text(outbox, sink, path.text.as_bytes(), path.units.as_slice());
}

/// Writes a text with these units, as a path is written.
pub fn write_text<W: Sink>(outbox: &mut Outbox, sink: &mut W, bytes: &[u8], units: &[u16])
    ensures { SaysTo W.gone_out W.has_failed outbox.old outbox.new sink.old sink.new (λ k. text_words bytes.now units.now k) }
{
    if is_plain(bytes) {
        write(outbox, sink, bytes);
    } else {
        write_quoted(outbox, sink, units);
    }
}
