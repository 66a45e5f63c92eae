//! Tags behind the words before them.
ghost use Rattle.std.specs.Prelude.{suc, ◌++◌, codes};
ghost use Rattle.jser_shown.specs.Words.{begin_line, block_word};
ghost use Rattle.jser_shown.specs.Shown.{field_named, element_at, name_text};
ghost use Rattle.jser_printer.specs.Seen.{view_tag};
ghost use Rattle.jser_printer.specs.Says.{SaysTo};
ghost use Rattle.jser_printer.specs.TagWords.{tag_words};

use crate::name::Name;
use crate::seen::Tag;
use crate::words::line::{write, write_line_start};
use crate::words::tag::{Marks, write_block_word, write_value_tag};
use crate::words::value::{write_element_index, write_field_start};
use jser_prim::{Outbox, Sink};

/// Writes a tag whose line begins with a word.
#[inline(never)]
pub(crate) fn write_worded_tag<W: Sink>(
    outbox: &mut Outbox,
    sink: &mut W,
    marks: Marks,
    level: u64,
    word: &[u8],
    tag: Tag,
)
    ensures { SaysTo W.gone_out W.has_failed outbox.old outbox.new sink.old sink.new (λ k. begin_line level (word.now ++ tag_words marks (view_tag tag) k)) }
{
    write_line_start(outbox, sink, level);
    write(outbox, sink, word);
    write_value_tag(outbox, sink, marks, tag);
}

/// Writes the tag of an element.
#[inline(never)]
pub(crate) fn write_element_tag<W: Sink>(
    outbox: &mut Outbox,
    sink: &mut W,
    marks: Marks,
    level: u64,
    index: u32,
    tag: Tag,
)
    ensures { SaysTo W.gone_out W.has_failed outbox.old outbox.new sink.old sink.new (λ k. begin_line level (name_text (element_at index) (tag_words marks (view_tag tag) k))) }
{
    write_line_start(outbox, sink, level);
    write_element_index(outbox, sink, index as u64);
    write_value_tag(outbox, sink, marks, tag);
}

/// Writes the tag of a field's value, in a section of this level.
#[inline(never)]
pub(crate) fn write_field_tag<W: Sink>(
    outbox: &mut Outbox,
    sink: &mut W,
    marks: Marks,
    level: u64,
    name: &Name,
    tag: Tag,
)
    ensures { SaysTo W.gone_out W.has_failed outbox.old outbox.new sink.old sink.new (λ k. begin_line (suc level) (name_text (field_named name.now) (tag_words marks (view_tag tag) k))) }
{
    write_field_start(outbox, sink, level, name);
    write_value_tag(outbox, sink, marks, tag);
}

/// Writes the tag of a block in an annotation.
#[inline(never)]
pub(crate) fn write_note_block<W: Sink>(outbox: &mut Outbox, sink: &mut W, level: u64, long: bool)
    ensures { SaysTo W.gone_out W.has_failed outbox.old outbox.new sink.old sink.new (λ k. begin_line level (codes "note " ++ block_word long k)) }
{
    write_line_start(outbox, sink, level);
    write(outbox, sink, b"note ");
    write_block_word(outbox, sink, long);
}
