//! The words of tags of values and of blocks.
ghost use Rattle.jser_reading.specs.Labels.{array_tag};
ghost use Rattle.jser_shown.specs.Words.{block_word};
ghost use Rattle.jser_printer.specs.Seen.{view_tag};
ghost use Rattle.jser_printer.specs.Says.{SaysTo};
ghost use Rattle.jser_printer.specs.TagWords.{marked_text, tag_words};

use crate::owner::OwnerNode;
use crate::seen::Tag;
use crate::words::line::write;
use crate::words::number::{write_decimal, write_mark};
use jser_prim::{Outbox, Sink};

/// What the words of a tag are marked with.
#[derive(Clone, Copy)]
pub(crate) struct Marks {
    /// Which epoch it is, from 0.
    pub epoch: u64,
    /// Whether raw values are followed by what they mean.
    pub values: bool,
    /// The number of the handle that is assigned next.
    pub next: u64,
    /// The owner that the tag begins, if it begins one.
    pub owner: OwnerNode,
}

/// Writes what a tag begins: the whole line of a null, else the words before what comes next.
#[inline(never)]
pub(crate) fn write_value_tag<W: Sink>(outbox: &mut Outbox, sink: &mut W, marks: Marks, tag: Tag)
    ensures { SaysTo W.gone_out W.has_failed outbox.old outbox.new sink.old sink.new (λ k. tag_words marks (view_tag tag) k) }
{
    match tag {
        Tag::Null => write(outbox, sink, b"null\n"),
        Tag::Reference => write(outbox, sink, b"ref "),
        Tag::ClassDesc => write_next(outbox, sink, marks, b"desc ", b" "),
        Tag::ProxyDesc => write_next(outbox, sink, marks, b"proxy ", b"\n"),
        Tag::Object => write_owner(outbox, sink, marks, b"object ", b"\n"),
        Tag::String => write_next(outbox, sink, marks, b"text ", b" "),
        Tag::LongString => write_next(outbox, sink, marks, b"longtext ", b" "),
        Tag::Array => write_array(outbox, sink, marks),
        Tag::Class => write_owner(outbox, sink, marks, b"classobject ", b"\n"),
        Tag::Enum => write_owner(outbox, sink, marks, b"enum ", b"\n"),
    }
}

/// Writes a word, the mark of the next handle, and what is behind it.
#[inline(always)]
fn write_next<W: Sink>(outbox: &mut Outbox, sink: &mut W, marks: Marks, word: &[u8], behind: &[u8])
    ensures { SaysTo W.gone_out W.has_failed outbox.old outbox.new sink.old sink.new (λ k. marked_text word.now marks.epoch marks.next behind.now k) }
{
    write(outbox, sink, word);
    write_mark(outbox, sink, marks.epoch, marks.next);
    write(outbox, sink, behind);
}

/// Writes a word, the mark of the owner, and what is behind it.
#[inline(always)]
fn write_owner<W: Sink>(outbox: &mut Outbox, sink: &mut W, marks: Marks, word: &[u8], behind: &[u8])
    ensures { SaysTo W.gone_out W.has_failed outbox.old outbox.new sink.old sink.new (λ k. marked_text word.now marks.epoch marks.owner.number behind.now k) }
{
    write(outbox, sink, word);
    write_mark(outbox, sink, marks.epoch, marks.owner.number as u64);
    write(outbox, sink, behind);
}

/// Writes the line of an array.
fn write_array<W: Sink>(outbox: &mut Outbox, sink: &mut W, marks: Marks)
    ensures { SaysTo W.gone_out W.has_failed outbox.old outbox.new sink.old sink.new (λ k. tag_words marks array_tag k) }
{
    write_owner(outbox, sink, marks, b"array ", b" length ");
    write_decimal(outbox, sink, marks.owner.elements as u64);
    write(outbox, sink, b"\n");
}

/// Writes the word of a block.
#[inline(never)]
pub(crate) fn write_block_word<W: Sink>(outbox: &mut Outbox, sink: &mut W, long: bool)
    ensures { SaysTo W.gone_out W.has_failed outbox.old outbox.new sink.old sink.new (λ k. block_word long k) }
{
    if long {
        write(outbox, sink, b"longblock ");
    } else {
        write(outbox, sink, b"block ");
    }
}
