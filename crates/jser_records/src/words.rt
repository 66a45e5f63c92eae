//! The words of a record's answer: a line, or a JSON object.
ghost use Rattle.std.specs.Prelude.{◌++◌, ◌∷◌};
ghost use Rattle.jser_printer.specs.Says.{SaysTo};
ghost use Rattle.jser_records.specs.Words.{error_member, hex_member, key_member, key_words, label_words, line_words, members, object_words, words_of};

use crate::answer::Answer;
use crate::key::Key;
use crate::sign::{Sign, has_byte, write_signs};
use jser_prim::{Outbox, Sink};
use jser_printer::{write, write_decimal, write_hex};
use jser_scan::{is_plain, write_answer, write_count, write_members};

/// Writes the line of a record, with the KEY that it has.
pub(crate) fn write_line<W: Sink>(
    outbox: &mut Outbox,
    sink: &mut W,
    number: u64,
    key: &Key,
    signs: &[Sign],
    answer: &Answer,
)
    ensures { SaysTo W.gone_out W.has_failed outbox.old outbox.new sink.old sink.new (λ k. line_words number key.now signs.now answer.now k) }
{
    write_label(outbox, sink, number, key, signs);
    write(outbox, sink, b"\t");
    write_words(outbox, sink, answer);
    write(outbox, sink, b"\n");
}

/// Writes the KEY, or the number of a record that has none.
fn write_label<W: Sink>(outbox: &mut Outbox, sink: &mut W, number: u64, key: &Key, signs: &[Sign])
    ensures { SaysTo W.gone_out W.has_failed outbox.old outbox.new sink.old sink.new (λ k. label_words number key.now signs.now k) }
{
    if key.is_there() {
        write_key_text(outbox, sink, key.bytes(), signs);
    } else {
        write_decimal(outbox, sink, number);
    }
}

/// Writes a KEY as it is where nobody can take more or less for it, else by its signs.
fn write_key_text<W: Sink>(outbox: &mut Outbox, sink: &mut W, bytes: &[u8], signs: &[Sign])
    ensures { SaysTo W.gone_out W.has_failed outbox.old outbox.new sink.old sink.new (λ k. key_words bytes.now signs.now k) }
{
    if is_plain(bytes) {
        write(outbox, sink, bytes);
    } else {
        write_signs(outbox, sink, false, signs);
    }
}

/// Writes an answer.
fn write_words<W: Sink>(outbox: &mut Outbox, sink: &mut W, answer: &Answer)
    ensures { SaysTo W.gone_out W.has_failed outbox.old outbox.new sink.old sink.new (λ k. words_of answer.now k) }
{
    match answer {
        Answer::Checked(found) => write_answer(outbox, sink, found),
        Answer::Null => write(outbox, sink, b"null"),
        Answer::Longer { most } => {
            write_count(outbox, sink, b"longer than ", *most);
            write(outbox, sink, b" bytes");
        }
        Answer::LongKey => write(outbox, sink, b"key longer than 65535 bytes"),
        Answer::LineEndInKey => write(outbox, sink, b"line end in its KEY"),
        Answer::Cut { at, of } => {
            write_count(outbox, sink, b"cut at ", *at);
            write_count(outbox, sink, b" of ", *of);
            write(outbox, sink, b" bytes");
        }
        Answer::ErrorReply => write(outbox, sink, b"error reply"),
        Answer::NoLength => write(outbox, sink, b"no length"),
    }
}

/// Writes the object of a record, on a line.
pub(crate) fn write_object<W: Sink>(
    outbox: &mut Outbox,
    sink: &mut W,
    number: u64,
    key: &Key,
    signs: &[Sign],
    answer: &Answer,
)
    ensures { SaysTo W.gone_out W.has_failed outbox.old outbox.new sink.old sink.new (λ k. object_words number key.now signs.now answer.now k) }
{
    write_count(outbox, sink, b"{\"record\":", number);
    write_key(outbox, sink, key, signs);
    write_answer_members(outbox, sink, answer);
    write(outbox, sink, b"}\n");
}

/// Writes the KEY, if there is one.
fn write_key<W: Sink>(outbox: &mut Outbox, sink: &mut W, key: &Key, signs: &[Sign])
    ensures { SaysTo W.gone_out W.has_failed outbox.old outbox.new sink.old sink.new (λ k. key_member key.now signs.now k) }
{
    if key.is_there() {
        write(outbox, sink, b",\"key\":");
        write_signs(outbox, sink, true, signs);
        write_key_hex(outbox, sink, key.bytes(), signs);
    } else {
        write(outbox, sink, b"");
    }
}

/// Writes all bytes of a KEY that is no UTF-8.
#[tactic(auto, using(crate::proofs::WordLemmas::says_hex, crate::proofs::WordLemmas::says_no_hex))]
fn write_key_hex<W: Sink>(outbox: &mut Outbox, sink: &mut W, bytes: &[u8], signs: &[Sign])
    ensures { SaysTo W.gone_out W.has_failed outbox.old outbox.new sink.old sink.new (λ k. hex_member bytes.now signs.now k) }
{
    if has_byte(signs) {
        write(outbox, sink, b",\"key_hex\":\"");
        write_hex(outbox, sink, bytes);
        write(outbox, sink, b"\"");
    } else {
        write(outbox, sink, b"");
    }
}

/// Writes the members behind it.
fn write_answer_members<W: Sink>(outbox: &mut Outbox, sink: &mut W, answer: &Answer)
    ensures { SaysTo W.gone_out W.has_failed outbox.old outbox.new sink.old sink.new (λ k. members answer.now k) }
{
    match answer {
        Answer::Checked(found) => write_members(outbox, sink, found),
        Answer::Null => write(outbox, sink, b",\"answer\":\"null\""),
        Answer::Longer { .. }
        | Answer::LongKey
        | Answer::LineEndInKey
        | Answer::Cut { .. }
        | Answer::ErrorReply
        | Answer::NoLength => write_error(outbox, sink, answer),
    }
}

/// Writes why a record was not read.
fn write_error<W: Sink>(outbox: &mut Outbox, sink: &mut W, answer: &Answer)
    ensures { SaysTo W.gone_out W.has_failed outbox.old outbox.new sink.old sink.new (λ k. error_member answer.now k) }
{
    write(outbox, sink, b",\"error\":\"");
    write_words(outbox, sink, answer);
    write(outbox, sink, b"\"");
}
