//! Quoted texts.
ghost use Rattle.std.specs.Prelude.{◌≡◌, ◌<◌, ◌≤◌, ◌∷◌, ◌++◌, [], true, length, take};
ghost use Rattle.std.specs.List.{flat_map};
ghost use Rattle.jser_prim.specs.Outgoing.{PutsTo};
ghost use Rattle.jser_shown.specs.Words.{end_line, quoted, quoted_unit};
ghost use Rattle.jser_printer.specs.Names.{view_text};
ghost use Rattle.jser_printer.specs.Says.{SaysTo, SayingTo};

use crate::name::{Name, quoted_unit};
use crate::text::{Plain, Text, is_plain};
use crate::words::line::write;
use arrayvec::ArrayVec;
use jser_prim::{Outbox, Sink};

/// How many units are put in one piece at most.
const RUN: usize = 32;

/// Writes a quoted text: units from 0020 to 007E stand for themselves, but for `\"` and `\\`, and any other unit is `\u`
/// and four digits.
pub fn write_quoted<W: Sink>(outbox: &mut Outbox, sink: &mut W, units: &[u16])
    ensures { SaysTo W.gone_out W.has_failed outbox.old outbox.new sink.old sink.new (λ k. quoted units.now k) }
{
    write(outbox, sink, b"\"");
    write_units(outbox, sink, units);
    write(outbox, sink, b"\"");
}

/// Writes a text as a quoted text.
#[inline(never)]
pub(crate) fn write_text<W: Sink>(outbox: &mut Outbox, sink: &mut W, text: Text<'_>)
    ensures { SaysTo W.gone_out W.has_failed outbox.old outbox.new sink.old sink.new (λ k. quoted (view_text text.entry) k) }
{
    match text {
        Text::Units(units) => write_quoted(outbox, sink, units),
        Text::Plain(plain) => write_plain(outbox, sink, plain),
    }
}

/// Writes a text as a quoted text, and the end of its line.
#[inline(never)]
pub(crate) fn write_text_line<W: Sink>(outbox: &mut Outbox, sink: &mut W, text: Text<'_>)
    ensures { SaysTo W.gone_out W.has_failed outbox.old outbox.new sink.old sink.new (λ k. quoted (view_text text.entry) (end_line k)) }
{
    write_text(outbox, sink, text);
    write(outbox, sink, b"\n");
}

/// Writes bytes that stand for themselves as a quoted text, and the end of its line.
#[inline(always)]
pub(crate) fn write_plain_line<W: Sink>(outbox: &mut Outbox, sink: &mut W, plain: Plain<'_>)
    ensures { SaysTo W.gone_out W.has_failed outbox.old outbox.new sink.old sink.new (λ k. quoted plain.entry.bytes.now (end_line k)) }
{
    write(outbox, sink, b"\"");
    write(outbox, sink, plain.bytes());
    write(outbox, sink, b"\"\n");
}

/// Writes bytes that stand for themselves as a quoted text.
#[inline(always)]
fn write_plain<W: Sink>(outbox: &mut Outbox, sink: &mut W, plain: Plain<'_>)
    ensures { SaysTo W.gone_out W.has_failed outbox.old outbox.new sink.old sink.new (λ k. quoted plain.entry.bytes.now k) }
{
    write(outbox, sink, b"\"");
    write(outbox, sink, plain.bytes());
    write(outbox, sink, b"\"");
}

/// Writes a name as a quoted text, and the end of its line.
#[inline(always)]
pub(crate) fn write_name_line<W: Sink>(outbox: &mut Outbox, sink: &mut W, name: &Name)
    ensures { SaysTo W.gone_out W.has_failed outbox.old outbox.new sink.old sink.new (λ k. quoted name.now (end_line k)) }
{
    write(outbox, sink, b"\"");
    write(outbox, sink, name.quoted());
    write(outbox, sink, b"\"\n");
}

/// Writes the units of a quoted text, without its quotes.
#[tactic(auto, using(crate::proofs::SaysLemmas::says_none, crate::proofs::SaysLemmas::says_no_units))]
pub fn write_units<W: Sink>(outbox: &mut Outbox, sink: &mut W, units: &[u16])
    ensures { SaysTo W.gone_out W.has_failed outbox.old outbox.new sink.old sink.new (λ k. flat_map quoted_unit units.now ++ k) }
{
    let mut rest = units;
    'runs: while !rest.is_empty() {
        if outbox.has_failed() {
            return;
        }
        rest = write_run(outbox, sink, rest);
    }
}

/// Writes the first units of a quoted text: as many as stand for themselves, up to a few, or one that does not. The answer
/// is what is left.
#[inline(always)]
fn write_run<'u, W: Sink>(outbox: &mut Outbox, sink: &mut W, units: &'u [u16]) -> &'u [u16]
    requires { 0 < length units.now }
    ensures said { SayingTo W.gone_out W.has_failed outbox.old outbox.new sink.old sink.new (λ k. flat_map quoted_unit units.now ++ k) (λ k. flat_map quoted_unit result.now ++ k) }
    ensures less { length result.now < length units.now }
{
    let run = plain_run(units);
    if run.is_empty() {
        return write_first(outbox, sink, units);
    }
    let (_, after) = units.split_at(run.len());
    write(outbox, sink, run.as_slice());
    after
}

/// Writes the first unit of a quoted text. The answer is what is left.
#[tactic(auto, using(crate::proofs::SaysLemmas::says_unit))]
fn write_first<'u, W: Sink>(outbox: &mut Outbox, sink: &mut W, units: &'u [u16]) -> &'u [u16]
    requires { 0 < length units.now }
    ensures said { SayingTo W.gone_out W.has_failed outbox.old outbox.new sink.old sink.new (λ k. flat_map quoted_unit units.now ++ k) (λ k. flat_map quoted_unit result.now ++ k) }
    ensures less { length result.now < length units.now }
{
    let (front, after) = units.split_at(1);
    put_unit(outbox, sink, front[0]);
    after
}

/// The units at the front that stand for themselves, up to a few.
#[tactic(auto, using(crate::proofs::SaysLemmas::plain_more, crate::proofs::SaysLemmas::run_within, crate::proofs::SaysLemmas::run_front))]
#[inline(always)]
fn plain_run(units: &[u16]) -> ArrayVec<u8, RUN>
    ensures within { length result.items ≤ length units.now }
    ensures plain { result.items ≡ flat_map quoted_unit (take (length result.items) units.now) }
{
    let mut run = ArrayVec::new();
    for unit in units {
        if run.is_full() || !is_plain(*unit) {
            return run;
        }
        run.push(*unit as u8);
    }
    run
}

/// Puts a unit of a quoted text.
fn put_unit<W: Sink>(outbox: &mut Outbox, sink: &mut W, unit: u16)
    ensures { PutsTo W.gone_out W.has_failed outbox.old outbox.new sink.old sink.new (quoted_unit unit) }
{
    outbox.put(sink, quoted_unit(unit).as_slice());
}
