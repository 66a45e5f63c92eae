//! What was found of a file as a JSON object.
ghost use Rattle.std.specs.Prelude.{◌++◌};
ghost use Rattle.jser_printer.specs.Says.{SaysTo};
ghost use Rattle.jser_scan.specs.Json.{object_words, report_words, more_report_words, refusal_words, error_words, class_member, found_members};

use crate::answer::{write_answer, write_count, write_reason};
use crate::found::Found;
use crate::json_text::write_json_text;
use crate::path::FilePath;
use jser_prim::{Outbox, Sink};
use jser_printer::{write, write_quoted};
use jser_reader::{Refusal, Totals};

/// Writes the object of a file, on a line.
pub(crate) fn write_object<W: Sink>(
    outbox: &mut Outbox,
    sink: &mut W,
    path: &FilePath,
    found: &Found,
)
    ensures { SaysTo W.gone_out W.has_failed outbox.old outbox.new sink.old sink.new (λ k. object_words path.now found.now k) }
{
    write(outbox, sink, b"{\"path\":");
    write_quoted(outbox, sink, path.units.as_slice());
    write_members(outbox, sink, found);
    write(outbox, sink, b"}\n");
}

/// Writes the members behind the path.
#[tactic(auto, using(crate::proofs::ScanLemmas::members_refused, crate::proofs::ScanLemmas::members_hidden))]
pub fn write_members<W: Sink>(outbox: &mut Outbox, sink: &mut W, found: &Found)
    ensures { SaysTo W.gone_out W.has_failed outbox.old outbox.new sink.old sink.new (λ k. found_members found.now k) }
{
    match found {
        Found::Accepted(totals) => write_report(outbox, sink, *totals),
        Found::Refused { refusal, class } => {
            write_refusal(outbox, sink, *refusal);
            write_class(outbox, sink, class);
        }
        Found::Hidden {
            from_byte,
            to_byte,
            class,
        } => {
            write_count(outbox, sink, b",\"answer\":\"no\",\"from\":", *from_byte);
            write_count(outbox, sink, b",\"to\":", *to_byte);
            write(outbox, sink, b",\"reason\":\"HiddenName\"");
            write_class(outbox, sink, class);
        }
        Found::NotOpened | Found::NotRead(_) | Found::OutOfMemory => write_error(
            outbox, sink, found,
        ),
    }
}

/// Writes the counts of a stream.
fn write_report<W: Sink>(outbox: &mut Outbox, sink: &mut W, totals: Totals)
    ensures { SaysTo W.gone_out W.has_failed outbox.old outbox.new sink.old sink.new (λ k. report_words totals k) }
{
    write_count(
        outbox,
        sink,
        b",\"answer\":\"yes\",\"bytes\":",
        totals.bytes,
    );
    write_count(outbox, sink, b",\"contents\":", totals.contents);
    write_more_report(outbox, sink, totals);
}

/// Writes the other counts.
fn write_more_report<W: Sink>(outbox: &mut Outbox, sink: &mut W, totals: Totals)
    ensures { SaysTo W.gone_out W.has_failed outbox.old outbox.new sink.old sink.new (λ k. more_report_words totals k) }
{
    write_count(outbox, sink, b",\"refs\":", totals.refs);
    write_count(outbox, sink, b",\"depth\":", totals.depth);
    write_count(outbox, sink, b",\"handles\":", totals.handles);
}

/// Writes a refusal.
fn write_refusal<W: Sink>(outbox: &mut Outbox, sink: &mut W, refusal: Refusal)
    ensures { SaysTo W.gone_out W.has_failed outbox.old outbox.new sink.old sink.new (λ k. refusal_words refusal k) }
{
    write_count(
        outbox,
        sink,
        b",\"answer\":\"no\",\"from\":",
        refusal.from_byte,
    );
    write_count(outbox, sink, b",\"to\":", refusal.to_byte);
    write(outbox, sink, b",\"reason\":\"");
    write_reason(outbox, sink, refusal.reason);
    write(outbox, sink, b"\"");
}

/// Writes the class that was refused, if there is one.
#[tactic(auto, using(crate::proofs::ScanLemmas::member_class))]
fn write_class<W: Sink>(outbox: &mut Outbox, sink: &mut W, class: &Option<Vec<u16>>)
    ensures { SaysTo W.gone_out W.has_failed outbox.old outbox.new sink.old sink.new (λ k. class_member class.now k) }
{
    match class {
        Some(units) => {
            write(outbox, sink, b",\"class\":");
            write_json_text(outbox, sink, units.as_slice());
        }
        None => write(outbox, sink, b""),
    }
}

/// Writes why a file was not read.
fn write_error<W: Sink>(outbox: &mut Outbox, sink: &mut W, found: &Found)
    ensures { SaysTo W.gone_out W.has_failed outbox.old outbox.new sink.old sink.new (λ k. error_words found.now k) }
{
    write(outbox, sink, b",\"error\":\"");
    write_answer(outbox, sink, found);
    write(outbox, sink, b"\"");
}
