//! The words of an answer: those of the line of `check`, with the class that was refused.
ghost use Rattle.std.specs.Prelude.{◌++◌, ◌∷◌};
ghost use Rattle.jser_printer.specs.Says.{SaysTo};
ghost use Rattle.jser_reader.specs.ReasonNames.{reason_name};
ghost use Rattle.jser_scan.specs.Answers.{count_words, counts_words, place_words, class_words, fault_words, answer_words};

use crate::found::Found;
use jser_inputs::InputFault;
use jser_prim::{Outbox, Sink};
use jser_printer::{write, write_decimal, write_quoted};
use jser_reader::{Reason, Totals};

/// Writes what was found.
#[tactic(auto, using(crate::proofs::ScanLemmas::says_refused, crate::proofs::ScanLemmas::says_hidden))]
pub fn write_answer<W: Sink>(outbox: &mut Outbox, sink: &mut W, found: &Found)
    ensures { SaysTo W.gone_out W.has_failed outbox.old outbox.new sink.old sink.new (λ k. answer_words found.now k) }
{
    match found {
        Found::Accepted(totals) => write_counts(outbox, sink, *totals),
        Found::Refused { refusal, class } => {
            write_place(outbox, sink, refusal.from_byte, refusal.to_byte);
            write_reason(outbox, sink, refusal.reason);
            write_class(outbox, sink, class);
        }
        Found::Hidden {
            from_byte,
            to_byte,
            class,
        } => {
            write_place(outbox, sink, *from_byte, *to_byte);
            write(outbox, sink, b"HiddenName");
            write_class(outbox, sink, class);
        }
        Found::NotOpened => write(outbox, sink, b"cannot open"),
        Found::NotRead(fault) => write_fault(outbox, sink, *fault),
        Found::OutOfMemory => write(outbox, sink, b"out of memory"),
    }
}

/// Writes some words and a number.
pub fn write_count<W: Sink>(outbox: &mut Outbox, sink: &mut W, words: &[u8], count: u64)
    ensures { SaysTo W.gone_out W.has_failed outbox.old outbox.new sink.old sink.new (λ k. count_words words.now count k) }
{
    write(outbox, sink, words);
    write_decimal(outbox, sink, count);
}

/// Writes the counts of a stream.
fn write_counts<W: Sink>(outbox: &mut Outbox, sink: &mut W, totals: Totals)
    ensures { SaysTo W.gone_out W.has_failed outbox.old outbox.new sink.old sink.new (λ k. counts_words totals k) }
{
    write_count(outbox, sink, b"yes ", totals.bytes);
    write_count(outbox, sink, b" bytes, ", totals.contents);
    write_count(outbox, sink, b" contents, ", totals.refs);
    write_count(outbox, sink, b" refs, depth ", totals.depth);
}

/// Writes where a fault is.
fn write_place<W: Sink>(outbox: &mut Outbox, sink: &mut W, from: u64, to: u64)
    ensures { SaysTo W.gone_out W.has_failed outbox.old outbox.new sink.old sink.new (λ k. place_words from to k) }
{
    write_count(outbox, sink, b"no at ", from);
    write_count(outbox, sink, b" to ", to);
    write(outbox, sink, b": ");
}

/// Writes a reason.
pub(crate) fn write_reason<W: Sink>(outbox: &mut Outbox, sink: &mut W, reason: Reason)
    ensures { SaysTo W.gone_out W.has_failed outbox.old outbox.new sink.old sink.new (λ k. reason_name reason ++ k) }
{
    write(outbox, sink, reason.name().as_bytes());
}

/// Writes the class that was refused, if there is one.
#[tactic(auto, using(crate::proofs::ScanLemmas::says_class))]
fn write_class<W: Sink>(outbox: &mut Outbox, sink: &mut W, class: &Option<Vec<u16>>)
    ensures { SaysTo W.gone_out W.has_failed outbox.old outbox.new sink.old sink.new (λ k. class_words class.now k) }
{
    match class {
        Some(units) => {
            write(outbox, sink, b" ");
            write_quoted(outbox, sink, units.as_slice());
        }
        None => write(outbox, sink, b""),
    }
}

/// Writes why a file was not read.
fn write_fault<W: Sink>(outbox: &mut Outbox, sink: &mut W, fault: InputFault)
    ensures { SaysTo W.gone_out W.has_failed outbox.old outbox.new sink.old sink.new (λ k. fault_words fault k) }
{
    match fault {
        InputFault::Failed => write(outbox, sink, b"read failed"),
        InputFault::NotHexadecimal { at } => write_count(outbox, sink, b"not hexadecimal at ", at),
        InputFault::NotBase64 { at } => write_count(outbox, sink, b"not base64 at ", at),
    }
}
