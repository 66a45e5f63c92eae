//! Tokens, by the phase.
ghost use Rattle.std.specs.Prelude.{◌≡◌, OnOk};
ghost use Rattle.jser_shown.specs.Telling.{block_length_says, block_says, goes_in, handle_says, header_says, string_says};
ghost use Rattle.jser_printer.specs.TokenWords.{token_words};
ghost use Rattle.jser_printer.specs.Phases.{Leads, in_phase, phase_cues};
ghost use Rattle.jser_printer.specs.Says.{SaysTo};
ghost use Rattle.jser_printer.specs.Seen.{view_seen};

use crate::draft::Draft;
use crate::phase::Phase;
use crate::printer::Printer;
use crate::printer::descriptors::{
    take_field_count, take_interface_count, write_class_field, write_class_name, write_field_name,
    write_flags, write_interface, write_suid,
};
use crate::seen::Seen;
use crate::standing::Standing;
use crate::words::line::write;
use crate::words::number::write_mark_line;
use crate::words::quote::write_text_line;
use crate::words::tag::Marks;
use crate::words::value::{write_block_length, write_raw};
use jser_prim::{Outbox, Sink};
use std::alloc::AllocError;

/// The header of the stream.
#[tactic(auto, using(crate::proofs::SaysLemmas::says_nothing))]
#[inline(always)]
fn write_header<W: Sink>(outbox: &mut Outbox, sink: &mut W, seen: Seen<'_>) -> Phase
    ensures said { SaysTo W.gone_out W.has_failed outbox.old outbox.new sink.old sink.new (λ k. header_says (view_seen seen.entry) k) }
    ensures leads { Leads Phase.Header result (view_seen seen.entry) }
{
    match seen {
        Seen::Header => {
            write(outbox, sink, b"stream version 5\n");
            Phase::Frames
        }
        _ => Phase::Header,
    }
}

/// The handle of a reference.
#[tactic(auto, using(crate::proofs::SaysLemmas::says_nothing))]
#[inline(always)]
fn write_handle<W: Sink>(outbox: &mut Outbox, sink: &mut W, epoch: u64, seen: Seen<'_>) -> Phase
    ensures said { SaysTo W.gone_out W.has_failed outbox.old outbox.new sink.old sink.new (λ k. handle_says epoch (view_seen seen.entry) k) }
    ensures leads { Leads Phase.Handle result (view_seen seen.entry) }
{
    match seen {
        Seen::Handle(number) => {
            write_mark_line(outbox, sink, epoch, number as u64);
            Phase::Frames
        }
        _ => Phase::Handle,
    }
}

/// The units of a string.
#[tactic(auto, using(crate::proofs::SaysLemmas::says_nothing))]
#[inline(always)]
fn write_string<W: Sink>(outbox: &mut Outbox, sink: &mut W, seen: Seen<'_>) -> Phase
    ensures said { SaysTo W.gone_out W.has_failed outbox.old outbox.new sink.old sink.new (λ k. string_says (view_seen seen.entry) k) }
    ensures leads { Leads Phase.Text result (view_seen seen.entry) }
{
    match seen {
        Seen::Text(text) => {
            write_text_line(outbox, sink, text);
            Phase::Frames
        }
        _ => Phase::Text,
    }
}

/// The length of a block.
#[tactic(auto, using(crate::proofs::SaysLemmas::says_nothing))]
#[inline(always)]
fn write_length<W: Sink>(outbox: &mut Outbox, sink: &mut W, seen: Seen<'_>) -> Phase
    ensures said { SaysTo W.gone_out W.has_failed outbox.old outbox.new sink.old sink.new (λ k. block_length_says (view_seen seen.entry) k) }
    ensures leads { Leads Phase.BlockLength result (view_seen seen.entry) }
{
    match seen {
        Seen::BlockLength(length) => {
            write_block_length(outbox, sink, length);
            if length == 0 {
                Phase::Frames
            } else {
                Phase::Block
            }
        }
        _ => Phase::BlockLength,
    }
}

/// The bytes of a block.
#[tactic(auto, using(crate::proofs::SaysLemmas::says_nothing))]
#[inline(always)]
fn write_block<W: Sink>(outbox: &mut Outbox, sink: &mut W, seen: Seen<'_>) -> Phase
    ensures said { SaysTo W.gone_out W.has_failed outbox.old outbox.new sink.old sink.new (λ k. block_says (view_seen seen.entry) k) }
    ensures leads { Leads Phase.Block result (view_seen seen.entry) }
{
    match seen {
        Seen::Bytes(bytes) => {
            write_raw(outbox, sink, bytes);
            Phase::Frames
        }
        _ => Phase::Block,
    }
}

/// Writes what is seen of a token in this phase, and goes past it to the phase behind it.
#[tactic(auto, using(crate::proofs::SaysLemmas::says_nothing))]
#[inline(always)]
fn write_in_phase<W: Sink>(
    outbox: &mut Outbox,
    sink: &mut W,
    marks: Marks,
    phase: &mut Phase,
    draft: &mut Draft,
    standing: &mut Standing<'_>,
    seen: Seen<'_>,
) -> Result<(), AllocError>
    ensures said { SaysTo W.gone_out W.has_failed outbox.old outbox.new sink.old sink.new (λ k. token_words marks (phase_cues phase.old draft.old.name draft.old.done standing.old.cues) (view_seen seen.entry) k) }
    ensures goes { OnOk result (in_phase phase.new draft.new.name draft.new.done standing.new ≡ goes_in standing.old.epoch standing.old.known standing.old.owners (phase_cues phase.old draft.old.name draft.old.done standing.old.cues) (view_seen seen.entry)) }
{
    match *phase {
        Phase::Frames => *phase = standing.write_field(outbox, sink, marks, seen)?,
        Phase::Header => *phase = write_header(outbox, sink, seen),
        Phase::Handle => *phase = write_handle(outbox, sink, marks.epoch, seen),
        Phase::Text => *phase = write_string(outbox, sink, seen),
        Phase::BlockLength => *phase = write_length(outbox, sink, seen),
        Phase::Block => *phase = write_block(outbox, sink, seen),
        Phase::ArrayLength { level, elements } => {
            *phase = standing.take_array_length(level, elements, seen)?;
        }
        Phase::EnumName { level } => {
            *phase = standing.write_enum_name(outbox, sink, marks, level, seen)?;
        }
        Phase::Class { owner, level } => {
            *phase = standing.write_class(outbox, sink, marks, owner, level, seen)?;
        }
        Phase::ClassHandle { owner, level } => {
            *phase = standing.write_class_handle(outbox, sink, marks.epoch, owner, level, seen)?;
        }
        Phase::ClassName { level } => *phase = write_class_name(outbox, sink, draft, level, seen)?,
        Phase::Suid { level } => *phase = write_suid(outbox, sink, standing, level, seen)?,
        Phase::Flags { head } => *phase = write_flags(outbox, sink, head, seen),
        Phase::FieldCount { head, flags } => *phase = take_field_count(draft, head, flags, seen),
        Phase::Fields {
            head,
            flags,
            left,
            over,
        } => *phase = write_class_field(
            outbox, sink, marks, standing, head, flags, left, over, seen,
        )?,
        Phase::FieldName {
            head,
            flags,
            code,
            left,
        } => *phase = write_field_name(outbox, sink, draft, head, flags, code, left, seen)?,
        Phase::InterfaceCount { head } => *phase = take_interface_count(head, seen),
        Phase::Interfaces { head, left } => *phase = write_interface(
            outbox, sink, head, left, seen,
        ),
    }
    Ok(())
}

impl<'a> Printer<'a> {
    /// Writes what is seen of a token, and goes past it.
    ///
    /// # Errors
    ///
    /// Where memory runs out. What the teller says of the token was written then.
    #[inline(always)]
    pub(crate) fn write_here<W: Sink>(
        &mut self,
        outbox: &mut Outbox,
        sink: &mut W,
        marks: Marks,
        seen: Seen<'_>,
    ) -> Result<(), AllocError>
        ensures said { SaysTo W.gone_out W.has_failed outbox.old outbox.new sink.old sink.new (λ k. token_words marks self.old.cues (view_seen seen.entry) k) }
        ensures goes { OnOk result (self.new ≡ goes_in self.old.epoch self.old.known self.old.owners self.old.cues (view_seen seen.entry)) }
    {
        write_in_phase(
            outbox,
            sink,
            marks,
            &mut self.phase,
            &mut self.draft,
            &mut self.standing,
            seen,
        )
    }
}
