//! The printer: where it stands in a stream, in a phase before what is open.
ghost use Rattle.std.specs.Prelude.{◌≡◌, Bool, Some, OnOk, OnErr};
ghost use Rattle.jser_reading.specs.Labels.{StreamToken, text_token};
ghost use Rattle.jser_shown.specs.Telling.{begin_telling, goes, says, settle_says, settled};
ghost use Rattle.jser_printer.specs.Given.{IsOf, view_nodes};
ghost use Rattle.jser_printer.specs.Passing.{MarksAre, says_next};
ghost use Rattle.jser_printer.specs.Says.{BeginsTo, SaysTo};
ghost use Rattle.jser_printer.specs.Seen.{Sees};

mod descriptors;
mod passing;
mod taking;

use crate::draft::Draft;
use crate::owner::OwnerNode;
use crate::phase::Phase;
use crate::seen::{Seen, see};
use crate::standing::Standing;
use crate::text::{Plain, Text};
use crate::token::Token;
use crate::words::number::write_mark_line;
use crate::words::quote::write_plain_line;
use crate::words::tag::Marks;
use jser_prim::{Outbox, Sink};
use std::alloc::{AllocError, Global};
use std::marker::Model;

/// Goes along the tokens of a stream, and writes what `show` says of them.
///
/// It asks no token whether it is right: of other tokens than those of a stream it writes something else, and never stops.
/// What it keeps is the table of handles of the epoch, with the names of classes and fields, and the stack of what is open.
#[derive(Drop)]
pub struct Printer<'a> {
    pub(crate) phase: Phase,
    pub(crate) draft: Draft,
    pub(crate) standing: Standing<'a>,
}

impl<'a> Model for Printer<'a> {
    ghost use Rattle.jser_shown.specs.Cues.{Teller};
    ghost use Rattle.jser_printer.specs.Phases.{in_phase};

    ghost Value = { Teller };

    ghost view = { λ a. in_phase a.phase a.draft.name a.draft.done a.standing };
}

impl<'a> Printer<'a> {
    /// A printer that has gone along no token. Takes no memory.
    ///
    /// `values` says whether raw values are followed by what they mean. `owners` are the nodes of all owners of the stream in
    /// the order of their tags.
    pub fn new(alloc: Global, values: bool, owners: &'a [OwnerNode]) -> Printer<'a>
        ensures { result ≡ begin_telling values (view_nodes owners.now) }
    {
        Printer {
            phase: Phase::Header,
            draft: Draft::new(alloc),
            standing: Standing::new(alloc, values, owners),
        }
    }

    /// Writes all that is due before a token, and then the token, and goes past it: what the teller says of it, and where it
    /// goes.
    ///
    /// # Errors
    ///
    /// Where memory runs out. What was written before is a beginning of that, and the printer is of no use then.
    #[inline(always)]
    pub fn write_next<W: Sink>(
        &mut self,
        outbox: &mut Outbox,
        sink: &mut W,
        token: Token<'_>,
    ) -> Result<(), AllocError>
        ensures said { OnOk result ((told : StreamToken) → IsOf token.entry told
            → SaysTo W.gone_out W.has_failed outbox.old outbox.new sink.old sink.new (λ k. says_next self.old told k)) }
        ensures goes { OnOk result ((told : StreamToken) → IsOf token.entry told → self.new ≡ goes (settled self.old) told) }
        ensures front { OnErr result ((told : StreamToken) → IsOf token.entry told
            → BeginsTo W.gone_out W.has_failed outbox.old outbox.new sink.old sink.new (λ k. says_next self.old told k)) }
    {
        match see(token) {
            Some(Seen::Handle(number)) => self.write_handle(outbox, sink, number),
            Some(seen) => self.write_seen(outbox, sink, seen),
            None => Ok(()),
        }
    }

    /// Writes the handle of a reference, with all that is due before it.
    #[tactic(auto, using(crate::proofs::WalkLemmas::says_handle, crate::proofs::WalkLemmas::goes_handle, crate::proofs::WalkLemmas::says_class_handle, crate::proofs::WalkLemmas::goes_class_handle, crate::proofs::StepLemmas::begins_all))]
    #[inline(always)]
    fn write_handle<W: Sink>(
        &mut self,
        outbox: &mut Outbox,
        sink: &mut W,
        number: usize,
    ) -> Result<(), AllocError>
        ensures said { OnOk result ((told : StreamToken) → Sees (Some (Seen.Handle number)) told
            → SaysTo W.gone_out W.has_failed outbox.old outbox.new sink.old sink.new (λ k. says_next self.old told k)) }
        ensures goes { OnOk result ((told : StreamToken) → Sees (Some (Seen.Handle number)) told → self.new ≡ goes (settled self.old) told) }
        ensures front { OnErr result ((told : StreamToken) → Sees (Some (Seen.Handle number)) told
            → BeginsTo W.gone_out W.has_failed outbox.old outbox.new sink.old sink.new (λ k. says_next self.old told k)) }
    {
        // Nothing is due before the handle of a value or of a class.
        match self.phase {
            Phase::Handle => {
                write_mark_line(outbox, sink, self.standing.epoch(), number as u64);
                self.phase = Phase::Frames;
                Ok(())
            }
            Phase::ClassHandle { owner, level } => {
                write_mark_line(outbox, sink, self.standing.epoch(), number as u64);
                self.standing.end_class(owner, level, number)?;
                self.phase = Phase::Frames;
                Ok(())
            }
            _ => self.write_seen(outbox, sink, Seen::Handle(number)),
        }
    }

    /// Writes a text that is given by its bytes, with all that is due before it, and goes past it.
    ///
    /// # Errors
    ///
    /// As `write_next`.
    #[inline(always)]
    pub fn write_plain<W: Sink>(
        &mut self,
        outbox: &mut Outbox,
        sink: &mut W,
        plain: Plain<'_>,
    ) -> Result<(), AllocError>
        ensures said { OnOk result ((long : Bool)
            → SaysTo W.gone_out W.has_failed outbox.old outbox.new sink.old sink.new (λ k. says_next self.old (text_token long plain.entry.bytes.now) k)) }
        ensures goes { OnOk result ((long : Bool) → self.new ≡ goes (settled self.old) (text_token long plain.entry.bytes.now)) }
        ensures front { OnErr result ((long : Bool)
            → BeginsTo W.gone_out W.has_failed outbox.old outbox.new sink.old sink.new (λ k. says_next self.old (text_token long plain.entry.bytes.now) k)) }
    {
        if let Phase::Text = self.phase {
            // Nothing is due before the units of a string, and most texts are those.
            write_plain_line(outbox, sink, plain);
            self.phase = Phase::Frames;
            return Ok(());
        }
        self.write_seen(outbox, sink, Seen::Text(Text::Plain(plain)))
    }

    /// Writes all that is due before the next token, and settles.
    ///
    /// # Errors
    ///
    /// Where memory runs out. What was written before is a beginning of what is due.
    #[inline(always)]
    pub fn write_all_due<W: Sink>(
        &mut self,
        outbox: &mut Outbox,
        sink: &mut W,
    ) -> Result<(), AllocError>
        ensures said { OnOk result (SaysTo W.gone_out W.has_failed outbox.old outbox.new sink.old sink.new (λ k. settle_says self.old.known self.old.cues k)) }
        ensures settled { OnOk result (self.new ≡ settled self.old) }
        ensures front { OnErr result (BeginsTo W.gone_out W.has_failed outbox.old outbox.new sink.old sink.new (λ k. settle_says self.old.known self.old.cues k)) }
    {
        'dues: while self.write_one_due(outbox, sink)? {}
        Ok(())
    }

    /// Writes what is seen of a token, with all that is due before it.
    #[inline(never)]
    fn write_seen<W: Sink>(
        &mut self,
        outbox: &mut Outbox,
        sink: &mut W,
        seen: Seen<'_>,
    ) -> Result<(), AllocError>
        ensures said { OnOk result ((told : StreamToken) → Sees (Some seen.entry) told
            → SaysTo W.gone_out W.has_failed outbox.old outbox.new sink.old sink.new (λ k. says_next self.old told k)) }
        ensures goes { OnOk result ((told : StreamToken) → Sees (Some seen.entry) told → self.new ≡ goes (settled self.old) told) }
        ensures front { OnErr result ((told : StreamToken) → Sees (Some seen.entry) told
            → BeginsTo W.gone_out W.has_failed outbox.old outbox.new sink.old sink.new (λ k. says_next self.old told k)) }
    {
        self.write_all_due(outbox, sink)?;
        self.write_settled(outbox, sink, seen)
    }

    /// Writes what is seen of a token, where nothing is due.
    #[tactic(auto, using(crate::proofs::WalkLemmas::goes_seen))]
    #[inline(always)]
    fn write_settled<W: Sink>(
        &mut self,
        outbox: &mut Outbox,
        sink: &mut W,
        seen: Seen<'_>,
    ) -> Result<(), AllocError>
        ensures said { (told : StreamToken) → Sees (Some seen.entry) told
            → SaysTo W.gone_out W.has_failed outbox.old outbox.new sink.old sink.new (λ k. says self.old told k) }
        ensures goes { OnOk result ((told : StreamToken) → Sees (Some seen.entry) told → self.new ≡ goes self.old told) }
    {
        let marks = self.marks();
        self.write_here(outbox, sink, marks, seen)
    }

    /// What the words of a tag need of the printer.
    #[inline(always)]
    fn marks(&self) -> Marks
        ensures { MarksAre result self.now }
    {
        Marks {
            epoch: self.standing.epoch(),
            values: self.standing.values(),
            next: self.standing.count() as u64,
            owner: self.standing.first_owner(),
        }
    }
}
