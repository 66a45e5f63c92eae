//! Tokens in the places of owners: their classes, and what stands behind these.
ghost use Rattle.std.specs.Prelude.{IfOk, codes};
ghost use Rattle.jser_shown.specs.Telling.{class_goes, class_handle_goes, handle_says, length_goes, name_goes, worded_says};
ghost use Rattle.jser_printer.specs.Given.{view_node, view_owner};
ghost use Rattle.jser_printer.specs.Primitives.{view_elements};
ghost use Rattle.jser_printer.specs.Says.{SaysTo};
ghost use Rattle.jser_printer.specs.Seen.{view_seen};
ghost use Rattle.jser_printer.specs.Phases.{StandsIn};

use crate::owner::Owner;
use crate::phase::Phase;
use crate::primitive::Primitive;
use crate::seen::Seen;
use crate::standing::Standing;
use crate::words::number::write_mark_line;
use crate::words::tag::Marks;
use crate::words::tagged::write_worded_tag;
use jser_prim::{Outbox, Sink};
use std::alloc::AllocError;

impl<'a> Standing<'a> {
    /// The number of elements of an array.
    #[inline(always)]
    pub(crate) fn take_array_length(
        &mut self,
        level: u64,
        elements: Option<Primitive>,
        seen: Seen<'_>,
    ) -> Result<Phase, AllocError>
        ensures { IfOk result (λ phase. StandsIn phase self.new (length_goes self.old.epoch self.old.known self.old.owners self.old.cues level (view_elements elements) (view_seen seen.entry))) }
    {
        let Seen::ArrayLength(length) = seen else {
            return Ok(Phase::ArrayLength { level, elements });
        };
        self.begin_elements(level, elements, length)?;
        Ok(Phase::Frames)
    }

    /// The tag in the place of the name of an enum constant.
    #[tactic(auto, using(crate::proofs::SaysLemmas::says_nothing))]
    #[inline(always)]
    pub(crate) fn write_enum_name<W: Sink>(
        &mut self,
        outbox: &mut Outbox,
        sink: &mut W,
        marks: Marks,
        level: u64,
        seen: Seen<'_>,
    ) -> Result<Phase, AllocError>
        ensures said { SaysTo W.gone_out W.has_failed outbox.old outbox.new sink.old sink.new (λ k. worded_says marks.epoch marks.next (view_node marks.owner) level (codes "name ") (view_seen seen.entry) k) }
        ensures goes { IfOk result (λ phase. StandsIn phase self.new (name_goes self.old.epoch self.old.known self.old.owners self.old.cues level (view_seen seen.entry))) }
    {
        match seen {
            Seen::Tag(tag) => {
                write_worded_tag(outbox, sink, marks, level, b"name ", tag);
                self.begin(level, tag)
            }
            _ => Ok(Phase::EnumName { level }),
        }
    }

    /// The tag in the class place of an owner.
    #[tactic(auto, using(crate::proofs::SaysLemmas::says_nothing))]
    #[inline(always)]
    pub(crate) fn write_class<W: Sink>(
        &mut self,
        outbox: &mut Outbox,
        sink: &mut W,
        marks: Marks,
        owner: Owner,
        level: u64,
        seen: Seen<'_>,
    ) -> Result<Phase, AllocError>
        ensures said { SaysTo W.gone_out W.has_failed outbox.old outbox.new sink.old sink.new (λ k. worded_says marks.epoch marks.next (view_node marks.owner) level (codes "class ") (view_seen seen.entry) k) }
        ensures goes { IfOk result (λ phase. StandsIn phase self.new (class_goes self.old.epoch self.old.known self.old.owners self.old.cues (view_owner owner) level (view_seen seen.entry))) }
    {
        match seen {
            Seen::Tag(tag) => {
                write_worded_tag(outbox, sink, marks, level, b"class ", tag);
                self.begin_class(owner, level, tag)
            }
            _ => Ok(Phase::Class { owner, level }),
        }
    }

    /// The handle of a reference in the class place of an owner.
    #[tactic(auto, using(crate::proofs::SaysLemmas::says_nothing))]
    #[inline(always)]
    pub(crate) fn write_class_handle<W: Sink>(
        &mut self,
        outbox: &mut Outbox,
        sink: &mut W,
        epoch: u64,
        owner: Owner,
        level: u64,
        seen: Seen<'_>,
    ) -> Result<Phase, AllocError>
        ensures said { SaysTo W.gone_out W.has_failed outbox.old outbox.new sink.old sink.new (λ k. handle_says epoch (view_seen seen.entry) k) }
        ensures goes { IfOk result (λ phase. StandsIn phase self.new (class_handle_goes self.old.epoch self.old.known self.old.owners self.old.cues (view_owner owner) level (view_seen seen.entry))) }
    {
        let Seen::Handle(number) = seen else {
            return Ok(Phase::ClassHandle { owner, level });
        };
        write_mark_line(outbox, sink, epoch, number as u64);
        self.end_class(owner, level, number)?;
        Ok(Phase::Frames)
    }
}
