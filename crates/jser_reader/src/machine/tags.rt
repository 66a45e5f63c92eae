//! Tags where a content or a value may stand: at the top, in an annotation, in a field or an element.
ghost use Rattle.std.specs.Prelude.{◌≡◌, ◌∷◌, [], suc, length, true, Some, None};
ghost use Rattle.jser_reading.specs.TokensFromBytes.{tag_from};
ghost use Rattle.jser_reading.specs.Labels.{top_at, annotation_at, value_at, reset_tag_token};
ghost use Rattle.jser_verdict.specs.Verdicts.{content_reason, inner_reason};
ghost use Rattle.jser_reader.specs.Readers.{HasNotes, block_phase};
ghost use Rattle.jser_reader.specs.Handlers.{Tells, IsNext, Comes, plain_gate, label_at, after_content, after_end};
ghost use Rattle.jser_reader.specs.Steps.{after_value};

use crate::frame::Frame;
use crate::machine::Machine;
use crate::machine::flow::Flow;
use crate::phase::Phase;
use crate::refusal::Reason;
use crate::tag::{Tag, tag_of};

impl Machine {
    /// The length of a block comes next, in one byte, or in four in the long form.
    #[inline(always)]
    fn next_block(&mut self, long: bool) -> Flow
        ensures next { IsNext (block_phase long) self.old.owner self.old.elements self.old.header self.old.text self.old self.new }
        ensures result { result ≡ Flow.On }
    {
        if long {
            return self.done(Phase::BlockLength4);
        }
        self.done(Phase::BlockLength1)
    }

    /// A tag at the top of the stream.
    #[tactic(auto, using(crate::proofs::TagLemmas::no_top_tag, crate::proofs::TagLemmas::top_value, crate::proofs::TagLemmas::top_block, crate::proofs::TagLemmas::top_reset, crate::proofs::TagLemmas::top_end, crate::proofs::TagLemmas::top_exception))]
    #[inline(always)]
    pub(super) fn top(&mut self, byte: u8) -> Flow
        ensures { self.old.frames ≡ [] → Tells (content_reason (plain_gate self.old) (label_at top_at 1 self.old) byte) (after_content self.old (tag_from byte)) result self.old self.new }
    {
        match tag_of(byte) {
            None => self.refuse(Reason::BadTag),
            Some(Tag::Value(tag)) => self.place(tag),
            Some(Tag::Block(long)) => self.next_block(long),
            Some(Tag::Reset) => self.reset(),
            Some(Tag::EndBlockData) => self.refuse(Reason::BadTag),
            Some(Tag::Exception) => self.refuse(Reason::ExceptionTag),
        }
    }

    /// A tag in an annotation.
    #[tactic(auto, using(crate::proofs::TagLemmas::no_note_tag, crate::proofs::TagLemmas::note_value, crate::proofs::TagLemmas::note_block, crate::proofs::TagLemmas::note_end, crate::proofs::TagLemmas::note_reset, crate::proofs::TagLemmas::note_exception))]
    #[inline(always)]
    pub(super) fn note(&mut self, byte: u8) -> Flow
        ensures { HasNotes self.old.frames → Tells (inner_reason (plain_gate self.old) (label_at annotation_at (suc (length self.old.frames)) self.old) byte) (after_content self.old (tag_from byte)) result self.old self.new }
    {
        match tag_of(byte) {
            None => self.refuse(Reason::BadTag),
            Some(Tag::Value(tag)) => self.place(tag),
            Some(Tag::Block(long)) => self.next_block(long),
            Some(Tag::Reset) => self.refuse(Reason::ResetInside),
            Some(Tag::EndBlockData) => self.end_notes(),
            Some(Tag::Exception) => self.refuse(Reason::ExceptionTag),
        }
    }

    /// A tag in a value place: a field of an object, an element of an array.
    #[tactic(auto, using(crate::proofs::TagLemmas::no_value_tag, crate::proofs::TagLemmas::value_value, crate::proofs::TagLemmas::value_block, crate::proofs::TagLemmas::value_end, crate::proofs::TagLemmas::value_reset, crate::proofs::TagLemmas::value_exception))]
    #[inline(always)]
    pub(super) fn value(&mut self, byte: u8) -> Flow
        ensures { Tells (inner_reason (plain_gate self.old) (label_at value_at (suc (length self.old.frames)) self.old) byte) (after_content self.old (tag_from byte)) result self.old self.new }
    {
        match tag_of(byte) {
            None => self.refuse(Reason::BadTag),
            Some(Tag::Value(tag)) => self.place(tag),
            Some(Tag::Block(_)) => self.refuse(Reason::BadTag),
            Some(Tag::Reset) => self.refuse(Reason::ResetInside),
            Some(Tag::EndBlockData) => self.refuse(Reason::BadTag),
            Some(Tag::Exception) => self.refuse(Reason::ExceptionTag),
        }
    }

    /// `TC_RESET`: the table of handles is emptied. Nothing is open there.
    #[tactic(auto, using(crate::proofs::TagLemmas::resets, crate::proofs::LayerLemmas::no_layers))]
    fn reset(&mut self) -> Flow
        ensures reset { self.old.frames ≡ [] → Comes self.old self.new (after_content self.old (Some reset_tag_token)) }
        ensures result { result ≡ Flow.On }
    {
        self.frames.clear();
        self.outer.clear();
        self.table.reset();
        self.done(Phase::Top)
    }

    /// `TC_ENDBLOCKDATA`: the annotation on top has ended.
    #[tactic(auto, using(crate::proofs::TagLemmas::descriptor_ends, crate::proofs::TagLemmas::external_ends, crate::proofs::TagLemmas::section_ends, crate::proofs::TagLemmas::sections_end, crate::proofs::PartLemmas::fits_tail, crate::proofs::LayerLemmas::other_is_part, crate::proofs::LayerLemmas::layers_of_tail))]
    #[inline(always)]
    fn end_notes(&mut self) -> Flow
        ensures end { HasNotes self.old.frames → Comes self.old self.new (after_end self.old) }
        ensures result { result ≡ Flow.On }
    {
        let Some(frame) = self.frames.top() else {
            return self.ended();
        };
        match frame {
            Frame::Descriptor { .. } => self.done(Phase::SuperTag),
            Frame::Notes { last, section } => {
                self.from = self.at;
                if !self.next_section(last, section) {
                    self.frames.pop();
                    self.value_done();
                }
                Flow::On
            }
            _ => {
                self.frames.pop();
                self.ended()
            }
        }
    }
}
