//! Tokens that a frame belongs to.
ghost use Rattle.std.specs.Prelude.{◌≡◌, ◌∷◌, ◌+◌, ◌<◌, ℕ, List, [], length, option_map, codes, None, OnOk, IfOk};
ghost use Rattle.jser_shown.specs.Owners.{OwnerNode as ToldNode};
ghost use Rattle.jser_shown.specs.Cues.{teller, top_cue, note_cue, elements_cue};
ghost use Rattle.jser_shown.specs.Telling.{elements_says, goes_in, handle_says, note_says, top_says, worded_says};
ghost use Rattle.jser_printer.specs.Given.{view_node};
ghost use Rattle.jser_printer.specs.Frames.{FramesFit, FirstIs, TakesPart, cues_of, tail_of};
ghost use Rattle.jser_printer.specs.TokenWords.{cue_words, token_words};
ghost use Rattle.jser_shown.specs.Words.{Epoch, next_epoch};
ghost use Rattle.jser_printer.specs.Primitives.{view_elements};
ghost use Rattle.jser_printer.specs.Says.{SaysTo};
ghost use Rattle.jser_printer.specs.Seen.{view_seen, view_tag};
ghost use Rattle.jser_printer.specs.Phases.{StandsIn};

use crate::frame::{Elements, Frame, Sections, SuperPlace};
use crate::part::{Part, next_part};
use crate::phase::{Head, Phase};
use crate::seen::{Seen, Tag};
use crate::stack::Stack;
use crate::standing::{Standing, deeper};
use crate::table::NameTable;
use crate::words::line::write;
use crate::words::number::write_mark_line;
use crate::words::tag::{Marks, write_block_word, write_value_tag};
use crate::words::tagged::{
    write_element_tag, write_field_tag, write_note_block, write_worded_tag,
};
use crate::words::value::{write_raw_elements, write_raw_field};
use jser_prim::{Outbox, Sink};
use std::alloc::AllocError;

/// The token at the first part of the sections on top: that part is past, where the token is its, and this tag begins a
/// value.
#[tactic(auto, using(crate::proofs::TakeLemmas::raw_taken, crate::proofs::TakeLemmas::value_taken, crate::proofs::TakeLemmas::section_left, crate::proofs::TakeLemmas::notes_left, crate::proofs::TakeLemmas::end_left, crate::proofs::TakeLemmas::raw_said, crate::proofs::TakeLemmas::value_said))]
#[inline(always)]
fn write_part<W: Sink>(
    outbox: &mut Outbox,
    sink: &mut W,
    marks: Marks,
    table: &NameTable,
    frames: &mut Stack,
    at: Sections,
    seen: Seen<'_>,
) -> Option<Tag>
    requires chain_in { at.chain < length table.now.chains }
    requires fit { FramesFit (length table.now.layers) (length table.now.chains) frames.old }
    requires top { frames.old ≡ Frame.Sections at ∷ tail_of frames.old }
    ensures fit { FramesFit (length table.now.layers) (length table.now.chains) frames.new }
    ensures said { SaysTo W.gone_out W.has_failed outbox.old outbox.new sink.old sink.new (λ k. token_words marks (cues_of table.now.layers table.now.chains frames.old) (view_seen seen.entry) k) }
    ensures takes { TakesPart table.now.layers table.now.chains at.level frames.old frames.new (view_seen seen.entry) (option_map view_tag result) }
{
    let next = next_part(table, at.chain, at.index, at.stage);
    let others = Frame::Sections(at.go_on(next.index, next.stage));
    match next.part {
        Part::Raw(field) => {
            if let Seen::Bytes(bytes) = seen {
                write_raw_field(outbox, sink, marks.values, at.level, field, bytes);
                frames.set_top(others);
            }
            None
        }
        Part::Value(name) => {
            let Seen::Tag(tag) = seen else {
                return None;
            };
            write_field_tag(outbox, sink, marks, at.level, name, tag);
            frames.set_top(others);
            Some(tag)
        }
        Part::Section(_) => None,
        Part::Notes => None,
        Part::End => None,
    }
}

/// The tag in a superclass place, which is on top.
#[tactic(auto, using(crate::proofs::SaysLemmas::says_nothing, crate::proofs::TakeLemmas::goes_first, crate::proofs::PassLemmas::close_fits, crate::proofs::FrameLemmas::tail_fits))]
#[inline(always)]
fn write_superclass<W: Sink>(
    outbox: &mut Outbox,
    sink: &mut W,
    marks: Marks,
    table: &mut NameTable,
    frames: &mut Stack,
    at: SuperPlace,
    seen: Seen<'_>,
) -> Result<Phase, AllocError>
    requires layer_in { at.layer < length table.old.layers }
    requires fit { FramesFit (length table.old.layers) (length table.old.chains) frames.old }
    requires top { frames.old ≡ Frame.Super at ∷ tail_of frames.old }
    ensures fit { FramesFit (length table.new.layers) (length table.new.chains) frames.new }
    ensures said { SaysTo W.gone_out W.has_failed outbox.old outbox.new sink.old sink.new (λ k. worded_says marks.epoch marks.next (view_node marks.owner) at.level (codes "super ") (view_seen seen.entry) k) }
    ensures takes { IfOk result (λ phase. (e : Epoch) (os : List ToldNode) → StandsIn phase (teller e table.new.known os (cues_of table.new.layers table.new.chains frames.new)) (goes_in e table.old.known os (cues_of table.old.layers table.old.chains frames.old) (view_seen seen.entry))) }
{
    let Seen::Tag(tag) = seen else {
        return Ok(Phase::Frames);
    };
    write_worded_tag(outbox, sink, marks, at.level, b"super ", tag);
    match tag {
        Tag::Null => {
            table.close(at.number, None, at.layer)?;
            frames.pop();
            Ok(Phase::Frames)
        }
        Tag::ClassDesc => {
            let inner = deeper(at.level)?;
            frames.set_top(at.close(table.count()));
            Ok(Phase::ClassName { level: inner })
        }
        Tag::ProxyDesc => {
            let inner = deeper(at.level)?;
            let parent = table.count();
            frames.set_top(at.close(parent));
            table.add_pending()?;
            Ok(Phase::InterfaceCount {
                head: Head {
                    level: inner,
                    number: parent,
                },
            })
        }
        _ => {
            frames.set_top(Frame::SuperHandle(at));
            Ok(Phase::Frames)
        }
    }
}

/// The handle of a reference in a superclass place, which is on top.
#[tactic(auto, using(crate::proofs::SaysLemmas::says_nothing, crate::proofs::TakeLemmas::goes_first, crate::proofs::FrameLemmas::tail_fits))]
#[inline(always)]
fn write_superclass_handle<W: Sink>(
    outbox: &mut Outbox,
    sink: &mut W,
    epoch: u64,
    table: &NameTable,
    frames: &mut Stack,
    at: SuperPlace,
    seen: Seen<'_>,
)
    requires layer_in { at.layer < length table.now.layers }
    requires fit { FramesFit (length table.now.layers) (length table.now.chains) frames.old }
    requires top { frames.old ≡ Frame.SuperHandle at ∷ tail_of frames.old }
    ensures fit { FramesFit (length table.now.layers) (length table.now.chains) frames.new }
    ensures said { SaysTo W.gone_out W.has_failed outbox.old outbox.new sink.old sink.new (λ k. handle_says epoch (view_seen seen.entry) k) }
    ensures takes { TakesPart table.now.layers table.now.chains at.level frames.old frames.new (view_seen seen.entry) None }
{
    if let Seen::Handle(parent) = seen {
        write_mark_line(outbox, sink, epoch, parent as u64);
        frames.set_top(at.close(parent));
    }
}

impl<'a> Standing<'a> {
    /// Writes what is seen of a token, and goes past it.
    ///
    /// # Errors
    ///
    /// Where memory runs out. What the teller says of the token was written then.
    #[tactic(auto, using(crate::proofs::TakeLemmas::goes_first, crate::proofs::TakeLemmas::says_first, crate::proofs::TakeLemmas::says_last, crate::proofs::SaysLemmas::says_nothing, crate::proofs::FrameLemmas::top_fits))]
    #[inline(always)]
    pub(crate) fn write_field<W: Sink>(
        &mut self,
        outbox: &mut Outbox,
        sink: &mut W,
        marks: Marks,
        seen: Seen<'_>,
    ) -> Result<Phase, AllocError>
        ensures said { SaysTo W.gone_out W.has_failed outbox.old outbox.new sink.old sink.new (λ k. token_words marks self.old.cues (view_seen seen.entry) k) }
        ensures goes { IfOk result (λ phase. StandsIn phase self.new (goes_in self.old.epoch self.old.known self.old.owners self.old.cues (view_seen seen.entry))) }
    {
        match self.frames.top() {
            None => self.write_top(outbox, sink, marks, seen),
            Some(Frame::Notes { level }) => self.write_note(outbox, sink, marks, level, seen),
            Some(Frame::Elements(at)) => self.write_element(outbox, sink, marks, at, seen),
            Some(Frame::Sections(at)) => {
                let begun = write_part(
                    outbox,
                    sink,
                    marks,
                    &self.table,
                    &mut self.frames,
                    at,
                    seen,
                );
                match begun {
                    Some(tag) => self.begin(deeper(at.level)?, tag),
                    None => Ok(Phase::Frames),
                }
            }
            Some(Frame::Super(at)) => write_superclass(
                outbox,
                sink,
                marks,
                &mut self.table,
                &mut self.frames,
                at,
                seen,
            ),
            Some(Frame::SuperHandle(at)) => {
                write_superclass_handle(
                    outbox,
                    sink,
                    marks.epoch,
                    &self.table,
                    &mut self.frames,
                    at,
                    seen,
                );
                Ok(Phase::Frames)
            }
            Some(Frame::External { .. }) => Ok(Phase::Frames),
            Some(Frame::ExternalNotes { .. }) => Ok(Phase::Frames),
            Some(Frame::ExternalEnd { .. }) => Ok(Phase::Frames),
            Some(Frame::End { .. }) => Ok(Phase::Frames),
            Some(Frame::Made { .. }) => Ok(Phase::Frames),
            Some(Frame::Close { .. }) => Ok(Phase::Frames),
        }
    }

    /// A token at the top of the stream.
    #[tactic(auto, using(crate::proofs::SaysLemmas::says_nothing))]
    #[inline(always)]
    fn write_top<W: Sink>(
        &mut self,
        outbox: &mut Outbox,
        sink: &mut W,
        marks: Marks,
        seen: Seen<'_>,
    ) -> Result<Phase, AllocError>
        requires { self.old.cues ≡ top_cue ∷ [] }
        ensures said { SaysTo W.gone_out W.has_failed outbox.old outbox.new sink.old sink.new (λ k. top_says marks.epoch marks.next (view_node marks.owner) (view_seen seen.entry) k) }
        ensures goes { IfOk result (λ phase. StandsIn phase self.new (goes_in self.old.epoch self.old.known self.old.owners self.old.cues (view_seen seen.entry))) }
    {
        match seen {
            Seen::Tag(tag) => {
                write_value_tag(outbox, sink, marks, tag);
                self.begin(0, tag)
            }
            Seen::BlockTag(long) => {
                write_block_word(outbox, sink, long);
                Ok(Phase::BlockLength)
            }
            Seen::ResetTag => {
                write(outbox, sink, b"reset\n");
                self.reset()?;
                Ok(Phase::Frames)
            }
            _ => Ok(Phase::Frames),
        }
    }

    /// The next epoch begins.
    #[tactic(auto, using(crate::proofs::TakeLemmas::no_frames))]
    fn reset(&mut self) -> Result<(), AllocError>
        requires { self.old.cues ≡ top_cue ∷ [] }
        ensures { OnOk result (self.new ≡ teller (next_epoch self.old.epoch) [] self.old.owners self.old.cues) }
    {
        self.epoch = deeper(self.epoch)?;
        self.table.reset();
        Ok(())
    }

    /// A token in an annotation, which is on top.
    #[tactic(auto, using(crate::proofs::TakeLemmas::popped_note, crate::proofs::FrameLemmas::tail_fits, crate::proofs::SaysLemmas::says_nothing))]
    #[inline(always)]
    fn write_note<W: Sink>(
        &mut self,
        outbox: &mut Outbox,
        sink: &mut W,
        marks: Marks,
        level: u64,
        seen: Seen<'_>,
    ) -> Result<Phase, AllocError>
        requires { FirstIs (note_cue level) self.old }
        ensures said { SaysTo W.gone_out W.has_failed outbox.old outbox.new sink.old sink.new (λ k. note_says marks.epoch marks.next (view_node marks.owner) level (view_seen seen.entry) k) }
        ensures goes { IfOk result (λ phase. StandsIn phase self.new (goes_in self.old.epoch self.old.known self.old.owners self.old.cues (view_seen seen.entry))) }
    {
        match seen {
            Seen::Tag(tag) => {
                write_worded_tag(outbox, sink, marks, level, b"note ", tag);
                self.begin(level, tag)
            }
            Seen::BlockTag(long) => {
                write_note_block(outbox, sink, level, long);
                Ok(Phase::BlockLength)
            }
            Seen::EndTag => {
                self.frames.pop();
                Ok(Phase::Frames)
            }
            _ => Ok(Phase::Frames),
        }
    }

    /// The raw elements of an array, or the tag of an element. The array is on top.
    #[tactic(auto, using(crate::proofs::TakeLemmas::popped_elements, crate::proofs::FrameLemmas::tail_fits, crate::proofs::SaysLemmas::says_nothing))]
    #[inline(always)]
    fn write_element<W: Sink>(
        &mut self,
        outbox: &mut Outbox,
        sink: &mut W,
        marks: Marks,
        at: Elements,
        seen: Seen<'_>,
    ) -> Result<Phase, AllocError>
        requires { FirstIs (elements_cue at.level (view_elements at.elements) at.index at.left) self.old }
        ensures said { SaysTo W.gone_out W.has_failed outbox.old outbox.new sink.old sink.new (λ k. elements_says marks.values marks.epoch marks.next (view_node marks.owner) at.level (view_elements at.elements) at.index at.left (view_seen seen.entry) k) }
        ensures goes { IfOk result (λ phase. StandsIn phase self.new (goes_in self.old.epoch self.old.known self.old.owners self.old.cues (view_seen seen.entry))) }
    {
        match seen {
            Seen::Bytes(bytes) => {
                write_raw_elements(outbox, sink, marks.values, at, bytes);
                self.frames.pop();
                Ok(Phase::Frames)
            }
            Seen::Tag(tag) => {
                write_element_tag(outbox, sink, marks, at.level, at.index, tag);
                if at.left == 0 {
                    return Ok(Phase::Frames);
                }
                let index = at.index.checked_add(1).ok_or(AllocError)?;
                self.frames.set_top(Frame::Elements(Elements {
                    level: at.level,
                    elements: at.elements,
                    index,
                    left: at.left - 1,
                }));
                self.begin(at.level, tag)
            }
            _ => Ok(Phase::Frames),
        }
    }
}
