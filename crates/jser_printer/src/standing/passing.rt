//! What is due on a stack where no token belongs to it.
ghost use Rattle.std.specs.Prelude.{◌≡◌, ◌∷◌, ◌<◌, ℕ, List, length, OnOk, IfOk};
ghost use Rattle.jser_shown.specs.Known.{Known, classes_at, elements_of_chain, is_external_chain};
ghost use Rattle.jser_shown.specs.Owners.{OwnerNode as ToldNode};
ghost use Rattle.jser_shown.specs.Cues.{teller, parts_cue, made_cue, object_parts};
ghost use Rattle.jser_printer.specs.Given.{view_owner};
ghost use Rattle.jser_printer.specs.Steps.{due, due_in, due_says, pass, pass_in};
ghost use Rattle.jser_printer.specs.Frames.{cue_of, cues_of, tail_of, FrameFits, FramesFit, FirstIs, PassesTop};
ghost use Rattle.jser_printer.specs.Phases.{StandsIn};
ghost use Rattle.jser_printer.specs.Passing.{PassedTo};
ghost use Rattle.jser_printer.specs.Primitives.{view_elements};
ghost use Rattle.jser_printer.specs.Says.{SaysTo};

use crate::frame::{Frame, Sections, Stage};
use crate::owner::Owner;
use crate::part::{Part, next_part};
use crate::phase::Phase;
use crate::primitive::Primitive;
use crate::stack::Stack;
use crate::standing::{Standing, deeper};
use crate::table::NameTable;
use crate::words::section::write_section;
use jser_prim::{Outbox, Sink};
use std::alloc::AllocError;

/// The sections of an object whose class is the one with this number.
#[tactic(auto, using(crate::proofs::PassLemmas::external_sections, crate::proofs::PassLemmas::serial_sections, crate::proofs::PassLemmas::no_sections))]
#[inline(always)]
fn sections(table: &NameTable, level: u64, number: usize) -> Frame
    ensures cue { cue_of table.now.layers table.now.chains result ≡ parts_cue level (object_parts (is_external_chain (classes_at table.now.known number)) (classes_at table.now.known number)) }
    ensures fits { FrameFits (length table.now.layers) (length table.now.chains) result }
{
    match table.chain(number) {
        Some(chain) => {
            if table.own(chain).is_external() {
                Frame::External { level, chain }
            } else {
                Frame::Sections(Sections {
                    level,
                    chain,
                    index: 0,
                    stage: Stage::Start,
                })
            }
        }
        None => Frame::End { level },
    }
}

/// The type of the elements of an array whose class is the one with this number, where it is primitive.
#[tactic(auto, using(crate::proofs::PassLemmas::elements_known, crate::proofs::PassLemmas::no_elements))]
fn elements_of(table: &NameTable, number: usize) -> Option<Primitive>
    ensures { view_elements result ≡ elements_of_chain (classes_at table.now.known number) }
{
    match table.chain(number) {
        Some(chain) => table.own(chain).elements(),
        None => None,
    }
}

/// Writes what is due in the sections of an object, which are on top, and does it. The answer is whether anything was due.
#[tactic(auto, using(crate::proofs::PassLemmas::section_passed, crate::proofs::PassLemmas::notes_passed, crate::proofs::PassLemmas::raw_waits, crate::proofs::PassLemmas::value_waits, crate::proofs::PassLemmas::sections_passed, crate::proofs::PassLemmas::section_said, crate::proofs::PassLemmas::notes_due, crate::proofs::PassLemmas::end_due, crate::proofs::PassLemmas::section_is_due))]
#[inline(always)]
fn write_sections<W: Sink>(
    outbox: &mut Outbox,
    sink: &mut W,
    table: &NameTable,
    frames: &mut Stack,
    at: Sections,
) -> Result<bool, AllocError>
    requires chain_in { at.chain < length table.now.chains }
    requires fit { FramesFit (length table.now.layers) (length table.now.chains) frames.old }
    requires top { frames.old ≡ Frame.Sections at ∷ tail_of frames.old }
    ensures fit { FramesFit (length table.now.layers) (length table.now.chains) frames.new }
    ensures said { SaysTo W.gone_out W.has_failed outbox.old outbox.new sink.old sink.new (λ k. due_says (due_in (cues_of table.now.layers table.now.chains frames.old)) k) }
    ensures passed { IfOk result (λ more. PassesTop table.now.layers table.now.chains more frames.old frames.new) }
{
    let next = next_part(table, at.chain, at.index, at.stage);
    let others = Frame::Sections(at.go_on(next.index, next.stage));
    match next.part {
        Part::Section(name) => {
            write_section(outbox, sink, at.level, b"data ", name);
            frames.set_top(others);
            Ok(true)
        }
        Part::Notes => {
            let inner = deeper(at.level)?;
            frames.set_top(others);
            frames.push(Frame::Notes { level: inner })?;
            Ok(true)
        }
        Part::End => {
            frames.pop();
            Ok(true)
        }
        Part::Raw(_) => Ok(false),
        Part::Value(_) => Ok(false),
    }
}

impl<'a> Standing<'a> {
    /// Writes what is due next, if anything is, and does it: the phase of what comes then.
    ///
    /// # Errors
    ///
    /// Where memory runs out. What is due was written then.
    #[tactic(auto, using(crate::proofs::PassLemmas::pass_first, crate::proofs::PassLemmas::close_fits, crate::proofs::PassLemmas::close_passed, crate::proofs::PassLemmas::due_first, crate::proofs::PassLemmas::external_said, crate::proofs::FrameLemmas::top_fits, crate::proofs::FrameLemmas::tail_fits))]
    #[inline(always)]
    pub(crate) fn write_due<W: Sink>(
        &mut self,
        outbox: &mut Outbox,
        sink: &mut W,
    ) -> Result<Option<Phase>, AllocError>
        ensures said { SaysTo W.gone_out W.has_failed outbox.old outbox.new sink.old sink.new (λ k. due_says (due self.old) k) }
        ensures passed { IfOk result (λ phase. PassedTo phase self.old self.new) }
    {
        match self.frames.top() {
            Some(Frame::Sections(at)) => {
                let more = write_sections(outbox, sink, &self.table, &mut self.frames, at)?;
                Ok(if more { Some(Phase::Frames) } else { None })
            }
            Some(Frame::External { level, chain }) => {
                write_section(
                    outbox,
                    sink,
                    level,
                    b"external ",
                    self.table.own(chain).name(),
                );
                self.frames.set_top(Frame::ExternalNotes { level, chain });
                Ok(Some(Phase::Frames))
            }
            Some(Frame::ExternalNotes { level, chain }) => {
                let inner = deeper(level)?;
                self.frames.set_top(Frame::ExternalEnd { level, chain });
                self.frames.push(Frame::Notes { level: inner })?;
                Ok(Some(Phase::Frames))
            }
            Some(Frame::ExternalEnd { .. }) => {
                self.frames.pop();
                Ok(Some(Phase::Frames))
            }
            Some(Frame::End { .. }) => {
                self.frames.pop();
                Ok(Some(Phase::Frames))
            }
            Some(Frame::Elements(at)) => {
                if at.left > 0 {
                    return Ok(None);
                }
                self.frames.pop();
                Ok(Some(Phase::Frames))
            }
            Some(
                Frame::Made {
                    owner,
                    level,
                    number,
                },
            ) => Ok(Some(self.make(owner, level, number)?)),
            Some(
                Frame::Close {
                    number,
                    parent,
                    layer,
                },
            ) => {
                self.table.close(number, Some(parent), layer)?;
                self.frames.pop();
                Ok(Some(Phase::Frames))
            }
            Some(Frame::Notes { .. }) => Ok(None),
            Some(Frame::Super(_)) => Ok(None),
            Some(Frame::SuperHandle(_)) => Ok(None),
            None => Ok(None),
        }
    }

    /// An owner gets its handle, and what stands behind it comes in the place of the frame on top.
    #[tactic(auto, using(crate::proofs::FrameLemmas::tail_fits))]
    #[inline(always)]
    fn make(&mut self, owner: Owner, level: u64, number: usize) -> Result<Phase, AllocError>
        requires { FirstIs (made_cue (view_owner owner) level number) self.old }
        ensures { IfOk result (λ phase. StandsIn phase self.new (pass self.old)) }
    {
        match owner {
            Owner::Object => {
                let frame = sections(&self.table, level, number);
                self.table.add_other()?;
                self.frames.set_top(frame);
                Ok(Phase::Frames)
            }
            Owner::Array => {
                let elements = elements_of(&self.table, number);
                self.table.add_other()?;
                self.frames.pop();
                Ok(Phase::ArrayLength { level, elements })
            }
            Owner::EnumConst => {
                self.table.add_other()?;
                self.frames.pop();
                Ok(Phase::EnumName { level })
            }
            Owner::ClassObject => {
                self.table.add_other()?;
                self.frames.pop();
                Ok(Phase::Frames)
            }
        }
    }
}
