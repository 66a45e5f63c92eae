//! The end of a value: what comes next of what is open.
ghost use Rattle.std.specs.Prelude.{◌≡◌, ◌∷◌, ◌+◌, ◌^◌, ◌<◌};
ghost use Rattle.jser_reader.specs.Fitting.{FrameFits, HasParts, IsPart};
ghost use Rattle.jser_reader.specs.Many.{Holds, FrameEnds, Settles, GivesNext, with_top, without_top};
ghost use Rattle.jser_reader.specs.Stacks.{tail_of, HasNoValue, IsOnTop};

use crate::frame::Frame;
use crate::machine::Machine;
use crate::machine::many::counts::{Counts, Turn};
use crate::machine::many::sections::Began;

impl Machine {
    /// Puts this frame in the place of what is on top.
    #[tactic(auto, using(crate::proofs::ManyEnds::fits_replaced, crate::proofs::LayerLemmas::layers_of_part, crate::proofs::LayerLemmas::parts_are_some))]
    #[inline(always)]
    pub(super) fn replace_top(&mut self, frame: Frame)
        requires parts { HasParts self.old.frames }
        requires fits { FrameFits self.old.table.entries self.old.table.chains frame }
        requires part { IsPart frame }
        ensures { self.new ≡ with_top self.old frame }
    {
        self.frames.set_top(frame);
    }

    /// Takes off what is on top.
    #[tactic(auto, using(crate::proofs::LayerLemmas::layers_of_tail, crate::proofs::PartLemmas::fits_tail))]
    #[inline(always)]
    pub(super) fn drop_frame(&mut self)
        requires { HasParts self.old.frames }
        ensures { self.new ≡ without_top self.old }
    {
        self.frames.pop();
    }

    /// What is on top, which is this frame, has no value or element left.
    #[inline(always)]
    fn end_frame(&mut self, counts: &mut Counts, piece: &[u8], frame: Frame) -> Turn
        requires holds { Holds piece.now self.old counts.old }
        requires top { self.old.frames ≡ frame ∷ tail_of self.old.frames }
        requires fits { FrameFits self.old.table.entries self.old.table.chains frame }
        requires none { IsOnTop HasNoValue self.old.frames }
        ensures { FrameEnds piece.now result self.old counts.old self.new counts.new }
    {
        match frame {
            Frame::Elements { left } => {
                let _ = left;
                self.drop_frame();
                counts.close(0);
                Turn::Ended
            }
            Frame::Fields {
                last,
                section,
                pos,
                prims,
                values,
            } => {
                let _ = values;
                if pos < prims {
                    return Turn::Nothing;
                }
                match self.after_section(last, section, piece.len() - counts.used) {
                    Began::Short => Turn::Nothing,
                    Began::Open { used, frame } => {
                        self.replace_top(frame);
                        counts.take(used);
                        Turn::Next
                    }
                    Began::Ended { used } => {
                        self.drop_frame();
                        counts.close(used);
                        Turn::Ended
                    }
                }
            }
            Frame::Notes { .. } | Frame::ExternalNotes | Frame::Descriptor { .. } => Turn::Next,
        }
    }

    /// Counts the next value of what is on top, where the next part of that is a value.
    #[tactic(auto, using(crate::proofs::PartLemmas::fits_value, crate::proofs::LayerLemmas::layers_of_value, crate::proofs::ManyEnds::gives_next))]
    #[inline(always)]
    fn next_value_on(&mut self) -> bool
        ensures { GivesNext result self.old self.new }
    {
        self.frames.next_value()
    }

    /// Closes what ends with a value. `Next`: a content or value comes next. `Ended`: something else does; `pass_many` then calls
    /// `value_done`.
    #[tactic(auto, using(crate::proofs::PartLemmas::fits_top))]
    #[inline(always)]
    pub(super) fn end_value(&mut self, counts: &mut Counts, piece: &[u8]) -> Turn
        requires { Holds piece.now self.old counts.old }
        ensures { Settles piece.now result self.old counts.old self.new counts.new }
    {
        'frames: loop {
            if self.next_value_on() {
                return Turn::Next;
            }
            let Some(frame) = self.frames.top() else {
                counts.reach_top();
                return Turn::Next;
            };
            match self.end_frame(counts, piece, frame) {
                Turn::Next => return Turn::Next,
                Turn::Nothing => return Turn::Ended,
                Turn::Ended => {}
            }
        }
    }
}
