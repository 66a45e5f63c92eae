//! Blocks, and the ends of annotations.
ghost use Rattle.std.specs.Prelude.{◌≡◌, ◌∷◌, ◌+◌, ◌≤◌, get_or, length};
ghost use Rattle.jser_table.specs.Sections.{IsOn};
ghost use Rattle.jser_grammar.specs.Wire.{TC_BLOCKDATA, TC_ENDBLOCKDATA};
ghost use Rattle.jser_reader.specs.declared.frame.Frame.{Frame};
ghost use Rattle.jser_reader.specs.Many.{HoldsNext, Turns};
ghost use Rattle.jser_reader.specs.Stacks.{tail_of};

use crate::frame::Frame;
use crate::machine::Machine;
use crate::machine::many::counts::{Counts, Turn};
use crate::machine::many::sections::Began;
use crate::phase::Phase;
use jser_table::SectionNumber;

impl Machine {
    /// Takes a block; or does nothing.
    #[tactic(auto, using(crate::proofs::ManyPlain::nothing_done))]
    #[inline(always)]
    pub(super) fn block_at(&mut self, counts: &mut Counts, piece: &[u8]) -> Turn
        requires holds { HoldsNext piece.now self.old counts.old }
        requires room { counts.old.used + 6 ≤ length piece.now }
        requires tag { TC_BLOCKDATA ≡ get_or piece.now counts.old.used 0 }
        ensures { Turns piece.now result self.old counts.old self.new counts.new }
    {
        if self.phase_on_top() == Phase::Value {
            return Turn::Nothing;
        }
        let size = usize::from(piece[counts.used + 1]) + 2;
        if size > piece.len() - counts.used {
            return Turn::Nothing;
        }
        counts.block(size);
        Turn::Ended
    }

    /// Takes the end of the annotation of this section, which is on top, and the raw values that come after it; or does nothing.
    #[tactic(auto, using(crate::proofs::ManyPlain::nothing_done))]
    #[inline(always)]
    fn section_end_at(
        &mut self,
        counts: &mut Counts,
        piece: &[u8],
        last: SectionNumber,
        section: SectionNumber,
    ) -> Turn
        requires holds { HoldsNext piece.now self.old counts.old }
        requires room { counts.old.used + 6 ≤ length piece.now }
        requires tag { TC_ENDBLOCKDATA ≡ get_or piece.now counts.old.used 0 }
        requires top { self.old.frames ≡ Frame.Notes last section ∷ tail_of self.old.frames }
        requires on { IsOn self.old.table.chains last section }
        ensures { Turns piece.now result self.old counts.old self.new counts.new }
    {
        match self.sections_after(last, section, piece.len() - counts.used - 1) {
            Began::Short => Turn::Nothing,
            Began::Open { used, frame } => {
                self.replace_top(frame);
                counts.take(used + 1);
                Turn::Next
            }
            Began::Ended { used } => {
                self.drop_frame();
                counts.close(used + 1);
                Turn::Ended
            }
        }
    }

    /// Takes the end of an annotation, and the raw values that come after it; or does nothing.
    #[tactic(auto, using(crate::proofs::ManyPlain::nothing_done, crate::proofs::PartLemmas::fits_top))]
    #[inline(always)]
    pub(super) fn notes_end_at(&mut self, counts: &mut Counts, piece: &[u8]) -> Turn
        requires holds { HoldsNext piece.now self.old counts.old }
        requires room { counts.old.used + 6 ≤ length piece.now }
        requires tag { TC_ENDBLOCKDATA ≡ get_or piece.now counts.old.used 0 }
        ensures { Turns piece.now result self.old counts.old self.new counts.new }
    {
        let Some(frame) = self.frames.top() else {
            return Turn::Nothing;
        };
        match frame {
            Frame::Notes { last, section } => self.section_end_at(counts, piece, last, section),
            Frame::ExternalNotes => {
                self.drop_frame();
                counts.close(1);
                Turn::Ended
            }
            Frame::Elements { .. } | Frame::Fields { .. } | Frame::Descriptor { .. } =>
                Turn::Nothing,
        }
    }
}
