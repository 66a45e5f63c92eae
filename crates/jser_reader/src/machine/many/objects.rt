//! Objects of a class that is a reference, with the raw values that come first.
ghost use Rattle.std.specs.Prelude.{◌≡◌, ◌+◌, ◌^◌, ◌<◌, ◌≤◌, true, false, get_or, drop, length, None, IfSome};
ghost use Rattle.jser_table.specs.Chains.{chain_in, is_external};
ghost use Rattle.jser_table.specs.Sections.{AreSections};
ghost use Rattle.jser_grammar.specs.Wire.{TC_OBJECT};
ghost use Rattle.jser_reader.specs.Fitting.{FrameFits, IsPart};
ghost use Rattle.jser_reader.specs.Many.{seen_at, HoldsNext, Turns, Puts, Opened, HasSections, ObjectBegins};
ghost use Rattle.jser_reader.specs.Wholes.{HasPlace, HasReference};

use crate::frame::{Frame, Owner};
use crate::machine::Machine;
use crate::machine::many::counts::{Counts, Turn};
use crate::machine::many::sections::Began;
use crate::machine::wholes::number_in;
use jser_grammar::wire::TC_REFERENCE;
use jser_table::{ChainNumber, Sections};

/// The handle of the reference after the byte at this place, where one comes there.
#[tactic(auto, using(crate::proofs::ManyObjects::reference_is))]
#[inline(always)]
pub(super) fn reference_at(piece: &[u8], at: usize) -> Option<u32>
    requires { at + 6 ≤ length piece.now }
    ensures { IfSome result (λ n. HasReference (drop at piece.now) n) }
{
    if piece[at + 1] != TC_REFERENCE {
        return None;
    }
    Some(number_in(piece, at + 2))
}

impl Machine {
    /// Puts this frame on the stack; or does nothing.
    #[tactic(auto, using(crate::proofs::ManyObjects::puts_frame, crate::proofs::ManyObjects::puts_nothing, crate::proofs::ManyEnds::fits_opened, crate::proofs::LayerLemmas::layers_under_part))]
    #[inline(always)]
    fn put_frame(&mut self, frame: Frame) -> bool
        requires fits { FrameFits self.old.table.entries self.old.table.chains frame }
        requires part { IsPart frame }
        ensures { Puts result frame self.old self.new }
    {
        self.frames.push(frame).is_ok()
    }

    /// Puts this frame on the stack, and assigns the handle of what begins; or does nothing.
    #[inline(always)]
    pub(super) fn open_frame(&mut self, frame: Frame) -> bool
        requires fits { FrameFits self.old.table.entries self.old.table.chains frame }
        requires part { IsPart frame }
        ensures { Opened result frame self.old self.new }
    {
        if !self.put_frame(frame) {
            return false;
        }
        if self.assign_other() {
            return true;
        }
        self.drop_frame();
        false
    }

    /// Takes an externalizable object as far as its annotation; or does nothing.
    #[inline(always)]
    fn external_object(
        &mut self,
        counts: &mut Counts,
        piece: &[u8],
        n: u32,
        chain: ChainNumber,
    ) -> Turn
        requires begins { ObjectBegins piece.now n chain self.old counts.old }
        requires external { is_external (chain_in self.old.table.chains chain) ≡ true }
        requires refs { counts.old.refs + 1 < 2 ^ 64 }
        requires depth { counts.old.depth + 1 < 2 ^ 64 }
        ensures { Turns piece.now result self.old counts.old self.new counts.new }
    {
        let _ = n;
        let _ = chain;
        let _ = piece;
        if !self.open_frame(Frame::ExternalNotes) {
            return Turn::Nothing;
        }
        counts.place(6);
        counts.open();
        Turn::Next
    }

    /// Takes an object with no data; or does nothing.
    #[inline(always)]
    fn bare_object(&mut self, counts: &mut Counts, piece: &[u8], n: u32, chain: ChainNumber) -> Turn
        requires begins { ObjectBegins piece.now n chain self.old counts.old }
        requires plain { is_external (chain_in self.old.table.chains chain) ≡ false }
        requires none { AreSections self.old.table.chains (chain_in self.old.table.chains chain) None }
        requires refs { counts.old.refs + 1 < 2 ^ 64 }
        requires depth { counts.old.depth + 1 < 2 ^ 64 }
        ensures { Turns piece.now result self.old counts.old self.new counts.new }
    {
        let _ = n;
        let _ = chain;
        let _ = piece;
        if !self.assign_other() {
            return Turn::Nothing;
        }
        counts.place(6);
        Turn::Ended
    }

    /// Takes an object with these sections as far as its first value or annotation, where all bytes up to there are in the piece;
    /// or does nothing.
    #[tactic(auto, using(crate::proofs::ManyPlain::nothing_done))]
    #[inline(always)]
    fn filled_object(
        &mut self,
        counts: &mut Counts,
        piece: &[u8],
        n: u32,
        sections: Sections,
    ) -> Turn
        requires holds { HoldsNext piece.now self.old counts.old }
        requires place { HasPlace (seen_at self.old counts.old) }
        requires room { counts.old.used + 6 ≤ length piece.now }
        requires tag { TC_OBJECT ≡ get_or piece.now counts.old.used 0 }
        requires class { HasReference (drop counts.old.used piece.now) n }
        requires sections { HasSections self.old n sections }
        requires refs { counts.old.refs + 1 < 2 ^ 64 }
        requires depth { counts.old.depth + 1 < 2 ^ 64 }
        ensures { Turns piece.now result self.old counts.old self.new counts.new }
    {
        let _ = n;
        match self.sections_from(sections.last, sections.first, piece.len() - counts.used - 6) {
            Began::Short => Turn::Nothing,
            Began::Ended { used } => {
                if !self.assign_other() {
                    return Turn::Nothing;
                }
                counts.place(used + 6);
                Turn::Ended
            }
            Began::Open { used, frame } => {
                if !self.open_frame(frame) {
                    return Turn::Nothing;
                }
                counts.place(used + 6);
                counts.open();
                Turn::Next
            }
        }
    }

    /// Takes an object as far as its first value or annotation, where its class is a reference and all bytes up to there are
    /// in the piece; or does nothing.
    #[tactic(auto, using(crate::proofs::ManyPlain::nothing_done, crate::proofs::ManyBare::sections_of))]
    #[inline(always)]
    pub(super) fn object_at(&mut self, counts: &mut Counts, piece: &[u8]) -> Turn
        requires holds { HoldsNext piece.now self.old counts.old }
        requires room { counts.old.used + 6 ≤ length piece.now }
        requires tag { TC_OBJECT ≡ get_or piece.now counts.old.used 0 }
        ensures { Turns piece.now result self.old counts.old self.new counts.new }
    {
        let Some(n) = reference_at(piece, counts.used) else {
            return Turn::Nothing;
        };
        let Ok(chain) = self.class_of(Owner::Object, n) else {
            return Turn::Nothing;
        };
        if !self.has_place_at(counts, piece) {
            return Turn::Nothing;
        }
        if self.table.is_external(chain) {
            return self.external_object(counts, piece, n, chain);
        }
        match self.table.sections(chain) {
            None => self.bare_object(counts, piece, n, chain),
            Some(sections) => self.filled_object(counts, piece, n, sections),
        }
    }
}
