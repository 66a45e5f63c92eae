//! Values without a class, of which all bytes are in the piece: nulls, references and strings.
ghost use Rattle.std.specs.Prelude.{◌≡◌, ◌+◌, ◌^◌, ◌<◌, ◌≤◌, true, get_or, drop, length, IfSome};
ghost use Rattle.jser_grammar.specs.Wire.{TC_NULL, TC_REFERENCE, TC_STRING};
ghost use Rattle.jser_reader.specs.Many.{seen_at, HoldsNext, Turns};
ghost use Rattle.jser_reader.specs.Wholes.{HasPlace, HasNumber, HasText};

use crate::machine::Machine;
use crate::machine::many::counts::{Counts, Turn};
use crate::machine::wholes::{number_in, plain_text_after, text_after};

/// The number in the four bytes after the byte at this place.
#[tactic(auto, using(crate::proofs::ManyPlain::number_is))]
#[inline(always)]
pub(super) fn number_at(piece: &[u8], at: usize) -> u32
    requires { at + 5 ≤ length piece.now }
    ensures { HasNumber (drop at piece.now) result }
{
    number_in(piece, at + 1)
}

/// How many bytes the text has whose length comes after a tag, where all of them are there and are one.
#[inline(never)]
fn any_text(rest: &[u8]) -> Option<usize>
    ensures { IfSome result (λ len. HasText rest.now len) }
{
    text_after(rest)
}

/// How many bytes the text has whose length comes after a tag, where all of them are there and are one. Texts whose units
/// have one byte each are looked at in line.
#[inline(always)]
fn text_here(rest: &[u8]) -> Option<usize>
    ensures { IfSome result (λ len. HasText rest.now len) }
{
    match plain_text_after(rest) {
        Some(len) => Some(len),
        None => any_text(rest),
    }
}

impl Machine {
    /// Whether a place may begin here: it is not too deep, nor one too many.
    #[tactic(auto, using(crate::proofs::ManyPlain::has_place_there))]
    #[inline(always)]
    pub(super) fn has_place_at(&self, counts: &Counts, piece: &[u8]) -> bool
        requires { HoldsNext piece.now self.now counts.now }
        ensures place { result ≡ true → HasPlace (seen_at self.now counts.now) }
        ensures small { result ≡ true → (counts.now.refs + 1 < 2 ^ 64) × (counts.now.depth + 1 < 2 ^ 64) }
    {
        let _ = piece;
        if counts.refs >= self.limits.refs {
            return false;
        }
        if counts.depth < counts.deepest {
            return true;
        }
        counts.depth < u64::from(self.limits.depth)
    }

    /// Takes a null.
    #[tactic(auto, using(crate::proofs::ManyPlain::nothing_done))]
    #[inline(always)]
    pub(super) fn null_at(&mut self, counts: &mut Counts, piece: &[u8]) -> Turn
        requires holds { HoldsNext piece.now self.old counts.old }
        requires room { counts.old.used + 6 ≤ length piece.now }
        requires tag { TC_NULL ≡ get_or piece.now counts.old.used 0 }
        ensures { Turns piece.now result self.old counts.old self.new counts.new }
    {
        if !self.has_place_at(counts, piece) {
            return Turn::Nothing;
        }
        counts.place(1);
        Turn::Ended
    }

    /// Takes a reference; or does nothing.
    #[tactic(auto, using(crate::proofs::ManyPlain::nothing_done))]
    #[inline(always)]
    pub(super) fn reference_at(&mut self, counts: &mut Counts, piece: &[u8]) -> Turn
        requires holds { HoldsNext piece.now self.old counts.old }
        requires room { counts.old.used + 6 ≤ length piece.now }
        requires tag { TC_REFERENCE ≡ get_or piece.now counts.old.used 0 }
        ensures { Turns piece.now result self.old counts.old self.new counts.new }
    {
        let n = number_at(piece, counts.used);
        if !self.is_assigned(n) {
            return Turn::Nothing;
        }
        if !self.has_place_at(counts, piece) {
            return Turn::Nothing;
        }
        counts.place(5);
        Turn::Ended
    }

    /// Takes a string; or does nothing.
    #[tactic(auto, using(crate::proofs::ManyPlain::nothing_done))]
    #[inline(always)]
    pub(super) fn string_at(&mut self, counts: &mut Counts, piece: &[u8]) -> Turn
        requires holds { HoldsNext piece.now self.old counts.old }
        requires room { counts.old.used + 6 ≤ length piece.now }
        requires tag { TC_STRING ≡ get_or piece.now counts.old.used 0 }
        ensures { Turns piece.now result self.old counts.old self.new counts.new }
    {
        let (_, rest) = piece.split_at(counts.used);
        let Some(len) = text_here(rest) else {
            return Turn::Nothing;
        };
        if !self.has_place_at(counts, piece) {
            return Turn::Nothing;
        }
        if !self.assign_text() {
            return Turn::Nothing;
        }
        counts.place(len + 3);
        Turn::Ended
    }
}
