//! Arrays of a class that is a reference: those of raw values with all of them, the others as far as their first value.
ghost use Rattle.std.specs.Prelude.{◌≡◌, ◌+◌, ◌-◌, ◌<◌, ◌≤◌, ◌^◌, get_or, length, Some, None, option_map};
ghost use Rattle.jser_table.specs.Chains.{chain_in, elements_of};
ghost use Rattle.jser_table.specs.Codes.{size_of};
ghost use Rattle.jser_grammar.specs.Wire.{TC_ARRAY};
ghost use Rattle.jser_reader.specs.Many.{HoldsNext, Turns, ArrayBegins};

use crate::frame::{Frame, Owner};
use crate::machine::Machine;
use crate::machine::many::counts::{Counts, Turn};
use crate::machine::many::objects::reference_at;
use crate::machine::wholes::number_in;
use jser_table::ChainNumber;

impl Machine {
    /// Takes an array of so many raw values, of this size each; or does nothing.
    #[tactic(auto, using(crate::proofs::ManyPlain::nothing_done))]
    #[inline(always)]
    fn raw_array(
        &mut self,
        counts: &mut Counts,
        piece: &[u8],
        n: u32,
        chain: ChainNumber,
        count: u32,
        size: u8,
    ) -> Turn
        requires begins { ArrayBegins piece.now n chain count self.old counts.old }
        requires elements { option_map size_of (elements_of (chain_in self.old.table.chains chain)) ≡ Some size }
        requires some { 0 < count }
        requires refs { counts.old.refs + 1 < 2 ^ 64 }
        requires depth { counts.old.depth + 1 < 2 ^ 64 }
        ensures { Turns piece.now result self.old counts.old self.new counts.new }
    {
        let _ = n;
        let _ = chain;
        let bytes = u64::from(count) * u64::from(size);
        if bytes == 0 {
            return Turn::Nothing;
        }
        if bytes > (piece.len() - counts.used - 10) as u64 {
            return Turn::Nothing;
        }
        if !self.assign_other() {
            return Turn::Nothing;
        }
        counts.place(bytes as usize + 10);
        Turn::Ended
    }

    /// Takes the beginning of an array of so many values; or does nothing.
    #[tactic(auto, using(crate::proofs::ManyPlain::nothing_done))]
    #[inline(always)]
    fn value_array(
        &mut self,
        counts: &mut Counts,
        piece: &[u8],
        n: u32,
        chain: ChainNumber,
        count: u32,
    ) -> Turn
        requires begins { ArrayBegins piece.now n chain count self.old counts.old }
        requires elements { option_map size_of (elements_of (chain_in self.old.table.chains chain)) ≡ None }
        requires some { 0 < count }
        requires refs { counts.old.refs + 1 < 2 ^ 64 }
        requires depth { counts.old.depth + 1 < 2 ^ 64 }
        ensures { Turns piece.now result self.old counts.old self.new counts.new }
    {
        let _ = n;
        let _ = chain;
        let _ = piece;
        if !self.open_frame(Frame::Elements { left: count - 1 }) {
            return Turn::Nothing;
        }
        counts.place(10);
        counts.open();
        Turn::Next
    }

    /// Takes an array with no elements; or does nothing.
    #[tactic(auto, using(crate::proofs::ManyPlain::nothing_done))]
    #[inline(always)]
    fn empty_array(&mut self, counts: &mut Counts, piece: &[u8], n: u32, chain: ChainNumber) -> Turn
        requires begins { ArrayBegins piece.now n chain 0 self.old counts.old }
        requires refs { counts.old.refs + 1 < 2 ^ 64 }
        requires depth { counts.old.depth + 1 < 2 ^ 64 }
        ensures { Turns piece.now result self.old counts.old self.new counts.new }
    {
        let _ = n;
        let _ = chain;
        let _ = piece;
        if !self.assign_other() {
            return Turn::Nothing;
        }
        counts.place(10);
        Turn::Ended
    }

    /// Takes an array with its raw values, or as far as its first value; or does nothing.
    #[tactic(auto, using(crate::proofs::ManyPlain::nothing_done))]
    #[inline(always)]
    pub(super) fn array_at(&mut self, counts: &mut Counts, piece: &[u8]) -> Turn
        requires holds { HoldsNext piece.now self.old counts.old }
        requires room { counts.old.used + 6 ≤ length piece.now }
        requires tag { TC_ARRAY ≡ get_or piece.now counts.old.used 0 }
        ensures { Turns piece.now result self.old counts.old self.new counts.new }
    {
        let Some(n) = reference_at(piece, counts.used) else {
            return Turn::Nothing;
        };
        if piece.len() - counts.used < 10 {
            return Turn::Nothing;
        }
        let count = number_in(piece, counts.used + 6);
        if self.length_fault(count).is_some() {
            return Turn::Nothing;
        }
        let Ok(chain) = self.class_of(Owner::Array, n) else {
            return Turn::Nothing;
        };
        if !self.has_place_at(counts, piece) {
            return Turn::Nothing;
        }
        if count == 0 {
            return self.empty_array(counts, piece, n, chain);
        }
        match self.table.element_size(chain) {
            Some(size) => self.raw_array(counts, piece, n, chain, count, size),
            None => self.value_array(counts, piece, n, chain, count),
        }
    }
}
