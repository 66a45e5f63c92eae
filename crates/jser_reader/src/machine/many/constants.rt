//! Enum constants whose class and name are references.
ghost use Rattle.std.specs.Prelude.{◌≡◌, ◌+◌, ◌≤◌, get_or, length};
ghost use Rattle.jser_grammar.specs.Wire.{TC_ENUM};
ghost use Rattle.jser_reader.specs.Many.{HoldsNext, Turns};

use crate::frame::Owner;
use crate::machine::Machine;
use crate::machine::many::counts::{Counts, Turn};
use crate::machine::many::objects::reference_at;

impl Machine {
    /// Takes an enum constant whose class and name are references; or does nothing.
    #[tactic(auto, using(crate::proofs::ManyPlain::nothing_done))]
    #[inline(always)]
    pub(super) fn constant_at(&mut self, counts: &mut Counts, piece: &[u8]) -> Turn
        requires holds { HoldsNext piece.now self.old counts.old }
        requires room { counts.old.used + 6 ≤ length piece.now }
        requires tag { TC_ENUM ≡ get_or piece.now counts.old.used 0 }
        ensures { Turns piece.now result self.old counts.old self.new counts.new }
    {
        if piece.len() - counts.used < 11 {
            return Turn::Nothing;
        }
        let Some(n) = reference_at(piece, counts.used) else {
            return Turn::Nothing;
        };
        let Some(name) = reference_at(piece, counts.used + 5) else {
            return Turn::Nothing;
        };
        let Ok(_) = self.class_of(Owner::EnumConst, n) else {
            return Turn::Nothing;
        };
        if self.text_fault(name).is_some() {
            return Turn::Nothing;
        }
        if !self.has_place_at(counts, piece) {
            return Turn::Nothing;
        }
        if !self.assign_other() {
            return Turn::Nothing;
        }
        counts.place(11);
        Turn::Ended
    }
}
