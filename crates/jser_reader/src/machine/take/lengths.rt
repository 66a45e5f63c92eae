//! The lengths of texts, which may be cut: they open a text of so many bytes, or end one that has none.
ghost use Rattle.std.specs.Prelude.{◌≡◌, ◌+◌, ◌<◌, ◌^◌, length};
ghost use Rattle.jser_reader.specs.Takes.{TakesFromFor};

use crate::gate::Gate;
use crate::machine::Machine;
use crate::machine::take::taken::Taken;
use crate::phase::Phase;
use jser_prim::{read_u16, read_u64};

impl Machine {
    /// Takes the length of a text in two bytes, which comes next, or as many of its bytes as there are.
    #[tactic(auto, using(crate::proofs::LengthLemmas::short_kept, crate::proofs::LengthLemmas::short_taken))]
    pub(crate) fn take_short_length<G: Gate>(&mut self, gate: &G, piece: &[u8]) -> Taken
        requires phase { self.old.phase ≡ Phase.Length2 }
        requires some { 0 < length piece.now }
        requires room { self.old.meter.at + length piece.now < 2 ^ 64 }
        ensures { TakesFromFor (G.told gate.now) result piece.now self.old self.new }
    {
        if piece.len() < 2 {
            self.keep(piece);
            return Taken::Open;
        }
        let (number, _) = piece.split_at(2);
        self.take_length2(gate, read_u16(number), 2)
    }

    /// Takes the length of a text in eight bytes, which comes next, or as many of its bytes as there are.
    #[tactic(auto, using(crate::proofs::LengthLemmas::long_kept, crate::proofs::LengthLemmas::long_taken))]
    pub(crate) fn take_long_length<G: Gate>(&mut self, gate: &G, piece: &[u8]) -> Taken
        requires phase { self.old.phase ≡ Phase.Length8 }
        requires some { 0 < length piece.now }
        requires room { self.old.meter.at + length piece.now < 2 ^ 64 }
        ensures { TakesFromFor (G.told gate.now) result piece.now self.old self.new }
    {
        if piece.len() < 8 {
            self.keep(piece);
            return Taken::Open;
        }
        let (number, _) = piece.split_at(8);
        self.take_length8(gate, read_u64(number), 8)
    }
}
