//! The bytes of a piece, as they are taken for the token that is open.
ghost use Rattle.std.specs.Prelude.{◌≡◌, ◌+◌, ◌<◌, ◌^◌, length};
ghost use Rattle.jser_reader.specs.Takes.{TakesFromFor};

use crate::gate::Gate;
use crate::machine::Machine;
use crate::machine::take::taken::Taken;
use crate::phase::Phase;

mod cut;
mod header;
mod lengths;
mod numbers;
mod raw;
mod tags;
pub(crate) mod taken;
pub(crate) mod text_bytes;
pub(crate) mod texts;

impl Machine {
    /// Takes bytes of the token that is open: as many as are missing of it, or all of the piece.
    ///
    /// Each phase has an arm of its own, so that the functions inlined there need not ask again which it is.
    #[inline(always)]
    pub(crate) fn take<G: Gate>(&mut self, gate: &G, piece: &[u8]) -> Taken
        requires goes_on { self.old.phase ≡ Phase.Stopped → ⊥ }
        requires some { 0 < length piece.now }
        requires room { self.old.meter.at + length piece.now < 2 ^ 64 }
        ensures { TakesFromFor (G.told gate.now) result piece.now self.old self.new }
    {
        match self.phase {
            Phase::Header => self.take_header(piece),
            Phase::Top => self.take_one(piece),
            Phase::Note => self.take_one(piece),
            Phase::Value => self.take_one(piece),
            Phase::ClassTag => self.take_one(piece),
            Phase::SuperTag => self.take_one(piece),
            Phase::TextTag => self.take_one(piece),
            Phase::Flags => self.take_one(piece),
            Phase::TypeCode => self.take_one(piece),
            Phase::BlockLength1 => self.take_one(piece),
            Phase::FieldCount => self.take_two(piece),
            Phase::BackHandle => self.take_four(piece),
            Phase::ClassHandle => self.take_four(piece),
            Phase::SuperHandle => self.take_four(piece),
            Phase::TextHandle => self.take_four(piece),
            Phase::InterfaceCount => self.take_four(piece),
            Phase::ArrayLength => self.take_four(piece),
            Phase::BlockLength4 => self.take_four(piece),
            Phase::Suid => self.take_eight(piece),
            Phase::Length2 => self.take_short_length(gate, piece),
            Phase::Length8 => self.take_long_length(gate, piece),
            Phase::Text => self.take_text(gate, piece),
            Phase::Prims => self.take_prims(piece),
            Phase::Bytes => self.take_block(piece),
            Phase::Cut => self.take_cut(gate, piece),
            Phase::Stopped => unreachable!(),
        }
    }
}
