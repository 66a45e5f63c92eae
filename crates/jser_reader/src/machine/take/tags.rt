//! Tokens of one byte, as they are taken: the byte is counted, and its handler judges it.
ghost use Rattle.std.specs.Prelude.{◌≡◌, ◌+◌, ◌<◌, ◌^◌, length};
ghost use Rattle.jser_reader.specs.Takes.{TakesByte, IsOne, TakesFrom};

use crate::machine::Machine;
use crate::machine::flow::Flow;
use crate::machine::take::taken::Taken;
use crate::phase::Phase;

impl Machine {
    /// Takes the one byte of the token that comes next, of this phase. Where the caller names the phase, its arm alone is left.
    #[tactic(auto, using(crate::proofs::TakeLemmas::no_other_one, crate::proofs::TakeLemmas::takes_top, crate::proofs::TakeLemmas::takes_note, crate::proofs::TakeLemmas::takes_value, crate::proofs::TakeLemmas::takes_class_tag, crate::proofs::TakeLemmas::takes_super_tag, crate::proofs::TakeLemmas::takes_text_tag, crate::proofs::TakeLemmas::takes_flags, crate::proofs::TakeLemmas::takes_type_code, crate::proofs::TakeLemmas::takes_block_length))]
    #[inline(always)]
    pub(crate) fn end_one(&mut self, phase: Phase, byte: u8) -> Flow
        requires phase { self.old.phase ≡ phase }
        requires one { IsOne phase }
        requires room { self.old.meter.at + 1 < 2 ^ 64 }
        ensures { TakesByte byte result self.old self.new }
    {
        self.at += 1;
        match phase {
            Phase::Top => self.top(byte),
            Phase::Note => self.note(byte),
            Phase::Value => self.value(byte),
            Phase::ClassTag => self.class_tag(byte),
            Phase::SuperTag => self.super_tag(byte),
            Phase::TextTag => self.text_tag(byte),
            Phase::Flags => self.flags(byte),
            Phase::TypeCode => self.type_code(byte),
            Phase::BlockLength1 => self.block_length(u32::from(byte)),
            _ => unreachable!(),
        }
    }

    /// Takes a token of one byte, which comes next, from a piece.
    #[tactic(auto, using(crate::proofs::TakeLemmas::one_taken))]
    #[inline(always)]
    pub(crate) fn take_one(&mut self, piece: &[u8]) -> Taken
        requires one { IsOne self.old.phase }
        requires some { 0 < length piece.now }
        requires room { self.old.meter.at + length piece.now < 2 ^ 64 }
        ensures { TakesFrom result piece.now self.old self.new }
    {
        let flow = self.end_one(self.phase, piece[0]);
        Taken::after(1, flow)
    }
}
