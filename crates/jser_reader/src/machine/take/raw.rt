//! Raw values and the bytes of blocks, as they are taken: any bytes, so many.
ghost use Rattle.std.specs.Prelude.{◌≡◌, ◌+◌, ◌<◌, ◌^◌, length};
ghost use Rattle.jser_reader.specs.Takes.{TakesFrom, TakesRaw};

use crate::machine::Machine;
use crate::machine::take::taken::Taken;
use crate::phase::Phase;

impl Machine {
    /// Takes bytes of a raw token: as many as are left of it, which is one at least, or all of the piece.
    #[tactic(auto, using(crate::proofs::TakeRawLemmas::raw_ends, crate::proofs::TakeRawLemmas::raw_stays))]
    #[inline(never)]
    fn take_raw(&mut self, piece: &[u8]) -> Taken
        requires some { 0 < length piece.now }
        requires room { self.old.meter.at + length piece.now < 2 ^ 64 }
        ensures { TakesRaw result piece.now self.old self.new }
    {
        let count = self.left.max(1).min(piece.len() as u64);
        self.at += count;
        if count < self.left {
            self.left -= count;
            return Taken::Part(piece.len());
        }
        self.ended();
        Taken::Ended(count as usize)
    }

    /// Takes bytes of raw values.
    #[tactic(auto, using(crate::proofs::TakeRawLemmas::takes_prims))]
    #[inline(always)]
    pub(crate) fn take_prims(&mut self, piece: &[u8]) -> Taken
        requires phase { self.old.phase ≡ Phase.Prims }
        requires some { 0 < length piece.now }
        requires room { self.old.meter.at + length piece.now < 2 ^ 64 }
        ensures { TakesFrom result piece.now self.old self.new }
    {
        self.take_raw(piece)
    }

    /// Takes bytes of a block.
    #[tactic(auto, using(crate::proofs::TakeRawLemmas::takes_block))]
    #[inline(always)]
    pub(crate) fn take_block(&mut self, piece: &[u8]) -> Taken
        requires phase { self.old.phase ≡ Phase.Bytes }
        requires some { 0 < length piece.now }
        requires room { self.old.meter.at + length piece.now < 2 ^ 64 }
        ensures { TakesFrom result piece.now self.old self.new }
    {
        self.take_raw(piece)
    }
}
