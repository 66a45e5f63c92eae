//! Numbers that may be cut: the piece that is at hand may end within them. Their first bytes are kept then, and the
//! others are taken from the pieces that follow.
ghost use Rattle.std.specs.Prelude.{◌≡◌, ◌+◌, ◌++◌, ◌<◌, ◌≤◌, ◌^◌, length};
ghost use Rattle.jser_reader.specs.Walks.{size_of_phase};
ghost use Rattle.jser_reader.specs.Cuts.{IsCutToken};
ghost use Rattle.jser_reader.specs.Takes.{CutsOff, TakesFromFor};

use crate::gate::Gate;
use crate::machine::Machine;
use crate::machine::take::taken::Taken;
use crate::phase::Phase;

impl Machine {
    /// Keeps these bytes of the token that comes next: they are not all of it.
    #[tactic(auto, using(crate::proofs::CutLemmas::cuts_off))]
    #[inline(never)]
    pub(crate) fn keep(&mut self, piece: &[u8])
        requires token { IsCutToken self.old.phase piece.now }
        requires room { self.old.meter.at + length piece.now < 2 ^ 64 }
        ensures { CutsOff piece.now self.old self.new }
    {
        self.at += piece.len() as u64;
        self.cut.begin(self.phase, piece);
        self.phase = Phase::Cut;
    }

    /// Keeps these bytes too of the token that was cut: they are not all that were missing.
    #[tactic(auto, using(crate::proofs::CutLemmas::cuts_again))]
    #[inline(never)]
    pub(crate) fn keep_more(&mut self, piece: &[u8])
        requires phase { self.old.phase ≡ Phase.Cut }
        requires short { length (self.old.meter.kept ++ piece.now) < size_of_phase self.old.meter.cut_phase }
        requires room { self.old.meter.at + length piece.now < 2 ^ 64 }
        ensures { CutsOff piece.now self.old self.new }
    {
        self.at += piece.len() as u64;
        self.cut.go_on(piece);
    }

    /// Takes the last bytes of the number that was cut, so many of them.
    #[tactic(auto, using(crate::proofs::CutLemmas::cut_four))]
    fn end_cut<G: Gate>(&mut self, gate: &G, piece: &[u8], missing: usize) -> Taken
        requires phase { self.old.phase ≡ Phase.Cut }
        requires number { self.old.meter.cut_phase ≡ Phase.Header → ⊥ }
        requires some { 0 < missing }
        requires all { length self.old.meter.kept + missing ≡ size_of_phase self.old.meter.cut_phase }
        requires there { missing ≤ length piece.now }
        requires room { self.old.meter.at + length piece.now < 2 ^ 64 }
        ensures { TakesFromFor (G.told gate.now) result piece.now self.old self.new }
    {
        let (last, _) = piece.split_at(missing);
        match self.cut.phase() {
            Phase::Length2 => {
                let n = self.cut.two(last);
                self.take_length2(gate, n, missing)
            }
            Phase::Length8 => {
                let n = self.cut.eight(last);
                self.take_length8(gate, n, missing)
            }
            Phase::FieldCount => {
                let n = self.cut.two(last);
                Taken::after(missing, self.take_field_count(n, missing as u64))
            }
            Phase::Suid => {
                let n = self.cut.eight(last);
                Taken::after(missing, self.take_suid(n, missing as u64))
            }
            phase => {
                let n = self.cut.four(last);
                Taken::after(missing, self.end_four(phase, n, missing as u64))
            }
        }
    }

    /// Takes the missing bytes of the token that was cut, or as many of them as there are.
    #[inline(never)]
    pub(crate) fn take_cut<G: Gate>(&mut self, gate: &G, piece: &[u8]) -> Taken
        requires phase { self.old.phase ≡ Phase.Cut }
        requires some { 0 < length piece.now }
        requires room { self.old.meter.at + length piece.now < 2 ^ 64 }
        ensures { TakesFromFor (G.told gate.now) result piece.now self.old self.new }
    {
        if self.cut.phase() == Phase::Header {
            return self.take_header(piece);
        }
        let missing = self.cut.missing();
        if piece.len() < missing {
            self.keep_more(piece);
            return Taken::Open;
        }
        self.end_cut(gate, piece, missing)
    }
}
