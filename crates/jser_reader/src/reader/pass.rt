//! Steps of a call that takes a whole piece: what comes next is taken from the front of the piece, and nothing is lent.
//! Values that are common and whole in the piece are taken by one loop, without a look at each of their tokens.
ghost use Rattle.std.specs.Prelude.{◌≡◌, ◌<◌, ◌≤◌, length, Some};
ghost use Rattle.jser_reader.specs.Passes.{bytes_passed, Passes, HasPassed, CanPass};
ghost use Rattle.jser_reader.specs.Takes.{IsOne};
ghost use Rattle.jser_reader.specs.Wholes.{IsPlace};
ghost use Rattle.jser_verdict.specs.Gates.{Gate as ToldGate, IsGate};

use crate::gate::Gate;
use crate::machine::flow::Flow;
use crate::machine::passed::Passed;
use crate::phase::Phase;
use crate::reader::Reader;

mod classes;

impl<G: Gate> Reader<G> {
    /// Takes some of a piece that reaches over the limit of bytes.
    #[inline(never)]
    fn pass_to_limit(&mut self, piece: &[u8]) -> Passed
        requires some { 0 < length piece.now }
        requires goes_on { self.old.machine.phase ≡ Phase.Stopped → ⊥ }
        ensures passes { Passes (G.told self.old.gate) piece.now (bytes_passed result) self.old.machine self.old.tally self.new.machine self.new.tally }
        ensures progress { HasPassed piece.now (bytes_passed result) }
        ensures gate { self.new.gate ≡ self.old.gate }
    {
        let front = self.machine.within(piece);
        if front.is_empty() {
            let _ = self.machine.exceed(&mut self.tally);
            return Passed::Stopped;
        }
        self.pass_token(front)
    }

    /// Takes a tag, which comes next.
    #[inline(always)]
    pub(super) fn pass_tag(&mut self, piece: &[u8]) -> Passed
        requires can { CanPass self.old.machine piece.now }
        requires some { 0 < length piece.now }
        requires one { IsOne self.old.machine.phase }
        ensures passes { (gate : ToldGate) → IsGate gate → Passes gate piece.now (bytes_passed result) self.old.machine self.old.tally self.new.machine self.new.tally }
        ensures progress { HasPassed piece.now (bytes_passed result) }
        ensures gate { self.new.gate ≡ self.old.gate }
    {
        let phase = self.machine.phase();
        let tag = piece[0];
        self.machine.count(&mut self.tally, tag);
        match self.machine.end_one(phase, tag) {
            Flow::On => Passed::Took(1),
            Flow::Stopped => Passed::Stopped,
        }
    }

    /// Takes contents and values, as many as are common and have all their bytes in the piece, and returns how many bytes they
    /// are.
    #[inline(always)]
    fn pass_many(&mut self, piece: &[u8]) -> usize
        requires can { CanPass self.old.machine piece.now }
        requires some { 0 < length piece.now }
        ensures passes { (gate : ToldGate) → IsGate gate → Passes gate piece.now (Some result) self.old.machine self.old.tally self.new.machine self.new.tally }
        ensures within { result ≤ length piece.now }
        ensures nothing { result ≡ 0 → self.new ≡ self.old }
        ensures gate { self.new.gate ≡ self.old.gate }
    {
        self.machine.pass_many(&mut self.tally, piece)
    }

    /// Takes contents and values, as many as are common and have all their bytes in the piece; and the tag of the one that comes
    /// next, with that of its class where it is new.
    #[inline(always)]
    fn pass_values(&mut self, piece: &[u8]) -> Passed
        requires can { CanPass self.old.machine piece.now }
        requires some { 0 < length piece.now }
        requires place { IsPlace self.old.machine.phase }
        ensures passes { (gate : ToldGate) → IsGate gate → Passes gate piece.now (bytes_passed result) self.old.machine self.old.tally self.new.machine self.new.tally }
        ensures progress { HasPassed piece.now (bytes_passed result) }
        ensures gate { self.new.gate ≡ self.old.gate }
    {
        let used = self.pass_many(piece);
        if used == 0 {
            return self.pass_owner(piece);
        }
        self.then_owner(piece, used)
    }

    /// Takes bytes of the token that is open, whichever it is.
    #[inline(always)]
    fn pass_token(&mut self, piece: &[u8]) -> Passed
        requires can { CanPass self.old.machine piece.now }
        requires some { 0 < length piece.now }
        requires goes_on { self.old.machine.phase ≡ Phase.Stopped → ⊥ }
        ensures passes { Passes (G.told self.old.gate) piece.now (bytes_passed result) self.old.machine self.old.tally self.new.machine self.new.tally }
        ensures progress { HasPassed piece.now (bytes_passed result) }
        ensures gate { self.new.gate ≡ self.old.gate }
    {
        if self.machine.phase().is_quiet() {
            return self.machine.pass_quiet(&self.gate, piece);
        }
        self.pass_tag(piece)
    }

    /// Takes some of the front of a piece that is not empty: a token or several, or all of the piece.
    #[tactic(auto, using(crate::proofs::PassLemmas::pass_stopped))]
    #[inline(always)]
    pub(super) fn pass(&mut self, piece: &[u8]) -> Passed
        requires { 0 < length piece.now }
        ensures passes { Passes (G.told self.old.gate) piece.now (bytes_passed result) self.old.machine self.old.tally self.new.machine self.new.tally }
        ensures progress { HasPassed piece.now (bytes_passed result) }
        ensures gate { self.new.gate ≡ self.old.gate }
    {
        if self.machine.is_stopped() {
            return Passed::Stopped;
        }
        if !self.machine.has_room(piece) {
            return self.pass_to_limit(piece);
        }
        match self.machine.phase() {
            Phase::Top | Phase::Value | Phase::Note => self.pass_values(piece),
            Phase::Prims => self.machine.pass_known(&self.gate, piece, Phase::Prims),
            Phase::TypeCode | Phase::Length2 | Phase::Text | Phase::Suid => {
                self.pass_classes(piece)
            }
            _ => self.pass_token(piece),
        }
    }
}
