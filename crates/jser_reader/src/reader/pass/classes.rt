//! Descriptors in steps of a call that takes a whole piece: after the fields of one come the end of its annotation, its
//! superclass place, and often the tag of the next descriptor. Where they do, they are taken in the same step.
ghost use Rattle.std.specs.Prelude.{◌≡◌, ◌<◌, length, Some};
ghost use Rattle.jser_reader.specs.Passes.{bytes_passed, Passes, PassesOn, HasPassed, CanPass, IsQuiet};
ghost use Rattle.jser_reader.specs.Takes.{IsOne};
ghost use Rattle.jser_verdict.specs.Gates.{Gate as ToldGate, IsGate};

use crate::gate::Gate;
use crate::machine::passed::Passed;
use crate::phase::Phase;
use crate::reader::Reader;
use jser_grammar::wire::{TC_CLASSDESC, TC_ENDBLOCKDATA};

impl<G: Gate> Reader<G> {
    /// After so many bytes of a piece, takes the tag that comes next too, where its byte is there. It returns how many bytes
    /// were taken in all.
    #[inline(always)]
    fn then_next_tag(&mut self, piece: &[u8], used: usize) -> Passed
        requires used { HasPassed piece.now (Some used) }
        requires one { IsOne self.old.machine.phase }
        ensures passes { PassesOn piece.now used (bytes_passed result) self.old.machine self.old.tally self.new.machine self.new.tally }
        ensures progress { HasPassed piece.now (bytes_passed result) }
        ensures gate { self.new.gate ≡ self.old.gate }
    {
        let (_, rest) = piece.split_at(used);
        if rest.is_empty() || !self.machine.has_room(rest) {
            return Passed::Took(used);
        }
        match self.pass_tag(rest) {
            Passed::Stopped => Passed::Stopped,
            Passed::Took(more) => Passed::Took(used + more),
        }
    }

    /// After so many bytes of a piece, takes this tag too, where it comes next in this phase. It returns how many bytes were
    /// taken in all.
    #[inline(always)]
    fn then_tag(&mut self, piece: &[u8], used: usize, next: Phase, tag: u8) -> Passed
        requires used { HasPassed piece.now (Some used) }
        requires one { IsOne next }
        ensures passes { PassesOn piece.now used (bytes_passed result) self.old.machine self.old.tally self.new.machine self.new.tally }
        ensures progress { HasPassed piece.now (bytes_passed result) }
        ensures gate { self.new.gate ≡ self.old.gate }
    {
        let (_, rest) = piece.split_at(used);
        if self.machine.phase() != next || rest.is_empty() || rest[0] != tag {
            return Passed::Took(used);
        }
        self.then_next_tag(piece, used)
    }

    /// After so many bytes of a piece, takes the tag of a superclass place too, where one comes next. It returns how many
    /// bytes were taken in all.
    #[inline(always)]
    fn then_superclass(&mut self, piece: &[u8], used: usize) -> Passed
        requires used { HasPassed piece.now (Some used) }
        ensures passes { PassesOn piece.now used (bytes_passed result) self.old.machine self.old.tally self.new.machine self.new.tally }
        ensures progress { HasPassed piece.now (bytes_passed result) }
        ensures gate { self.new.gate ≡ self.old.gate }
    {
        if self.machine.phase() != Phase::SuperTag {
            return Passed::Took(used);
        }
        self.then_next_tag(piece, used)
    }

    /// Takes the tag of a content or a value, which comes next, and that of its class, where it has one that is new.
    #[inline(always)]
    pub(super) fn pass_owner(&mut self, piece: &[u8]) -> Passed
        requires can { CanPass self.old.machine piece.now }
        requires some { 0 < length piece.now }
        requires one { IsOne self.old.machine.phase }
        ensures passes { (gate : ToldGate) → IsGate gate → Passes gate piece.now (bytes_passed result) self.old.machine self.old.tally self.new.machine self.new.tally }
        ensures progress { HasPassed piece.now (bytes_passed result) }
        ensures gate { self.new.gate ≡ self.old.gate }
    {
        match self.pass_tag(piece) {
            Passed::Stopped => Passed::Stopped,
            Passed::Took(used) => self.then_tag(piece, used, Phase::ClassTag, TC_CLASSDESC),
        }
    }

    /// After so many bytes of a piece, where a content or a value comes next, takes its tag too, and that of its class, where it
    /// has one that is new. It returns how many bytes were taken in all.
    #[inline(always)]
    pub(super) fn then_owner(&mut self, piece: &[u8], used: usize) -> Passed
        requires used { HasPassed piece.now (Some used) }
        ensures passes { PassesOn piece.now used (bytes_passed result) self.old.machine self.old.tally self.new.machine self.new.tally }
        ensures progress { HasPassed piece.now (bytes_passed result) }
        ensures gate { self.new.gate ≡ self.old.gate }
    {
        if !self.machine.phase().is_place() {
            return Passed::Took(used);
        }
        match self.then_next_tag(piece, used) {
            Passed::Stopped => Passed::Stopped,
            Passed::Took(tag) => self.then_tag(piece, tag, Phase::ClassTag, TC_CLASSDESC),
        }
    }

    /// After so many bytes of a piece, takes what comes after the fields of a descriptor: the end of its annotation, the tag
    /// of its superclass place, and the tag of another descriptor at the top. It returns how many bytes were taken in all.
    #[inline(always)]
    fn then_class(&mut self, piece: &[u8], used: usize) -> Passed
        requires used { HasPassed piece.now (Some used) }
        ensures passes { PassesOn piece.now used (bytes_passed result) self.old.machine self.old.tally self.new.machine self.new.tally }
        ensures progress { HasPassed piece.now (bytes_passed result) }
        ensures gate { self.new.gate ≡ self.old.gate }
    {
        let Passed::Took(end) = self.then_tag(piece, used, Phase::Note, TC_ENDBLOCKDATA) else {
            return Passed::Stopped;
        };
        let Passed::Took(above) = self.then_superclass(piece, end) else {
            return Passed::Stopped;
        };
        self.then_tag(piece, above, Phase::Top, TC_CLASSDESC)
    }

    /// Takes tokens with which no count changes, as many as come one after another, and what comes after those of a
    /// descriptor.
    #[inline(always)]
    fn pass_class(&mut self, piece: &[u8]) -> Passed
        requires can { CanPass self.old.machine piece.now }
        requires some { 0 < length piece.now }
        requires quiet { IsQuiet self.old.machine.phase }
        ensures passes { Passes (G.told self.old.gate) piece.now (bytes_passed result) self.old.machine self.old.tally self.new.machine self.new.tally }
        ensures progress { HasPassed piece.now (bytes_passed result) }
        ensures gate { self.new.gate ≡ self.old.gate }
    {
        match self.machine.pass_quiets(&self.gate, piece) {
            Passed::Stopped => Passed::Stopped,
            Passed::Took(used) => self.then_class(piece, used),
        }
    }

    /// Takes one descriptor after another, as many as come there, and what comes after them, with which no count changes.
    #[inline(never)]
    pub(super) fn pass_classes(&mut self, piece: &[u8]) -> Passed
        requires can { CanPass self.old.machine piece.now }
        requires some { 0 < length piece.now }
        requires quiet { IsQuiet self.old.machine.phase }
        ensures passes { Passes (G.told self.old.gate) piece.now (bytes_passed result) self.old.machine self.old.tally self.new.machine self.new.tally }
        ensures progress { HasPassed piece.now (bytes_passed result) }
        ensures gate { self.new.gate ≡ self.old.gate }
    {
        let mut used = 0;
        'classes: loop {
            let (_, rest) = piece.split_at(used);
            match self.pass_class(rest) {
                Passed::Stopped => return Passed::Stopped,
                Passed::Took(more) => used += more,
            }
            let (_, others) = piece.split_at(used);
            if others.is_empty()
                || !self.machine.phase().is_quiet()
                || !self.machine.has_room(others)
            {
                return Passed::Took(used);
            }
        }
    }
}
