//! Tokens of a descriptor and text places in steps of a call that takes a whole piece: where a token has ended, the one
//! that mostly comes after it is taken in the same step, without a look at all the others.
ghost use Rattle.std.specs.Prelude.{◌≡◌, ◌+◌, ◌<◌, ◌^◌, length, Some};
ghost use Rattle.jser_reader.specs.Passes.{bytes_passed, Passes, HasPassed, CanPass, IsQuiet};
ghost use Rattle.jser_reader.specs.Readers.{Seen};
ghost use Rattle.jser_reader.specs.Takes.{TakesFromFor};

use crate::gate::Gate;
use crate::machine::Machine;
use crate::machine::passed::Passed;
use crate::machine::take::taken::Taken;
use crate::phase::Phase;
use crate::tally::Tally;

impl Machine {
    /// Takes bytes of the token of this phase, which comes next or is open. Where the caller names the phase, its arm
    /// alone is left.
    #[inline(always)]
    fn take_known<G: Gate>(&mut self, gate: &G, piece: &[u8], phase: Phase) -> Taken
        requires phase { self.old.phase ≡ phase }
        requires goes_on { self.old.phase ≡ Phase.Stopped → ⊥ }
        requires some { 0 < length piece.now }
        requires room { self.old.meter.at + length piece.now < 2 ^ 64 }
        ensures { TakesFromFor (G.told gate.now) result piece.now self.old self.new }
    {
        match phase {
            Phase::Length2 => self.take_short_length(gate, piece),
            Phase::Text => self.take_text_in_line(gate, piece),
            Phase::Suid => self.take_eight(piece),
            Phase::Flags => self.take_one(piece),
            Phase::FieldCount => self.take_two(piece),
            Phase::Prims => self.take_prims(piece),
            _ => self.take(gate, piece),
        }
    }

    /// Takes bytes of the token of this phase, which comes next or is open, where no count changes with it.
    #[inline(always)]
    pub(crate) fn pass_known<G: Gate>(&mut self, gate: &G, piece: &[u8], phase: Phase) -> Passed
        requires can { CanPass self.old piece.now }
        requires some { 0 < length piece.now }
        requires phase { self.old.phase ≡ phase }
        requires quiet { IsQuiet phase }
        ensures passes { (tally : Tally) → Passes (G.told gate.now) piece.now (bytes_passed result) self.old tally self.new tally }
        ensures progress { HasPassed piece.now (bytes_passed result) }
    {
        self.take_known(gate, piece, phase).passed(piece.len())
    }

    /// After so many bytes of a piece, where this token comes next there, takes bytes of it too; else nothing more. It
    /// returns how many bytes were taken in all.
    #[inline(always)]
    fn go_on<G: Gate>(&mut self, gate: &G, piece: &[u8], used: usize, next: Phase) -> Passed
        requires used { HasPassed piece.now (Some used) }
        requires quiet { IsQuiet next }
        ensures passes { (first : Seen) (tally : Tally) → Passes (G.told gate.now) piece.now (Some used) first tally self.old tally
            → Passes (G.told gate.now) piece.now (bytes_passed result) first tally self.new tally }
        ensures progress { HasPassed piece.now (bytes_passed result) }
    {
        let (_, rest) = piece.split_at(used);
        if self.phase != next || rest.is_empty() || !self.has_room(rest) {
            return Passed::Took(used);
        }
        match self.pass_known(gate, rest, next) {
            Passed::Stopped => Passed::Stopped,
            Passed::Took(more) => Passed::Took(used + more),
        }
    }

    /// Takes the length of a text and, where they come next, bytes of the text.
    #[inline(never)]
    pub(crate) fn pass_length<G: Gate>(&mut self, gate: &G, piece: &[u8]) -> Passed
        requires can { CanPass self.old piece.now }
        requires some { 0 < length piece.now }
        requires phase { self.old.phase ≡ Phase.Length2 }
        ensures passes { (tally : Tally) → Passes (G.told gate.now) piece.now (bytes_passed result) self.old tally self.new tally }
        ensures progress { HasPassed piece.now (bytes_passed result) }
    {
        let Passed::Took(length) = self.pass_known(gate, piece, Phase::Length2) else {
            return Passed::Stopped;
        };
        self.go_on(gate, piece, length, Phase::Text)
    }

    /// Takes the length of a text and the text; and where it is the name of a class, what comes up to the number of its
    /// tokens.
    #[inline(always)]
    fn pass_text<G: Gate>(&mut self, gate: &G, piece: &[u8]) -> Passed
        requires can { CanPass self.old piece.now }
        requires some { 0 < length piece.now }
        requires phase { self.old.phase ≡ Phase.Length2 }
        ensures passes { (tally : Tally) → Passes (G.told gate.now) piece.now (bytes_passed result) self.old tally self.new tally }
        ensures progress { HasPassed piece.now (bytes_passed result) }
    {
        let Passed::Took(text) = self.pass_name(gate, piece) else {
            return Passed::Stopped;
        };
        let Passed::Took(suid) = self.go_on(gate, piece, text, Phase::Suid) else {
            return Passed::Stopped;
        };
        let Passed::Took(flags) = self.go_on(gate, piece, suid, Phase::Flags) else {
            return Passed::Stopped;
        };
        self.go_on(gate, piece, flags, Phase::FieldCount)
    }

    /// Takes fields of a descriptor, as many as are whole in the piece; where the next one is not, its type code alone.
    #[inline(always)]
    fn pass_fields<G: Gate>(&mut self, gate: &G, piece: &[u8]) -> Passed
        requires can { CanPass self.old piece.now }
        requires some { 0 < length piece.now }
        requires phase { self.old.phase ≡ Phase.TypeCode }
        ensures passes { (tally : Tally) → Passes (G.told gate.now) piece.now (bytes_passed result) self.old tally self.new tally }
        ensures progress { HasPassed piece.now (bytes_passed result) }
    {
        let used = self.pass_members(piece);
        if used > 0 {
            return Passed::Took(used);
        }
        self.pass_quiet(gate, piece)
    }

    /// Takes a token that is open, or comes next, with those that mostly come after it.
    #[inline(always)]
    fn pass_group<G: Gate>(&mut self, gate: &G, piece: &[u8]) -> Passed
        requires can { CanPass self.old piece.now }
        requires some { 0 < length piece.now }
        requires quiet { IsQuiet self.old.phase }
        ensures passes { (tally : Tally) → Passes (G.told gate.now) piece.now (bytes_passed result) self.old tally self.new tally }
        ensures progress { HasPassed piece.now (bytes_passed result) }
    {
        match self.phase {
            Phase::TypeCode => self.pass_fields(gate, piece),
            Phase::Length2 => self.pass_text(gate, piece),
            Phase::Prims => self.pass_known(gate, piece, Phase::Prims),
            _ => self.pass_quiet(gate, piece),
        }
    }

    /// Takes tokens with which no count changes, as many as come one after another.
    #[inline(always)]
    pub(crate) fn pass_quiets<G: Gate>(&mut self, gate: &G, piece: &[u8]) -> Passed
        requires can { CanPass self.old piece.now }
        requires some { 0 < length piece.now }
        requires quiet { IsQuiet self.old.phase }
        ensures passes { (tally : Tally) → Passes (G.told gate.now) piece.now (bytes_passed result) self.old tally self.new tally }
        ensures progress { HasPassed piece.now (bytes_passed result) }
    {
        let mut used = 0;
        'tokens: loop {
            let (_, rest) = piece.split_at(used);
            match self.pass_group(gate, rest) {
                Passed::Stopped => return Passed::Stopped,
                Passed::Took(more) => used += more,
            }
            let (_, others) = piece.split_at(used);
            if others.is_empty() || !self.phase.is_quiet() || !self.has_room(others) {
                return Passed::Took(used);
            }
        }
    }
}
