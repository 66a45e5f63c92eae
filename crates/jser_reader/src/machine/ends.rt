//! How the handler of a token ends: the machine stops, or it knows which token comes next.
ghost use Rattle.std.specs.Prelude.{◌≡◌, ◌∷◌, true, false};
ghost use Rattle.jser_reader.specs.Handlers.{StopsWith, refusal, IsNext, Comes};
ghost use Rattle.jser_reader.specs.Steps.{after_value};

use crate::machine::Machine;
use crate::machine::flow::Flow;
use crate::phase::Phase;
use crate::refusal::{Reason, Refusal, Stop};

impl Machine {
    /// The open token is refused; its bytes so far decide.
    #[inline(never)]
    pub(super) fn refuse(&mut self, reason: Reason) -> Flow
        ensures stops { StopsWith (refusal self.old.meter reason) self.old self.new }
        ensures result { result ≡ Flow.Stopped }
    {
        self.stop = Stop::Refused(Refusal {
            from_byte: self.from,
            to_byte: self.at,
            reason,
        });
        self.phase = Phase::Stopped;
        Flow::Stopped
    }

    /// Memory ran out.
    #[inline(never)]
    pub(super) fn no_memory(&mut self) -> Flow
        ensures stops { StopsWith Stop.OutOfMemory self.old self.new }
        ensures result { result ≡ Flow.Stopped }
    {
        self.stop = Stop::OutOfMemory;
        self.phase = Phase::Stopped;
        Flow::Stopped
    }

    /// The token has ended, and this one comes next.
    #[inline(always)]
    pub(super) fn done(&mut self, phase: Phase) -> Flow
        ensures next { IsNext phase self.old.owner self.old.elements self.old.header self.old.text self.old self.new }
        ensures result { result ≡ Flow.On }
    {
        self.from = self.at;
        self.phase = phase;
        Flow::On
    }

    /// The token has ended, and a value with it.
    #[tactic(auto, using(crate::proofs::EndLemmas::ends))]
    #[inline(always)]
    pub(super) fn ended(&mut self) -> Flow
        ensures comes { Comes self.old self.new (after_value self.old) }
        ensures result { result ≡ Flow.On }
    {
        self.from = self.at;
        self.value_done();
        Flow::On
    }

    /// The token has ended, and a value with it; the next field or element of what is on top is found in line.
    #[tactic(auto, using(crate::proofs::EndLemmas::ends))]
    #[inline(always)]
    pub(crate) fn ended_in_line(&mut self) -> Flow
        ensures comes { Comes self.old self.new (after_value self.old) }
        ensures result { result ≡ Flow.On }
    {
        self.from = self.at;
        self.value_done_in_line();
        Flow::On
    }
}
