//! Checked names: those of classes and interfaces. Their units are kept while they are read; at its end a name is
//! judged by what it says, and then by the gate.
ghost use Rattle.std.specs.Prelude.{◌≡◌, ◌≢◌, ◌-◌, option_map};
ghost use Rattle.jser_table.specs.Chains.{is_array_kind};
ghost use Rattle.jser_table.specs.Names.{name_kind, malformed_name};
ghost use Rattle.jser_reading.specs.Goals.{settle};
ghost use Rattle.jser_verdict.specs.ClassRows.{is_wrong_name};
ghost use Rattle.jser_verdict.specs.Verdicts.{checked_reason, class_name_reason, interface_reason};
ghost use Rattle.jser_reader.specs.Fitting.{HasDescriptor};
ghost use Rattle.jser_reader.specs.Reasons.{named};
ghost use Rattle.jser_reader.specs.Readers.{moment_of, head_role, name_kind_of, interfaces_goals};
ghost use Rattle.jser_reader.specs.Handlers.{TellsSurely};
ghost use Rattle.jser_reader.specs.TextStates.{IsKindOf, named_state};

use crate::frame::{Owner, Role};
use crate::gate::{Answer, Gate};
use crate::machine::Machine;
use crate::machine::flow::Flow;
use crate::phase::Phase;
use crate::refusal::Reason;
use jser_table::{LayerKind, layer_kind_of};

/// Whether a class of this kind is an array's.
fn is_array(kind: LayerKind) -> bool
    ensures { result ≡ is_array_kind kind }
{
    matches!(kind, LayerKind::Array(_))
}

impl Machine {
    /// The units so far of the name that is being read, or of the one that was read last.
    pub(crate) fn class_units(&self) -> &[u16]
        ensures { result.now ≡ self.now.name }
    {
        self.name.as_slice()
    }

    /// Why the gate does not let the name pass that has been read, if it does not.
    #[tactic(auto, using(crate::proofs::NameLemmas::passes, crate::proofs::NameLemmas::rejected_name, crate::proofs::NameLemmas::unmatched_name))]
    #[inline(always)]
    fn judged<G: Gate>(&self, gate: &G) -> Option<Reason>
        requires { name_kind self.now.name ≢ malformed_name }
        ensures { result ≡ option_map named (checked_reason (G.told gate.now) self.now.name) }
    {
        match gate.name(&self.name) {
            Answer::Pass => None,
            Answer::Rejected => Some(Reason::ClassRejected),
            Answer::Unmatched => Some(Reason::ClassUnmatched),
        }
    }

    /// Whether a class of this kind may not be the class of the owner that the descriptor is read for: an object's is
    /// no array, and an array's is one.
    #[tactic(auto, using(crate::proofs::NameLemmas::wrong_object, crate::proofs::NameLemmas::wrong_array, crate::proofs::NameLemmas::right_value, crate::proofs::NameLemmas::right_enum, crate::proofs::NameLemmas::right_class, crate::proofs::NameLemmas::right_super))]
    #[inline(always)]
    fn is_wrong_kind(&self, kind: LayerKind) -> bool
        ensures { result ≡ is_wrong_name (head_role self.now) (name_kind_of kind) }
    {
        match self.role {
            Role::Value => false,
            Role::ClassOf(Owner::Object) => is_array(kind),
            Role::ClassOf(Owner::Array) => !is_array(kind),
            Role::ClassOf(Owner::EnumConst) => false,
            Role::ClassOf(Owner::ClassObject) => false,
            Role::Superclass { .. } => false,
        }
    }

    /// What the class is whose name has been read, or the first thing that is wrong with the name.
    #[tactic(auto, using(crate::proofs::NameLemmas::malformed_class, crate::proofs::NameLemmas::wrong_class_name, crate::proofs::NameLemmas::judged_class, crate::proofs::NameLemmas::right_class_name, crate::proofs::NameLemmas::well_formed))]
    #[inline(always)]
    fn class_kind<G: Gate>(&self, gate: &G) -> Result<LayerKind, Reason>
        ensures { IsKindOf result (class_name_reason (G.told gate.now) (head_role self.now) self.now.name) self.now.name }
    {
        let Some(kind) = layer_kind_of(&self.name) else {
            return Err(Reason::BadArrayName);
        };
        if self.is_wrong_kind(kind) {
            return Err(Reason::WrongClass);
        }
        match self.judged(gate) {
            Some(reason) => Err(reason),
            None => Ok(kind),
        }
    }

    /// The name of a class has ended. If it may stand there, the suid comes next.
    #[tactic(auto, using(crate::proofs::NameLemmas::class_refused, crate::proofs::NameLemmas::class_named))]
    #[inline(always)]
    pub(super) fn class_name<G: Gate>(&mut self, gate: &G) -> Flow
        ensures { TellsSurely (class_name_reason (G.told gate.now) (head_role self.old) self.old.name) (named_state self.old self.old.name) result self.old self.new }
    {
        match self.class_kind(gate) {
            Err(reason) => self.refuse(reason),
            Ok(kind) => {
                self.kind = kind;
                self.done(Phase::Suid)
            }
        }
    }

    /// What is wrong with the name of an interface that has been read, if anything is.
    #[tactic(auto, using(crate::proofs::NameLemmas::malformed_interface, crate::proofs::NameLemmas::judged_interface, crate::proofs::NameLemmas::well_formed))]
    fn interface_fault<G: Gate>(&self, gate: &G) -> Option<Reason>
        ensures { result ≡ option_map named (interface_reason (G.told gate.now) self.now.name) }
    {
        if layer_kind_of(&self.name).is_none() {
            return Some(Reason::BadArrayName);
        }
        self.judged(gate)
    }

    /// The name of an interface has ended. If it may stand there, the next one comes, or what is after the last.
    #[tactic(auto, using(crate::proofs::NameLemmas::interface_refused, crate::proofs::NameLemmas::interface_named))]
    pub(super) fn interface_name<G: Gate>(&mut self, gate: &G) -> Flow
        ensures { HasDescriptor self.old.frames
            → TellsSurely (interface_reason (G.told gate.now) self.old.name) (settle (moment_of self.old) (interfaces_goals self.old (self.old.header.interfaces - 1))) result self.old self.new }
    {
        if let Some(reason) = self.interface_fault(gate) {
            return self.refuse(reason);
        }
        self.interfaces = self.interfaces.saturating_sub(1);
        self.interfaces_done()
    }
}
