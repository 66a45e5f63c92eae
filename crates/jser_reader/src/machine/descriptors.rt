//! The head of a descriptor (Java Object Serialization Specification, section 6.4.1, newClassDesc and classDescInfo):
//! its handle and its flags.
ghost use Rattle.std.specs.Prelude.{◌≡◌, ◌&&◌, option_map, Some};
ghost use Rattle.jser_table.specs.Chains.{is_serializable, is_externalizable};
ghost use Rattle.jser_reading.specs.Roles.{own_class, object_owner};
ghost use Rattle.jser_verdict.specs.Reasons.{handle_space};
ghost use Rattle.jser_verdict.specs.Verdicts.{told_if, flags_reason};
ghost use Rattle.jser_reader.specs.Fitting.{HasDescriptor};
ghost use Rattle.jser_reader.specs.Reasons.{named};
ghost use Rattle.jser_reader.specs.Frames.{head_layer};
ghost use Rattle.jser_reader.specs.Readers.{top_role, field_count_state};
ghost use Rattle.jser_reader.specs.Handlers.{Tells, is_full};
ghost use Rattle.jser_reader.specs.Descriptors.{CanOpen, Opens, OpensNew, role_reason, after_suid};

use crate::frame::{Frame, Owner, Role};
use crate::machine::Machine;
use crate::machine::flow::Flow;
use crate::phase::Phase;
use crate::refusal::Reason;
use jser_table::{KeptLayer, Kind, LayerKind};

impl Machine {
    /// Puts the descriptor with this number on the stack, and then a layer in which nothing is yet: where memory runs
    /// out between the two, there is no layer without its frame.
    #[tactic(auto, using(crate::proofs::DescriptorLemmas::fits_opened, crate::proofs::LayerLemmas::frame_opened, crate::proofs::LayerLemmas::layer_opened, crate::proofs::DescriptorLemmas::opens_nothing, crate::proofs::DescriptorLemmas::opens))]
    #[inline(always)]
    fn push_descriptor(&mut self, role: Role, number: u32) -> Flow
        requires { CanOpen self.old.table.entries self.old.table.chains number self.old.frames }
        ensures { Opens role number result self.old self.new }
    {
        if self
            .frames
            .push(Frame::Descriptor { number, role })
            .is_err()
        {
            return self.no_memory();
        }
        let layer = KeptLayer::bare(LayerKind::Other, 0);
        let outer = std::mem::replace(&mut self.layer, layer);
        if self.outer.push(outer).is_err() {
            return self.no_memory();
        }
        Flow::On
    }

    /// A new descriptor, which is read in this role: its handle is assigned.
    #[tactic(auto, using(crate::proofs::DescriptorLemmas::can_open, crate::proofs::DescriptorLemmas::not_new, crate::proofs::DescriptorLemmas::opens_new))]
    #[inline(always)]
    pub(super) fn new_descriptor(&mut self, role: Role) -> Flow
        ensures { OpensNew role result self.old self.new }
    {
        let _ = &self.alloc;
        match self.assign(Kind::Pending) {
            None => Flow::Stopped,
            Some(number) => self.push_descriptor(role, number),
        }
    }

    /// The suid of a plain descriptor: its handle is assigned there, and its flags come next.
    #[tactic(auto, using(crate::proofs::DescriptorLemmas::no_descriptor, crate::proofs::DescriptorLemmas::suid_goes))]
    #[inline(always)]
    pub(super) fn suid(&mut self) -> Flow
        ensures { Tells (told_if (is_full self.old) handle_space None) (after_suid self.old) result self.old self.new }
    {
        match self.new_descriptor(self.role) {
            Flow::On => self.done(Phase::Flags),
            Flow::Stopped => Flow::Stopped,
        }
    }

    /// What is wrong with the flags of an object's class.
    fn object_fault(&self) -> Option<Reason>
        ensures { result ≡ option_map named (role_reason (own_class (Some object_owner)) (head_layer self.now.layers).flags) }
    {
        if self.layer.is_externalizable() {
            return (!self.layer.has_block_data()).then_some(Reason::ExternalRaw);
        }
        (!self.layer.is_serializable()).then_some(Reason::NotSerializable)
    }

    /// What the role of the descriptor on top finds wrong with its flags.
    fn flags_fault(&self) -> Option<Reason>
        ensures { result ≡ option_map named (role_reason (top_role self.now.frames) (head_layer self.now.layers).flags) }
    {
        let Some(frame) = self.frames.top() else {
            return None;
        };
        let Frame::Descriptor { role, .. } = frame else {
            return None;
        };
        match role {
            Role::Value => None,
            Role::ClassOf(Owner::Object) => self.object_fault(),
            Role::ClassOf(Owner::Array) => None,
            Role::ClassOf(Owner::EnumConst) => (!self.layer.is_enum()).then_some(
                Reason::WrongClass,
            ),
            Role::ClassOf(Owner::ClassObject) => None,
            Role::Superclass { strict: false } => None,
            Role::Superclass { strict: true } => (!self.layer.is_serializable()).then_some(
                Reason::NotSerializable,
            ),
        }
    }

    /// Whether the flags of the descriptor on top have both `SC_SERIALIZABLE` and `SC_EXTERNALIZABLE`.
    fn has_both_flags(&self) -> bool
        ensures { result ≡ (is_serializable (head_layer self.now.layers).flags && is_externalizable (head_layer self.now.layers).flags) }
    {
        self.layer.is_serializable() && self.layer.is_externalizable()
    }

    /// The flags of the plain descriptor on top.
    #[tactic(auto, using(crate::proofs::FieldLemmas::high_flags, crate::proofs::FieldLemmas::both_flags, crate::proofs::FieldLemmas::flags_fault, crate::proofs::FieldLemmas::flags_go))]
    #[inline(always)]
    pub(super) fn flags(&mut self, flags: u8) -> Flow
        ensures { HasDescriptor self.old.frames → Tells (flags_reason (top_role self.old.frames) flags) (field_count_state self.old flags) result self.old self.new }
    {
        if flags >= 0x20 {
            return self.refuse(Reason::BadFlags);
        }
        self.layer.set_flags(flags);
        if self.has_both_flags() {
            return self.refuse(Reason::BadFlags);
        }
        match self.flags_fault() {
            Some(reason) => self.refuse(reason),
            None => self.done(Phase::FieldCount),
        }
    }
}
