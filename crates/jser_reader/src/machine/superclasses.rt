//! Superclass places: the tag, and the handle of a superclass that has been read.
ghost use Rattle.std.specs.Prelude.{◌≡◌, ◌-◌, Some};
ghost use Rattle.jser_grammar.specs.Wire.{TC_NULL, TC_REFERENCE, TC_CLASSDESC, TC_PROXYCLASSDESC, BASE_WIRE_HANDLE};
ghost use Rattle.jser_reading.specs.TokensFromBytes.{tag_from};
ghost use Rattle.jser_reader.specs.Fitting.{HasDescriptor};
ghost use Rattle.jser_reader.specs.Handlers.{Tells};
ghost use Rattle.jser_reader.specs.Closing.{closed_state};
ghost use Rattle.jser_reader.specs.Superclasses.{strict_in, super_reason, super_handle_reason, after_super_tag};

use crate::frame::{Frame, Owner, Role};
use crate::machine::Machine;
use crate::machine::flow::Flow;
use crate::phase::Phase;
use crate::refusal::Reason;
use jser_grammar::wire::{
    BASE_WIRE_HANDLE, TC_CLASSDESC, TC_NULL, TC_PROXYCLASSDESC, TC_REFERENCE,
};

impl Machine {
    /// Whether the superclass of the descriptor on top must be a proxy or serializable.
    #[tactic(auto, using(crate::proofs::SuperTagLemmas::strict_value, crate::proofs::SuperTagLemmas::strict_object, crate::proofs::SuperTagLemmas::strict_other, crate::proofs::SuperTagLemmas::strict_super, crate::proofs::SuperTagLemmas::strict_none, crate::proofs::SuperTagLemmas::strict_array, crate::proofs::SuperTagLemmas::strict_enum, crate::proofs::SuperTagLemmas::strict_class))]
    fn is_strict(&self) -> bool
        ensures { result ≡ strict_in self.now.layers self.now.frames }
    {
        let Some(frame) = self.frames.top() else {
            return false;
        };
        let Frame::Descriptor { role, .. } = frame else {
            return false;
        };
        match role {
            Role::Value => false,
            Role::ClassOf(Owner::Object) => !self.layer.is_externalizable(),
            Role::ClassOf(Owner::Array) => false,
            Role::ClassOf(Owner::EnumConst) => false,
            Role::ClassOf(Owner::ClassObject) => false,
            Role::Superclass { strict } => strict,
        }
    }

    /// NULL in a superclass place, a class with no superclass.
    #[tactic(auto, using(crate::proofs::SuperTagLemmas::null_fails, crate::proofs::SuperTagLemmas::null_closes))]
    #[inline(always)]
    fn null_super(&mut self) -> Flow
        ensures { HasDescriptor self.old.frames → Tells (super_reason self.old TC_NULL) (after_super_tag self.old (tag_from TC_NULL)) result self.old self.new }
    {
        match self.count_place() {
            Flow::On => self.close(None),
            Flow::Stopped => Flow::Stopped,
        }
    }

    /// A reference in a superclass place.
    #[tactic(auto, using(crate::proofs::SuperTagLemmas::back_fails, crate::proofs::SuperTagLemmas::back_goes))]
    fn back_super(&mut self) -> Flow
        ensures { HasDescriptor self.old.frames → Tells (super_reason self.old TC_REFERENCE) (after_super_tag self.old (tag_from TC_REFERENCE)) result self.old self.new }
    {
        match self.count_place() {
            Flow::On => self.done(Phase::SuperHandle),
            Flow::Stopped => Flow::Stopped,
        }
    }

    /// A new plain descriptor in a superclass place.
    #[tactic(auto, using(crate::proofs::SuperTagLemmas::plain_fails, crate::proofs::SuperTagLemmas::plain_goes))]
    fn plain_super(&mut self) -> Flow
        ensures { Tells (super_reason self.old TC_CLASSDESC) (after_super_tag self.old (tag_from TC_CLASSDESC)) result self.old self.new }
    {
        let Flow::On = self.count_place() else {
            return Flow::Stopped;
        };
        let strict = self.is_strict();
        self.new_class(Role::Superclass { strict })
    }

    /// A new proxy descriptor in a superclass place.
    #[tactic(auto, using(crate::proofs::SuperTagLemmas::proxy_fails, crate::proofs::SuperTagLemmas::proxy_goes))]
    fn proxy_super(&mut self) -> Flow
        ensures { Tells (super_reason self.old TC_PROXYCLASSDESC) (after_super_tag self.old (tag_from TC_PROXYCLASSDESC)) result self.old self.new }
    {
        let Flow::On = self.count_place() else {
            return Flow::Stopped;
        };
        let strict = self.is_strict();
        self.new_proxy(Role::Superclass { strict })
    }

    /// A tag in a superclass place.
    #[tactic(auto, using(crate::proofs::SuperTagLemmas::no_super_tag))]
    #[inline(always)]
    pub(super) fn super_tag(&mut self, byte: u8) -> Flow
        ensures { HasDescriptor self.old.frames → Tells (super_reason self.old byte) (after_super_tag self.old (tag_from byte)) result self.old self.new }
    {
        match byte {
            TC_NULL => self.null_super(),
            TC_REFERENCE => self.back_super(),
            TC_CLASSDESC => self.plain_super(),
            TC_PROXYCLASSDESC => self.proxy_super(),
            _ => self.refuse(Reason::BadTag),
        }
    }

    /// The handle of a reference in a superclass place.
    #[tactic(auto, using(crate::proofs::SuperTagLemmas::wrong_super, crate::proofs::SuperTagLemmas::unserial_super, crate::proofs::SuperTagLemmas::right_super, crate::proofs::SuperTagLemmas::is_read))]
    pub(super) fn super_handle(&mut self, n: u32) -> Flow
        ensures { HasDescriptor self.old.frames → Tells (super_handle_reason self.old n) (closed_state self.old (Some (n - BASE_WIRE_HANDLE))) result self.old self.new }
    {
        match self.closed_class(n) {
            Err(reason) => self.refuse(reason),
            Ok(_) => {
                if self.is_strict() && !self.table.all_serial(n - BASE_WIRE_HANDLE) {
                    return self.refuse(Reason::NotSerializable);
                }
                self.close(Some(n - BASE_WIRE_HANDLE))
            }
        }
    }
}
