//! Class places: the tag and the handle of the class of an object, an array, an enum constant or a class object.
ghost use Rattle.std.specs.Prelude.{◌-◌, length, suc};
ghost use Rattle.jser_table.specs.Entries.{chain_at};
ghost use Rattle.jser_grammar.specs.Wire.{TC_PROXYCLASSDESC, BASE_WIRE_HANDLE};
ghost use Rattle.jser_reading.specs.TokensFromBytes.{tag_from};
ghost use Rattle.jser_reading.specs.Labels.{class_place_at, class_handle_at};
ghost use Rattle.jser_verdict.specs.Verdicts.{class_tag_reason, class_handle_reason};
ghost use Rattle.jser_reader.specs.Frames.{goal_owner};
ghost use Rattle.jser_reader.specs.Handlers.{Tells, plain_gate, label_at, after_class_tag, owner_state};

use crate::frame::{Owner, Role};
use crate::machine::Machine;
use crate::machine::flow::Flow;
use crate::phase::Phase;
use crate::refusal::Reason;
use jser_grammar::wire::{TC_CLASSDESC, TC_NULL, TC_PROXYCLASSDESC, TC_REFERENCE};

impl Machine {
    /// A new proxy descriptor as the class of the owner.
    #[tactic(auto, using(crate::proofs::ClassLemmas::object_proxy, crate::proofs::ClassLemmas::array_proxy, crate::proofs::ClassLemmas::enum_proxy, crate::proofs::ClassLemmas::class_proxy))]
    fn proxy_class(&mut self) -> Flow
        ensures { Tells (class_tag_reason (plain_gate self.old) (label_at (class_place_at (goal_owner self.old.owner)) (suc (length self.old.frames)) self.old) (goal_owner self.old.owner) TC_PROXYCLASSDESC)
            (after_class_tag self.old (tag_from TC_PROXYCLASSDESC)) result self.old self.new }
    {
        match self.owner {
            Owner::Array => self.refuse(Reason::WrongClass),
            Owner::EnumConst => self.refuse(Reason::WrongClass),
            Owner::Object => self.new_proxy(Role::ClassOf(Owner::Object)),
            Owner::ClassObject => self.new_proxy(Role::ClassOf(Owner::ClassObject)),
        }
    }

    /// A tag in a class place.
    #[tactic(auto, using(crate::proofs::ClassLemmas::class_reference, crate::proofs::ClassLemmas::new_class, crate::proofs::ClassLemmas::null_class_tag, crate::proofs::ClassLemmas::no_class_tag))]
    pub(super) fn class_tag(&mut self, byte: u8) -> Flow
        ensures { Tells (class_tag_reason (plain_gate self.old) (label_at (class_place_at (goal_owner self.old.owner)) (suc (length self.old.frames)) self.old) (goal_owner self.old.owner) byte)
            (after_class_tag self.old (tag_from byte)) result self.old self.new }
    {
        match byte {
            TC_REFERENCE => self.done(Phase::ClassHandle),
            TC_CLASSDESC => self.new_class(Role::ClassOf(self.owner)),
            TC_PROXYCLASSDESC => self.proxy_class(),
            TC_NULL => self.refuse(Reason::NullClass),
            _ => self.refuse(Reason::BadTag),
        }
    }

    /// The handle of a reference in a class place.
    #[tactic(auto, using(crate::proofs::ClassLemmas::wrong_class_handle, crate::proofs::ClassLemmas::right_class))]
    #[inline(never)]
    pub(crate) fn class_handle(&mut self, n: u32) -> Flow
        ensures { Tells (class_handle_reason (plain_gate self.old) (label_at (class_handle_at (goal_owner self.old.owner)) (suc (length self.old.frames)) self.old) (goal_owner self.old.owner) n)
            (owner_state self.old (chain_at self.old.table.entries (n - BASE_WIRE_HANDLE))) result self.old self.new }
    {
        let owner = self.owner;
        match self.class_of(owner, n) {
            Err(reason) => self.refuse(reason),
            Ok(chain) => self.begin_known_owner(owner, chain),
        }
    }
}
