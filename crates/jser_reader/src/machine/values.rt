//! The tag of a value, and what comes after it.
ghost use Rattle.std.specs.Prelude.{◌≡◌, true, false, Some, None, IfSome};
ghost use Rattle.jser_table.specs.Tables.{new_entry};
ghost use Rattle.jser_verdict.specs.Reasons.{handle_space};
ghost use Rattle.jser_verdict.specs.Verdicts.{told_if};
ghost use Rattle.jser_reader.specs.Tags.{view_tag};
ghost use Rattle.jser_reader.specs.Readers.{length_phase, IsForm, IsInside};
ghost use Rattle.jser_reader.specs.Handlers.{Tells, Assigns, IsNext, is_full, handle_reason, begun, place_reason, after_tag, opens_class, opens_proxy, opens_text};

use crate::frame::{Owner, Role};
use crate::machine::Machine;
use crate::machine::flow::Flow;
use crate::phase::{Phase, TextFor};
use crate::refusal::Reason;
use crate::tag::ValueTag;
use jser_table::{Kind, TableFault};

impl Machine {
    /// Assigns the next handle, if there is one and memory lasts.
    #[tactic(auto, using(crate::proofs::EntryLemmas::fits_entry, crate::proofs::EntryLemmas::assigned_full, crate::proofs::EntryLemmas::assigned_no_memory, crate::proofs::EntryLemmas::assigned))]
    #[inline(always)]
    pub(super) fn assign(&mut self, kind: Kind) -> Option<u32>
        ensures given { Assigns (new_entry kind) result self.old self.new }
        ensures chains { IfSome result (λ _. self.new.table.chains ≡ self.old.table.chains) }
    {
        match self.table.assign(kind) {
            Ok(number) => Some(number),
            Err(TableFault::Full) => {
                self.refuse(Reason::HandleSpace);
                None
            }
            Err(TableFault::OutOfMemory) => {
                self.no_memory();
                None
            }
        }
    }

    /// A class place comes next.
    #[inline(always)]
    fn next_class(&mut self, owner: Owner) -> Flow
        ensures next { IsNext Phase.ClassTag owner self.old.elements self.old.header self.old.text self.old self.new }
        ensures result { result ≡ Flow.On }
    {
        self.owner = owner;
        self.done(Phase::ClassTag)
    }

    /// The length of a text comes next, in two bytes, or in eight in the long form.
    #[inline(always)]
    pub(super) fn next_text(&mut self, text: TextFor, long: bool) -> Flow
        ensures next { IsNext (length_phase long) self.old.owner self.old.elements self.old.header text self.old self.new }
        ensures result { result ≡ Flow.On }
    {
        self.text = text;
        if long {
            return self.done(Phase::Length8);
        }
        self.done(Phase::Length2)
    }

    /// A new string: its handle is assigned at its tag.
    #[tactic(auto, using(crate::proofs::ValueLemmas::no_text, crate::proofs::ValueLemmas::new_text))]
    pub(super) fn new_text(&mut self, text: TextFor, long: bool) -> Flow
        ensures { IsForm text true → IsInside text self.old.frames → Tells (told_if (is_full self.old) handle_space None) (opens_text self.old text long) result self.old self.new }
    {
        if self.assign(Kind::Text).is_none() {
            return Flow::Stopped;
        }
        self.next_text(text, long)
    }

    /// The name of a new plain descriptor comes next, which is read in this role.
    #[tactic(auto, using(crate::proofs::ValueLemmas::new_class))]
    pub(super) fn new_class(&mut self, role: Role) -> Flow
        ensures { Tells None (opens_class self.old role) result self.old self.new }
    {
        self.role = role;
        self.next_text(TextFor::ClassName, false)
    }

    /// A new proxy descriptor, read in this role: its handle is assigned at its tag.
    #[tactic(auto, using(crate::proofs::DescriptorLemmas::no_descriptor, crate::proofs::DescriptorLemmas::new_proxy))]
    pub(super) fn new_proxy(&mut self, role: Role) -> Flow
        ensures { Tells (told_if (is_full self.old) handle_space None) (opens_proxy self.old role) result self.old self.new }
    {
        match self.new_descriptor(role) {
            Flow::On => self.done(Phase::InterfaceCount),
            Flow::Stopped => Flow::Stopped,
        }
    }

    /// The tag of a value whose place has been counted.
    #[tactic(auto, using(crate::proofs::ValueLemmas::null_begun, crate::proofs::ValueLemmas::back_begun, crate::proofs::ValueLemmas::object_begun, crate::proofs::ValueLemmas::array_begun, crate::proofs::ValueLemmas::class_begun, crate::proofs::ValueLemmas::enum_begun, crate::proofs::ValueLemmas::desc_begun, crate::proofs::ValueLemmas::proxy_begun, crate::proofs::ValueLemmas::string_begun, crate::proofs::ValueLemmas::long_string_begun))]
    #[inline(always)]
    fn begin(&mut self, tag: ValueTag) -> Flow
        ensures { Tells (handle_reason self.old (view_tag tag)) (begun self.old (view_tag tag)) result self.old self.new }
    {
        match tag {
            ValueTag::Null => self.ended(),
            ValueTag::Reference => self.done(Phase::BackHandle),
            ValueTag::ClassDesc => self.new_class(Role::Value),
            ValueTag::ProxyClassDesc => self.new_proxy(Role::Value),
            ValueTag::Object => self.next_class(Owner::Object),
            ValueTag::Array => self.next_class(Owner::Array),
            ValueTag::Class => self.next_class(Owner::ClassObject),
            ValueTag::Enum => self.next_class(Owner::EnumConst),
            ValueTag::String => self.new_text(TextFor::Value, false),
            ValueTag::LongString => self.new_text(TextFor::Value, true),
        }
    }

    /// The tag of a value, of which nothing has been counted.
    #[tactic(auto, using(crate::proofs::ValueLemmas::not_placed, crate::proofs::ValueLemmas::placed_tag))]
    #[inline(always)]
    pub(super) fn place(&mut self, tag: ValueTag) -> Flow
        ensures { Tells (place_reason self.old (view_tag tag)) (after_tag self.old (view_tag tag)) result self.old self.new }
    {
        match self.count_place() {
            Flow::On => self.begin(tag),
            Flow::Stopped => Flow::Stopped,
        }
    }
}
