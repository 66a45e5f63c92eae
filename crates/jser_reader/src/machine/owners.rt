//! What comes after the class of an object, an array, an enum constant or a class object.
ghost use Rattle.std.specs.Prelude.{◌≡◌, ◌<◌, length, true, None, option_map};
ghost use Rattle.jser_table.specs.Chains.{chain_in, elements_of};
ghost use Rattle.jser_table.specs.Codes.{size_of};
ghost use Rattle.jser_verdict.specs.Reasons.{handle_space};
ghost use Rattle.jser_verdict.specs.Verdicts.{told_if};
ghost use Rattle.jser_reader.specs.declared.frame.Frame.{Frame};
ghost use Rattle.jser_reader.specs.Fitting.{HasParts};
ghost use Rattle.jser_reader.specs.Handlers.{Tells, BeginsObject, Pushes, IsNext, is_full, object_state, owner_state};

use crate::frame::{Frame, Owner};
use crate::machine::Machine;
use crate::machine::flow::Flow;
use crate::phase::{Phase, TextFor};
use jser_table::{ChainNumber, Kind};

impl Machine {
    /// Pushes a frame as a placeholder. An externalizable object keeps it; for another object `begin_section` replaces it.
    #[tactic(auto, using(crate::proofs::OwnerLemmas::pushes, crate::proofs::OwnerLemmas::pushes_nothing, crate::proofs::OwnerLemmas::fits_external, crate::proofs::LayerLemmas::layers_under_part))]
    fn push_placeholder(&mut self) -> Flow
        ensures frame { Pushes Frame.ExternalNotes result self.old self.new }
        ensures parts { result ≡ Flow.On → HasParts self.new.frames }
        ensures table { result ≡ Flow.On → self.new.table ≡ self.old.table }
    {
        if self.frames.push(Frame::ExternalNotes).is_err() {
            return self.no_memory();
        }
        Flow::On
    }

    /// The data of an object whose class has this chain.
    #[tactic(auto, using(crate::proofs::OwnerLemmas::external_object, crate::proofs::OwnerLemmas::bare_object, crate::proofs::OwnerLemmas::filled_object, crate::proofs::OwnerLemmas::no_room))]
    fn begin_object(&mut self, chain: ChainNumber) -> Flow
        requires { chain < length self.old.table.chains }
        ensures { BeginsObject (chain_in self.old.table.chains chain) result self.old self.new }
    {
        if self.table.is_external(chain) {
            let Flow::On = self.push_placeholder() else {
                return Flow::Stopped;
            };
            self.phase = Phase::Note;
            return Flow::On;
        }
        let Some(sections) = self.table.sections(chain) else {
            self.value_done();
            return Flow::On;
        };
        let Flow::On = self.push_placeholder() else {
            return Flow::Stopped;
        };
        self.begin_section(sections.last, sections.first);
        Flow::On
    }

    /// The length of an array of this class comes next.
    fn next_array(&mut self, chain: ChainNumber) -> Flow
        requires { chain < length self.old.table.chains }
        ensures next { IsNext Phase.ArrayLength self.old.owner (option_map size_of (elements_of (chain_in self.old.table.chains chain))) self.old.header self.old.text self.old self.new }
        ensures result { result ≡ Flow.On }
    {
        self.elements = self.table.element_size(chain);
        self.done(Phase::ArrayLength)
    }

    /// The name of an enum constant comes next: a string, or a reference to one.
    fn next_constant(&mut self) -> Flow
        ensures next { IsNext Phase.TextTag self.old.owner self.old.elements self.old.header TextFor.Value self.old self.new }
        ensures result { result ≡ Flow.On }
    {
        self.text = TextFor::Value;
        self.done(Phase::TextTag)
    }

    /// The object's data, of which nothing has been counted.
    #[tactic(auto, using(crate::proofs::OwnerLemmas::object_begins))]
    fn next_object(&mut self, chain: ChainNumber) -> Flow
        requires { chain < length self.old.table.chains }
        ensures { Tells None (object_state self.old (chain_in self.old.table.chains chain)) result self.old self.new }
    {
        self.from = self.at;
        self.begin_object(chain)
    }

    /// The class of this owner has been read, and has this chain: the owner's handle is assigned. Where the caller names the
    /// owner, its arm alone is left.
    #[tactic(auto, using(crate::proofs::OwnerLemmas::no_owner, crate::proofs::OwnerLemmas::object_owned, crate::proofs::OwnerLemmas::array_owned, crate::proofs::OwnerLemmas::constant_owned, crate::proofs::OwnerLemmas::class_owned))]
    #[inline(always)]
    pub(super) fn begin_known_owner(&mut self, owner: Owner, chain: ChainNumber) -> Flow
        requires chain { chain < length self.old.table.chains }
        requires owner { self.old.owner ≡ owner }
        ensures { Tells (told_if (is_full self.old) handle_space None) (owner_state self.old (chain_in self.old.table.chains chain)) result self.old self.new }
    {
        if self.assign(Kind::Other).is_none() {
            return Flow::Stopped;
        }
        match owner {
            Owner::Object => self.next_object(chain),
            Owner::Array => self.next_array(chain),
            Owner::EnumConst => self.next_constant(),
            Owner::ClassObject => self.ended(),
        }
    }

    /// The class has been read, and has this chain: its owner's handle is assigned.
    #[inline(never)]
    pub(super) fn begin_owner(&mut self, chain: ChainNumber) -> Flow
        requires { chain < length self.old.table.chains }
        ensures { Tells (told_if (is_full self.old) handle_space None) (owner_state self.old (chain_in self.old.table.chains chain)) result self.old self.new }
    {
        let owner = self.owner;
        self.begin_known_owner(owner, chain)
    }
}
