//! The rules that a handler shares with what takes whole values: where a place may begin, what a handle names, and how many
//! elements an array may have. Each answers with the first thing that is wrong. A handler refuses it; what takes whole values does
//! nothing then.
ghost use Rattle.std.specs.Prelude.{◌≡◌, ◌<◌, ◌≤◌, not, length, true, None, option_map, IfOk};
ghost use Rattle.jser_grammar.specs.Wire.{BASE_WIRE_HANDLE};
ghost use Rattle.jser_table.specs.Chains.{chain_in};
ghost use Rattle.jser_verdict.specs.ClassRows.{fit_of_owner};
ghost use Rattle.jser_verdict.specs.HandleRows.{is_no_handle};
ghost use Rattle.jser_verdict.specs.Verdicts.{array_reason};
ghost use Rattle.jser_reader.specs.Frames.{goal_owner};
ghost use Rattle.jser_reader.specs.Handlers.{CountsPlace, plain_gate};
ghost use Rattle.jser_reader.specs.Reasons.{named};
ghost use Rattle.jser_reader.specs.Rules.{fit_reason, with_limits, with_text, ClassCases, ClosedCases, IsTextHandle};
ghost use Rattle.jser_reader.specs.Wholes.{HasPlace};

use crate::frame::Owner;
use crate::machine::Machine;
use crate::machine::flow::Flow;
use crate::refusal::Reason;
use jser_grammar::wire::BASE_WIRE_HANDLE;
use jser_table::{ChainNumber, Class, Entry, Fit, Purpose};

impl Machine {
    /// What is wrong with a place that begins here: it is too deep, or one too many.
    #[tactic(auto, using(crate::proofs::RuleLemmas::deep, crate::proofs::RuleLemmas::many, crate::proofs::RuleLemmas::no_limit))]
    #[inline(always)]
    fn place_fault(&self) -> Option<Reason>
        ensures is { result ≡ option_map named (with_limits self.now None) }
        ensures few { result ≡ None → self.now.refs < self.now.meter.limits.refs }
    {
        if self.frames.len() >= self.limits.depth as usize {
            return Some(Reason::DepthExceeded);
        }
        if self.refs >= self.limits.refs {
            return Some(Reason::RefsExceeded);
        }
        None
    }

    /// Whether a place may begin here.
    #[tactic(auto, using(crate::proofs::RuleLemmas::has_place))]
    #[inline(always)]
    pub(crate) fn has_place(&self) -> bool
        ensures { result ≡ true → HasPlace self.now }
    {
        self.place_fault().is_none()
    }

    /// Counts a place, if one may begin here.
    #[tactic(auto, using(crate::proofs::PlaceLemmas::counts_not, crate::proofs::PlaceLemmas::counts))]
    #[inline(always)]
    pub(super) fn count_place(&mut self) -> Flow
        ensures { CountsPlace result self.old self.new }
    {
        match self.place_fault() {
            Some(reason) => self.refuse(reason),
            None => {
                self.refs += 1;
                Flow::On
            }
        }
    }

    /// Whether this handle is assigned.
    #[tactic(auto, using(crate::proofs::RuleLemmas::low_handle, crate::proofs::RuleLemmas::other_handle))]
    #[inline(always)]
    pub(crate) fn is_assigned(&self, n: u32) -> bool
        ensures { result ≡ not (is_no_handle self.now.table.entries n) }
    {
        n >= BASE_WIRE_HANDLE && n - BASE_WIRE_HANDLE < self.table.count()
    }

    /// The class with this handle, whose superclass has been read.
    ///
    /// # Errors
    ///
    /// What is wrong with the handle.
    #[tactic(auto, using(crate::proofs::RuleLemmas::low_class, crate::proofs::RuleLemmas::no_such_class, crate::proofs::RuleLemmas::no_class, crate::proofs::RuleLemmas::open_class, crate::proofs::RuleLemmas::closed_class))]
    #[inline(always)]
    pub(super) fn closed_class(&self, n: u32) -> Result<ChainNumber, Reason>
        ensures is { ClosedCases self.now.table n result }
        ensures low { IfOk result (λ _. BASE_WIRE_HANDLE ≤ n) }
        ensures chain { IfOk result (λ chain. chain < length self.now.table.chains) }
    {
        if n < BASE_WIRE_HANDLE {
            return Err(Reason::NoSuchHandle);
        }
        match self.table.class_at(n - BASE_WIRE_HANDLE) {
            Class::NotThere => Err(Reason::NoSuchHandle),
            Class::NoClass => Err(Reason::WrongKind),
            Class::Open => Err(Reason::OpenDescriptor),
            Class::Closed(chain) => Ok(chain),
        }
    }

    /// What is wrong with the class that has this chain, as that of this owner.
    #[inline(always)]
    fn fit_fault(&self, owner: Owner, chain: ChainNumber) -> Option<Reason>
        requires { chain < length self.now.table.chains }
        ensures { result ≡ fit_reason (fit_of_owner (goal_owner owner) (chain_in self.now.table.chains chain)) }
    {
        let purpose = match owner {
            Owner::Object => Purpose::Object,
            Owner::Array => Purpose::Array,
            Owner::EnumConst => Purpose::EnumConst,
            Owner::ClassObject => return None,
        };
        match self.table.chain_fit(chain, purpose) {
            Fit::Fits => None,
            Fit::WrongClass => Some(Reason::WrongClass),
            Fit::ExternalRaw => Some(Reason::ExternalRaw),
            Fit::NotSerializable => Some(Reason::NotSerializable),
        }
    }

    /// The class with this handle, which this owner may have.
    ///
    /// # Errors
    ///
    /// What is wrong with the handle.
    #[tactic(auto, using(crate::proofs::RuleLemmas::not_closed, crate::proofs::RuleLemmas::class_unfit, crate::proofs::RuleLemmas::class_fits))]
    #[inline(always)]
    pub(super) fn class_of(&self, owner: Owner, n: u32) -> Result<ChainNumber, Reason>
        ensures is { ClassCases self.now.table owner n result }
        ensures chain { IfOk result (λ chain. chain < length self.now.table.chains) }
    {
        match self.closed_class(n) {
            Err(reason) => Err(reason),
            Ok(chain) => match self.fit_fault(owner, chain) {
                Some(reason) => Err(reason),
                None => Ok(chain),
            },
        }
    }

    /// What is wrong with the handle of a text.
    #[tactic(auto, using(crate::proofs::RuleLemmas::low_text, crate::proofs::RuleLemmas::no_such_text, crate::proofs::RuleLemmas::no_text, crate::proofs::RuleLemmas::right_text, crate::proofs::RuleLemmas::text_handle))]
    #[inline(always)]
    pub(super) fn text_fault(&self, n: u32) -> Option<Reason>
        ensures is { result ≡ option_map named (with_text self.now.table n) }
        ensures text { result ≡ None → IsTextHandle self.now.table n }
    {
        if n < BASE_WIRE_HANDLE {
            return Some(Reason::NoSuchHandle);
        }
        match self.table.get(n - BASE_WIRE_HANDLE) {
            None => Some(Reason::NoSuchHandle),
            Some(Entry::Text) => None,
            Some(_) => Some(Reason::WrongKind),
        }
    }

    /// What is wrong with an array of so many elements.
    #[tactic(auto, using(crate::proofs::RuleLemmas::negative, crate::proofs::RuleLemmas::too_long, crate::proofs::RuleLemmas::right_length))]
    #[inline(always)]
    pub(super) fn length_fault(&self, n: u32) -> Option<Reason>
        ensures { result ≡ option_map named (array_reason (plain_gate self.now) n) }
    {
        if n >= 0x8000_0000 {
            return Some(Reason::NegativeLength);
        }
        if n > self.limits.array {
            return Some(Reason::ArrayExceeded);
        }
        None
    }
}
