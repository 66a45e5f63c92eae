//! Handles and lengths of values: references, arrays, blocks.
ghost use Rattle.std.specs.Prelude.{◌≡◌, ◌<◌, ◌^◌, Option, Some, None, option_map};
ghost use Rattle.jser_table.specs.Codes.{PrimCode, size_of};
ghost use Rattle.jser_verdict.specs.Verdicts.{array_reason, count_reason};
ghost use Rattle.jser_reader.specs.Handlers.{Tells, TellsSurely, plain_gate};
ghost use Rattle.jser_reader.specs.Steps.{after_value};
ghost use Rattle.jser_reader.specs.Numbers.{back_reason, after_length, after_block_length};

use crate::frame::Frame;
use crate::machine::Machine;
use crate::machine::flow::Flow;
use crate::phase::Phase;
use crate::refusal::Reason;

impl Machine {
    /// The handle of a reference in a value place.
    #[tactic(auto, using(crate::proofs::NumberLemmas::wrong_handle, crate::proofs::NumberLemmas::right_handle))]
    #[inline(always)]
    pub(super) fn back_handle(&mut self, n: u32) -> Flow
        ensures { TellsSurely (back_reason self.old n) (after_value self.old) result self.old self.new }
    {
        if !self.is_assigned(n) {
            return self.refuse(Reason::NoSuchHandle);
        }
        self.ended()
    }

    /// The length of a block: so many bytes come, if there are any.
    #[tactic(auto, using(crate::proofs::NumberLemmas::no_bytes, crate::proofs::NumberLemmas::some_bytes))]
    #[inline(always)]
    pub(super) fn block_length(&mut self, n: u32) -> Flow
        ensures { TellsSurely None (after_block_length self.old n) result self.old self.new }
    {
        if n == 0 {
            return self.ended();
        }
        self.left = u64::from(n);
        self.done(Phase::Bytes)
    }

    /// The length of a block in the long form.
    #[tactic(auto, using(crate::proofs::NumberLemmas::long_negative, crate::proofs::NumberLemmas::long_block))]
    pub(super) fn long_block_length(&mut self, n: u32) -> Flow
        ensures { TellsSurely (count_reason (2 ^ 31) n) (after_block_length self.old n) result self.old self.new }
    {
        if n >= 0x8000_0000 {
            return self.refuse(Reason::NegativeLength);
        }
        self.block_length(n)
    }

    /// So many raw elements of this size come.
    #[tactic(auto, using(crate::proofs::ArrayLemmas::raw_elements))]
    fn raw_elements(&mut self, size: u8, n: u32) -> Flow
        requires { 0 < n }
        ensures { (elements : Option PrimCode) → option_map size_of elements ≡ Some size → Tells None (after_length self.old elements n) result self.old self.new }
    {
        self.left = u64::from(n) * u64::from(size);
        self.done(Phase::Prims)
    }

    /// So many elements come that are values.
    #[tactic(auto, using(crate::proofs::ArrayLemmas::value_elements, crate::proofs::ArrayLemmas::no_room, crate::proofs::LayerLemmas::layers_under_part))]
    fn value_elements(&mut self, n: u32) -> Flow
        requires { 0 < n }
        ensures { Tells None (after_length self.old None n) result self.old self.new }
    {
        if self.frames.push(Frame::Elements { left: n - 1 }).is_err() {
            return self.no_memory();
        }
        self.done(Phase::Value)
    }

    /// The length of an array: so many elements come, if there are any.
    #[tactic(auto, using(crate::proofs::ArrayLemmas::wrong_length, crate::proofs::ArrayLemmas::no_elements, crate::proofs::ArrayLemmas::some_raw, crate::proofs::ArrayLemmas::some_values))]
    pub(super) fn array_length(&mut self, n: u32) -> Flow
        ensures { (elements : Option PrimCode) → self.old.elements ≡ option_map size_of elements → Tells (array_reason (plain_gate self.old) n) (after_length self.old elements n) result self.old self.new }
    {
        if let Some(reason) = self.length_fault(n) {
            return self.refuse(reason);
        }
        if n == 0 {
            return self.ended();
        }
        match self.elements {
            Some(size) => self.raw_elements(size, n),
            None => self.value_elements(n),
        }
    }
}
