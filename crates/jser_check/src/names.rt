//! The judge of the names that can be read at any place.
ghost use Rattle.std.specs.Prelude.{◌≡◌};

use crate::gate::{HeldGate, Options};
use crate::holds::Holds;
use jser_anywhere::Judge;
use jser_filter::Filter;
use jser_reader::{Answer, Gate};
use jser_table::layer_kind_of;
use std::marker::Model;

/// The filter of a gate, as the judge of the names that can be read at any place: each passes that `passes` lets pass.
#[derive(Drop)]
pub struct NameJudge<'g, F: Holds> {
    gate: &'g HeldGate<F>,
}

impl<'g, F: Holds> Model for NameJudge<'g, F> {
    ghost use Rattle.jser_check.specs.Admitted.{FilterWith};

    ghost Value = { FilterWith };

    ghost view = { λ a. a.gate.now };
}

impl<'g, F: Holds> NameJudge<'g, F> {
    /// The judge that asks the filter of this gate.
    pub fn of(gate: &'g HeldGate<F>) -> NameJudge<'g, F>
        ensures { result ≡ gate.now }
    {
        NameJudge { gate }
    }
}

impl<'g, F: Holds> Judge for NameJudge<'g, F> {
    ghost use Rattle.jser_check.specs.Passing.{passes_name};

    ghost passes = { λ judge. passes_name judge.filter judge.options };

    fn passes(&self, name: &[u16]) -> bool {
        passes(self.gate.holder().filter(), self.gate.options(), name)
    }
}

ghost use Rattle.jser_check.specs.Passing.{passes_name};

/// Whether a class name that can be read at some place passes: as a checked name of the stream does. One that begins with
/// `[` and is no array name does not. Takes no memory.
pub fn passes(filter: &Filter, options: Options, name: &[u16]) -> bool
    ensures { result ≡ passes_name filter.now options name.now }
{
    match layer_kind_of(name) {
        None => false,
        Some(_) => matches!(HeldGate::new(filter, options).name(name), Answer::Pass),
    }
}
