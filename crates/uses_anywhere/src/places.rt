//! Names that can be read at any place of some bytes, which need be no stream.
ghost use Rattle.std.specs.Prelude.{◌≡◌, ◌++◌, ℕ, List, Ok, IfSome, IsTrue, None, true};
ghost use Rattle.jser_anywhere.specs.LoadableNames.{IsPlainName};
ghost use Rattle.jser_anywhere.specs.Standing.{AllPass, StandsAt};
ghost use Rattle.jser_check.specs.Admitted.{IsAdmitted, gate_of_filter};
ghost use Rattle.jser_grammar.specs.Trees.{ContentTrees};
ghost use Rattle.jser_verdict.specs.Gates.{is_pass};

use crate::exact::{Unanswered, admits_anywhere};
use jser_anywhere::laws::{names_are_all, stands_for_good};
use jser_anywhere::{Judge, Names, Stand, first_hidden};
use jser_check::laws::{anywhere_is_stronger, names_are_judged};
use jser_check::{Options, passes};
use jser_filter::Filter;
use jser_prim::Source;
use std::alloc::Global;

/// Where a name of the class with these units can be read, if one can be anywhere.
#[tactic(auto, using(crate::proofs::PlaceLemmas::opens))]
pub fn place_of(bytes: &[u8], name: &[u16]) -> Option<Stand>
    ensures some { IfSome result (λ stand. StandsAt bytes.now stand.from stand.to name.now) }
    ensures none { result ≡ None → (from to : ℕ) → StandsAt bytes.now from to name.now → ⊥ }
{
    names_are_all();
    let mut names = Names::new(bytes);
    'names: while let Some(stand) = names.next() {
        if names.units() == name {
            return Some(stand);
        }
    }
    None
}

/// Whether the bytes hold a name that does not pass. Then so do all that begin with them: what comes later need not be read.
pub fn is_lost<J: Judge>(bytes: &[u8], judge: &J) -> bool
    ensures { IsTrue result → (more : List ℕ) → AllPass (J.passes judge.now) (bytes.now ++ more) → ⊥ }
{
    stands_for_good();
    match first_hidden(bytes, judge) {
        Some(_) => true,
        None => false,
    }
}

/// Whether the filter admits the bytes that a source tells, with each name that can be read at any place of them. Where it
/// does, the check without these names admits them too.
///
/// # Errors
///
/// As `admits_anywhere`.
pub fn admits_both_ways<R: Source>(
    alloc: Global,
    source: &mut R,
    filter: &Filter,
    options: Options,
) -> Result<bool, Unanswered>
    ensures { result ≡ Ok true → IfSome (R.to_come source.old) (λ bytes. (list : ContentTrees) × IsAdmitted filter.now options bytes list) }
{
    anywhere_is_stronger();
    match admits_anywhere(alloc, source, filter, options) {
        Ok(yes) => Ok(yes),
        Err(fault) => Err(fault),
    }
}

/// Whether the filter lets the name of a class pass that a class loader can be asked for: it judges it as a checked name.
#[tactic(auto, using(crate::proofs::PlaceLemmas::judged_as_checked))]
pub fn lets_pass(filter: &Filter, options: Options, name: &[u16]) -> bool
    requires { IsPlainName name.now }
    ensures { result ≡ is_pass ((gate_of_filter filter.now options).answer name.now) }
{
    names_are_judged();
    passes(filter, options, name)
}
