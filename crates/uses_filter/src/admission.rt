//! Which names a broker admits.
ghost use Rattle.std.specs.Prelude.{◌≡◌, ◌≢◌, ◌==◌, List, ℕ, ◌∷◌, ◌++◌, [], IfOk, false};
ghost use Rattle.std.specs.List.{list_any};
ghost use Rattle.jser_prim.specs.ModifiedUtf8.{utf16_units};
ghost use Rattle.jser_table.specs.Names.{element_of, malformed_element};
ghost use Rattle.jser_filter.specs.Filters.{verdict_of};
ghost use Rattle.jser_filter.specs.Laws.{verdict_with};
ghost use Rattle.jser_filter.specs.Tables.{ModuleTable};
ghost use Rattle.uses_filter.specs.Admission.{is_admitted};

use jser_filter::laws::{keeps_decided, needs_no_table};
use jser_filter::{Filter, FilterFault, Verdict};
use jser_table::{Element, element_of};
use std::alloc::Global;

/// Whether a message that names this class is admitted: the filter allows the name or does not know it, and it
/// can be the name of a class.
pub fn admits(filter: &Filter, name: &[u16]) -> bool
    ensures { result ≡ is_admitted (element_of name.now) (verdict_of filter.now name.now) }
{
    match element_of(name) {
        Element::Malformed => false,
        Element::Name(_) | Element::Primitive => {
            !matches!(filter.judge(name), Verdict::Rejected(_))
        }
    }
}

/// What a filter's text says of a name, where there is no table of modules.
///
/// # Errors
///
/// The fault of the text.
pub fn judge_text(alloc: Global, text: &str, name: &[u16]) -> Result<Verdict, FilterFault>
    requires { element_of name.now ≢ malformed_element }
    ensures { IfOk result (λ verdict. verdict ≡ verdict_with (utf16_units text.now) [] name.now) }
{
    let filter = Filter::parse(alloc, text)?;
    Ok(filter.judge(name))
}

/// What a filter's text says of a name, for an operator who may add a table of modules later: where the text has no `/`,
/// each table has this verdict.
///
/// # Errors
///
/// The fault of the text.
#[tactic(auto, using(crate::proofs::Laws::for_each_table))]
pub fn judge_for_each_table(alloc: Global, text: &str, name: &[u16]) -> Result<Verdict, FilterFault>
    requires { element_of name.now ≢ malformed_element }
    ensures { IfOk result (λ verdict. list_any (λ unit. unit == 0x2F) (utf16_units text.now) ≡ false
        → (modules : ModuleTable) → verdict ≡ verdict_with (utf16_units text.now) modules name.now) }
{
    needs_no_table();
    match judge_text(alloc, text, name) {
        Ok(verdict) => Ok(verdict),
        Err(fault) => Err(fault),
    }
}

/// The verdict of a text, for an operator who may add pieces to it later: unless it is Undecided, each longer
/// text has the same.
///
/// # Errors
///
/// The fault of the text.
#[tactic(auto, using(crate::proofs::Laws::for_good))]
pub fn judge_for_good(alloc: Global, text: &str, name: &[u16]) -> Result<Verdict, FilterFault>
    requires { element_of name.now ≢ malformed_element }
    ensures { IfOk result (λ verdict. verdict ≢ Verdict.Undecided
        → (more : List ℕ) → verdict ≡ verdict_with (utf16_units text.now ++ 0x3B ∷ more) [] name.now) }
{
    keeps_decided();
    match judge_text(alloc, text, name) {
        Ok(verdict) => Ok(verdict),
        Err(fault) => Err(fault),
    }
}
