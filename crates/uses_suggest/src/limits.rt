//! What no filter can do: be tighter than the one that is suggested, or allow some names alone.
ghost use Rattle.std.specs.Prelude.{◌≡◌, ◌⊎◌, ℕ, List, IfOk, IfSome};
ghost use Rattle.jser_table.specs.Names.{element_of, malformed_element};
ghost use Rattle.jser_check.specs.declared.gate.Options.{Options};
ghost use Rattle.jser_check.specs.Admitted.{AreAdmitted};
ghost use Rattle.jser_suggest.specs.Laws.{IsTighter};
ghost use Rattle.jser_suggest.specs.Samples.{AreKnown, Some_of};
ghost use Rattle.uses_suggest.specs.Alone.{IsNeverAlone};

use crate::least::{Unsuggested, parsed};
use jser_filter::Filter;
use jser_suggest::laws::{is_least, only_writable};
use jser_suggest::{SampleFault, Samples};
use std::alloc::Global;

/// The filter that is suggested for few streams. Where a limit of it is lower than that for many, or a name is left out, it
/// refuses one of the many.
///
/// # Errors
///
/// `NoMemory`.
pub fn filter_of_few(alloc: Global, few: &Samples, many: &Samples) -> Result<Filter, Unsuggested>
    ensures { (streams others : List (List ℕ)) → AreKnown streams few.now → AreKnown others many.now → IsTighter few.now many.now
        → IfOk result (λ filter. (options : Options) → Some_of (λ bytes. AreAdmitted filter options bytes → ⊥) others) }
{
    is_least();
    parsed(alloc, few)
}

/// The name of the stream's class for which no filter is suggested, if that is why. It is malformed, or no piece of any filter's
/// text allows it alone, unless it has a sign that is not plain.
pub fn unwritable_name(alloc: Global, bytes: &[u8]) -> Option<Vec<u16>>
    ensures { IfSome result (λ name. (element_of name.items ≡ malformed_element) ⊎ IsNeverAlone name.items) }
{
    only_writable();
    let mut samples = Samples::new(alloc);
    match samples.add(alloc, bytes) {
        Err(SampleFault::Unwritable(name)) => Some(name),
        _ => None,
    }
}
