//! A filter from two good streams.
ghost use Rattle.std.specs.Prelude.{◌≡◌, ◌⊎◌, ℕ, List, true, IfOk, OnOk, [], ◌∷◌, string_bytes};
ghost use Rattle.jser_prim.specs.ModifiedUtf8.{utf16_units};
ghost use Rattle.jser_table.specs.Names.{element};
ghost use Rattle.jser_filter.specs.Filters.{verdict_by};
ghost use Rattle.jser_check.specs.declared.gate.Options.{Options};
ghost use Rattle.jser_check.specs.Admitted.{AreAdmitted};
ghost use Rattle.jser_suggest.specs.Laws.{Has, IsAllowed};
ghost use Rattle.jser_suggest.specs.Samples.{AreKnown, HasElement, OfStream};
ghost use Rattle.jser_suggest.specs.Suggested.{is_one_line, is_plain};

use jser_filter::Filter;
use jser_suggest::laws::{admits, allows_only};
use jser_suggest::{SampleFault, Samples};
use std::alloc::Global;

/// Why there is no filter.
#[derive(Debug, Drop)]
pub enum Unsuggested {
    /// One of them is no sample.
    NoSample(SampleFault),
    /// Memory ran out.
    NoMemory,
}

/// The filter that is suggested for two streams. It admits both, strict or not, and allows no class that neither has, nor one
/// whose name has a sign that is not plain.
///
/// # Errors
///
/// `NoSample`, where one of them is none; `NoMemory`.
#[tactic(auto, using(crate::proofs::LeastLemmas::both_admitted, crate::proofs::LeastLemmas::one_has, crate::proofs::LeastLemmas::plain_alone))]
pub fn filter_of_two(alloc: Global, first: &[u8], second: &[u8]) -> Result<Filter, Unsuggested>
    ensures admits { IfOk result (λ filter. (options : Options) → AreAdmitted filter options first.now × AreAdmitted filter options second.now) }
    ensures no_other { IfOk result (λ filter. (name : List ℕ) → IsAllowed (verdict_by filter (element name))
        → OfStream (λ bytes list. HasElement name list) first.now ⊎ OfStream (λ bytes list. HasElement name list) second.now) }
    ensures plain { IfOk result (λ filter. (name : List ℕ) → IsAllowed (verdict_by filter (element name)) → is_plain name ≡ true) }
{
    admits();
    allows_only();
    let mut samples = Samples::new(alloc);
    if let Err(fault) = add_both(alloc, &mut samples, first, second) {
        return Err(Unsuggested::NoSample(fault));
    }
    parsed(alloc, &samples)
}

/// The text of that filter. It has one line, so in a filter's file it is one too.
///
/// # Errors
///
/// `NoSample`, where one of them is none; `NoMemory`.
pub fn line_of_two(alloc: Global, first: &[u8], second: &[u8]) -> Result<String, Unsuggested>
    ensures { IfOk result (λ text. is_one_line (utf16_units (string_bytes text)) ≡ true) }
{
    let mut samples = Samples::new(alloc);
    if let Err(fault) = add_both(alloc, &mut samples, first, second) {
        return Err(Unsuggested::NoSample(fault));
    }
    match samples.text(alloc) {
        Ok(text) => Ok(text),
        Err(_) => Err(Unsuggested::NoMemory),
    }
}

/// Adds both streams to samples of which nothing is known.
fn add_both(
    alloc: Global,
    samples: &mut Samples,
    first: &[u8],
    second: &[u8],
) -> Result<(), SampleFault>
    requires { AreKnown [] samples.old }
    ensures { OnOk result (AreKnown (second.now ∷ first.now ∷ []) samples.new) }
{
    match samples.add(alloc, first) {
        Ok(()) => samples.add(alloc, second),
        Err(fault) => Err(fault),
    }
}

/// The filter of the text that is suggested.
pub(crate) fn parsed(alloc: Global, samples: &Samples) -> Result<Filter, Unsuggested>
    ensures { (streams : List (List ℕ)) → AreKnown streams samples.now → IfOk result (λ filter. Has filter samples.now) }
{
    let Ok(text) = samples.text(alloc) else {
        return Err(Unsuggested::NoMemory);
    };
    match Filter::parse(alloc, text.as_str()) {
        Ok(filter) => Ok(filter),
        Err(_) => Err(Unsuggested::NoMemory),
    }
}
