//! A filter from the stream of a source, of which no bytes are kept.
ghost use Rattle.std.specs.Prelude.{ℕ, List, IfOk, IfSome};
ghost use Rattle.jser_check.specs.declared.gate.Options.{Options};
ghost use Rattle.jser_check.specs.Admitted.{AreAdmitted};
ghost use Rattle.jser_suggest.specs.Laws.{Has};
ghost use Rattle.jser_suggest.specs.Samples.{AreKnown};

use crate::least::{Unsuggested, parsed};
use jser_filter::Filter;
use jser_names::{Keyed, NamesFault, found_of};
use jser_prim::Source;
use jser_suggest::Samples;
use jser_suggest::laws::admits;
use std::alloc::Global;

/// Why there is no filter of a source.
#[derive(Debug, Drop)]
pub enum NoFilter {
    /// It has no stream.
    Unread(NamesFault),
    /// There is none of what was found.
    Unsuggested(Unsuggested),
}

/// The filter that is suggested for the stream of a source, whose names are counted under this key. It admits that stream, strict or
/// not.
///
/// # Errors
///
/// `Unread`, where it has no stream; `Unsuggested`.
#[tactic(auto, using(crate::proofs::SourceLemmas::source_admitted))]
pub fn filter_of_source<R: Source>(
    alloc: Global,
    keyed: Keyed,
    source: &mut R,
) -> Result<Filter, NoFilter>
    ensures { IfOk result (λ filter. IfSome (R.to_come source.old) (λ bytes. (options : Options) → AreAdmitted filter options bytes)) }
{
    admits();
    let found = match found_of(alloc, keyed, source) {
        Ok(found) => found,
        Err(fault) => return Err(NoFilter::Unread(fault)),
    };
    let mut samples = Samples::new(alloc);
    match samples.add_found(alloc, &found) {
        Ok(()) => filter_of(alloc, &samples),
        Err(fault) => Err(NoFilter::Unsuggested(Unsuggested::NoSample(fault))),
    }
}

/// The filter of the text that is suggested.
fn filter_of(alloc: Global, samples: &Samples) -> Result<Filter, NoFilter>
    ensures { (streams : List (List ℕ)) → AreKnown streams samples.now → IfOk result (λ filter. Has filter samples.now) }
{
    match parsed(alloc, samples) {
        Ok(filter) => Ok(filter),
        Err(fault) => Err(NoFilter::Unsuggested(fault)),
    }
}
