//! Yes exactly where the filter admits the bytes with each name that stands anywhere.
ghost use Rattle.std.specs.Prelude.{◌≡◌, ◌≢◌, ◌↔◌, IfOk, IfSome, true};
ghost use Rattle.jser_anywhere.specs.Standing.{AllPass};
ghost use Rattle.jser_check.specs.Passing.{AreAdmittedAnywhere, passes_name};

use jser_check::{AnywhereFault, Options, check_anywhere};
use jser_filter::Filter;
use jser_prim::Source;
use jser_reader::{Reason, Stop};
use std::alloc::Global;

/// Why there is no answer.
#[derive(Clone, Copy, PartialEq, Eq, Debug)]
pub enum Unanswered {
    /// A read failed.
    ReadFault,
    /// Memory ran out.
    NoMemory,
}

/// Whether the filter admits the bytes that a source tells, with each class name that can be read at any place of them.
///
/// # Errors
///
/// `ReadFault` where a read failed, and nowhere else; `NoMemory`.
#[tactic(auto, using(crate::proofs::ExactLemmas::yes_anywhere, crate::proofs::ExactLemmas::no_refused, crate::proofs::ExactLemmas::no_hidden))]
pub fn admits_anywhere<R: Source>(
    alloc: Global,
    source: &mut R,
    filter: &Filter,
    options: Options,
) -> Result<bool, Unanswered>
    ensures exact { IfOk result (λ yes. IfSome (R.to_come source.old) (λ bytes. (yes ≡ true) ↔ AreAdmittedAnywhere filter.now options bytes)) }
    ensures failed { result ≡ Err Unanswered.ReadFault → R.has_failed source.new ≡ true }
    ensures unbroken { result ≢ Err Unanswered.ReadFault → R.has_failed source.new ≡ R.has_failed source.old }
{
    match check_anywhere(alloc, source, filter, options) {
        Ok(_) => Ok(true),
        Err(AnywhereFault::Stop(Stop::Refused(_))) => Ok(false),
        Err(AnywhereFault::Hidden { .. }) => Ok(false),
        Err(AnywhereFault::Stop(Stop::OutOfMemory)) => Err(Unanswered::NoMemory),
        Err(AnywhereFault::Stop(Stop::Spent)) => unreachable!(),
        Err(AnywhereFault::ReadFault) => Err(Unanswered::ReadFault),
    }
}

/// Whether all that is wrong with the bytes of a source is that they end too early: more may come. Then each name in them
/// passes.
#[tactic(auto, using(crate::proofs::ExactLemmas::cut_passes))]
pub fn only_ends<R: Source>(
    alloc: Global,
    source: &mut R,
    filter: &Filter,
    options: Options,
) -> bool
    ensures { result ≡ true → IfSome (R.to_come source.old) (λ bytes. AllPass (passes_name filter.now options) bytes) }
{
    match check_anywhere(alloc, source, filter, options) {
        Err(AnywhereFault::Stop(Stop::Refused(refusal))) => match refusal.reason {
            Reason::Truncated => true,
            _ => false,
        },
        _ => false,
    }
}
