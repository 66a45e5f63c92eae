//! Why a source failed: an input says it, and of any other source it is known that a read failed.
ghost use Rattle.std.specs.Prelude.{◌≡◌};
ghost use Rattle.jser_inputs.specs.declared.fault.InputFault.{InputFault};
ghost use Rattle.jser_inputs.specs.declared.fault.InputFault.TheVariants as fault;

use jser_inputs::{Input, InputFault};
use jser_prim::Source;

/// What says of a source that has failed why it did.
pub(crate) trait Telling<R: Source> {
    /// What it says.
    ghost why_failed: { R → InputFault };

    /// What it says.
    fn fault(source: &R) -> InputFault
        ensures { result ≡ why_failed source.now };
}

/// The input itself.
pub(crate) struct ByInput;

/// Nobody: a read failed.
pub(crate) struct ByNone;

impl<R: Input> Telling<R> for ByInput {
    ghost why_failed = { λ source. R.why_failed source };

    fn fault(source: &R) -> InputFault {
        source.fault()
    }
}

impl<R: Source> Telling<R> for ByNone {
    ghost why_failed = { λ _. fault.Failed };

    fn fault(_: &R) -> InputFault {
        InputFault::Failed
    }
}
