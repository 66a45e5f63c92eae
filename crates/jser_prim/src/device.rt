//! What the two kinds of device have in common: a `Source` that bytes come from and a `Sink` that they
//! go to each fail in one way, remember it, and may tell in proofs which bytes passed.

use thiserror::Error;

/// A device failed. It says no more, since its user could do no more about it.
#[derive(Clone, Copy, PartialEq, Eq, Debug, Error)]
#[error("the device failed")]
pub struct Failed;

/// A device failed after some bytes.
#[derive(Clone, Copy, PartialEq, Eq, Debug, Error)]
#[error("the device failed after {given} bytes")]
pub struct FailedAfter {
    /// How many bytes it had taken.
    pub given: usize,
}
