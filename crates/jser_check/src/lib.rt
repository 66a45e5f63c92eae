//! Whether bytes are a Java serialization stream that a filter admits: the checks of a slice, of a source, and of a stream
//! that comes in pieces; where that is wanted, the filter is also asked about every class name that can be read at any place.
//!
//! ```rust
//! use jser_check::{Options, Stop, check_bytes};
//! use jser_filter::{Filter, FilterFault};
//! use std::alloc::Global;
//!
//! /// Whether the bytes are a stream whose classes all are of `java.util`. A class that no pattern names is refused too.
//! fn holds_only_utilities(alloc: Global, bytes: &[u8]) -> Result<Result<bool, Stop>, FilterFault> {
//!     let filter = Filter::parse(alloc, "java.util.*")?;
//!     let answer = check_bytes(alloc, bytes, &filter, Options { strict: true });
//!     Ok(match answer {
//!         Ok(_) => Ok(true),
//!         Err(Stop::Refused(_)) => Ok(false),
//!         Err(stop) => Err(stop),
//!     })
//! }
//! ```
#![tactic(auto)]

mod answer;
mod buffer;
mod bytes;
mod check;
mod checker;
mod fault;
mod gate;
mod holds;
pub mod laws;
mod names;
mod reader;

pub use answer::CheckFault;
pub use bytes::{Judged, check_bytes, judge_bytes};
pub use check::{AnywhereChecker, Check};
pub use checker::Checker;
pub use fault::AnywhereFault;
pub use gate::{FilterGate, HeldGate, Options};
pub use holds::Holds;
pub use jser_reader::{Reason, Refusal, Stop, Totals as Report};
pub use names::{NameJudge, passes};
pub use reader::{check_anywhere, check_reader};
