//! Java object serialization streams, checked without a Java machine: one crate to import.
//!
//! `check_bytes`, `check_reader` and `Checker` say yes or no of a whole stream under a `Filter`; `check_anywhere` and
//! `AnywhereChecker` also ask it about every class name that can be read at any place. `Reader` lends the tokens of
//! a stream that comes in pieces, under any `Gate`.
//!
//! ```rust
//! use serialstream::{Filter, FromRead, Options, check_reader};
//!
//! fn main(rt: HostRuntime) -> anyhow::Result<()> {
//!     let alloc = rt.alloc();
//!     let filter = Filter::parse(alloc, "java.util.*;!*;maxdepth=20")?;
//!     let mut input = FromRead::new(rt.stdin());
//!     let report = check_reader(alloc, &mut input, &filter, Options { strict: true })?;
//!     println!(rt; "{} bytes, {} contents", report.bytes, report.contents)?;
//!     Ok(())
//! }
//! ```
#![tactic(auto)]

pub use jser_check::{
    AnywhereChecker, AnywhereFault, Check, CheckFault, Checker, FilterGate, HeldGate, Holds,
    Options, Report, check_anywhere, check_bytes, check_reader,
};
pub use jser_filter::{
    Filter, FilterCause, FilterFault, Limits, Modules, ModulesCause, ModulesFault, Verdict,
};
pub use jser_grammar::wire::{
    BASE_WIRE_HANDLE, TC_CLASSDESC, TC_OBJECT, TC_PROXYCLASSDESC, TC_RESET,
};
pub use jser_prim::{Failed, FromRead, Source};
pub use jser_reader::{
    Answer, FeedFault, Field, Gate, Item, Limits as GateLimits, OpenGate, Reader, Reason, Refusal,
    Step, Stop, Totals, Visit, Whereabouts, Whole,
};
