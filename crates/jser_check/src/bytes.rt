//! The check of a slice: a face of the one check, which takes it in one piece.
ghost use Rattle.std.specs.Prelude.{IfOk, IfErr};
ghost use Rattle.jser_check.specs.Admitted.{gate_of_filter};
ghost use Rattle.jser_check.specs.Answers.{IfRefused, Reports, Refuses, CarriesFirst};
ghost use Rattle.jser_check.specs.Fronts.{IfDecided, IsFront};

use crate::answer::stop_of;
use crate::check::Check;
use crate::gate::{HeldGate, Options};
use jser_filter::Filter;
use jser_reader::{Stop, Totals};
use std::alloc::Global;

/// Checks whether bytes are one stream that the filter admits, and returns its counts.
///
/// What it allocates is what the reader does: the table of handles, the stack of what is open, and the class name that
/// is being read.
///
/// # Errors
///
/// `Refused` where the bytes are no stream that the filter admits, with the first fault. `OutOfMemory` where memory ran
/// out. Never `Spent`.
pub fn check_bytes(
    alloc: Global,
    bytes: &[u8],
    filter: &Filter,
    options: Options,
) -> Result<Totals, Stop>
    ensures accepted { IfOk result (Reports filter.now options bytes.now) }
    ensures refused { IfErr result (IfRefused (Refuses filter.now options bytes.now)) }
    ensures first { IfErr result (IfRefused (CarriesFirst (gate_of_filter filter.now options) bytes.now)) }
{
    judge_bytes(alloc, bytes, filter, options).answer
}

/// What a check of bytes answers, and how many of them are whole contents.
#[derive(Clone, Copy)]
pub struct Judged {
    /// The counts of the stream, or why it is refused.
    pub answer: Result<Totals, Stop>,
    /// The length of the longest front of the bytes that the filter admits; 0 where there is none. It says nothing where
    /// memory ran out.
    pub whole: u64,
}

/// Checks bytes as `check_bytes` does, and also says how many of them are whole contents: so a caller with streams one after
/// another, or with a stream and other bytes behind it, knows where to cut. The header alone is a stream of no contents.
pub fn judge_bytes(alloc: Global, bytes: &[u8], filter: &Filter, options: Options) -> Judged
    ensures accepted { IfOk result.answer (Reports filter.now options bytes.now) }
    ensures refused { IfErr result.answer (IfRefused (Refuses filter.now options bytes.now)) }
    ensures first { IfErr result.answer (IfRefused (CarriesFirst (gate_of_filter filter.now options) bytes.now)) }
    ensures whole { IfDecided (IsFront filter.now options bytes.now result.whole) result.answer }
{
    let mut check = Check::plain(alloc, HeldGate::new(filter, options));
    let answer = stop_of(check.answer(bytes));
    Judged {
        answer,
        whole: check.whole(),
    }
}
