//! What the one check answers, as the numbers of an answer.
ghost use Rattle.std.specs.Prelude.{◌≡◌, ◌++◌, ℕ, List};
ghost use Rattle.jser_check.specs.Passing.{asking};
ghost use Rattle.jser_check.specs.Pieces.{HasTaken, asked_by};
ghost use Rattle.jser_ffi.specs.Told.{FedSays, HasAnswer, HasFault, HasWhole, SaysOf, SaysWhole, Zeros};

use crate::answer::{Answer, NO_MEMORY, SPENT, accepted, bare, hidden, more, refused};
use jser_check::{AnywhereFault, Check, HeldGate, Holds, Report, Stop};
use std::alloc::Global;

/// The answer to a check of all bytes at once.
pub(crate) fn checked<F: Holds + Drop>(
    alloc: Global,
    bytes: &[u8],
    gate: HeldGate<F>,
    anywhere: bool,
) -> Answer
    ensures says { SaysOf (asking gate.filter gate.options anywhere) bytes.now result }
    ensures whole { SaysWhole gate.filter gate.options bytes.now result }
    ensures zeros { Zeros result }
{
    let Ok(mut check) = Check::under(alloc, gate, anywhere) else {
        return bare(NO_MEMORY);
    };
    let answer = check.answer(bytes);
    told(answer, check.whole())
}

/// What the next bytes decide.
pub(crate) fn fed<F: Holds>(check: &mut Check<F>, piece: &[u8]) -> Answer
    ensures says { (taken : List ℕ) → HasTaken check.old taken → FedSays (asked_by check.old) check.new taken piece.now result }
    ensures whole { (taken : List ℕ) → HasTaken check.old taken → SaysWhole check.old.reader.gate.filter check.old.reader.gate.options (taken ++ piece.now) result }
    ensures asks { asked_by check.new ≡ asked_by check.old }
    ensures zeros { Zeros result }
{
    match check.feed(piece) {
        Ok(()) => more(check.whole()),
        Err(fault) => faulted(fault, check.whole()),
    }
}

/// The answer at the end.
pub(crate) fn ended<F: Holds>(check: &mut Check<F>) -> Answer
    ensures says { (taken : List ℕ) → HasTaken check.old taken → SaysOf (asked_by check.old) taken result }
    ensures whole { (taken : List ℕ) → HasTaken check.old taken → SaysWhole check.old.reader.gate.filter check.old.reader.gate.options taken result }
    ensures zeros { Zeros result }
{
    let end = check.finish();
    told(end, check.whole())
}

/// The answer to what a check of all bytes answers.
fn told(answer: Result<Report, AnywhereFault>, whole: u64) -> Answer
    ensures has { HasAnswer result answer }
    ensures whole { HasWhole result whole }
    ensures zeros { Zeros result }
{
    match answer {
        Ok(report) => accepted(report, whole),
        Err(fault) => faulted(fault, whole),
    }
}

/// The answer to a fault.
fn faulted(fault: AnywhereFault, whole: u64) -> Answer
    ensures has { HasFault result fault }
    ensures whole { HasWhole result whole }
    ensures zeros { Zeros result }
{
    match fault {
        AnywhereFault::Stop(Stop::Refused(refusal)) => refused(refusal, whole),
        AnywhereFault::Stop(Stop::OutOfMemory) => bare(NO_MEMORY),
        AnywhereFault::Stop(Stop::Spent) | AnywhereFault::ReadFault => bare(SPENT),
        AnywhereFault::Hidden { from_byte, to_byte } => hidden(from_byte, to_byte, whole),
    }
}
