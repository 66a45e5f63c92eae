//! The headline, as a caller needs it: yes exactly where the filter admits the bytes.
ghost use Rattle.std.specs.Prelude.{◌≡◌, ◌≢◌, ◌↔◌, Some, IfOk, IfSome, true};
ghost use Rattle.jser_check.specs.Admitted.{AreAdmitted, gate_of_filter};
ghost use Rattle.jser_check.specs.Answers.{Reports, Refuses, CarriesFirst};

use jser_check::{CheckFault, Options, Refusal, Report, Stop, check_bytes, check_reader};
use jser_filter::Filter;
use jser_prim::Source;
use jser_reading::laws::one_reading;
use jser_verdict::laws::one_first_fault;
use std::alloc::Global;

/// Why there is no answer.
#[derive(Clone, Copy, PartialEq, Eq, Debug)]
pub enum Unanswered {
    /// A read failed.
    ReadFault,
    /// Memory ran out.
    NoMemory,
}

/// Whether the filter admits the bytes. There is an answer, and it is right, wherever there is memory.
///
/// # Errors
///
/// `NoMemory`.
#[tactic(auto, using(crate::proofs::HeadlineLemmas::yes_admitted, crate::proofs::HeadlineLemmas::no_admitted))]
pub fn admits(
    alloc: Global,
    bytes: &[u8],
    filter: &Filter,
    options: Options,
) -> Result<bool, Unanswered>
    ensures exact { IfOk result (λ yes. (yes ≡ true) ↔ AreAdmitted filter.now options bytes.now) }
    ensures memory { result ≢ Err Unanswered.ReadFault }
{
    match check_bytes(alloc, bytes, filter, options) {
        Ok(_) => Ok(true),
        Err(Stop::Refused(_)) => Ok(false),
        Err(Stop::OutOfMemory) => Err(Unanswered::NoMemory),
        Err(Stop::Spent) => unreachable!(),
    }
}

/// Whether the filter admits the bytes that a source tells, however it cuts them. There is an answer, and it is right,
/// wherever there is memory.
///
/// # Errors
///
/// `ReadFault` where a read failed, and nowhere else; `NoMemory`.
#[tactic(auto, using(crate::proofs::HeadlineLemmas::yes_told, crate::proofs::HeadlineLemmas::no_told))]
pub fn source_admits<R: Source>(
    alloc: Global,
    source: &mut R,
    filter: &Filter,
    options: Options,
) -> Result<bool, Unanswered>
    ensures exact { IfOk result (λ yes. IfSome (R.to_come source.old) (λ bytes. (yes ≡ true) ↔ AreAdmitted filter.now options bytes)) }
    ensures failed { result ≡ Err Unanswered.ReadFault → R.has_failed source.new ≡ true }
    ensures unbroken { result ≢ Err Unanswered.ReadFault → R.has_failed source.new ≡ R.has_failed source.old }
{
    match check_reader(alloc, source, filter, options) {
        Ok(_) => Ok(true),
        Err(CheckFault::Stop(Stop::Refused(_))) => Ok(false),
        Err(CheckFault::Stop(Stop::OutOfMemory)) => Err(Unanswered::NoMemory),
        Err(CheckFault::Stop(Stop::Spent)) => unreachable!(),
        Err(CheckFault::ReadFault) => Err(Unanswered::ReadFault),
    }
}

/// What a check answers: a report, or a refusal.
pub type Answer = Result<Report, Refusal>;

/// What the check of bytes answers, and that of a source which tells the same bytes: the same, wherever both answer.
///
/// # Errors
///
/// `ReadFault` where a read failed; `NoMemory`.
pub fn check_both<R: Source>(
    alloc: Global,
    bytes: &[u8],
    source: &mut R,
    filter: &Filter,
    options: Options,
) -> Result<(Answer, Answer), Unanswered>
    requires { R.to_come source.old ≡ Some bytes.now }
    ensures { IfOk result (λ both. both.0 ≡ both.1) }
{
    match check_bytes(alloc, bytes, filter, options) {
        Ok(report) => match reports_again(alloc, bytes, source, filter, options, report) {
            Ok(other) => Ok((Ok(report), Ok(other))),
            Err(fault) => Err(fault),
        },
        Err(Stop::Refused(refusal)) => {
            match refuses_again(alloc, bytes, source, filter, options, refusal) {
                Ok(other) => Ok((Err(refusal), Err(other))),
                Err(fault) => Err(fault),
            }
        }
        Err(Stop::OutOfMemory) => Err(Unanswered::NoMemory),
        Err(Stop::Spent) => unreachable!(),
    }
}

/// The report of a source whose bytes have this one.
#[tactic(auto, using(crate::proofs::HeadlineLemmas::reports_same, crate::proofs::HeadlineLemmas::report_not_refused))]
fn reports_again<R: Source>(
    alloc: Global,
    bytes: &[u8],
    source: &mut R,
    filter: &Filter,
    options: Options,
    report: Report,
) -> Result<Report, Unanswered>
    requires told { R.to_come source.old ≡ Some bytes.now }
    requires reported { Reports filter.now options bytes.now report }
    ensures { IfOk result (λ other. report ≡ other) }
{
    one_reading();
    match check_reader(alloc, source, filter, options) {
        Ok(other) => Ok(other),
        Err(CheckFault::Stop(Stop::Refused(_))) => unreachable!(),
        Err(CheckFault::Stop(_)) => Err(Unanswered::NoMemory),
        Err(CheckFault::ReadFault) => Err(Unanswered::ReadFault),
    }
}

/// The refusal of a source whose bytes have this one.
#[tactic(auto, using(crate::proofs::HeadlineLemmas::refused_same, crate::proofs::HeadlineLemmas::refused_not_reported))]
fn refuses_again<R: Source>(
    alloc: Global,
    bytes: &[u8],
    source: &mut R,
    filter: &Filter,
    options: Options,
    refusal: Refusal,
) -> Result<Refusal, Unanswered>
    requires told { R.to_come source.old ≡ Some bytes.now }
    requires refused { Refuses filter.now options bytes.now refusal }
    requires first { CarriesFirst (gate_of_filter filter.now options) bytes.now refusal }
    ensures { IfOk result (λ other. refusal ≡ other) }
{
    one_first_fault();
    match check_reader(alloc, source, filter, options) {
        Ok(_) => unreachable!(),
        Err(CheckFault::Stop(Stop::Refused(other))) => Ok(other),
        Err(CheckFault::Stop(_)) => Err(Unanswered::NoMemory),
        Err(CheckFault::ReadFault) => Err(Unanswered::ReadFault),
    }
}
