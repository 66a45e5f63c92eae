//! Streams that come in pieces, one after another.
ghost use Rattle.std.specs.Prelude.{◌≡◌, ◌↔◌, ℕ, List, [], ◌++◌, true, false, string_bytes, IfOk, IfErr, IfSome};
ghost use Rattle.jser_check.specs.Admitted.{AreAdmitted};
ghost use Rattle.jser_check.specs.Answers.{IfRefused, Reports, Refuses, CarriesFirst, DecideNothing};
ghost use Rattle.jser_check.specs.Pieces.{gate_in, HasTaken};
ghost use Rattle.jser_check.specs.Faces.{Repeats, IsOver};
ghost use Rattle.jser_reader.specs.declared.Refusal.{Refusal};
ghost use Rattle.jser_check.specs.FaultTexts.{check_fault_text};

use jser_check::{CheckFault, Checker, Options, Reason, Report, Stop};
use jser_filter::Filter;
use std::alloc::{AllocError, Global};

/// Checks a message, which came whole, with a checker that has taken nothing: the answer is that of `check_bytes`.
fn check_first(checker: &mut Checker, message: &[u8]) -> Result<Report, Stop>
    requires { HasTaken checker.old [] }
    ensures accepted { IfOk result (Reports checker.old.reader.gate.filter checker.old.reader.gate.options message.now) }
    ensures refused { IfErr result (IfRefused (Refuses checker.old.reader.gate.filter checker.old.reader.gate.options message.now)) }
    ensures first { IfErr result (IfRefused (CarriesFirst (gate_in checker.old) message.now)) }
    ensures filter { checker.new.reader.gate ≡ checker.old.reader.gate }
{
    match checker.feed(message) {
        Ok(()) => checker.finish(),
        Err(stop) => Err(stop),
    }
}

/// Checks a message with a checker of its own: the answer is that of `check_bytes` under this filter.
///
/// # Errors
///
/// As `check_bytes`.
pub fn check_alone(
    alloc: Global,
    filter: Filter,
    options: Options,
    message: &[u8],
) -> Result<Report, Stop>
    ensures accepted { IfOk result (Reports filter options message.now) }
    ensures refused { IfErr result (IfRefused (Refuses filter options message.now)) }
{
    let mut checker = Checker::new(alloc, filter, options);
    check_first(&mut checker, message)
}

/// Checks the next message of a connection, which came whole. Whatever the one before it was, the answer is that of
/// `check_bytes`; and the next one is checked under the same filter.
///
/// # Errors
///
/// As `check_bytes`.
pub fn check_message(checker: &mut Checker, message: &[u8]) -> Result<Report, Stop>
    ensures accepted { IfOk result (Reports checker.old.reader.gate.filter checker.old.reader.gate.options message.now) }
    ensures refused { IfErr result (IfRefused (Refuses checker.old.reader.gate.filter checker.old.reader.gate.options message.now)) }
    ensures first { IfErr result (IfRefused (CarriesFirst (gate_in checker.old) message.now)) }
    ensures filter { checker.new.reader.gate ≡ checker.old.reader.gate }
{
    checker.restart();
    check_first(checker, message)
}

/// Takes the piece, and returns whether the stream may go on.
pub fn may_go_on(checker: &mut Checker, piece: &[u8]) -> bool
    ensures takes { (taken : List ℕ) → HasTaken checker.old taken → result ≡ true → HasTaken checker.new (taken ++ piece.now) }
    ensures undecided { (taken : List ℕ) → HasTaken checker.old taken → result ≡ true → DecideNothing (gate_in checker.old) (taken ++ piece.now) }
{
    match checker.feed(piece) {
        Ok(()) => true,
        Err(_) => false,
    }
}

/// What a check answers to a piece and then at the end that has refused bytes before.
pub fn answers_again(
    checker: &mut Checker,
    piece: &[u8],
) -> (Result<(), Stop>, Result<Report, Stop>)
    ensures refused { (refusal : Refusal) → Repeats checker.old refusal → result ≡ (Err (Stop.Refused refusal), Err (Stop.Refused refusal)) }
    ensures over { IsOver checker.old → result ≡ (Err Stop.Spent, Err Stop.Spent) }
{
    let fed = checker.feed(piece);
    (fed, checker.finish())
}

/// Takes the piece; of a refusal, what the check answers at the end.
pub fn refused_at_end(checker: &mut Checker, piece: &[u8]) -> Option<Result<Report, Stop>>
    ensures { (taken : List ℕ) → HasTaken checker.old taken → IfSome result (λ answer. IfErr answer (IfRefused (Repeats checker.new))) }
{
    match checker.feed(piece) {
        Err(Stop::Refused(_)) => Some(checker.finish()),
        _ => None,
    }
}

/// Whether the stream is whole that the checker took: it is where the filter admits it. Else it ended too early; there is no
/// third answer, and none needs memory.
#[tactic(auto, using(crate::proofs::HeadlineLemmas::yes_admitted, crate::proofs::HeadlineLemmas::no_admitted))]
pub fn is_whole(checker: &mut Checker) -> bool
    ghost taken: { List ℕ }
    requires { HasTaken checker.old taken }
    ensures { (result ≡ true) ↔ AreAdmitted checker.old.reader.gate.filter checker.old.reader.gate.options taken }
{
    match checker.finish() {
        Ok(_) => true,
        Err(Stop::Refused(refusal)) => match refusal.reason {
            Reason::Truncated => false,
            _ => unreachable!(),
        },
        Err(Stop::OutOfMemory) => unreachable!(),
        Err(Stop::Spent) => unreachable!(),
    }
}

/// Whether bytes are taken that come after the end of their stream. They never are, however the stream ended.
pub fn takes_late(checker: &mut Checker, late: &[u8]) -> bool
    ensures { (taken : List ℕ) → HasTaken checker.old taken → result ≡ false }
{
    match checker.finish() {
        Ok(_) => checker.feed(late).is_ok(),
        Err(_) => checker.feed(late).is_ok(),
    }
}

/// The line of a log that tells why a check stopped.
///
/// # Errors
///
/// `AllocError` where there was no memory for the line.
pub fn log_line(alloc: Global, stop: Stop) -> Result<String, AllocError>
    ensures { IfOk result (λ line. string_bytes line ≡ check_fault_text (CheckFault.Stop stop)) }
{
    CheckFault::from(stop).to_string(alloc)
}
