//! Streams that come one after another, whole or in pieces.
ghost use Rattle.std.specs.Prelude.{◌≡◌, ◌++◌, ℕ, List, Some, Err, IfOk, IfSome, true, string_bytes};
ghost use Rattle.jser_check.specs.declared.AnywhereFault.{AnywhereFault};
ghost use Rattle.jser_check.specs.Passing.{asking};
ghost use Rattle.jser_check.specs.Pieces.{AreUndecided, HasTaken, ReportsAnywhere, ReportsBy, asked_by};
ghost use Rattle.jser_check.specs.AnywhereTexts.{anywhere_fault_text};
ghost use Rattle.jser_check.specs.Joins.{repeated};

use jser_check::{AnywhereChecker, AnywhereFault, Check, Checker, HeldGate, Options, Stop};
use jser_filter::Filter;
use jser_reader::Totals;
use std::alloc::{AllocError, Global};

/// Checks the next message of a connection, which came whole, whatever the one before it was.
///
/// # Errors
///
/// As `feed` and `finish` of `AnywhereChecker`.
#[tactic(auto, using(crate::proofs::ExactLemmas::reports_end))]
pub fn check_message(checker: &mut AnywhereChecker, message: &[u8]) -> Result<Totals, AnywhereFault>
    ensures accepted { IfOk result (ReportsBy (asked_by checker.old) message.now) }
    ensures asks { asked_by checker.new ≡ asked_by checker.old }
{
    checker.restart();
    checker.answer(message)
}

/// Checks a message that came whole, under a filter that is another's.
///
/// # Errors
///
/// As `feed` and `finish` of `AnywhereChecker`.
#[tactic(auto, using(crate::proofs::ExactLemmas::reports_end))]
pub fn check_one(
    alloc: Global,
    filter: &Filter,
    options: Options,
    message: &[u8],
) -> Result<Totals, AnywhereFault>
    ensures accepted { IfOk result (ReportsAnywhere filter.now options message.now) }
{
    let Ok(mut checker) = Check::under(alloc, HeldGate::new(filter, options), true) else {
        return Err(AnywhereFault::Stop(Stop::OutOfMemory));
    };
    match checker.feed(message) {
        Ok(()) => checker.finish(),
        Err(fault) => Err(fault),
    }
}

/// Checks a message that came whole under a filter of its own, and gives the check for the next messages too.
///
/// # Errors
///
/// Where there is no memory for the check.
#[tactic(auto, using(crate::proofs::ExactLemmas::reports_end))]
pub fn check_first(
    alloc: Global,
    filter: Filter,
    options: Options,
    message: &[u8],
) -> Result<(AnywhereChecker, Result<Totals, AnywhereFault>), AllocError>
    ensures asks { IfOk result (λ both. asked_by both.0 ≡ asking filter options true) }
    ensures accepted { IfOk result (λ both. IfOk both.1 (ReportsAnywhere filter options message.now)) }
{
    let mut checker = match Checker::new_anywhere(alloc, filter, options) {
        Ok(checker) => checker,
        Err(failed) => return Err(failed),
    };
    let answer = match checker.feed(message) {
        Ok(()) => checker.finish(),
        Err(fault) => Err(fault),
    };
    Ok((checker, answer))
}

/// Takes the piece, and returns whether the stream may go on.
pub fn may_go_on(checker: &mut AnywhereChecker, piece: &[u8]) -> bool
    ensures takes { (taken : List ℕ) → HasTaken checker.old taken → result ≡ true → HasTaken checker.new (taken ++ piece.now) }
    ensures undecided { (taken : List ℕ) → HasTaken checker.old taken → result ≡ true → AreUndecided (asked_by checker.old) (taken ++ piece.now) }
{
    match checker.feed(piece) {
        Ok(()) => true,
        Err(_) => false,
    }
}

/// What a check that has stopped answers to a piece and then at the end.
pub fn answers_again(
    checker: &mut AnywhereChecker,
    piece: &[u8],
) -> (Result<(), AnywhereFault>, Result<Totals, AnywhereFault>)
    ensures { (fault : AnywhereFault) → checker.old.stopped ≡ Some fault → result ≡ (Err fault, Err fault) }
{
    let fed = checker.feed(piece);
    (fed, checker.finish())
}

/// Takes the piece; of a fault, that and what the check answers at the end.
pub fn fault_at_end(
    checker: &mut AnywhereChecker,
    piece: &[u8],
) -> Option<(AnywhereFault, Result<Totals, AnywhereFault>)>
    ensures { (taken : List ℕ) → HasTaken checker.old taken → IfSome result (λ both. both.1 ≡ Err (repeated both.0)) }
{
    match checker.feed(piece) {
        Ok(()) => None,
        Err(fault) => Some((fault, checker.finish())),
    }
}

/// The line of a log that tells why a check stopped.
///
/// # Errors
///
/// `AllocError` where there was no memory for the line.
pub fn log_line(alloc: Global, fault: AnywhereFault) -> Result<String, AllocError>
    ensures { IfOk result (λ line. string_bytes line ≡ anywhere_fault_text fault) }
{
    fault.to_string(alloc)
}
