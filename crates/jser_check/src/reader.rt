//! The check of a source: the one check, of what each read gives.
ghost use Rattle.std.specs.Prelude.{◌≡◌, ◌≢◌, ◌+◌, ◌<◌, ◌≤◌, false, true, ℕ, List, [], Ok, Err, length, IfOk, IfErr, IfSome};
ghost use Rattle.std.specs.Io.KnownBytes.{IsAtEnd};
ghost use Rattle.jser_grammar.specs.Parts.{IsBytes};
ghost use Rattle.jser_grammar.specs.Caps.{most_bytes};
ghost use Rattle.jser_check.specs.Admitted.{gate_of_filter};
ghost use Rattle.jser_check.specs.Answers.{Reports, Refuses, CarriesFirst};
ghost use Rattle.jser_check.specs.Passing.{asking};
ghost use Rattle.jser_check.specs.Sources.{TakesAtMost, FailsWith as FailsPlainly};
ghost use Rattle.jser_check.specs.SourceAnswers.{IfFaultRefused, TakesFew as TakesFewPlainly, Undecided as UndecidedPlainly};
ghost use Rattle.jser_check.specs.Pieces.{scans, asked_by, HasTaken};
ghost use Rattle.jser_check.specs.Reads.{NamesOnly, Answered, FailsWith, SomeTells, SourceTells, TakesFew, Undecided, WholeTells};

use crate::answer::{CheckFault, plain_of};
use crate::buffer::{first_buffer, next_buffer};
use crate::check::Check;
use crate::fault::AnywhereFault;
use crate::gate::{HeldGate, Options};
use crate::holds::Holds;
use jser_filter::Filter;
use jser_grammar::caps::MOST_BYTES;
use jser_prim::Source;
use jser_reader::{Stop, Totals};
use std::alloc::Global;

/// Checks whether the bytes of a source are one stream that the filter admits, and returns its counts.
///
/// Each read asks for at least one byte, and what it gives is checked at once. It reads to the end, or until the bytes
/// are refused. What it allocates is room for the bytes of a read, at most twice, and what the reader does.
///
/// # Errors
///
/// `CheckFault::Stop` with the refusal, which is the first fault, or with `OutOfMemory`, never with `Spent`;
/// `CheckFault::ReadFault` where a read failed, and the bytes before it decide no refusal.
#[tactic(auto, using(crate::proofs::FaceLemmas::source_accepted, crate::proofs::FaceLemmas::source_refused, crate::proofs::FaceLemmas::source_first, crate::proofs::FaceLemmas::source_undecided, crate::proofs::FaceLemmas::source_fails, crate::proofs::FaceLemmas::source_unspent, crate::proofs::FaceLemmas::source_prompt))]
pub fn check_reader<R: Source>(
    alloc: Global,
    source: &mut R,
    filter: &Filter,
    options: Options,
) -> Result<Totals, CheckFault>
    ensures accepted { IfOk result (λ report. IfSome (R.to_come source.old) (λ bytes. Reports filter.now options bytes report)) }
    ensures refused { IfErr result (λ fault. IfSome (R.to_come source.old) (λ bytes. IfFaultRefused (Refuses filter.now options bytes) fault)) }
    ensures first { IfErr result (λ fault. IfSome (R.to_come source.old) (λ bytes. IsBytes bytes
        → IfFaultRefused (CarriesFirst (gate_of_filter filter.now options) bytes) fault)) }
    ensures undecided { result ≡ Err CheckFault.ReadFault → UndecidedPlainly (gate_of_filter filter.now options) (R.to_come source.old) (R.to_come source.new) }
    ensures fails { FailsPlainly result (R.has_failed source.old) (R.has_failed source.new) }
    ensures never_spent { result ≢ Err (CheckFault.Stop Stop.Spent) }
    ensures within { TakesAtMost (most_bytes + 1) (R.to_come source.old) (R.to_come source.new) }
    ensures prompt { TakesFewPlainly (R.to_come source.old) (R.to_come source.new) result }
    ensures remembers { (all : List ℕ) → R.remembers source.old all → R.remembers source.new all }
{
    let mut check = Check::plain(alloc, HeldGate::new(filter, options));
    plain_of(answer_of(alloc, source, &mut check))
}

/// Checks whether the bytes of a source are one stream that the filter admits, and whether it admits each class name that
/// can be read at any place of them; returns the counts.
///
/// What it allocates is what `check_reader` does, and some 18 kilobytes for the names that are being read.
///
/// # Errors
///
/// `AnywhereFault::Stop` with the refusal of the check, or `Hidden` with a name that does not pass: whichever ends first,
/// and of equal ends the refusal. `Stop` with `OutOfMemory`, never with `Spent`. `ReadFault` where a read failed, and the
/// bytes before it decide nothing.
pub fn check_anywhere<R: Source>(
    alloc: Global,
    source: &mut R,
    filter: &Filter,
    options: Options,
) -> Result<Totals, AnywhereFault>
    ensures tells { SourceTells (asking filter.now options true) (R.to_come source.old) result }
    ensures undecided { result ≡ Err AnywhereFault.ReadFault → Undecided (asking filter.now options true) (R.to_come source.old) (R.to_come source.new) }
    ensures fails { FailsWith result (R.has_failed source.old) (R.has_failed source.new) }
    ensures never_spent { result ≢ Err (AnywhereFault.Stop Stop.Spent) }
    ensures within { TakesAtMost (most_bytes + 1) (R.to_come source.old) (R.to_come source.new) }
    ensures prompt { TakesFew (R.to_come source.old) (R.to_come source.new) result }
    ensures remembers { (all : List ℕ) → R.remembers source.old all → R.remembers source.new all }
{
    let Ok(mut check) = Check::under(alloc, HeldGate::new(filter, options), true) else {
        return Err(AnywhereFault::Stop(Stop::OutOfMemory));
    };
    answer_of(alloc, source, &mut check)
}

/// The answer of a new check to a source.
fn answer_of<R: Source, F: Holds>(
    alloc: Global,
    source: &mut R,
    check: &mut Check<F>,
) -> Result<Totals, AnywhereFault>
    requires { HasTaken check.old [] }
    ensures answers { Answered (asked_by check.old) (R.to_come source.old) (R.to_come source.new) result }
    ensures fails { FailsWith result (R.has_failed source.old) (R.has_failed source.new) }
    ensures names { IfErr result (NamesOnly (scans check.old.scan)) }
    ensures remembers { (all : List ℕ) → R.remembers source.old all → R.remembers source.new all }
{
    match read_whole(alloc, source, check) {
        Ok(()) => check.finish(),
        Err(fault) => Err(fault),
    }
}

/// Reads a source to its end, into the check.
fn read_whole<R: Source, F: Holds>(
    alloc: Global,
    source: &mut R,
    check: &mut Check<F>,
) -> Result<(), AnywhereFault>
    requires { HasTaken check.old [] }
    ensures tells { WholeTells (asked_by check.old) check.new (R.to_come source.old) (R.to_come source.new) result }
    ensures asks { asked_by check.new ≡ asked_by check.old }
    ensures fails { FailsWith result (R.has_failed source.old) (R.has_failed source.new) }
    ensures names { IfErr result (NamesOnly (scans check.old.scan)) }
    ensures remembers { (all : List ℕ) → R.remembers source.old all → R.remembers source.new all }
{
    let Ok(mut buffer) = first_buffer(alloc) else {
        return Err(AnywhereFault::Stop(Stop::OutOfMemory));
    };
    let mut taken: u64 = 0;
    'reads: loop {
        let room = (MOST_BYTES + 1 - taken).min(buffer.len() as u64) as usize;
        match read_some(source, check, &mut buffer[..room]) {
            Ok(0) => return Ok(()),
            Ok(count) => {
                taken += count as u64;
                buffer = next_buffer(alloc, buffer, count);
            }
            Err(fault) => return Err(fault),
        }
    }
}

/// One read, whose bytes go to the check; returns how many. None are the end.
#[tactic(auto, using(crate::proofs::SourceLemmas::some_came, crate::proofs::SourceLemmas::none_came, crate::proofs::SourceLemmas::some_stops, crate::proofs::SourceLemmas::names_only))]
fn read_some<R: Source, F: Holds>(
    source: &mut R,
    check: &mut Check<F>,
    buffer: &mut [u8],
) -> Result<usize, AnywhereFault>
    requires { 0 < length buffer.old }
    ensures tells { (taken : List ℕ) → HasTaken check.old taken
        → SomeTells (asked_by check.old) taken check.new (R.to_come source.old) (R.to_come source.new) (length buffer.old) result }
    ensures asks { asked_by check.new ≡ asked_by check.old }
    ensures few { IfOk result (λ count. count ≤ length buffer.old) }
    ensures end { result ≡ Ok 0 → IsAtEnd (R.to_come source.new) }
    ensures names { IfErr result (NamesOnly (scans check.old.scan)) }
    ensures fails { (taken : List ℕ) → HasTaken check.old taken → FailsWith result (R.has_failed source.old) (R.has_failed source.new) }
    ensures remembers { (all : List ℕ) → R.remembers source.old all → R.remembers source.new all }
{
    let count = match source.take(buffer) {
        Ok(count) => count,
        Err(_) => return Err(AnywhereFault::ReadFault),
    };
    let (bytes, _) = buffer.split_at(count);
    match check.feed(bytes) {
        Ok(()) => Ok(count),
        Err(fault) => Err(fault),
    }
}
