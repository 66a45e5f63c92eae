//! The check of a stream that comes in pieces, under a filter of its own: a face of the one check.
ghost use Rattle.std.specs.Prelude.{◌≡◌, ◌≢◌, true, ℕ, List, [], ◌++◌, IfOk, IfErr, OnOk};
ghost use Rattle.jser_reader.specs.declared.Refusal.{Refusal};
ghost use Rattle.jser_check.specs.Answers.{IfRefused, Reports, Refuses, CarriesFirst, DecideNothing};
ghost use Rattle.jser_check.specs.Checks.{DecidesIn, IsCut};
ghost use Rattle.jser_check.specs.Fronts.{IsFront, StaysFront, whole_in};
ghost use Rattle.jser_check.specs.Passing.{asking};
ghost use Rattle.jser_check.specs.Pieces.{HasTaken, asked_by, gate_in};
ghost use Rattle.jser_check.specs.Faces.{Ended, IsOver, Repeats, Stopped};

use crate::answer::stop_of;
use crate::check::{AnywhereChecker, Check};
use crate::gate::{HeldGate, Options};
use jser_filter::Filter;
use jser_reader::{Stop, Totals};
use std::alloc::{AllocError, Global};
use std::marker::Model;

/// The check of a stream whose bytes come in pieces of any sizes: `feed` each of them, and then `finish`. It owns its filter,
/// and serves for one stream after another: `restart` begins the next one.
///
/// What it allocates is what a reader does: the table of handles, the stack of what is open, and the class name that is
/// being read. It keeps no bytes.
///
/// ```text
/// checker.restart();
/// for piece in pieces {
///     checker.feed(piece)?;
/// }
/// let report = checker.finish()?;
/// ```
#[derive(Drop)]
pub struct Checker {
    check: Check<Filter>,
}

impl Model for Checker {
    ghost use Rattle.std.specs.Prelude.{◌≡◌, false};
    ghost use Rattle.jser_check.specs.Pieces.{Checking, scans};

    ghost Value = { Checking };

    ghost view = { λ a. a.check };

    ghost invariant = { λ a. scans a.check.scan ≡ false };
}

impl Checker {
    /// A check that has taken nothing, under this filter. Takes no memory.
    pub fn new(alloc: Global, filter: Filter, options: Options) -> Checker
        ensures filter { result.reader.gate.filter ≡ filter }
        ensures options { result.reader.gate.options ≡ options }
        ensures begins { HasTaken result [] }
    {
        Checker {
            check: Check::plain(alloc, HeldGate::new(filter, options)),
        }
    }

    /// A check that has taken nothing, under this filter, which it also asks about every class name that can be read at any
    /// place.
    ///
    /// # Errors
    ///
    /// Where there is no memory for the scan.
    pub fn new_anywhere(
        alloc: Global,
        filter: Filter,
        options: Options,
    ) -> Result<AnywhereChecker, AllocError>
        ensures asks { IfOk result (λ check. asked_by check ≡ asking filter options true) }
        ensures begins { IfOk result (λ check. HasTaken check []) }
    {
        AnywhereChecker::new(alloc, filter, options)
    }

    /// Takes the next bytes of the stream, all of them.
    ///
    /// # Errors
    ///
    /// `Refused` where a byte of the piece decides, whatever comes after it, with the first fault. `OutOfMemory` where
    /// memory ran out. Then each call answers the same refusal, or `Spent` where memory ran out, until `restart`.
    #[tactic(auto, using(crate::proofs::FaceLemmas::piece_takes, crate::proofs::FaceLemmas::piece_undecided, crate::proofs::FaceLemmas::piece_refused, crate::proofs::FaceLemmas::piece_front, crate::proofs::FaceLemmas::piece_stops, crate::proofs::FaceLemmas::same_repeats, crate::proofs::FaceLemmas::same_over, crate::proofs::FaceLemmas::repeats_whole, crate::proofs::FaceLemmas::over_whole))]
    pub fn feed(&mut self, piece: &[u8]) -> Result<(), Stop>
        ensures takes { (taken : List ℕ) → HasTaken self.old taken → OnOk result (HasTaken self.new (taken ++ piece.now)) }
        ensures undecided { (taken : List ℕ) → HasTaken self.old taken → OnOk result (DecideNothing (gate_in self.old) (taken ++ piece.now)) }
        ensures refused { (taken : List ℕ) → HasTaken self.old taken → IfErr result (IfRefused (DecidesIn self.old.reader.gate.filter self.old.reader.gate.options taken piece.now)) }
        ensures whole { (taken : List ℕ) → HasTaken self.old taken
            → IfErr result (IfRefused (λ _. StaysFront self.old.reader.gate.filter self.old.reader.gate.options (taken ++ piece.now) (whole_in self.new.reader))) }
        ensures stops { (taken : List ℕ) → HasTaken self.old taken → IfErr result (λ why. Stopped why self.new) }
        ensures repeats { (refusal : Refusal) → Repeats self.old refusal → (result ≡ Err (Stop.Refused refusal)) × Repeats self.new refusal }
        ensures over { IsOver self.old → (result ≡ Err Stop.Spent) × IsOver self.new }
        ensures repeats_whole { (refusal : Refusal) → Repeats self.old refusal → whole_in self.new.reader ≡ whole_in self.old.reader }
        ensures over_whole { IsOver self.old → whole_in self.new.reader ≡ whole_in self.old.reader }
        ensures filter { self.new.reader.gate ≡ self.old.reader.gate }
    {
        stop_of(self.check.feed(piece))
    }

    /// The end of the stream: the counts of what was taken, as `check_bytes` answers of all of it at once.
    ///
    /// # Errors
    ///
    /// `Refused`, as `Truncated`, where the stream has not ended. After an error of `feed` what it answers, and after the
    /// counts `Spent`, until `restart`. Never `OutOfMemory`.
    #[tactic(auto, using(crate::proofs::FaceLemmas::end_reports, crate::proofs::FaceLemmas::end_refuses, crate::proofs::FaceLemmas::end_first, crate::proofs::FaceLemmas::end_cut, crate::proofs::FaceLemmas::end_sure, crate::proofs::FaceLemmas::end_ended, crate::proofs::FaceLemmas::same_repeats, crate::proofs::FaceLemmas::same_over, crate::proofs::FaceLemmas::repeats_whole, crate::proofs::FaceLemmas::over_whole))]
    pub fn finish(&mut self) -> Result<Totals, Stop>
        ensures accepted { (taken : List ℕ) → HasTaken self.old taken → IfOk result (Reports self.old.reader.gate.filter self.old.reader.gate.options taken) }
        ensures refused { (taken : List ℕ) → HasTaken self.old taken → IfErr result (IfRefused (Refuses self.old.reader.gate.filter self.old.reader.gate.options taken)) }
        ensures first { (taken : List ℕ) → HasTaken self.old taken → IfErr result (IfRefused (CarriesFirst (gate_in self.old) taken)) }
        ensures cut { (taken : List ℕ) → HasTaken self.old taken → IfErr result (IfRefused IsCut) }
        ensures whole { (taken : List ℕ) → HasTaken self.old taken → IsFront self.old.reader.gate.filter self.old.reader.gate.options taken (whole_in self.new.reader) }
        ensures sure { (taken : List ℕ) → HasTaken self.old taken → result ≢ Err Stop.OutOfMemory }
        ensures ends { (taken : List ℕ) → HasTaken self.old taken → Ended result self.new }
        ensures repeats { (refusal : Refusal) → Repeats self.old refusal → (result ≡ Err (Stop.Refused refusal)) × Repeats self.new refusal }
        ensures over { IsOver self.old → (result ≡ Err Stop.Spent) × IsOver self.new }
        ensures repeats_whole { (refusal : Refusal) → Repeats self.old refusal → whole_in self.new.reader ≡ whole_in self.old.reader }
        ensures over_whole { IsOver self.old → whole_in self.new.reader ≡ whole_in self.old.reader }
        ensures filter { self.new.reader.gate ≡ self.old.reader.gate }
    {
        stop_of(self.check.finish())
    }

    /// How many of the bytes that were taken are whole contents: the length of their longest front that the filter admits.
    /// The header alone is a stream of no contents; before its end this is 0.
    ///
    /// After a refusal, and after the end, it is that of all bytes that came, whatever comes after them: so a caller with
    /// streams one after another, or with a stream and other bytes behind it, knows where to cut. After `OutOfMemory` it
    /// says nothing.
    pub fn whole(&self) -> u64
        ensures is { result ≡ whole_in self.now.reader }
        ensures front { (taken : List ℕ) → HasTaken self.now taken → IsFront self.now.reader.gate.filter self.now.reader.gate.options taken result }
    {
        self.check.whole()
    }

    /// Makes it a check that has taken nothing, under the same filter and options, whatever it took or answered before. It
    /// keeps the memory that it has, and takes none.
    pub fn restart(&mut self)
        ensures begins { HasTaken self.new [] }
        ensures filter { self.new.reader.gate ≡ self.old.reader.gate }
    {
        self.check.restart();
    }
}
