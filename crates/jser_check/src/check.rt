//! The one check: of a stream that comes in pieces, which may also ask the filter about every class name that can be read at
//! any place. The scan for these lies behind a pointer, so that a check without it is no larger for it.
ghost use Rattle.std.specs.Prelude.{Bool, true, false, ◌≡◌, ◌++◌, ℕ, List, [], Some, None, Err, IfErr, IfOk, IfSome, OnOk, option_map};
ghost use Rattle.jser_check.specs.Fronts.{IsFront, whole_in};
ghost use Rattle.jser_check.specs.declared.fault.AnywhereFault.{AnywhereFault};
ghost use Rattle.jser_anywhere.specs.Scans.{HasScanned};
ghost use Rattle.jser_check.specs.Joins.{over, repeated};
ghost use Rattle.jser_check.specs.Passing.{asking, passes_name};
ghost use Rattle.jser_check.specs.Pieces.{asked_by, scans, AnswerTells, AreUndecided, EndTells, FeedTells, FrontAfter, FrontBy, HasTaken, Keeps, KeepsTo, MayScan, PieceTells};

use crate::fault::{AnywhereFault, first_of};
use crate::gate::{HeldGate, Options};
use crate::holds::Holds;
use crate::names::{NameJudge, passes};
use jser_anywhere::{Hidden, Scan};
use jser_filter::Filter;
use jser_reader::{Reader, Reason, Stop, Totals};
use std::alloc::{AllocError, Global};
use std::marker::Model;

/// The check of a stream whose bytes come in pieces of any sizes, and a scan of the same bytes for names that the filter
/// does not let pass: `feed` each piece, and then `finish`. It serves for one stream after another: `restart` begins the
/// next one.
///
/// What it allocates is what a reader does, and, where it is made, some 18 kilobytes for the scan.
///
/// ```text
/// checker.restart();
/// for piece in pieces {
///     checker.feed(piece)?;
/// }
/// let report = checker.finish()?;
/// ```
#[derive(Drop)]
pub struct Check<F: Holds> {
    reader: Reader<HeldGate<F>>,
    scan: Option<Box<Scan>>,
    stopped: Option<AnywhereFault>,
}

impl<F: Holds> Model for Check<F> {
    ghost use Rattle.jser_check.specs.Pieces.{Checking};

    ghost Value = { Checking };

    ghost use Rattle.std.specs.Prelude.{option_map};

    ghost view = { λ a. record { reader = a.reader; scan = option_map (λ home. home.value) a.scan; stopped = a.stopped } };

    ghost use Rattle.jser_check.specs.Pieces.{scans, KeepsTo};

    ghost invariant = { λ a. KeepsTo (scans (option_map (λ home. home.value) a.scan)) a.stopped };
}

/// A check of its own filter, which asks about names at any place.
pub type AnywhereChecker = Check<Filter>;

impl Check<Filter> {
    /// A check that has taken nothing, under this filter, which it owns. It asks about names at any place.
    ///
    /// # Errors
    ///
    /// Where there is no memory for the scan.
    pub fn new(alloc: Global, filter: Filter, options: Options) -> Result<Check<Filter>, AllocError>
        ensures asks { IfOk result (λ check. asked_by check ≡ asking filter options true) }
        ensures begins { IfOk result (λ check. HasTaken check []) }
    {
        Check::under(alloc, HeldGate::new(filter, options), true)
    }
}

impl<F: Holds + Drop> Check<F> {
    /// A check that has taken nothing, under this gate, which asks about names at any place where that is wanted.
    ///
    /// # Errors
    ///
    /// Where there is no memory for the scan.
    pub fn under(alloc: Global, gate: HeldGate<F>, anywhere: bool) -> Result<Check<F>, AllocError>
        ensures asks { IfOk result (λ check. asked_by check ≡ asking gate.filter gate.options anywhere) }
        ensures begins { IfOk result (λ check. HasTaken check []) }
    {
        if !anywhere {
            return Ok(Check::plain(alloc, gate));
        }
        let scan = match Scan::new(alloc) {
            Ok(scan) => scan,
            Err(failed) => return Err(failed),
        };
        match Box::new(alloc, scan) {
            Ok(home) => Ok(Check {
                reader: Reader::new(alloc, gate),
                scan: Some(home),
                stopped: None,
            }),
            Err(_) => Err(AllocError),
        }
    }
}

impl<F: Holds> Check<F> {
    /// A check that has taken nothing and asks about no other names, under this gate. Takes no memory.
    pub fn plain(alloc: Global, gate: HeldGate<F>) -> Check<F>
        ensures asks { asked_by result ≡ asking gate.filter gate.options false }
        ensures begins { HasTaken result [] }
    {
        Check {
            reader: Reader::new(alloc, gate),
            scan: None,
            stopped: None,
        }
    }

    /// Takes the next bytes of the stream, all of them.
    ///
    /// # Errors
    ///
    /// `Stop` with a refusal where a byte of the piece decides, and `Hidden` where a name that does not pass ends in it:
    /// whichever ends first. `Stop` with `OutOfMemory` where memory ran out. Then each call answers the same again, or
    /// `Stop` with `Spent` where memory ran out, until `restart`. Never `ReadFault`.
    #[tactic(auto, using(crate::proofs::WholeLemmas::keeps_repeated))]
    #[inline(always)]
    pub fn feed(&mut self, piece: &[u8]) -> Result<(), AnywhereFault>
        ensures tells { (taken : List ℕ) → HasTaken self.old taken → FeedTells (asked_by self.old) taken piece.now result self.new }
        ensures undecided { (taken : List ℕ) → HasTaken self.old taken → OnOk result (AreUndecided (asked_by self.old) (taken ++ piece.now)) }
        ensures whole { (taken : List ℕ) → HasTaken self.old taken
            → IfErr result (FrontBy self.old.reader.gate.filter self.old.reader.gate.options (taken ++ piece.now) (whole_in self.new.reader)) }
        ensures stops { (taken : List ℕ) → HasTaken self.old taken → IfErr result (λ why. self.new.stopped ≡ Some (repeated why)) }
        ensures stays { (fault : AnywhereFault) → self.old.stopped ≡ Some fault → (result ≡ Err fault) × (self.new ≡ self.old) }
        ensures asks { asked_by self.new ≡ asked_by self.old }
        ensures keeps { IfErr result (Keeps (scans self.old.scan)) }
    {
        if let Some(fault) = self.stopped {
            return Err(fault);
        }
        match self.both(piece) {
            None => Ok(()),
            Some(fault) => {
                self.stopped = Some(fault.repeated());
                Err(fault)
            }
        }
    }

    /// The check and the scan of a piece: the first fault of the two, if there is one.
    #[tactic(auto, using(crate::proofs::WholeLemmas::keeps_both))]
    #[inline(always)]
    fn both(&mut self, piece: &[u8]) -> Option<AnywhereFault>
        ensures tells { (taken : List ℕ) → HasTaken self.old taken → PieceTells (asked_by self.old) taken piece.now result self.new }
        ensures whole { (taken : List ℕ) → HasTaken self.old taken
            → IfSome result (FrontBy self.old.reader.gate.filter self.old.reader.gate.options (taken ++ piece.now) (whole_in self.new.reader)) }
        ensures asks { asked_by self.new ≡ asked_by self.old }
        ensures keeps { KeepsTo (scans self.old.scan) result }
        ensures stopped { self.new.stopped ≡ self.old.stopped }
    {
        let checked = self.reader.skip(piece);
        let hidden = scan_piece(self.reader.gate(), &mut self.scan, piece);
        first_of(checked, hidden)
    }

    /// The end of the stream: the counts of what was taken.
    ///
    /// # Errors
    ///
    /// `Stop` with the refusal `Truncated` where the stream has not ended. After an error of `feed` what it answers, and
    /// after the counts `Stop` with `Spent`, until `restart`.
    #[tactic(auto, using(crate::proofs::WholeLemmas::keeps_repeated))]
    #[inline(always)]
    pub fn finish(&mut self) -> Result<Totals, AnywhereFault>
        ensures tells { (taken : List ℕ) → HasTaken self.old taken → EndTells (asked_by self.old) taken result }
        ensures whole { (taken : List ℕ) → HasTaken self.old taken → IsFront self.old.reader.gate.filter self.old.reader.gate.options taken (whole_in self.new.reader) }
        ensures ends { (taken : List ℕ) → HasTaken self.old taken → self.new.stopped ≡ Some (over result) }
        ensures stays { (fault : AnywhereFault) → self.old.stopped ≡ Some fault → (result ≡ Err fault) × (self.new ≡ self.old) }
        ensures asks { asked_by self.new ≡ asked_by self.old }
        ensures keeps { IfErr result (Keeps (scans self.old.scan)) }
    {
        if let Some(fault) = self.stopped {
            return Err(fault);
        }
        match self.reader.finish() {
            Ok(totals) => {
                self.stopped = Some(AnywhereFault::Stop(Stop::Spent));
                Ok(totals)
            }
            Err(stop) => {
                let fault = AnywhereFault::Stop(stop);
                self.stopped = Some(fault.repeated());
                Err(fault)
            }
        }
    }

    /// What a check that has taken nothing answers to all the bytes of a stream at once.
    ///
    /// # Errors
    ///
    /// As `feed` and `finish`.
    #[inline(always)]
    pub fn answer(&mut self, bytes: &[u8]) -> Result<Totals, AnywhereFault>
        ensures tells { HasTaken self.old [] → AnswerTells (asked_by self.old) bytes.now result }
        ensures whole { HasTaken self.old [] → FrontAfter self.old.reader.gate.filter self.old.reader.gate.options bytes.now (whole_in self.new.reader) result }
        ensures asks { asked_by self.new ≡ asked_by self.old }
        ensures keeps { IfErr result (Keeps (scans self.old.scan)) }
    {
        match self.feed(bytes) {
            Ok(()) => self.finish(),
            Err(fault) => Err(fault),
        }
    }

    /// How many of the bytes that came are whole contents: the length of their longest front that the filter admits, whatever
    /// names can be read at other places. The header alone is a stream of no contents; before its end this is 0. After
    /// `OutOfMemory` it says nothing.
    pub fn whole(&self) -> u64
        ensures is { result ≡ whole_in self.now.reader }
        ensures front { (taken : List ℕ) → HasTaken self.now taken → IsFront self.now.reader.gate.filter self.now.reader.gate.options taken result }
    {
        self.reader.whole()
    }

    /// The class name for which the check stopped: the one that the filter did not let pass (`ClassRejected`,
    /// `ClassUnmatched`), or the one that a hidden name names. `None` where it did not stop, or for another reason. It stays
    /// until `restart`, and takes no memory.
    pub fn refused_class(&self) -> Option<&[u16]>
        ensures fails { IfSome result (λ name. passes_name self.now.reader.gate.filter self.now.reader.gate.options name.now ≡ false) }
        ensures stopped { self.now.stopped ≡ None → result ≡ None }
    {
        match self.stopped? {
            AnywhereFault::Hidden { .. } => self.hidden_class(),
            AnywhereFault::Stop(Stop::Refused(refusal)) if is_of_class(refusal.reason) => {
                self.checked_class()
            }
            _ => None,
        }
    }

    /// The class that the name names for which the scan stopped.
    fn hidden_class(&self) -> Option<&[u16]>
        ensures { IfSome result (λ name. passes_name self.now.reader.gate.filter self.now.reader.gate.options name.now ≡ false) }
    {
        match &self.scan {
            None => None,
            Some(scan) => scan.hidden_class(&NameJudge::of(self.reader.gate())),
        }
    }

    /// The name that the reader read last, if it does not pass.
    fn checked_class(&self) -> Option<&[u16]>
        ensures { IfSome result (λ name. passes_name self.now.reader.gate.filter self.now.reader.gate.options name.now ≡ false) }
    {
        let gate = self.reader.gate();
        let name = self.reader.class_name();
        if passes(gate.holder().filter(), gate.options(), name) {
            None
        } else {
            Some(name)
        }
    }

    /// Makes it a check that has taken nothing, under the same filter and options, whatever it took or answered before. It
    /// keeps the memory that it has, and takes none.
    pub fn restart(&mut self)
        ensures begins { HasTaken self.new [] }
        ensures asks { asked_by self.new ≡ asked_by self.old }
    {
        self.reader.restart();
        restart_scan(&mut self.scan);
        self.stopped = None;
    }
}

/// Whether a refusal for this reason is one of a class name that the filter did not let pass.
fn is_of_class(reason: Reason) -> bool {
    matches!(reason, Reason::ClassRejected | Reason::ClassUnmatched)
}

/// Makes the scan one that has taken nothing, where there is one.
fn restart_scan(scan: &mut Option<Box<Scan>>)
    ensures same { scans (option_map (λ home. home.value) scan.new) ≡ scans (option_map (λ home. home.value) scan.old) }
    ensures nothing { (passes : List ℕ → Bool) → IfSome (option_map (λ home. home.value) scan.new) (HasScanned passes []) }
{
    if let Some(scan) = scan {
        scan.restart();
    }
}

/// The scan of a piece, where there is one: the first name in it that does not pass.
#[inline(always)]
fn scan_piece<F: Holds>(
    gate: &HeldGate<F>,
    scan: &mut Option<Box<Scan>>,
    piece: &[u8],
) -> Option<Hidden>
    ensures { MayScan gate.now (option_map (λ home. home.value) scan.old) (option_map (λ home. home.value) scan.new) piece.now result }
{
    match scan {
        None => None,
        Some(scan) => {
            let judge = NameJudge::of(gate);
            scan.feed(&judge, piece)
        }
    }
}
