//! The check of one record after another, which keeps its memory: under the filter alone, or with names at any place.
ghost use Rattle.std.specs.Prelude.{◌≡◌, ◌++◌, ◌<◌, ◌^◌, ℕ, List, [], length, true, false, IfOk, IfSome};
ghost use Rattle.jser_scan.specs.Founds.{IsFound};
ghost use Rattle.jser_scan.specs.LastSeen.{AreLast};
ghost use Rattle.jser_scan.specs.Lines.{is_accepted};
ghost use Rattle.jser_scan.specs.NamePlaces.{NameStands};
ghost use Rattle.jser_scan.specs.declared.Rules.{Rules as ToldRules};
ghost use Rattle.jser_records.specs.Judged.{Ends, FaultIf, FeedFinds, Feeds, HasJudged, IsRead, IsSound, IsUnder, Took};

use jser_check::{AnywhereFault, Check as OneCheck, HeldGate, Options, Stop};
use jser_filter::Filter;
use jser_reader::{Reader, Totals};
use jser_scan::{Found, LastBytes, Rules, hidden, refused};
use std::alloc::{AllocError, Global};
use std::marker::Model;

/// The check of one record after another.
#[derive(Drop)]
pub(crate) struct Judge<'f> {
    alloc: Global,
    rules: &'f Rules,
    check: Check<'f>,
    last: LastBytes,
}

/// The check under the filter alone, or with names at any place.
#[derive(Drop)]
enum Check<'f> {
    Plain(Reader<HeldGate<&'f Filter>>),
    Anywhere(OneCheck<&'f Filter>),
}

impl<'f> Model for Judge<'f> {
    ghost use Rattle.jser_records.specs.Judged.{IsUnder, Judging};

    ghost Value = { Judging };

    ghost view = { λ a. record { rules = a.rules.now; check = a.check; last = a.last } };

    ghost invariant = { λ a. IsUnder a.rules.now a.check };
}

impl<'f> Judge<'f> {
    /// A check that has taken nothing, under these rules.
    pub(crate) fn new(alloc: Global, rules: &'f Rules) -> Result<Judge<'f>, AllocError>
        ensures { IfOk result (λ judge. judge.rules ≡ rules.now) }
    {
        match check_under(alloc, rules) {
            Ok(check) => Ok(Judge {
                alloc,
                rules,
                check,
                last: LastBytes::new(alloc),
            }),
            Err(failed) => Err(failed),
        }
    }

    /// Begins the next record.
    pub(crate) fn restart(&mut self)
        ensures begins { HasJudged self.new [] }
        ensures rules { self.new.rules ≡ self.old.rules }
    {
        self.last.clear();
        restart(&mut self.check);
    }

    /// Takes the next bytes of the record. What is found, where they decide.
    #[tactic(auto, using(crate::proofs::JudgeLemmas::judged_on, crate::proofs::JudgeLemmas::decided))]
    pub(crate) fn feed(&mut self, bytes: &[u8]) -> Option<Found>
        ensures finds { (taken : List ℕ) → HasJudged self.old taken → FeedFinds self.new taken bytes.now result }
        ensures read { IfSome result IsRead }
        ensures rules { self.new.rules ≡ self.old.rules }
    {
        self.last.keep(bytes);
        match feed(&mut self.check, bytes) {
            Ok(()) => None,
            Err(fault) => Some(self.found(fault)),
        }
    }

    /// The record has ended: what is found.
    #[tactic(auto, using(crate::proofs::JudgeLemmas::sound_yes, crate::proofs::JudgeLemmas::sound_fault))]
    pub(crate) fn finish(&mut self) -> Found
        ensures finds { (taken : List ℕ) → HasJudged self.old taken → IsSound self.old.rules taken result }
        ensures read { IsRead result }
        ensures rules { self.new.rules ≡ self.old.rules }
    {
        match finish(&mut self.check) {
            Ok(totals) => Found::Accepted(totals),
            Err(fault) => self.found(fault),
        }
    }

    /// What is found where the check stops.
    #[tactic(auto, using(crate::proofs::JudgeLemmas::refused_is, crate::proofs::JudgeLemmas::hidden_is, crate::proofs::JudgeLemmas::undecided_is, crate::proofs::JudgeLemmas::refusal_refuses, crate::proofs::JudgeLemmas::hidden_refuses, crate::proofs::JudgeLemmas::refusal_read, crate::proofs::JudgeLemmas::hidden_read))]
    fn found(&self, fault: AnywhereFault) -> Found
        ensures is { (bytes : List ℕ) → FaultIf self.now.rules.anywhere self.now.rules bytes fault → IsFound self.now.rules bytes result }
        ensures name { (bytes : List ℕ) → AreLast self.now.last bytes → length bytes < 2 ^ 64 → NameStands bytes result }
        ensures refuses { is_accepted result ≡ false }
        ensures read { IsRead result }
    {
        match fault {
            AnywhereFault::Stop(Stop::Refused(refusal)) => {
                refused(self.alloc, self.rules, &self.last, refusal)
            }
            AnywhereFault::Hidden { from_byte, to_byte } => {
                hidden(self.alloc, self.rules, &self.last, from_byte, to_byte)
            }
            AnywhereFault::Stop(_) | AnywhereFault::ReadFault => Found::OutOfMemory,
        }
    }
}

/// The check under these rules.
fn check_under<'f>(alloc: Global, rules: &'f Rules) -> Result<Check<'f>, AllocError>
    ensures { IfOk result (λ check. IsUnder rules.now check) }
{
    let options = Options {
        strict: rules.strict,
    };
    let gate = HeldGate::new(&rules.filter, options);
    if !rules.anywhere {
        return Ok(Check::Plain(Reader::new(alloc, gate)));
    }
    match OneCheck::under(alloc, gate, true) {
        Ok(checker) => Ok(Check::Anywhere(checker)),
        Err(failed) => Err(failed),
    }
}

/// Begins the next record.
fn restart(check: &mut Check<'_>)
    ensures begins { (rules : ToldRules) → IsUnder rules check.old → Took rules check.new [] }
    ensures under { (rules : ToldRules) → IsUnder rules check.old → IsUnder rules check.new }
{
    match check {
        Check::Plain(reader) => reader.restart(),
        Check::Anywhere(checker) => checker.restart(),
    }
}

/// Takes the next bytes.
#[tactic(auto, using(crate::proofs::JudgeLemmas::plain_takes, crate::proofs::JudgeLemmas::plain_stops, crate::proofs::JudgeLemmas::anywhere_feeds))]
fn feed(check: &mut Check<'_>, bytes: &[u8]) -> Result<(), AnywhereFault>
    ensures feeds { (rules : ToldRules) (taken : List ℕ) → IsUnder rules check.old → Took rules check.old taken → Feeds rules check.new taken bytes.now result }
    ensures under { (rules : ToldRules) → IsUnder rules check.old → IsUnder rules check.new }
{
    match check {
        Check::Plain(reader) => match reader.skip(bytes) {
            Ok(()) => Ok(()),
            Err(stop) => Err(AnywhereFault::Stop(stop)),
        },
        Check::Anywhere(checker) => checker.feed(bytes),
    }
}

/// The end of the bytes.
#[tactic(auto, using(crate::proofs::JudgeLemmas::plain_ends, crate::proofs::JudgeLemmas::plain_cut, crate::proofs::JudgeLemmas::anywhere_ends))]
fn finish(check: &mut Check<'_>) -> Result<Totals, AnywhereFault>
    ensures ends { (rules : ToldRules) (taken : List ℕ) → IsUnder rules check.old → Took rules check.old taken → Ends rules taken result }
    ensures under { (rules : ToldRules) → IsUnder rules check.old → IsUnder rules check.new }
{
    match check {
        Check::Plain(reader) => match reader.finish() {
            Ok(totals) => Ok(totals),
            Err(stop) => Err(AnywhereFault::Stop(stop)),
        },
        Check::Anywhere(checker) => checker.finish(),
    }
}
