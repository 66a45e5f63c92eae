//! The check of one file.
ghost use Rattle.std.specs.Prelude.{◌≡◌, ◌≢◌, ◌⊎◌, ◌+◌, ◌<◌, ◌^◌, ℕ, List, [], length, IfSome};
ghost use Rattle.jser_grammar.specs.Caps.{most_bytes};
ghost use Rattle.jser_check.specs.Sources.{TakesAtMost};
ghost use Rattle.jser_scan.specs.Devices.{KeepsEnd};
ghost use Rattle.jser_scan.specs.Founds.{FailsAs, IsFound, IsFoundAnywhere, IsFoundBy, IsHidden, IsRefusal, NamesFirst, found_of, is_of_class};
ghost use Rattle.jser_scan.specs.LastSeen.{AreLast, KeepsEndOfFront};
ghost use Rattle.jser_scan.specs.NamePlaces.{NameStands, TellsHidden, TellsName};

use crate::class::{hidden_name, name_in, refused_name};
use crate::found::Found;
use crate::last::LastBytes;
use crate::tail::Tail;
use jser_check::{AnywhereFault, CheckFault, Options, Stop, check_anywhere, check_reader};
use jser_filter::Filter;
use jser_inputs::Input;
use jser_reader::{Reason, Refusal};
use std::alloc::{AllocError, Global};

/// What files are checked under.
#[derive(Debug, Drop)]
pub struct Rules {
    /// The filter, with its table of modules.
    pub filter: Filter,
    /// Whether a name that no pattern matches is refused.
    pub strict: bool,
    /// Whether the filter is asked about each class name that can be read at any place.
    pub anywhere: bool,
}

/// Checks the bytes of a file, as `check_reader` of `jser_check` does, or `check_anywhere`.
///
/// It keeps the last bytes that it read, at most some 250,000, and copies those of the refused class's name. It gives the input
/// back.
pub fn check_file<R: Input + Drop>(alloc: Global, rules: &Rules, input: R) -> (Found, R)
    ensures found { IfSome (R.to_come input) (λ bytes. IsFound rules.now bytes result.0) }
    ensures first { IfSome (R.to_come input) (λ bytes. NamesFirst rules.now bytes result.0) }
    ensures name { IfSome (R.to_come input) (λ bytes. NameStands bytes result.0) }
    ensures fails { FailsAs result.0 (R.has_failed input) (R.has_failed result.1) (R.why_failed result.1) }
{
    let mut tail = Tail::new(input, LastBytes::new(alloc));
    let found = check_tail(alloc, rules, &mut tail);
    let (input, _last) = tail.into_parts();
    (found, input)
}

/// Checks the bytes of a file as `check_file` does, and keeps all that it reads, where there is memory for them. These are the
/// first bytes of the file: where it is refused, not all of them were read.
#[tactic(auto, using(crate::proofs::FoundLemmas::not_unopened))]
pub fn check_keeping<R: Input + Drop>(
    alloc: Global,
    rules: &Rules,
    input: R,
) -> (Found, R, LastBytes)
    ensures found { IfSome (R.to_come input) (λ bytes. IsFound rules.now bytes result.0) }
    ensures first { IfSome (R.to_come input) (λ bytes. NamesFirst rules.now bytes result.0) }
    ensures opened { result.0 ≢ Found.NotOpened }
    ensures fails { FailsAs result.0 (R.has_failed input) (R.has_failed result.1) (R.why_failed result.1) }
    ensures kept { IfSome (R.to_come input) (λ bytes. KeepsEndOfFront result.2 bytes) }
{
    let mut tail = Tail::new(input, LastBytes::all(alloc));
    let found = check_tail(alloc, rules, &mut tail);
    let (input, last) = tail.into_parts();
    (found, input, last)
}

/// The check that is asked for.
#[tactic(auto, using(crate::proofs::FoundLemmas::found_plainly, crate::proofs::FoundLemmas::found_anywhere))]
fn check_tail<R: Input>(alloc: Global, rules: &Rules, tail: &mut Tail<R>) -> Found
    requires { AreLast tail.old.last [] }
    ensures found { IfSome tail.old.bytes (λ bytes. IsFound rules.now bytes result) }
    ensures first { IfSome tail.old.bytes (λ bytes. NamesFirst rules.now bytes result) }
    ensures name { IfSome tail.old.bytes (λ bytes. NameStands bytes result) }
    ensures fails { FailsAs result tail.old.has_failed tail.new.has_failed tail.new.why }
    ensures kept { IfSome tail.old.bytes (λ bytes. KeepsEndOfFront tail.new.last bytes) }
{
    if rules.anywhere {
        check_names(alloc, rules, tail)
    } else {
        check(alloc, rules, tail)
    }
}

/// The check without names at any place.
#[tactic(auto, using(crate::proofs::FoundLemmas::accepted, crate::proofs::FoundLemmas::refused, crate::proofs::FoundLemmas::undecided, crate::proofs::FoundLemmas::unread, crate::proofs::FoundLemmas::refusal_fails, crate::proofs::FoundLemmas::names_first, crate::proofs::NameLemmas::nothing_told))]
fn check<R: Input>(alloc: Global, rules: &Rules, tail: &mut Tail<R>) -> Found
    requires { AreLast tail.old.last [] }
    ensures found { IfSome tail.old.bytes (λ bytes. IsFoundBy rules.now bytes result) }
    ensures first { IfSome tail.old.bytes (λ bytes. NamesFirst rules.now bytes result) }
    ensures name { IfSome tail.old.bytes (λ bytes. NameStands bytes result) }
    ensures fails { FailsAs result tail.old.has_failed tail.new.has_failed tail.new.why }
    ensures remembers { (all : List ℕ) → KeepsEnd tail.old.bytes tail.old.last all → KeepsEnd tail.new.bytes tail.new.last all }
    ensures within { TakesAtMost (most_bytes + 1) tail.old.bytes tail.new.bytes }
{
    let options = Options {
        strict: rules.strict,
    };
    match check_reader(alloc, tail, &rules.filter, options) {
        Ok(totals) => Found::Accepted(totals),
        Err(CheckFault::Stop(Stop::Refused(refusal))) => refused(
            alloc,
            rules,
            tail.last(),
            refusal,
        ),
        Err(CheckFault::Stop(_)) => Found::OutOfMemory,
        Err(CheckFault::ReadFault) => Found::NotRead(tail.fault()),
    }
}

/// The check with them.
#[tactic(auto, using(crate::proofs::FoundLemmas::accepted_anywhere, crate::proofs::FoundLemmas::refused_anywhere, crate::proofs::FoundLemmas::hidden_anywhere, crate::proofs::FoundLemmas::undecided_anywhere, crate::proofs::FoundLemmas::unread_anywhere, crate::proofs::FoundLemmas::refusal_fails, crate::proofs::FoundLemmas::hidden_first, crate::proofs::NameLemmas::nothing_told))]
fn check_names<R: Input>(alloc: Global, rules: &Rules, tail: &mut Tail<R>) -> Found
    requires { AreLast tail.old.last [] }
    ensures found { IfSome tail.old.bytes (λ bytes. IsFoundAnywhere rules.now bytes result) }
    ensures first { IfSome tail.old.bytes (λ bytes. NamesFirst rules.now bytes result) }
    ensures name { IfSome tail.old.bytes (λ bytes. NameStands bytes result) }
    ensures fails { FailsAs result tail.old.has_failed tail.new.has_failed tail.new.why }
    ensures remembers { (all : List ℕ) → KeepsEnd tail.old.bytes tail.old.last all → KeepsEnd tail.new.bytes tail.new.last all }
    ensures within { TakesAtMost (most_bytes + 1) tail.old.bytes tail.new.bytes }
{
    let options = Options {
        strict: rules.strict,
    };
    match check_anywhere(alloc, tail, &rules.filter, options) {
        Ok(totals) => Found::Accepted(totals),
        Err(AnywhereFault::Stop(Stop::Refused(refusal))) => refused(
            alloc,
            rules,
            tail.last(),
            refusal,
        ),
        Err(AnywhereFault::Hidden { from_byte, to_byte }) => {
            hidden(alloc, rules, tail.last(), from_byte, to_byte)
        }
        Err(AnywhereFault::Stop(_)) => Found::OutOfMemory,
        Err(AnywhereFault::ReadFault) => Found::NotRead(tail.fault()),
    }
}

/// A refusal of a stream with these last bytes, with the class name where the filter refused one and its bytes are still kept.
#[tactic(auto, using(crate::proofs::NameLemmas::is_refusal, crate::proofs::NameLemmas::names_refusal))]
pub fn refused(alloc: Global, rules: &Rules, last: &LastBytes, refusal: Refusal) -> Found
    ensures is { IsRefusal rules.now refusal result }
    ensures name { (bytes : List ℕ) → AreLast last.now bytes → length bytes < 2 ^ 64 → NameStands bytes result }
    ensures told { (bytes : List ℕ) → AreLast last.now bytes → length bytes < 2 ^ 64
        → (refusal.from_byte + 2 + length last.now.kept < length bytes) ⊎ TellsName rules.now bytes result }
{
    if !is_of_class(refusal.reason) {
        return Found::Refused {
            refusal,
            class: None,
        };
    }
    let class = refused_name(alloc, rules, last, refusal.from_byte, refusal.to_byte);
    found_of(refusal, class)
}

/// A refusal of these bytes, with the class name where the filter refused one.
#[tactic(auto, using(crate::proofs::NameLemmas::is_refusal, crate::proofs::NameLemmas::names_refusal, crate::proofs::NameLemmas::tells_in))]
pub fn refused_in(alloc: Global, rules: &Rules, bytes: &[u8], refusal: Refusal) -> Found
    ensures is { IsRefusal rules.now refusal result }
    ensures name { NameStands bytes.now result }
    ensures told { TellsName rules.now bytes.now result }
{
    if !is_of_class(refusal.reason) {
        return Found::Refused {
            refusal,
            class: None,
        };
    }
    let class = name_in(alloc, rules, bytes, refusal.from_byte, refusal.to_byte);
    found_of(refusal, class)
}

/// Whether the filter refused a class.
fn is_of_class(reason: Reason) -> bool
    ensures { result ≡ is_of_class reason }
{
    matches!(reason, Reason::ClassRejected | Reason::ClassUnmatched)
}

/// What is found of a refusal, beside which this class name is told.
fn found_of(refusal: Refusal, class: Result<Option<Vec<u16>>, AllocError>) -> Found
    ensures { result ≡ found_of refusal class }
{
    match class {
        Ok(class) => Found::Refused { refusal, class },
        Err(_) => Found::OutOfMemory,
    }
}

/// A name in a stream with these last bytes that can be read at some place, and that does not pass: with its class, where its bytes
/// are still kept.
pub fn hidden(alloc: Global, rules: &Rules, last: &LastBytes, from_byte: u64, to_byte: u64) -> Found
    ensures is { IsHidden rules.now from_byte to_byte result }
    ensures name { (bytes : List ℕ) → AreLast last.now bytes → length bytes < 2 ^ 64 → NameStands bytes result }
    ensures told { (bytes : List ℕ) → AreLast last.now bytes → length bytes < 2 ^ 64
        → (from_byte + length last.now.kept < length bytes) ⊎ TellsHidden rules.now bytes result }
{
    match hidden_name(alloc, rules, last, from_byte, to_byte) {
        Ok(class) => Found::Hidden {
            from_byte,
            to_byte,
            class,
        },
        Err(_) => Found::OutOfMemory,
    }
}
