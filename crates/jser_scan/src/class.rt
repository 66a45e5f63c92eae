//! The class name that a filter refused, from the bytes of a stream or the last of them.
ghost use Rattle.std.specs.Prelude.{◌≡◌, ◌⊎◌, ◌+◌, ◌<◌, ◌^◌, ℕ, List, Ok, None, true, length, IfOk, IfSome};
ghost use Rattle.jser_prim.specs.ModifiedUtf8.{IsUnits, modified_utf8};
ghost use Rattle.jser_anywhere.specs.Standing.{StandsAt};
ghost use Rattle.jser_check.specs.Passing.{passes_name};
ghost use Rattle.jser_scan.specs.Founds.{IsRefusedName, options_in};
ghost use Rattle.jser_scan.specs.LastSeen.{AreLast, StandsBetween};
ghost use Rattle.jser_scan.specs.NamePlaces.{HidesNone, SpellsNone};

use crate::check::Rules;
use crate::last::LastBytes;
use jser_anywhere::whole_class;
use jser_check::{Options, passes};
use jser_prim::read_units;
use std::alloc::{AllocError, Global};

/// The text of a token that has a length of two bytes before it, if its bytes are still kept and the filter refuses that name.
#[tactic(auto, using(crate::proofs::NameLemmas::token_named))]
pub(crate) fn refused_name(
    alloc: Global,
    rules: &Rules,
    last: &LastBytes,
    from: u64,
    to: u64,
) -> Result<Option<Vec<u16>>, AllocError>
    ensures refused { IfOk result (IsRefusedName rules.now) }
    ensures stands { (bytes : List ℕ) → AreLast last.now bytes → length bytes < 2 ^ 64
        → IfOk result (λ class. IfSome class (λ units. StandsBetween bytes (from + 2) to (modified_utf8 units.items))) }
    ensures none { result ≡ Ok None → (bytes : List ℕ) → AreLast last.now bytes → length bytes < 2 ^ 64
        → (from + 2 + length last.now.kept < length bytes) ⊎ SpellsNone rules.now bytes from to }
{
    if last.ran_out() {
        return Err(AllocError);
    }
    let Some(start) = from.checked_add(2) else {
        return Ok(None);
    };
    match last.part(alloc, start, to)? {
        Some(text) => refused_text(alloc, rules, text.as_slice()),
        None => Ok(None),
    }
}

/// The text of a token in these bytes that has a length of two bytes before it, if the filter refuses that name.
#[tactic(auto, using(crate::proofs::NameLemmas::token_named))]
pub(crate) fn name_in(
    alloc: Global,
    rules: &Rules,
    bytes: &[u8],
    from: u64,
    to: u64,
) -> Result<Option<Vec<u16>>, AllocError>
    ensures refused { IfOk result (IsRefusedName rules.now) }
    ensures stands { IfOk result (λ class. IfSome class (λ units. StandsBetween bytes.now (from + 2) to (modified_utf8 units.items))) }
    ensures none { result ≡ Ok None → SpellsNone rules.now bytes.now from to }
{
    match text_in(bytes, from, to) {
        Some(text) => refused_text(alloc, rules, text),
        None => Ok(None),
    }
}

/// The bytes of such a token behind its length, if they are there.
fn text_in(bytes: &[u8], from: u64, to: u64) -> Option<&[u8]>
    ensures text { IfSome result (λ text. StandsBetween bytes.now (from + 2) to text.now) }
    ensures none { result ≡ None → (text : List ℕ) → StandsBetween bytes.now (from + 2) to text → ⊥ }
{
    let start = from.saturating_add(2);
    if start > to || to > bytes.len() as u64 {
        return None;
    }
    let (front, _) = bytes.split_at(to as usize);
    let (_, text) = front.split_at(start as usize);
    Some(text)
}

/// The name that a text spells, if it spells one and the filter refuses it.
fn refused_text(alloc: Global, rules: &Rules, text: &[u8]) -> Result<Option<Vec<u16>>, AllocError>
    ensures refused { IfOk result (IsRefusedName rules.now) }
    ensures spelled { IfOk result (λ class. IfSome class (λ units. modified_utf8 units.items ≡ text.now)) }
    ensures none { result ≡ Ok None → (units : List ℕ) → IsUnits units → modified_utf8 units ≡ text.now
        → passes_name rules.now.filter (options_in rules.now) units ≡ true }
{
    let mut units = Vec::new(alloc);
    if read_units(text, &mut units)? {
        Ok(if_refused(rules, units))
    } else {
        Ok(None)
    }
}

/// The class of the name that can be read from one place to another, if these bytes are still kept and the filter refuses it.
#[tactic(auto)]
pub(crate) fn hidden_name(
    alloc: Global,
    rules: &Rules,
    last: &LastBytes,
    from: u64,
    to: u64,
) -> Result<Option<Vec<u16>>, AllocError>
    ensures refused { IfOk result (IsRefusedName rules.now) }
    ensures stands { (bytes : List ℕ) → AreLast last.now bytes → length bytes < 2 ^ 64
        → IfOk result (λ class. IfSome class (λ units. StandsAt bytes from to units.items)) }
    ensures none { result ≡ Ok None → (bytes : List ℕ) → AreLast last.now bytes → length bytes < 2 ^ 64
        → (from + length last.now.kept < length bytes) ⊎ HidesNone rules.now bytes from to }
{
    if last.ran_out() {
        return Err(AllocError);
    }
    let Some(part) = last.part(alloc, from, to)? else {
        return Ok(None);
    };
    match whole_class(alloc, part.as_slice())? {
        Some(class) => Ok(if_refused(rules, class)),
        None => Ok(None),
    }
}

/// The name, if the filter refuses it.
fn if_refused(rules: &Rules, name: Vec<u16>) -> Option<Vec<u16>>
    ensures refused { IsRefusedName rules.now result }
    ensures same { IfSome result (λ told. told.items ≡ name.items) }
    ensures none { result ≡ None → passes_name rules.now.filter (options_in rules.now) name.items ≡ true }
{
    let options = Options {
        strict: rules.strict,
    };
    if passes(&rules.filter, options, name.as_slice()) {
        None
    } else {
        Some(name)
    }
}
