//! The class name of an answer, quoted.
ghost use Rattle.std.specs.Prelude.{◌≡◌, ◌≢◌, ◌⊎◌, ℕ, List, [], Ok, None, IfOk, IfSome};
ghost use Rattle.std.specs.Option.{option_map};
ghost use Rattle.jser_prim.specs.ModifiedUtf8.{IsUnits, modified_utf8};
ghost use Rattle.jser_shown.specs.Words.{quoted};
ghost use Rattle.jser_ffi.specs.Classes.{IsNamedIn, NamesNone, PutsClass, part};
ghost use Rattle.jser_ffi.specs.Rooms.{Puts};
ghost use Rattle.jser_ffi.specs.Streams.{PutsRefused};
ghost use Rattle.jser_ffi.specs.Told.{TextZeros};

use crate::answer::{Answer, HIDDEN_NAME, NO_MEMORY, SPENT, bare};
use crate::room::put;
use crate::stream::Stream;
use jser_anywhere::whole_class;
use jser_prim::{Front, Outbox, read_units};
use jser_printer::write_quoted;
use std::alloc::{AllocError, Global};

/// As many bytes as a quoted name has at most.
const MOST: usize = 1 << 20;

/// Puts the class name of an answer into a room, quoted: it stands in these bytes.
#[tactic(auto, using(crate::proofs::ClassLemmas::puts_class))]
pub(crate) fn class_into(alloc: Global, bytes: &[u8], answer: &Answer, room: &mut [u8]) -> Answer
    ensures puts { (result.status ≡ 0) ⊎ (result.status ≡ 6) → PutsClass bytes.now answer.now room.old room.new result }
    ensures spent { result.status ≡ 5 → NamesNone bytes.now answer.now }
    ensures kept { (result.status ≡ 3) ⊎ (result.status ≡ 5) → room.new ≡ room.old }
    ensures known { (result.status ≡ 0) ⊎ ((result.status ≡ 3) ⊎ ((result.status ≡ 5) ⊎ (result.status ≡ 6))) }
    ensures zeros { TextZeros result }
{
    match class_of(alloc, bytes, answer) {
        Ok(Some(units)) => quoted_into(alloc, units.as_slice(), room),
        Ok(None) => bare(SPENT),
        Err(_) => bare(NO_MEMORY),
    }
}

/// Puts the class name for which a stream is over into a room, quoted.
#[tactic(auto, using(crate::proofs::ClassLemmas::puts_refused))]
pub(crate) fn refused_into(alloc: Global, stream: &Stream, room: &mut [u8]) -> Answer
    ensures puts { (result.status ≡ 0) ⊎ (result.status ≡ 6) → PutsRefused stream.now room.old room.new result }
    ensures kept { (result.status ≡ 3) ⊎ (result.status ≡ 5) → room.new ≡ room.old }
    ensures known { (result.status ≡ 0) ⊎ ((result.status ≡ 3) ⊎ ((result.status ≡ 5) ⊎ (result.status ≡ 6))) }
    ensures zeros { TextZeros result }
{
    match stream.refused_class() {
        Some(units) => quoted_into(alloc, units, room),
        None => bare(SPENT),
    }
}

/// The class name of an answer.
fn class_of(alloc: Global, bytes: &[u8], answer: &Answer) -> Result<Option<Vec<u16>>, AllocError>
    ensures named { IfOk result (λ found. IfSome found (λ units. IsNamedIn bytes.now answer.now units.items)) }
    ensures none { result ≡ Ok None → NamesNone bytes.now answer.now }
{
    let Some(text) = part(bytes, answer.name_from, answer.name_to) else {
        return Ok(None);
    };
    if answer.reason == HIDDEN_NAME {
        whole_class(alloc, text)
    } else {
        spelled_class(alloc, text)
    }
}

/// The bytes from one place to another, if they are there. An empty name is; no name ends at 0.
fn part(bytes: &[u8], from: u64, to: u64) -> Option<&[u8]>
    ensures { option_map (λ text. text.now) result ≡ part bytes.now from to }
{
    if to == 0 || from > to || to > bytes.len() as u64 {
        return None;
    }
    let (_, rest) = bytes.split_at(from as usize);
    let (text, _) = rest.split_at((to - from) as usize);
    Some(text)
}

/// The name that a text spells.
fn spelled_class(alloc: Global, text: &[u8]) -> Result<Option<Vec<u16>>, AllocError>
    ensures named { IfOk result (λ found. IfSome found (λ units. IsUnits units.items × (modified_utf8 units.items ≡ text.now))) }
    ensures none { result ≡ Ok None → (units : List ℕ) → IsUnits units → modified_utf8 units ≡ text.now → ⊥ }
{
    let mut units = Vec::new(alloc);
    if read_units(text, &mut units)? {
        Ok(Some(units))
    } else {
        Ok(None)
    }
}

/// Puts a name into a room, quoted.
fn quoted_into(alloc: Global, units: &[u16], room: &mut [u8]) -> Answer
    ensures puts { result.status ≢ 3 → Puts (quoted units.now []) room.old room.new result }
    ensures kept { result.status ≡ 3 → room.new ≡ room.old }
    ensures known { (result.status ≡ 0) ⊎ ((result.status ≡ 3) ⊎ (result.status ≡ 6)) }
    ensures zeros { TextZeros result }
{
    match quoted_text(alloc, units) {
        Ok(text) => put(text.as_slice(), room),
        Err(_) => bare(NO_MEMORY),
    }
}

/// A name, quoted.
#[tactic(auto, using(crate::proofs::ClassLemmas::quoted_went))]
fn quoted_text(alloc: Global, units: &[u16]) -> Result<Vec<u8>, AllocError>
    ensures { IfOk result (λ text. text.items ≡ quoted units.now []) }
{
    let mut outbox = Outbox::new();
    let mut front = Front::new(alloc, MOST);
    write_quoted(&mut outbox, &mut front, units);
    outbox.flush(&mut front);
    if outbox.has_failed() {
        Err(AllocError)
    } else {
        Ok(front.into_bytes())
    }
}
