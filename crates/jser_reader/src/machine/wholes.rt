//! Parts of values of which all bytes are in the piece: a number, a reference, a text; and what is counted where a value begins.
//! They are taken in one step, though each is several tokens.
ghost use Rattle.std.specs.Prelude.{◌≡◌, ◌+◌, ◌^◌, ◌<◌, ◌≤◌, length, take, drop, Some, None, IfSome};
ghost use Rattle.jser_prim.specs.Bytes.{big_bytes};
ghost use Rattle.jser_reader.specs.Visits.{field_size};
ghost use Rattle.jser_reader.specs.Wholes.{HasNumber, HasText, HasReference, AssignsText, AssignsOther, placed, with_class};

use crate::frame::Owner;
use crate::item::Field;
use crate::machine::Machine;
use crate::phase::Phase;
use jser_grammar::wire::TC_REFERENCE;
use jser_prim::{TextScan, is_plain_between, read_u16, read_u32};
use jser_table::Kind;

/// The number in the four bytes at this place.
#[inline(always)]
pub(crate) fn number_in(piece: &[u8], at: usize) -> u32
    requires { at + 4 ≤ length piece.now }
    ensures { big_bytes 4 result ≡ take 4 (drop at piece.now) }
{
    let (_, rest) = piece.split_at(at);
    let (number, _) = rest.split_at(4);
    read_u32(number)
}

/// The number in the four bytes after a tag, where all of them are there.
#[inline(always)]
pub(crate) fn number_after(piece: &[u8]) -> Option<u32>
    ensures { IfSome result (λ n. HasNumber piece.now n) }
{
    if piece.len() < 5 {
        return None;
    }
    Some(number_in(piece, 1))
}

/// The handle of the reference after a tag, where one comes there and all its bytes are there.
#[inline(always)]
pub(crate) fn reference_after(piece: &[u8]) -> Option<u32>
    ensures { IfSome result (λ n. HasReference piece.now n) }
{
    if piece.len() < 6 || piece[1] != TC_REFERENCE {
        return None;
    }
    Some(number_in(piece, 2))
}

/// How many bytes the text has whose length comes after a tag, where all of them are there and are one.
#[inline(always)]
pub(crate) fn text_after(piece: &[u8]) -> Option<usize>
    ensures { IfSome result (λ len. HasText piece.now len) }
{
    if piece.len() < 3 {
        return None;
    }
    let (_, rest) = piece.split_at(1);
    let (number, rest) = rest.split_at(2);
    let len = read_u16(number) as usize;
    if rest.len() < len {
        return None;
    }
    let (text, _) = rest.split_at(len);
    let mut scan = TextScan::new(len as u64);
    match scan.push_all(text) {
        Ok(()) => Some(len),
        Err(_) => None,
    }
}

/// How many bytes the text has whose length comes after a tag or a type code, where all of them are there and each is a unit.
#[inline(always)]
pub(crate) fn plain_text_after(piece: &[u8]) -> Option<usize>
    ensures { IfSome result (λ len. HasText piece.now len) }
{
    if piece.len() < 3 {
        return None;
    }
    let (_, rest) = piece.split_at(1);
    let (number, _) = rest.split_at(2);
    let len = read_u16(number) as usize;
    if !is_plain_between(piece, 3, len + 3) {
        return None;
    }
    Some(len)
}

/// The bytes of the text that comes after a tag and its length of two bytes.
#[inline(always)]
pub(crate) fn text_in(piece: &[u8], len: usize) -> &[u8]
    requires { 3 + len ≤ length piece.now }
    ensures { result.now ≡ take len (drop 3 piece.now) }
{
    let (_, rest) = piece.split_at(3);
    let (text, _) = rest.split_at(len);
    text
}

/// How many bytes a declared field has that is lent at once.
#[inline(always)]
pub(crate) fn size_of_field(field: Field<'_>) -> usize
    requires { field_size field < 2 ^ 64 }
    ensures { result ≡ field_size field.entry }
{
    match field.type_handle {
        Some(_) => field.name.len() + 8,
        None => field.name.len() + 3,
    }
}

impl Machine {
    /// Counts a place and so many bytes.
    #[inline(always)]
    pub(crate) fn begin_place(&mut self, size: u64)
        requires few { self.old.refs < self.old.meter.limits.refs }
        requires room { self.old.meter.at + size < 2 ^ 64 }
        ensures { self.new ≡ placed self.old size }
    {
        self.refs += 1;
        self.at += size;
    }

    /// Counts the place of a value whose class is a reference, and takes six bytes: its tag, the reference's tag, the handle. The
    /// caller then gives the handle to `class_handle`.
    #[inline(always)]
    pub(crate) fn begin_class_reference(&mut self, owner: Owner)
        requires few { self.old.refs < self.old.meter.limits.refs }
        requires room { self.old.meter.at + 6 < 2 ^ 64 }
        ensures { self.new ≡ with_class owner self.old }
    {
        self.refs += 1;
        self.owner = owner;
        self.at += 2;
        self.from = self.at;
        self.phase = Phase::ClassHandle;
        self.at += 4;
    }

    /// Assigns the handle of a new string; or does nothing.
    #[tactic(auto, using(crate::proofs::EntryLemmas::fits_entry, crate::proofs::WholeLemmas::assigns_text, crate::proofs::WholeLemmas::assigns_nothing))]
    #[inline(always)]
    pub(crate) fn assign_text(&mut self) -> bool
        ensures { AssignsText result self.old self.new }
    {
        self.table.assign(Kind::Text).is_ok()
    }

    /// Assigns the handle of what has a class; or does nothing.
    #[tactic(auto, using(crate::proofs::EntryLemmas::fits_entry, crate::proofs::WholeLemmas::assigns_other, crate::proofs::WholeLemmas::assigns_no_other))]
    #[inline(always)]
    pub(super) fn assign_other(&mut self) -> bool
        ensures { AssignsOther result self.old self.new }
    {
        self.table.assign(Kind::Other).is_ok()
    }
}
