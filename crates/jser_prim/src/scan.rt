//! Reading a text of modified UTF-8 whose length is known, from bytes in any pieces.
//!
//! A `TextScan` keeps the few bits of the unit that is being read and nothing of what went before, so it
//! allocates nothing. It refuses a text at the first byte that no text of its length can have there.
ghost use Rattle.std.specs.Prelude.{◌≡◌, ◌+◌, ◌-◌, ◌<◌, ◌≤◌, ◌↔◌, ℕ, List, [], ◌∷◌, ◌++◌, length, true, false, IsTrue, IsOk, IsErr, IfOk, IfErr, OnOk, OnErr};
ghost use Rattle.std.specs.Option.{option_to_list};
ghost use Rattle.jser_prim.specs.ModifiedUtf8.{modified_utf8};
ghost use Rattle.jser_prim.specs.Pushes.{PushesFront, PushesTo};
ghost use Rattle.jser_prim.specs.Texts.{BeginsText, FaultsAfter, HasAccepted, HasAcceptedAfter};

use crate::lanes::ascii_len;
use crate::place::{Place, Taken};
use crate::runs::spelled_len;
use std::marker::Model;
use thiserror::Error;

/// A byte that no text of the scan's length can have where it stands.
#[derive(Clone, Copy, PartialEq, Eq, Debug, Error)]
#[error("not modified UTF-8 of this length")]
pub struct TextFault;

/// A byte of a slice, which no text of the scan's length can have where it stands.
#[derive(Clone, Copy, PartialEq, Eq, Debug, Error)]
#[error("not modified UTF-8 of this length after {accepted} bytes")]
pub struct TextFaultAfter {
    /// How many bytes were accepted before it.
    pub accepted: usize,
}

/// A scan of one text of modified UTF-8, whose length in bytes was given.
#[derive(Debug, Drop)]
pub struct TextScan {
    left: u64,
    place: Place,
}

impl Model for TextScan {
    ghost use Rattle.jser_prim.specs.Texts.{Scan};
    ghost use Rattle.jser_prim.specs.Places.{CanStand, cut_at, is_fault};

    ghost Value = { Scan };

    ghost view = { λ a. record { left = a.left; cut = cut_at a.place; has_failed = is_fault a.place } };

    ghost invariant = { λ a. CanStand a.left a.place };
}

impl TextScan {
    /// A scan of a text of `len` bytes.
    pub fn new(len: u64) -> TextScan
        ensures accepted { HasAccepted len [] [] result }
        ensures left { result.left ≡ len }
    {
        TextScan {
            left: len,
            place: Place::First,
        }
    }

    /// Whether the whole text was accepted. It never is after a fault.
    #[tactic(auto, using(crate::proofs::ScanLemmas::accepts_text))]
    pub fn is_done(&self) -> bool
        ensures done { (len : ℕ) (bytes units : List ℕ) → HasAccepted len bytes units self.now
            → (IsTrue result ↔ (length bytes ≡ len)) }
        ensures text { (len : ℕ) (bytes units : List ℕ) → HasAccepted len bytes units self.now
            → IsTrue result → bytes ≡ modified_utf8 units }
        ensures failed { self.now.has_failed ≡ true → result ≡ false }
        ensures left { IsTrue result ↔ (self.now.left ≡ 0) }
    {
        self.left == 0
    }

    /// How many bytes are still to come: 0 exactly where the whole text was accepted, and never after a fault.
    #[tactic(auto, using(crate::proofs::ScanLemmas::accepts_text))]
    pub fn left(&self) -> u64
        ensures left { result ≡ self.now.left }
        ensures done { (len : ℕ) (bytes units : List ℕ) → HasAccepted len bytes units self.now
            → (result ≡ 0 ↔ length bytes ≡ len) }
        ensures text { (len : ℕ) (bytes units : List ℕ) → HasAccepted len bytes units self.now
            → result ≡ 0 → bytes ≡ modified_utf8 units }
        ensures failed { self.now.has_failed ≡ true → 0 < result }
    {
        self.left
    }

    /// Takes the next byte of the text, and returns the unit that it ends, if it ends one.
    ///
    /// # Errors
    ///
    /// `TextFault` where no text of this length goes on with the byte, and at each call from then on.
    pub fn push(&mut self, byte: u8) -> Result<Option<u16>, TextFault>
        requires not_done { 0 < self.old.left }
        ensures accepts { (len : ℕ) (bytes units : List ℕ) → HasAccepted len bytes units self.old
            → (IsOk result ↔ BeginsText len (bytes ++ byte ∷ [])) }
        ensures unit { (len : ℕ) (bytes units : List ℕ) → HasAccepted len bytes units self.old
            → IfOk result (λ unit. HasAccepted len (bytes ++ byte ∷ []) (units ++ option_to_list unit) self.new) }
        ensures left { OnOk result (self.new.left + 1 ≡ self.old.left) }
        ensures fault { OnErr result ((self.new.has_failed ≡ true) × (self.new.left ≡ self.old.left)) }
        ensures failed { self.old.has_failed ≡ true → IsErr result × (self.new ≡ self.old) }
    {
        let room = self.left - 1;
        match self.place.take(byte, room) {
            Taken::Unit(unit) => {
                self.left = room;
                self.place = Place::First;
                Ok(Some(unit))
            }
            Taken::Part(next) => {
                self.left = room;
                self.place = next;
                Ok(None)
            }
            Taken::Refused => {
                self.place = Place::Fault;
                Err(TextFault)
            }
        }
    }

    /// Takes the next bytes of the text, as pushing them one by one would, and returns no units.
    ///
    /// # Errors
    ///
    /// `TextFaultAfter` at the first byte with which no text of this length goes on, with the number of
    /// bytes that were accepted before it. From then on each call with at least one byte
    /// fails at its first byte.
    pub fn push_all(&mut self, bytes: &[u8]) -> Result<(), TextFaultAfter>
        requires { length bytes.now ≤ self.old.left }
        ensures accepts { (len : ℕ) (before units : List ℕ) → HasAccepted len before units self.old
            → (IsOk result ↔ BeginsText len (before ++ bytes.now)) }
        ensures units { (len : ℕ) (before units : List ℕ) → HasAccepted len before units self.old
            → OnOk result (HasAcceptedAfter len (before ++ bytes.now) units self.new) }
        ensures fault { (len : ℕ) (before units : List ℕ) → HasAccepted len before units self.old
            → IfErr result (λ fault. FaultsAfter len before bytes.now fault.accepted) }
        ensures within { IfErr result (λ fault. fault.accepted < length bytes.now) }
        ensures left { OnOk result (self.new.left + length bytes.now ≡ self.old.left) }
        ensures left_at_fault { IfErr result (λ fault. self.new.left + fault.accepted ≡ self.old.left) }
        ensures failed { OnErr result (self.new.has_failed ≡ true) }
        ensures stays { self.old.has_failed ≡ true → self.new ≡ self.old }
        ensures refuses { self.old.has_failed ≡ true → 0 < length bytes.now → IsErr result }
    {
        let mut rest = bytes;
        'bytes: while !rest.is_empty() {
            match self.push_some(rest) {
                Ok(accepted) => {
                    let (_, tail) = rest.split_at(accepted);
                    rest = tail;
                }
                Err(fault) => {
                    return Err(TextFaultAfter {
                        accepted: bytes.len() - rest.len() + fault.accepted,
                    });
                }
            }
        }
        Ok(())
    }

    /// Takes the next bytes of the text where no unit is cut and each of them is a unit of one byte, 0x0001 to 0x007F: they
    /// are the next units. Else it does nothing, and answers false.
    #[inline(always)]
    pub fn push_plain(&mut self, bytes: &[u8]) -> bool
        requires { length bytes.now ≤ self.old.left }
        ensures units { IsTrue result → (len : ℕ) (before units : List ℕ) → HasAccepted len before units self.old
            → HasAccepted len (before ++ bytes.now) (units ++ bytes.now) self.new }
        ensures left { IsTrue result → self.new.left + length bytes.now ≡ self.old.left }
        ensures nothing { result ≡ false → self.new ≡ self.old }
    {
        let Place::First = self.place else {
            return false;
        };
        if ascii_len(bytes) < bytes.len() {
            return false;
        }
        self.left -= bytes.len() as u64;
        true
    }

    /// Pushes some of the bytes, at least one where there are any, and returns how many.
    fn push_some(&mut self, bytes: &[u8]) -> Result<usize, TextFaultAfter>
        requires { length bytes.now ≤ self.old.left }
        ensures some { IfOk result (λ accepted. 0 < length bytes.now → 0 < accepted) }
        ensures pushes { IfOk result (λ accepted. PushesFront self.old bytes.now accepted self.new) }
        ensures fault { IfErr result (λ fault. PushesTo self.old bytes.now fault.accepted self.new) }
    {
        let whole = self.skip_units(bytes);
        let (_, tail) = bytes.split_at(whole);
        match tail {
            [] => Ok(whole),
            [byte, ..] => match self.push(*byte) {
                Ok(_) => Ok(whole + 1),
                Err(_) => Err(TextFaultAfter { accepted: whole }),
            },
        }
    }

    /// Accepts whole units from the front of `bytes`, where no unit is cut, and returns how many bytes.
    fn skip_units(&mut self, bytes: &[u8]) -> usize
        requires { length bytes.now ≤ self.old.left }
        ensures { PushesFront self.old bytes.now result self.new }
    {
        let Place::First = self.place else {
            return 0;
        };
        let len = spelled_len(bytes);
        self.left -= len as u64;
        len
    }
}
