//! Letters of names, kept as units: those of many bytes together.
ghost use Rattle.std.specs.Prelude.{◌≡◌, ◌+◌, ◌≤◌, ◌++◌, ◌∷◌, [], length, IfOk};

use std::alloc::{AllocError, Global};
use std::marker::Model;
use std::simd::prelude::*;

/// Room for the units of the texts that may be names: of two that overlap, one begins a byte later.
const ROOM: usize = 9217;

/// How many bytes are taken together.
const LANES: usize = 16;

/// How many are, where fewer are left.
const HALF: usize = 8;

/// The units of texts that may be names, with room for all that may be kept at once.
#[derive(Drop)]
pub(crate) struct Letters {
    units: Vec<u16>,
}

impl Model for Letters {
    ghost use Rattle.std.specs.Prelude.{◌≤◌, List, ℕ, vec_capacity};

    ghost Value = { List ℕ };

    ghost view = { λ a. a.units.items };

    ghost invariant = { λ a. 9217 ≤ vec_capacity a.units };
}

impl Letters {
    /// None. Takes the memory for all that may come.
    pub(crate) fn new(alloc: Global) -> Result<Letters, AllocError>
        ensures { IfOk result (λ kept. kept ≡ []) }
    {
        match Vec::with_capacity(alloc, ROOM) {
            Ok(units) => Ok(Letters { units }),
            Err(error) => Err(error),
        }
    }

    /// How many there are.
    #[inline(always)]
    pub(crate) fn len(&self) -> usize
        ensures { result ≡ length self.now }
    {
        self.units.len()
    }

    /// All of them.
    #[inline(always)]
    pub(crate) fn as_slice(&self) -> &[u16]
        ensures { result.now ≡ self.now }
    {
        self.units.as_slice()
    }

    /// None again.
    #[inline(always)]
    pub(crate) fn clear(&mut self)
        ensures { self.new ≡ [] }
    {
        self.units.clear();
    }

    /// One more, where there is room for it.
    #[inline(always)]
    pub(crate) fn push(&mut self, unit: u16)
        ensures { length self.old + 1 ≤ 9217 → self.new ≡ self.old ++ (unit ∷ []) }
    {
        if self.units.len() < ROOM {
            let _ = self.units.push(unit);
        }
    }

    /// More, where there is room for them.
    #[inline(always)]
    pub(crate) fn extend(&mut self, units: &[u16])
        ensures { length self.old + length units.now ≤ 9217 → self.new ≡ self.old ++ units.now }
    {
        if self.units.len() <= ROOM && units.len() <= ROOM - self.units.len() {
            let _ = self.units.extend_from_slice(units);
        }
    }
}

/// Adds units of one byte each, where there is room for them.
#[tactic(auto, using(crate::proofs::LetterLemmas::joined_on))]
pub(crate) fn push_letters(kept: &mut Letters, bytes: &[u8])
    ensures { length kept.old + length bytes.now ≤ 9217 → kept.new ≡ kept.old ++ bytes.now }
{
    let mut rest = bytes;
    'loads: while rest.len() >= LANES {
        let (front, others) = rest.split_at(LANES);
        push_lanes::<LANES>(kept, front);
        rest = others;
    }
    push_half(kept, rest);
}

/// Adds fewer than twice `HALF` units of one byte each, where there is room for them.
#[tactic(auto, using(crate::proofs::LetterLemmas::joined_on))]
#[inline(always)]
fn push_half(kept: &mut Letters, bytes: &[u8])
    ensures { length kept.old + length bytes.now ≤ 9217 → kept.new ≡ kept.old ++ bytes.now }
{
    if bytes.len() < HALF {
        push_few(kept, bytes);
        return;
    }
    let (front, rest) = bytes.split_at(HALF);
    push_lanes::<HALF>(kept, front);
    push_few(kept, rest);
}

/// Adds as many units of one byte each as there are lanes, where there is room for them.
#[inline(always)]
fn push_lanes<const N: usize>(kept: &mut Letters, bytes: &[u8])
    requires few { N ≤ 64 }
    requires all { length bytes.now ≡ N }
    ensures { length kept.old + length bytes.now ≤ 9217 → kept.new ≡ kept.old ++ bytes.now }
{
    let units = Simd::<u8, N>::from_slice(bytes).cast::<u16>();
    kept.extend(&units.to_array());
}

/// Adds units of one byte each, one by one, where there is room for them.
#[tactic(auto, using(crate::proofs::ReadLemmas::pushed_none, crate::proofs::ReadLemmas::pushed_more, crate::proofs::ReadLemmas::pushed_all))]
#[inline(always)]
fn push_few(kept: &mut Letters, bytes: &[u8])
    ensures { length kept.old + length bytes.now ≤ 9217 → kept.new ≡ kept.old ++ bytes.now }
{
    'bytes: for byte in bytes {
        kept.push(u16::from(*byte));
    }
}
