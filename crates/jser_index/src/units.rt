//! Units that lie one after another, with room behind them into which the next ones are put.
ghost use Rattle.std.specs.Prelude.{ℕ, ◌≡◌, ◌+◌, ◌≤◌, [], ◌++◌, take, length, vec_len, OnOk, OnErr, MatchResult};
ghost use Rattle.jser_index.specs.Decoding.{AreNarrow, PutsNarrow};
ghost use Rattle.jser_index.specs.Keeping.{AddsNarrow, KeepsFronts, PutsUnits};

use crate::decode::widen_all;
use std::alloc::{AllocError, Global};
use std::marker::Model;

/// The most units for which room is made before they come.
const MOST_SPARE: usize = 32_768;

/// Units that lie one after another.
#[derive(Drop)]
pub(crate) struct Units {
    /// They, and then room for more.
    room: Vec<u16>,
    /// How many there are.
    used: usize,
}

impl Model for Units {
    ghost use Rattle.std.specs.Prelude.{List, ℕ, ◌≤◌, take, vec_len};

    ghost Value = { List ℕ };

    ghost view = { λ a. take a.used a.room.items };

    ghost invariant = { λ a. a.used ≤ vec_len a.room };
}

impl Units {
    /// No units. Takes no memory.
    pub(crate) fn new(alloc: Global) -> Units
        ensures { result ≡ [] }
    {
        Units {
            room: Vec::new(alloc),
            used: 0,
        }
    }

    /// How many there are.
    #[inline(always)]
    pub(crate) fn count(&self) -> usize
        ensures { result ≡ length self.now }
    {
        self.used
    }

    /// All of them.
    pub(crate) fn all(&self) -> &[u16]
        ensures { result.now ≡ self.now }
    {
        let (all, _) = self.room.split_at(self.used);
        all
    }

    /// Adds the bytes of a text as units, where each of them is below 0x80; else does nothing and returns false.
    #[inline(always)]
    pub(crate) fn add_narrow(&mut self, bytes: &[u8]) -> Result<bool, AllocError>
        ensures adds { MatchResult result (λ narrow. AddsNarrow bytes.now narrow self.old self.new) (λ _. self.new ≡ self.old) }
    {
        let used = self.used;
        make_room(&mut self.room, used, bytes.len())?;
        if !widen_behind(bytes, &mut self.room, used) {
            return Ok(false);
        }
        self.used = used + bytes.len();
        Ok(true)
    }

    /// Adds these units.
    pub(crate) fn add(&mut self, units: &[u16]) -> Result<(), AllocError>
        ensures adds { OnOk result (self.new ≡ self.old ++ units.now) }
        ensures unchanged { OnErr result (self.new ≡ self.old) }
    {
        let used = self.used;
        make_room(&mut self.room, used, units.len())?;
        put_behind(units, &mut self.room, used);
        self.used = used + units.len();
        Ok(())
    }
}

/// Makes room for so many units behind those that are used, where there is not enough.
#[inline(always)]
fn make_room(room: &mut Vec<u16>, used: usize, count: usize) -> Result<(), AllocError>
    requires { used ≤ vec_len room.old }
    ensures same { KeepsFronts room.old.items room.new.items }
    ensures room { OnOk result (used + count ≤ vec_len room.new) }
{
    if room.len() - used >= count {
        return Ok(());
    }
    make_longer(room, count)
}

/// Makes the room longer by so many units, and some more.
#[cold]
#[inline(never)]
fn make_longer(room: &mut Vec<u16>, count: usize) -> Result<(), AllocError>
    ensures same { KeepsFronts room.old.items room.new.items }
    ensures room { OnOk result (vec_len room.old + count ≤ vec_len room.new) }
{
    let spare = (room.len() / 4).min(MOST_SPARE);
    let len = room.len().saturating_add(count).saturating_add(spare);
    if len - room.len() < count {
        return Err(AllocError);
    }
    room.resize(len, 0)
}

/// Puts the bytes as units into the room behind those that are used. False where the units of a text may be others,
/// since not each of them is one byte.
#[inline(always)]
fn widen_behind(bytes: &[u8], room: &mut Vec<u16>, used: usize) -> bool
    requires { used + length bytes.now ≤ vec_len room.old }
    ensures { PutsNarrow bytes.now used result room.old.items room.new.items }
{
    let (_, back) = room.as_mut_slice().split_at_mut(used);
    widen_all(bytes, back)
}

/// Puts the units into the room behind those that are used.
fn put_behind(units: &[u16], room: &mut Vec<u16>, used: usize)
    requires { used + length units.now ≤ vec_len room.old }
    ensures { PutsUnits units.now used room.old.items room.new.items }
{
    let (_, back) = room.as_mut_slice().split_at_mut(used);
    let (place, _) = back.split_at_mut(units.len());
    place.copy_from_slice(units);
}
