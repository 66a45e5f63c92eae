//! Lists one after another, laid flat: their items in one vector, and where each of them ends in another.
ghost use Rattle.std.specs.Prelude.{◌≡◌, ◌≤◌, ◌-◌, take, drop, [], ◌∷◌, ◌++◌, length, slice_get, OnOk, OnErr};
ghost use Rattle.jser_index.specs.Listed.{IsList, start_of};

use std::alloc::{AllocError, Global};
use std::marker::Model;

/// Lists that have ended, and one that is open.
#[derive(Drop)]
pub(crate) struct Lists<T> {
    items: Vec<T>,
    /// The number of items before the end of each list.
    ends: Vec<usize>,
}

impl<T> Model for Lists<T> {
    ghost use Rattle.std.specs.Prelude.{length};
    ghost use Rattle.jser_index.specs.Listed.{Listed, ended_of, open_of, AreEnds};

    ghost Value = { Listed T };

    ghost view = { λ a. record { ended = ended_of 0 a.ends.items a.items.items; last = open_of 0 a.ends.items a.items.items } };

    ghost invariant = { λ a. AreEnds 0 a.ends.items (length a.items.items) };
}

impl<T: Drop> Lists<T> {
    /// No list has ended, and the open one is empty. Takes no memory.
    pub(crate) fn new(alloc: Global) -> Lists<T>
        ensures ended { result.ended ≡ [] }
        ensures last { result.last ≡ [] }
    {
        Lists {
            items: Vec::new(alloc),
            ends: Vec::new(alloc),
        }
    }

    /// Adds an item to the open list.
    #[tactic(auto, using(crate::proofs::ListedLemmas::ended_push, crate::proofs::ListedLemmas::open_push, crate::proofs::ListedLemmas::ends_push))]
    #[inline(always)]
    pub(crate) fn push(&mut self, item: T) -> Result<(), AllocError>
        ensures last { OnOk result (self.new.last ≡ self.old.last ++ item ∷ []) }
        ensures ended { OnOk result (self.new.ended ≡ self.old.ended) }
        ensures unchanged { OnErr result (self.new ≡ self.old) }
    {
        self.items.reserve(1)?;
        self.items.push_reserved(item);
        Ok(())
    }

    /// Ends the open list: the next one is open, and empty.
    #[tactic(auto, using(crate::proofs::ListedLemmas::ended_end, crate::proofs::ListedLemmas::open_end, crate::proofs::ListedLemmas::ends_end))]
    pub(crate) fn end(&mut self) -> Result<(), AllocError>
        ensures last { OnOk result (self.new.last ≡ []) }
        ensures ended { OnOk result (self.new.ended ≡ self.old.ended ++ self.old.last ∷ []) }
        ensures unchanged { OnErr result (self.new ≡ self.old) }
    {
        self.ends.reserve(1)?;
        self.ends.push_reserved(self.items.len());
        Ok(())
    }

    /// How many lists have ended.
    #[tactic(auto, using(crate::proofs::ListedLemmas::length_ended))]
    pub(crate) fn count(&self) -> usize
        ensures { result ≡ length self.now.ended }
    {
        self.ends.len()
    }

    /// How many items the open list has.
    #[tactic(auto, using(crate::proofs::ListedLemmas::last_within, crate::proofs::ListedLemmas::length_open))]
    #[inline(always)]
    pub(crate) fn last_count(&self) -> usize
        ensures { result ≡ length self.now.last }
    {
        self.items.len() - start_at(&self.ends, self.ends.len())
    }

    /// The list with this number, counted from 0, if it has ended.
    #[tactic(auto, using(crate::proofs::ListedLemmas::list_begins, crate::proofs::ListedLemmas::list_ends, crate::proofs::ListedLemmas::is_list, crate::proofs::ListedLemmas::is_none))]
    pub(crate) fn get(&self, number: usize) -> Option<&[T]>
        ensures { IsList (slice_get self.now.ended number) result }
    {
        if number >= self.ends.len() {
            return None;
        }
        let start = start_at(&self.ends, number);
        let end = self.ends[number];
        Some(between(&self.items, start, end))
    }

    /// The list that is open.
    #[tactic(auto, using(crate::proofs::ListedLemmas::last_within, crate::proofs::ListedLemmas::open_is))]
    pub(crate) fn last(&self) -> &[T]
        ensures { result.now ≡ self.now.last }
    {
        let start = start_at(&self.ends, self.ends.len());
        let (_, last) = self.items.split_at(start);
        last
    }
}

impl Lists<u16> {
    /// Adds these items to the list that is open, and ends it: all of this, or nothing.
    #[tactic(auto, using(crate::proofs::ListedLemmas::ended_add, crate::proofs::ListedLemmas::open_add, crate::proofs::ListedLemmas::ends_add))]
    #[inline(always)]
    pub(crate) fn add(&mut self, list: &[u16]) -> Result<(), AllocError>
        ensures ended { OnOk result (self.new.ended ≡ self.old.ended ++ (self.old.last ++ list.now) ∷ []) }
        ensures last { OnOk result (self.new.last ≡ []) }
        ensures unchanged { OnErr result (self.new ≡ self.old) }
    {
        self.ends.reserve(1)?;
        self.items.extend_from_slice(list)?;
        self.ends.push_reserved(self.items.len());
        Ok(())
    }
}

/// The number of items before the list with this number.
#[tactic(auto, using(crate::proofs::ListedLemmas::start_is))]
fn start_at(ends: &[usize], number: usize) -> usize
    requires { number ≤ length ends.now }
    ensures { result ≡ start_of 0 ends.now number }
{
    if number == 0 {
        return 0;
    }
    ends[number - 1]
}

/// The items from one place to another.
fn between<T>(items: &[T], start: usize, end: usize) -> &[T]
    requires order { start ≤ end }
    requires within { end ≤ length items.now }
    ensures { result.now ≡ take (end - start) (drop start items.now) }
{
    &items[start..end]
}
