//! Texts, by their numbers.
ghost use Rattle.std.specs.Prelude.{◌≡◌, [], ◌∷◌, ◌++◌, length, slice_get, OnOk, OnErr};
ghost use Rattle.jser_index.specs.Listed.{IsList};

use crate::lists::Lists;
use std::alloc::{AllocError, Global};
use std::marker::Model;

/// Texts of UTF-16 units, numbered from 0.
#[derive(Drop)]
pub(crate) struct Texts {
    lists: Lists<u16>,
}

impl Model for Texts {
    ghost use Rattle.std.specs.Prelude.{List, ℕ, ◌≡◌, []};

    ghost Value = { List (List ℕ) };

    ghost view = { λ a. a.lists.ended };

    ghost invariant = { λ a. a.lists.last ≡ [] };
}

impl Texts {
    /// No texts. Takes no memory.
    pub(crate) fn new(alloc: Global) -> Texts
        ensures { result ≡ [] }
    {
        Texts {
            lists: Lists::new(alloc),
        }
    }

    /// Adds a text.
    #[inline(always)]
    pub(crate) fn add(&mut self, units: &[u16]) -> Result<(), AllocError>
        ensures added { OnOk result (self.new ≡ self.old ++ units.now ∷ []) }
        ensures unchanged { OnErr result (self.new ≡ self.old) }
    {
        self.lists.add(units)
    }

    /// How many there are.
    #[inline(always)]
    pub(crate) fn count(&self) -> usize
        ensures { result ≡ length self.now }
    {
        self.lists.count()
    }

    /// The text with this number, if there is one.
    pub(crate) fn get(&self, number: usize) -> Option<&[u16]>
        ensures { IsList (slice_get self.now number) result }
    {
        self.lists.get(number)
    }
}
