//! Where names stand in a list: the first place of each.
ghost use Rattle.std.specs.Prelude.{◌≡◌, List, ℕ, None, OnOk, OnErr};
ghost use Rattle.jser_filter.specs.Places.{place_of, PutsFirst, KeepsPlaces};

use std::alloc::{AllocError, Global};
use std::collections::HashMap;

/// The first place of each name.
#[derive(Drop)]
pub(crate) struct Places {
    map: HashMap<Vec<u16>, usize>,
}

impl Places {
    /// No names.
    pub(crate) fn new(alloc: Global) -> Places
        ensures { (name : List ℕ) → place_of result name ≡ None }
    {
        Places {
            map: HashMap::new(alloc),
        }
    }

    /// The first place of the name. Where there are no names, none is hashed.
    #[tactic(auto, using(crate::proofs::PlaceLemmas::no_place))]
    pub(crate) fn get(&self, name: &[u16]) -> Option<usize>
        ensures { result ≡ place_of self.now name.now }
    {
        if self.map.is_empty() {
            return None;
        }
        self.map.get(name).copied()
    }

    /// Keeps this place for the name, unless an earlier one is kept.
    pub(crate) fn add(
        &mut self,
        alloc: Global,
        name: &[u16],
        place: usize,
    ) -> Result<(), AllocError>
        ensures ok { OnOk result (PutsFirst self.old self.new name.now place) }
        ensures err { OnErr result (KeepsPlaces self.old self.new) }
    {
        match self.get(name) {
            Some(_) => Ok(()),
            None => {
                let key = name.to_vec(alloc)?;
                self.map.insert(key, place)?;
                Ok(())
            }
        }
    }
}
