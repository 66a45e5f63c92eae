//! Texts as lists of 16-bit units.
ghost use Rattle.std.specs.Prelude.{◌≡◌, IfOk};

use std::alloc::{AllocError, Global};
use std::marker::Model;

/// A list of units that is kept.
#[derive(Drop)]
pub(crate) struct Units {
    units: Vec<u16>,
}

impl Model for Units {
    ghost use Rattle.std.specs.Prelude.{List, ℕ};

    ghost Value = { List ℕ };

    ghost view = { λ a. a.units.items };
}

impl Units {
    /// A copy of these units.
    pub(crate) fn copy_of(alloc: Global, units: &[u16]) -> Result<Units, AllocError>
        ensures { IfOk result (λ kept. kept ≡ units.now) }
    {
        let units = units.to_vec(alloc)?;
        Ok(Units { units })
    }

    pub(crate) fn as_slice(&self) -> &[u16]
        ensures { result.now ≡ self.now }
    {
        self.units.as_slice()
    }
}
