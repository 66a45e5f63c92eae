//! A filter that is owned together with others.

use jser_check::Holds;
use jser_filter::Filter;
use std::alloc::{AllocError, Global};
use std::marker::Model;
use std::sync::Arc;

/// A filter that is owned together with others. The last owner lets it go.
#[derive(Drop)]
pub struct SharedFilter {
    held: Arc<Filter>,
}

impl Model for SharedFilter {
    ghost use Rattle.std_alloc.specs.Arc.{arc_value};
    ghost use Rattle.jser_filter.specs.Filters.{FilterView};

    ghost Value = { FilterView };

    ghost view = { λ a. arc_value a.held };
}

impl SharedFilter {
    ghost use Rattle.std.specs.Prelude.{◌≡◌, IfOk};

    /// The first owner of a filter.
    ///
    /// # Errors
    ///
    /// Where there is no memory for it.
    pub fn new(alloc: Global, filter: Filter) -> Result<SharedFilter, AllocError>
        ensures { IfOk result (λ shared. shared ≡ filter) }
    {
        match Arc::new(alloc, filter) {
            Ok(held) => Ok(SharedFilter { held }),
            Err(_) => Err(AllocError),
        }
    }

    /// One owner more, of the same filter. It takes no memory.
    ///
    /// # Errors
    ///
    /// Where there are 2^63 - 1 owners.
    pub fn share(&self) -> Result<SharedFilter, AllocError>
        ensures { IfOk result (λ other. other ≡ self.now) }
    {
        match Arc::try_clone(&self.held) {
            Ok(held) => Ok(SharedFilter { held }),
            Err(_) => Err(AllocError),
        }
    }
}

impl Holds for SharedFilter {
    ghost held = { λ shared. shared };

    fn filter(&self) -> &Filter {
        &self.held
    }
}
