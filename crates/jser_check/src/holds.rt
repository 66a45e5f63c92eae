//! What holds a filter: the filter itself, or a loan of it. A gate is made of either, and of a share of a filter.
ghost use Rattle.std.specs.Prelude.{◌≡◌};
ghost use Rattle.jser_filter.specs.Filters.{FilterView};

use jser_filter::Filter;

/// What holds one filter, and always answers with that.
pub trait Holds {
    /// The filter, as contracts see it.
    ghost held: { Self → FilterView };

    /// The filter.
    fn filter(&self) -> &Filter
        ensures { result.now ≡ held self.now };
}

impl Holds for Filter {
    ghost held = { λ filter. filter };

    fn filter(&self) -> &Filter {
        self
    }
}

impl<'f> Holds for &'f Filter {
    ghost held = { λ filter. filter.now };

    fn filter(&self) -> &Filter {
        self
    }
}
