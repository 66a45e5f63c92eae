//! Where the units of a string are kept.

/// Where the units of a string are kept.
#[derive(Clone, Copy)]
pub(crate) enum Spot {
    /// Among those that lie one after another: from this place on, so many.
    Near { start: u32, len: u16 },
    /// In a list of their own, with this number.
    Far(u32),
}
