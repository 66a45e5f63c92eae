//! What a search comes to.

/// What a search comes to.
#[derive(Debug, Drop)]
pub enum Next<F> {
    /// One more.
    Found(F),
    /// The header at this place, where more bytes decide than the budget has left. Nothing is claimed of what is there or behind.
    Spent(usize),
    /// No header is left.
    End,
}
