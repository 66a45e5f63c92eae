//! What came of a step of a call that takes a whole piece.

/// What came of the bytes of a piece.
#[derive(Clone, Copy)]
pub(crate) enum Passed {
    /// So many bytes were taken, and the machine goes on.
    Took(usize),
    /// The machine has stopped within the piece.
    Stopped,
}
