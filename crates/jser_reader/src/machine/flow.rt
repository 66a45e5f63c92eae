//! Whether the machine goes on.

/// What a handler of a token answers.
#[derive(Clone, Copy, PartialEq, Eq)]
pub(crate) enum Flow {
    /// The machine goes on: it is known which token comes next.
    On,
    /// The machine has stopped; it keeps why.
    Stopped,
}
