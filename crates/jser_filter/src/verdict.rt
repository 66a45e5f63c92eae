//! What a filter says of a name.

/// What a filter says of a name, with the index of the piece that decides.
#[derive(Clone, Copy, PartialEq, Eq, Hash, Debug)]
pub enum Verdict {
    /// The first pattern that matches allows the name.
    Allowed(usize),
    /// The first pattern that matches rejects the name.
    Rejected(usize),
    /// No pattern matches.
    Undecided,
    /// The name is a primitive type or an array of primitives, and names no class.
    NoClass,
}
