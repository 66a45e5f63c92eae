//! What is asked about each name, and what is answered.
ghost use Rattle.std.specs.Prelude.{◌≡◌, ℕ, Bool, List};

/// What says of each class name whether it passes.
pub trait Judge {
    /// Its answer to each name, by its units.
    ghost passes: { Self → List ℕ → Bool };

    /// Whether this name passes.
    fn passes(&self, name: &[u16]) -> bool
        ensures { result ≡ passes self.now name.now };
}

/// A name that does not pass: the place where it stands, and its end.
#[derive(Clone, Copy, PartialEq, Eq, Debug)]
pub struct Hidden {
    /// The place of its 72 or 7D.
    pub from: u64,
    /// The end of its text.
    pub to: u64,
}
