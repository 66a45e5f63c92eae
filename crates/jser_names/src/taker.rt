//! What takes a stream in pieces: the reads of a source are one loop over any.
ghost use Rattle.std.specs.Prelude.{◌≡◌, ◌≤◌, ℕ, List, length};
ghost use Rattle.jser_grammar.specs.Caps.{most_bytes};
ghost use Rattle.jser_names.specs.Takers.{EndCases, TookCases};

use jser_reader::Stop;

/// What takes a stream in pieces, and has something at its end.
pub(crate) trait Taker {
    /// What it has at the end.
    type Found;

    /// It took these bytes, and they decide nothing.
    ghost took: { List ℕ → Self → Type 0 };

    /// What it has at the end of these bytes.
    ghost finds: { List ℕ → Self.Found → Type 0 };

    /// Takes the whole piece.
    ///
    /// # Errors
    ///
    /// `Refused` where the bytes up to one of the piece are refused; `OutOfMemory`.
    fn take(&mut self, piece: &[u8]) -> Result<(), Stop>
        ensures { (taken : List ℕ) → took taken self.old → TookCases (λ bytes. took bytes self.new) taken piece.now result };

    /// The end of the bytes.
    ///
    /// # Errors
    ///
    /// `Refused` as `Truncated` where they end too early; `OutOfMemory`.
    fn end(self) -> Result<Self::Found, Stop>
        ensures { (taken : List ℕ) → took taken self → EndCases finds taken result };

    /// No more bytes are taken than a stream may have.
    ghost within: { (bytes : List ℕ) (taker : Self) → took bytes taker → length bytes ≤ most_bytes };
}
