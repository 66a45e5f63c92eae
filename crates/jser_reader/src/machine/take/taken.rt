//! What came of the bytes of a piece.
ghost use Rattle.std.specs.Prelude.{◌≡◌};
ghost use Rattle.jser_reader.specs.Passes.{passed_of};
ghost use Rattle.jser_reader.specs.Takes.{taken_by};

use crate::machine::flow::Flow;
use crate::machine::passed::Passed;

/// What came of the bytes of a piece that a token was handed.
#[derive(Clone, Copy)]
pub(crate) enum Taken {
    /// So many bytes ended the token, and another comes next.
    Ended(usize),
    /// The machine stopped at the last of so many bytes.
    Stopped(usize),
    /// So many bytes are of the token, which stays open, and can be lent: the length of a text, or some of its bytes, or
    /// some of raw values.
    Part(usize),
    /// All bytes are of the token, which stays open, and were kept.
    Open,
}

impl Taken {
    /// A handler judged a token after so many bytes, and this is its answer.
    #[inline(always)]
    pub(crate) fn after(count: usize, flow: Flow) -> Taken
        ensures { result ≡ taken_by count flow }
    {
        match flow {
            Flow::On => Taken::Ended(count),
            Flow::Stopped => Taken::Stopped(count),
        }
    }

    /// How much was taken of a piece of this length.
    #[inline(always)]
    pub(crate) fn passed(self, len: usize) -> Passed
        ensures { result ≡ passed_of self len }
    {
        match self {
            Taken::Ended(count) | Taken::Part(count) => Passed::Took(count),
            Taken::Open => Passed::Took(len),
            Taken::Stopped(_) => Passed::Stopped,
        }
    }
}
