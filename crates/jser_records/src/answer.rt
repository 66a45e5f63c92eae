//! What is answered of a record.

use jser_scan::Found;

/// What is answered of a record.
#[derive(Debug, Drop)]
pub enum Answer {
    /// What the check of its bytes found, or why its text spells none.
    Checked(Found),
    /// It has no value.
    Null,
    /// It has more bytes than are read.
    Longer {
        /// How many are read at most.
        most: u64,
    },
    /// Its KEY has more than 65,535 bytes.
    LongKey,
    /// A reader of lines may end one in its KEY.
    LineEndInKey,
    /// The input ends in it.
    Cut {
        /// How many bytes of it came.
        at: u64,
        /// How many it has.
        of: u64,
    },
    /// A server's error stands in its place.
    ErrorReply,
    /// Where its length should be there is none, so that nobody knows where the next one begins.
    NoLength,
}

impl Answer {
    ghost use Rattle.std.specs.Prelude.{◌≡◌};
    ghost use Rattle.jser_records.specs.Held.{passes};

    /// Whether it lets the record pass: it is accepted, or has no value.
    pub(crate) fn passes(&self) -> bool
        ensures { result ≡ passes self.now }
    {
        match self {
            Answer::Checked(Found::Accepted(_)) | Answer::Null => true,
            _ => false,
        }
    }
}
