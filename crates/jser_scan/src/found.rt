//! What the check of a file found.

use jser_inputs::InputFault;
use jser_reader::{Refusal, Totals};

/// What the check of a file found.
#[derive(Debug, Drop)]
pub enum Found {
    /// One stream that passes, with these counts.
    Accepted(Totals),
    /// A refusal, and the class name that the filter refused, if that is why.
    Refused {
        /// The refusal.
        refusal: Refusal,
        /// The name.
        class: Option<Vec<u16>>,
    },
    /// A name that can be read at some place and does not pass.
    Hidden {
        /// The place of the `72` or `7D` before it.
        from_byte: u64,
        /// The end of its text.
        to_byte: u64,
        /// The name.
        class: Option<Vec<u16>>,
    },
    /// The file could not be opened.
    NotOpened,
    /// It could not be read to its end.
    NotRead(InputFault),
    /// Memory ran out.
    OutOfMemory,
}
