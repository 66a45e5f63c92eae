//! How records lie in an input.

use jser_inputs::Form;

/// How records lie in an input.
#[derive(Clone, Copy, PartialEq, Eq, Debug)]
pub struct Layout {
    /// Where each begins and ends.
    pub shape: Shape,
    /// How many bytes of a record are read at most.
    pub most: u64,
}

/// Where each record begins and ends.
#[derive(Clone, Copy, PartialEq, Eq, Debug)]
pub enum Shape {
    /// A record is a line of text.
    Lines(Lines),
    /// A record is its length in 4 bytes, highest first, and so many bytes. -1 is a null.
    Frames,
    /// A record is a line that ends in its length in decimal, behind a space, a TAB, a `$` or nothing; so many bytes; and a line
    /// end. -1 is a null, without bytes and line end. What is before the length is the KEY.
    Sized,
}

/// What the lines are.
#[derive(Clone, Copy, PartialEq, Eq, Debug)]
pub struct Lines {
    /// How the value is written.
    pub spelling: Spelling,
    /// Whether a NUL ends a line, in place of a line feed.
    pub zero: bool,
    /// Which field is the value, from 1; the last where that is not said. TAB is between fields; the others are the KEY.
    pub field: Option<u64>,
}

/// How the value of a line is written.
#[derive(Clone, Copy, PartialEq, Eq, Debug)]
pub struct Spelling {
    /// The form of its digits.
    pub form: Form,
    /// Whether the two characters `\n` are passed over: PostgreSQL's `\copy` writes a line feed so.
    pub copy: bool,
}

impl Lines {
    ghost use Rattle.std.specs.Prelude.{◌≡◌};
    ghost use Rattle.jser_records.specs.Lines.{end_of};

    /// The byte that ends a line.
    pub(crate) fn end(self) -> u8
        ensures { result ≡ end_of self }
    {
        if self.zero { 0 } else { b'\n' }
    }
}
