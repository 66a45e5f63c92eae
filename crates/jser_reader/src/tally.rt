//! The counts of a stream that its tokens tell, kept while it is read.
ghost use Rattle.std.specs.Prelude.{◌≡◌};
ghost use Rattle.jser_reader.specs.Tallies.{no_tally};

/// The contents that have begun, the handles of the epochs that have ended, the greatest depth of a place, and where the
/// last content begins.
#[derive(Clone, Copy)]
pub(crate) struct Tally {
    pub(crate) contents: u64,
    pub(crate) earlier: u64,
    pub(crate) depth: u64,
    /// Where the last content begins that has begun, or was refused at its tag; 0 where none has.
    pub(crate) begun: u64,
}

impl Tally {
    /// Nothing has been read.
    pub(crate) fn new() -> Tally
        ensures { result ≡ no_tally }
    {
        Tally {
            contents: 0,
            earlier: 0,
            depth: 0,
            begun: 0,
        }
    }
}
