//! A sink that compares what it is given.
ghost use Rattle.std.specs.Prelude.{false};

use jser_prim::{Failed, Sink};

/// Compares what it is given with the bytes that it wants, and takes no memory. It never fails.
#[derive(Drop)]
pub struct Compared<'p> {
    rest: &'p [u8],
    same: bool,
}

impl<'p> Compared<'p> {
    /// A sink that wants these bytes.
    pub fn new(bytes: &'p [u8]) -> Compared<'p> {
        Compared {
            rest: bytes,
            same: true,
        }
    }

    /// Whether what it was given is a beginning of the bytes that it wants.
    pub fn is_front(&self) -> bool {
        self.same
    }

    /// Whether it was given all the bytes, and no others.
    pub fn is_whole(&self) -> bool {
        self.same && self.rest.is_empty()
    }

    /// How many of the bytes it was not given yet.
    pub fn left(&self) -> usize {
        self.rest.len()
    }
}

impl Sink for Compared<'_> {
    ghost has_failed = { λ s. false };

    fn give(&mut self, bytes: &[u8]) -> Result<usize, Failed> {
        match self.rest.split_at_checked(bytes.len()) {
            Some((front, rest)) => {
                self.same = self.same && front == bytes;
                self.rest = rest;
            }
            None => self.same = false,
        }
        Ok(bytes.len())
    }

    fn failed(&self) -> bool {
        false
    }
}
