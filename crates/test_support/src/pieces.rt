//! A source that returns few bytes a call.

use jser_prim::{Failed, Source};

/// Returns its bytes, at most so many a call, and then ends or fails.
#[derive(Drop)]
pub struct Pieces<'a> {
    rest: &'a [u8],
    most: usize,
    fails: bool,
    failed: bool,
}

impl<'a> Pieces<'a> {
    /// A source of these bytes that ends after them.
    pub fn new(bytes: &'a [u8], most: usize) -> Pieces<'a> {
        Pieces {
            rest: bytes,
            most,
            fails: false,
            failed: false,
        }
    }

    /// A source of these bytes that fails after them.
    pub fn failing(bytes: &'a [u8], most: usize) -> Pieces<'a> {
        Pieces {
            rest: bytes,
            most,
            fails: true,
            failed: false,
        }
    }

    /// How many of its bytes were not taken.
    pub fn left(&self) -> usize {
        self.rest.len()
    }
}

impl Source for Pieces<'_> {
    ghost has_failed = { λ s. s.failed };

    fn take(&mut self, buf: &mut [u8]) -> Result<usize, Failed> {
        let count = self.most.min(self.rest.len()).min(buf.len());
        if count == 0 && self.fails {
            self.failed = true;
            return Err(Failed);
        }
        let (front, rest) = self.rest.split_at(count);
        let (room, _) = buf.split_at_mut(count);
        room.copy_from_slice(front);
        self.rest = rest;
        Ok(count)
    }

    fn failed(&self) -> bool {
        self.failed
    }
}
