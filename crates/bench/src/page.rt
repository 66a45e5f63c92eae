//! Where a text goes that is only measured.
ghost use Rattle.std.specs.Prelude.{false};

use jser_prim::{Failed, Sink};
use std::alloc::{AllocError, Global};

/// How many bytes of a text are taken at once.
const SIZE: usize = 65_536;

/// A sink that copies what it is given over one page.
#[derive(Drop)]
pub struct Page {
    bytes: Vec<u8>,
}

impl Page {
    /// A page of zeros.
    pub fn new(alloc: Global) -> Result<Page, AllocError> {
        let mut bytes = Vec::new(alloc);
        bytes.extend_from_slice(&[0; SIZE])?;
        Ok(Page { bytes })
    }
}

impl Sink for Page {
    ghost has_failed = { λ _. false };

    fn give(&mut self, bytes: &[u8]) -> Result<usize, Failed> {
        let count = bytes.len().min(self.bytes.len());
        if count == 0 {
            return Ok(bytes.len());
        }
        let (front, _) = bytes.split_at(count);
        let (room, _) = self.bytes.split_at_mut(count);
        room.copy_from_slice(front);
        Ok(count)
    }

    fn failed(&self) -> bool {
        false
    }
}
