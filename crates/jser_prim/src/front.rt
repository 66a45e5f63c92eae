//! A sink that keeps the first bytes, as many as fit.
ghost use Rattle.std.specs.Prelude.{◌≡◌, Some, [], false};

use crate::device::Failed;
use crate::sink::Sink;
use std::alloc::Global;
use std::marker::Model;

/// The first bytes that went out. It fails where more come than it may keep, and where memory runs out.
#[derive(Drop)]
pub struct Front {
    bytes: Vec<u8>,
    most: usize,
    failed: bool,
}

impl Model for Front {
    ghost use Rattle.jser_prim.specs.Fronts.{Kept};

    ghost Value = { Kept };

    ghost view = { λ a. record { bytes = a.bytes.items; has_failed = a.failed } };
}

impl Front {
    /// Keeps at most so many bytes, and has none. Takes no memory.
    pub fn new(alloc: Global, most: usize) -> Front
        ensures bytes { result.bytes ≡ [] }
        ensures failed { result.has_failed ≡ false }
    {
        Front {
            bytes: Vec::new(alloc),
            most,
            failed: false,
        }
    }

    /// What it has.
    pub fn bytes(&self) -> &[u8]
        ensures { result.now ≡ self.now.bytes }
    {
        &self.bytes
    }

    /// What it had.
    pub fn into_bytes(self) -> Vec<u8>
        ensures { result.items ≡ self.bytes }
    {
        self.bytes
    }
}

impl Sink for Front {
    ghost gone_out = { λ s. Some s.bytes };

    ghost has_failed = { λ s. s.has_failed };

    fn give(&mut self, bytes: &[u8]) -> Result<usize, Failed> {
        let room = self.most.saturating_sub(self.bytes.len());
        let count = room.min(bytes.len());
        let (front, _) = bytes.split_at(count);
        if (count == 0 && !bytes.is_empty()) || self.bytes.extend_from_slice(front).is_err() {
            self.failed = true;
            return Err(Failed);
        }
        Ok(count)
    }

    fn failed(&self) -> bool {
        self.failed
    }
}
