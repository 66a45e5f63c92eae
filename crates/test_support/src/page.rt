//! A sink that keeps what it is given.

use jser_prim::{Failed, Sink};
use std::alloc::Global;

/// Keeps what it is given, so many bytes a call, and fails where it has no room or no memory left.
#[derive(Drop)]
pub struct Page {
    /// What it was given.
    pub bytes: Vec<u8>,
    /// How many calls gave it bytes.
    pub calls: usize,
    most: usize,
    room: usize,
    failed: bool,
}

impl Page {
    /// A page for `room` bytes, of which it takes at most `most` a call. Takes no memory.
    pub fn new(alloc: Global, most: usize, room: usize) -> Page {
        Page {
            bytes: Vec::new(alloc),
            calls: 0,
            most,
            room,
            failed: false,
        }
    }
}

impl Sink for Page {
    ghost has_failed = { λ s. s.failed };

    fn give(&mut self, bytes: &[u8]) -> Result<usize, Failed> {
        if bytes.is_empty() {
            return Ok(0);
        }
        self.calls = self.calls.saturating_add(1);
        let count = self.most.min(self.room).min(bytes.len());
        let (front, _) = bytes.split_at(count);
        if count == 0 || self.bytes.extend_from_slice(front).is_err() {
            self.failed = true;
            return Err(Failed);
        }
        self.room -= count;
        Ok(count)
    }

    fn failed(&self) -> bool {
        self.failed
    }
}
