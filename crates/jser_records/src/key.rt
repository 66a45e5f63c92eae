//! The KEY of a record: what its line has beside the value.

ghost use Rattle.std.specs.Prelude.{◌≡◌, ◌≤◌, true, false, vec_capacity};

use crate::line_end::has_line_end;
use std::alloc::{AllocError, Global};

/// How many bytes it has at most.
const MOST: usize = 65_535;

/// The KEY of a record, in room that is taken once.
#[derive(Drop)]
pub(crate) struct Key {
    bytes: Vec<u8>,
    is_there: bool,
    is_lost: bool,
    ghost room: { 65535 ≤ vec_capacity bytes },
}

impl Key {
    ghost use Rattle.jser_records.specs.Keys.{HasAdded, HasLostKey, HasNoKey, HasNoRoom, ends_lines};

    /// None so far.
    pub(crate) fn new(alloc: Global) -> Result<Key, AllocError> {
        let bytes = Vec::with_capacity(alloc, MOST)?;
        Ok(Key {
            bytes,
            is_there: false,
            is_lost: false,
        })
    }

    /// Begins the next record, which has none so far.
    pub(crate) fn clear(&mut self)
        ensures { HasNoKey self.new }
    {
        self.bytes.clear();
        self.is_there = false;
        self.is_lost = false;
    }

    /// Appends bytes to the KEY. `false`, and the KEY is lost, where it would be too long or memory runs out.
    pub(crate) fn add(&mut self, bytes: &[u8]) -> bool
        ensures lost { result ≡ false → HasNoRoom self.old self.new bytes.now }
        ensures added { result ≡ true → HasAdded self.old self.new bytes.now }
    {
        let room = MOST.saturating_sub(self.bytes.len());
        if self.is_lost || bytes.len() > room || self.bytes.extend_from_slice(bytes).is_err() {
            self.lose();
            return false;
        }
        self.is_there = true;
        true
    }

    /// Loses it, as it is too long: the record's number stands for it.
    pub(crate) fn lose(&mut self)
        ensures { HasLostKey self.new }
    {
        self.clear();
        self.is_lost = true;
    }

    /// Whether the record has one.
    pub(crate) fn is_there(&self) -> bool
        ensures { result ≡ self.now.is_there }
    {
        self.is_there
    }

    /// Whether a reader of lines may end one in it.
    pub(crate) fn has_line_end(&self) -> bool
        ensures { result ≡ ends_lines self.now }
    {
        self.is_there && has_line_end(self.bytes.as_slice())
    }

    /// Its bytes, as far as they are known.
    pub(crate) fn bytes(&self) -> &[u8]
        ensures { result.now ≡ self.now.bytes.items }
    {
        self.bytes.as_slice()
    }
}
