//! How many files were checked, and with what result.
ghost use Rattle.std.specs.Prelude.{◌≡◌};
ghost use Rattle.jser_scan.specs.Tallies.{no_files, noted, one_accepted, one_refused, one_unread, status_of};

use crate::found::Found;
use jser_settings::{ACCEPTED, FAILED, REFUSED};

/// How many files were checked, and with what result.
#[derive(Clone, Copy, PartialEq, Eq, Debug)]
pub struct Tally {
    /// How many there were.
    pub files: u64,
    /// How many were accepted.
    pub accepted: u64,
    /// How many were refused.
    pub refused: u64,
    /// How many could not be read.
    pub unread: u64,
}

impl Tally {
    /// No files.
    pub fn new() -> Tally
        ensures { result ≡ no_files }
    {
        Tally {
            files: 0,
            accepted: 0,
            refused: 0,
            unread: 0,
        }
    }

    /// Counts a file.
    pub fn note(&mut self, found: &Found)
        ensures { self.new ≡ noted self.old found.now }
    {
        match found {
            Found::Accepted(_) => self.note_accepted(),
            Found::Refused { .. } | Found::Hidden { .. } => self.note_refused(),
            Found::NotOpened | Found::NotRead(_) | Found::OutOfMemory => self.note_unread(),
        }
    }

    /// Counts one that is accepted.
    pub fn note_accepted(&mut self)
        ensures { self.new ≡ one_accepted self.old }
    {
        self.files = self.files.saturating_add(1);
        self.accepted = self.accepted.saturating_add(1);
    }

    /// Counts one that is refused.
    pub fn note_refused(&mut self)
        ensures { self.new ≡ one_refused self.old }
    {
        self.files = self.files.saturating_add(1);
        self.refused = self.refused.saturating_add(1);
    }

    /// Counts one that could not be read.
    pub fn note_unread(&mut self)
        ensures { self.new ≡ one_unread self.old }
    {
        self.files = self.files.saturating_add(1);
        self.unread = self.unread.saturating_add(1);
    }

    /// The status of all: 3 where one could not be read, else 1 where one was refused, else 0.
    pub fn status(self) -> u8
        ensures { result ≡ status_of self }
    {
        if self.unread > 0 {
            FAILED
        } else if self.refused > 0 {
            REFUSED
        } else {
            ACCEPTED
        }
    }
}
