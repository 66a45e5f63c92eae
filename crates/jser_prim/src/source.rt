//! Where bytes come from, and any `Read` as such a source.
ghost use Rattle.std.specs.Prelude.{◌≡◌, ◌≤◌, ℕ, List, Bool, IfOk, OnOk, OnErr, length, true, false, None};
ghost use Rattle.std.specs.declared.option.Option.{Option};
ghost use Rattle.std.specs.Io.KnownBytes.{ReadConsumes};

use crate::device::Failed;
use std::io::Read;
use std::marker::Model;

/// Where bytes come from.
pub trait Source {
    /// The bytes that are still to come, where the source tells them. By default it claims nothing.
    ghost to_come: { Self → Option (List ℕ) } = { λ _. None };

    /// Whether a `take` has failed.
    ghost has_failed: { Self → Bool };

    /// A fact about the source and all its bytes, from the first to the last, that each `take` keeps. By default it is always
    /// true. A source that remembers what it gave says here what it remembers: so its caller can use that after a call
    /// that takes bytes.
    ghost remembers: { Self → List ℕ → Type 0 } = { λ _ _. Unit {0} };

    /// Puts the next bytes at the front of `buf`, and returns how many. For a `buf` that is not empty, 0 is
    /// the end.
    ///
    /// # Errors
    ///
    /// `Failed` where the device failed; then no byte was taken.
    fn take(&mut self, buf: &mut [u8]) -> Result<usize, Failed>
        ensures within { IfOk result (λ count. count ≤ length buf.new) }
        ensures bytes { ReadConsumes (to_come self.old) (to_come self.new) result buf.new }
        ensures ok { OnOk result (has_failed self.new ≡ has_failed self.old) }
        ensures err { OnErr result (has_failed self.new ≡ true) }
        ensures remembers { (all : List ℕ) → remembers self.old all → remembers self.new all };

    /// Whether a `take` has failed.
    fn failed(&self) -> bool
        ensures { result ≡ has_failed self.now };
}

/// A source over a reader. Every `Err` of the reader is a failure, an interrupted read too.
///
/// The adapter itself allocates nothing.
#[derive(Debug, Drop)]
pub struct FromRead<R: Read> {
    reader: R,
    failed: bool,
}

impl<R: Read> Model for FromRead<R> {
    ghost use Rattle.jser_prim.specs.Devices.{Told};

    ghost Value = { Told };

    ghost view = { λ a. record { bytes = R.remaining a.reader; has_failed = a.failed } };
}

impl<R: Read> FromRead<R> {
    /// A source of the bytes that `reader` has left.
    pub fn new(reader: R) -> FromRead<R>
        ensures bytes { result.bytes ≡ R.remaining reader }
        ensures failed { result.has_failed ≡ false }
    {
        FromRead {
            reader,
            failed: false,
        }
    }
}

impl<R: Read> Source for FromRead<R> {
    ghost to_come = { λ s. s.bytes };

    ghost has_failed = { λ s. s.has_failed };

    fn take(&mut self, buf: &mut [u8]) -> Result<usize, Failed> {
        match self.reader.read(buf) {
            Ok(count) => Ok(count),
            Err(_) => {
                self.failed = true;
                Err(Failed)
            }
        }
    }

    fn failed(&self) -> bool {
        self.failed
    }
}
