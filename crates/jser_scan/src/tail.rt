//! An input that keeps the last bytes that it gave.
ghost use Rattle.std.specs.Prelude.{◌≡◌, []};
ghost use Rattle.jser_scan.specs.Devices.{KeepsEnd};
ghost use Rattle.jser_scan.specs.LastSeen.{AreLast};

use crate::last::LastBytes;
use jser_inputs::{Input, InputFault};
use jser_prim::{Failed, Source};
use std::marker::Model;

/// An input that keeps the last bytes that it gave.
#[derive(Drop)]
pub(crate) struct Tail<R: Input> {
    source: R,
    last: LastBytes,
}

impl<R: Input> Model for Tail<R> {
    ghost use Rattle.jser_scan.specs.Devices.{ToldInput};

    ghost Value = { ToldInput };

    ghost view = { λ a. record { bytes = R.to_come a.source; has_failed = R.has_failed a.source; why = R.why_failed a.source; last = a.last } };
}

impl<R: Input> Tail<R> {
    /// An input of the bytes of `source`, which keeps the last of them so.
    pub(crate) fn new(source: R, last: LastBytes) -> Tail<R>
        requires { AreLast last [] }
        ensures bytes { result.bytes ≡ R.to_come source }
        ensures failed { result.has_failed ≡ R.has_failed source }
        ensures last { AreLast result.last [] }
    {
        Tail { source, last }
    }

    /// The input whose bytes it gave, and the last of them.
    pub(crate) fn into_parts(self) -> (R, LastBytes)
        ensures failed { R.has_failed result.0 ≡ self.has_failed }
        ensures why { R.why_failed result.0 ≡ self.why }
        ensures last { result.1 ≡ self.last }
    {
        (self.source, self.last)
    }

    /// The last bytes that it gave.
    pub(crate) fn last(&self) -> &LastBytes
        ensures { result.now ≡ self.now.last }
    {
        &self.last
    }
}

impl<R: Input> Source for Tail<R> {
    ghost to_come = { λ s. s.bytes };

    ghost has_failed = { λ s. s.has_failed };

    ghost remembers = { λ s all. KeepsEnd s.bytes s.last all };

    #[tactic(auto, using(crate::proofs::NameLemmas::gives_more, crate::proofs::NameLemmas::gives_none))]
    fn take(&mut self, buf: &mut [u8]) -> Result<usize, Failed> {
        let count = match self.source.take(buf) {
            Ok(count) => count,
            Err(failed) => return Err(failed),
        };
        let (front, _) = buf.split_at(count);
        self.last.keep(front);
        Ok(count)
    }

    fn failed(&self) -> bool {
        self.source.failed()
    }
}

impl<R: Input> Input for Tail<R> {
    ghost why_failed = { λ s. s.why };

    fn fault(&self) -> InputFault {
        self.source.fault()
    }
}
