//! Where bytes go, and any `Write` as such a sink.
ghost use Rattle.std.specs.Prelude.{◌≡◌, ◌≤◌, ◌<◌, ℕ, List, Bool, IfOk, IfErr, OnOk, OnErr, length, take, true, false, None};
ghost use Rattle.std.specs.declared.option.Option.{Option};
ghost use Rattle.std.specs.Io.KnownBytes.{Appends, WriteAppends};

use crate::device::{Failed, FailedAfter};
use std::io::Write;
use std::marker::Model;

/// Where bytes go.
pub trait Sink {
    /// The bytes that went out, where the sink tells them. By default it claims nothing.
    ghost gone_out: { Self → Option (List ℕ) } = { λ _. None };

    /// Whether a `give` has failed.
    ghost has_failed: { Self → Bool };

    /// Takes bytes from the front of `bytes`, at least one where there are any, and returns how many.
    ///
    /// # Errors
    ///
    /// `Failed` where the device failed; then no byte was taken.
    fn give(&mut self, bytes: &[u8]) -> Result<usize, Failed>
        ensures within { IfOk result (λ count. count ≤ length bytes.now) }
        ensures some { IfOk result (λ count. 0 < length bytes.now → 0 < count) }
        ensures bytes { WriteAppends (gone_out self.old) (gone_out self.new) result bytes.now }
        ensures ok { OnOk result (has_failed self.new ≡ has_failed self.old) }
        ensures err { OnErr result (has_failed self.new ≡ true) };

    /// Whether a `give` has failed.
    fn failed(&self) -> bool
        ensures { result ≡ has_failed self.now };
}

/// Hands all the bytes to a sink, in as many calls as that takes. It allocates nothing.
///
/// # Errors
///
/// `FailedAfter` where the sink failed, with how many of the first bytes it had taken before.
#[tactic(auto, using(crate::proofs::GiveLemmas::appends_none, crate::proofs::GiveLemmas::gave_more, crate::proofs::GiveLemmas::gave_all))]
pub fn give_all<W: Sink>(sink: &mut W, bytes: &[u8]) -> Result<(), FailedAfter>
    ensures ok { OnOk result (Appends (W.gone_out sink.old) (W.gone_out sink.new) bytes.now) }
    ensures some { IfErr result (λ fault. (fault.given ≤ length bytes.now) × Appends (W.gone_out sink.old) (W.gone_out sink.new) (take fault.given bytes.now)) }
    ensures kept { OnOk result (W.has_failed sink.new ≡ W.has_failed sink.old) }
    ensures err { OnErr result (W.has_failed sink.new ≡ true) }
{
    let mut given = 0usize;
    'gives: while given < bytes.len() {
        let (_, rest) = bytes.split_at(given);
        match sink.give(rest) {
            Ok(count) => given += count,
            Err(_) => return Err(FailedAfter { given }),
        }
    }
    Ok(())
}

/// A sink into a writer. Every `Err` of the writer is a failure, and so is a write that takes none of at
/// least one byte.
///
/// The adapter itself allocates nothing.
#[derive(Debug, Drop)]
pub struct ToWrite<W: Write> {
    writer: W,
    failed: bool,
}

impl<W: Write> Model for ToWrite<W> {
    ghost use Rattle.jser_prim.specs.Devices.{Told};

    ghost Value = { Told };

    ghost view = { λ a. record { bytes = W.contents a.writer; has_failed = a.failed } };
}

impl<W: Write> ToWrite<W> {
    /// A sink into `writer`. What the writer holds already counts as gone out.
    pub fn new(writer: W) -> ToWrite<W>
        ensures bytes { result.bytes ≡ W.contents writer }
        ensures failed { result.has_failed ≡ false }
    {
        ToWrite {
            writer,
            failed: false,
        }
    }
}

impl<W: Write> Sink for ToWrite<W> {
    ghost gone_out = { λ s. s.bytes };

    ghost has_failed = { λ s. s.has_failed };

    fn give(&mut self, bytes: &[u8]) -> Result<usize, Failed> {
        match self.writer.write(bytes) {
            Ok(count) if count > 0 || bytes.is_empty() => Ok(count),
            _ => {
                self.failed = true;
                Err(Failed)
            }
        }
    }

    fn failed(&self) -> bool {
        self.failed
    }
}
