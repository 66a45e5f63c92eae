//! Bytes to a sink, for a broker that passes messages on.
ghost use Rattle.std.specs.Prelude.{◌≡◌, ◌≤◌, ◌∷◌, [], length, take, false, true, not, OnOk, OnErr, IfSome};
ghost use Rattle.std.specs.Io.KnownBytes.{Appends};

use jser_prim::{Failed, Sink, ToWrite, give_all};
use std::io::Write;

/// Hands one byte to the sink.
///
/// # Errors
///
/// `Failed` where the sink failed.
pub fn give_byte<W: Sink>(sink: &mut W, byte: u8) -> Result<(), Failed>
    ensures ok { OnOk result (Appends (W.gone_out sink.old) (W.gone_out sink.new) (byte ∷ [])) }
    ensures err { OnErr result (W.has_failed sink.new ≡ true) }
{
    match sink.give(&[byte]) {
        Ok(_) => Ok(()),
        Err(fault) => Err(fault),
    }
}

/// Whether some of the bytes were lost, as the sink failed at them.
pub fn is_lost<W: Sink>(sink: &mut W, bytes: &[u8]) -> bool
    requires { W.has_failed sink.old ≡ false }
    ensures { result ≡ W.has_failed sink.new }
{
    sink.give(bytes).is_err()
}

/// Whether the sink can be given more.
pub fn is_open<W: Sink>(sink: &W) -> bool
    ensures { result ≡ not (W.has_failed sink.now) }
{
    !sink.failed()
}

/// A sink into a writer to which this byte was handed, unless that failed.
pub fn begun<W: Write + Drop>(writer: W, byte: u8) -> Option<ToWrite<W>>
    ensures bytes { IfSome result (λ sink. Appends (W.contents writer) sink.bytes (byte ∷ [])) }
    ensures failed { IfSome result (λ sink. sink.has_failed ≡ false) }
{
    let mut sink = ToWrite::new(writer);
    match sink.give(&[byte]) {
        Ok(_) => Some(sink),
        Err(_) => None,
    }
}

/// Hands bytes to the sink, and tells how many of the first ones it took.
#[tactic(auto, using(std::proofs::lemmas::List::take_all))]
pub fn given<W: Sink>(sink: &mut W, bytes: &[u8]) -> usize
    ensures within { result ≤ length bytes.now }
    ensures out { Appends (W.gone_out sink.old) (W.gone_out sink.new) (take result bytes.now) }
{
    match give_all(sink, bytes) {
        Ok(()) => bytes.len(),
        Err(fault) => fault.given,
    }
}

/// Whether all the bytes are delivered to a sink that did not fail before.
pub fn is_delivered<W: Sink>(sink: &mut W, bytes: &[u8]) -> bool
    requires { W.has_failed sink.old ≡ false }
    ensures { result ≡ not (W.has_failed sink.new) }
{
    give_all(sink, bytes).is_ok()
}
