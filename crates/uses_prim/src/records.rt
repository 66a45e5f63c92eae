//! Records for a log: the length in four bytes, and then the bytes.
ghost use Rattle.std.specs.Prelude.{◌≡◌, ◌<◌, ◌+◌, ◌++◌, ◌^◌, length, IfSome, None, true};
ghost use Rattle.std.specs.Io.KnownBytes.{Appends};
ghost use Rattle.jser_prim.specs.Bytes.{big_bytes};

use jser_prim::{Outbox, Sink};

/// Writes a record, and returns how many bytes it has. Short ones reach the sink in one piece.
#[tactic(auto, using(crate::proofs::LogLemmas::record_out, crate::proofs::LogLemmas::record_lost))]
pub fn write_record<W: Sink>(sink: &mut W, bytes: &[u8]) -> Option<u64>
    requires { length bytes.now < 2 ^ 32 }
    ensures out { IfSome result (λ count. Appends (W.gone_out sink.old) (W.gone_out sink.new) (big_bytes 4 (length bytes.now) ++ bytes.now)) }
    ensures counted { IfSome result (λ count. count ≡ 4 + length bytes.now) }
    ensures kept { IfSome result (λ count. W.has_failed sink.new ≡ W.has_failed sink.old) }
    ensures failed { result ≡ None → W.has_failed sink.new ≡ true }
{
    let mut outbox = Outbox::new();
    outbox.put_u32(sink, bytes.len() as u32);
    outbox.put(sink, bytes);
    outbox.flush(sink);
    if outbox.has_failed() {
        return None;
    }
    Some(outbox.written())
}
