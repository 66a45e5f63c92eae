//! The head of a log: its kind, its version, and when it was begun.
ghost use Rattle.std.specs.Prelude.{◌≡◌, ◌∷◌, ◌++◌, IfSome};
ghost use Rattle.std.specs.Io.KnownBytes.{Appends};
ghost use Rattle.jser_prim.specs.Bytes.{big_bytes};

use jser_prim::{Outbox, Sink};

/// Writes the head of a log, and returns how many bytes it has. They reach the sink in one piece.
#[tactic(auto, using(crate::proofs::LogLemmas::head_out))]
pub fn write_head<W: Sink>(sink: &mut W, kind: u8, version: u16, begun: u64) -> Option<u64>
    ensures out { IfSome result (λ count. Appends (W.gone_out sink.old) (W.gone_out sink.new) (kind ∷ (big_bytes 2 version ++ big_bytes 8 begun))) }
    ensures counted { IfSome result (λ count. count ≡ 11) }
{
    let mut outbox = Outbox::new();
    outbox.put_u8(sink, kind);
    outbox.put_u16(sink, version);
    outbox.put_u64(sink, begun);
    outbox.flush(sink);
    if outbox.has_failed() {
        return None;
    }
    Some(outbox.written())
}
