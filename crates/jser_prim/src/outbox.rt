//! Bytes on their way to a sink, gathered so that the sink is handed sensible pieces.
ghost use Rattle.std.specs.Prelude.{◌≡◌, ◌++◌, ◌∷◌, [], false, MatchBool};
ghost use Rattle.jser_prim.specs.Bytes.{big_bytes};
ghost use Rattle.jser_prim.specs.Outgoing.{PutsTo};

use crate::sink::{Sink, give_all};
use arrayvec::ArrayVec;
use byteorder::{BigEndian, ByteOrder};
use std::marker::Model;

/// How many bytes are gathered at most.
const ROOM: usize = 512;

/// Bytes that are to go out to a sink, and how many have. It allocates nothing: up to 512 bytes wait in place, and longer
/// pieces go to the sink as they are.
///
/// It does not hold its sink: each call is given it, always the same one. Puts are written one after another without a
/// test between them: after a failure nothing more is done, and `has_failed` says so. What still waits at the end goes
/// out by `flush`.
#[derive(Drop)]
pub struct Outbox {
    waiting: ArrayVec<u8, ROOM>,
    written: u64,
    failed: bool,
}

impl Model for Outbox {
    ghost use Rattle.jser_prim.specs.Outgoing.{Outgoing};

    ghost Value = { Outgoing };

    ghost view = { λ a. record { waiting = a.waiting.items; written = a.written; failed = a.failed } };
}

impl Outbox {
    /// Nothing is to go out so far.
    pub fn new() -> Outbox
        ensures { result ≡ record { waiting = []; written = 0; failed = false } }
    {
        Outbox {
            waiting: ArrayVec::new(),
            written: 0,
            failed: false,
        }
    }

    /// How many bytes went out. The count is exact up to 2^64 - 1 and stays there.
    pub fn written(&self) -> u64
        ensures { result ≡ self.now.written }
    {
        self.written
    }

    /// Whether the sink failed.
    pub fn has_failed(&self) -> bool
        ensures { result ≡ self.now.failed }
    {
        self.failed
    }

    /// Puts bytes after those that wait. Where they do not fit, what waits goes out to the sink first.
    #[tactic(auto, using(crate::proofs::OutgoingLemmas::puts_stopped, crate::proofs::OutgoingLemmas::puts_gathered))]
    #[inline(always)]
    pub fn put<W: Sink>(&mut self, sink: &mut W, bytes: &[u8])
        ensures { PutsTo W.gone_out W.has_failed self.old self.new sink.old sink.new bytes.now }
    {
        if self.failed {
            return;
        }
        if self.gather(bytes) {
            return;
        }
        self.put_behind(sink, bytes);
    }

    /// Puts bytes where all that waits goes out first.
    #[tactic(auto, using(crate::proofs::OutgoingLemmas::puts_behind))]
    #[inline(never)]
    fn put_behind<W: Sink>(&mut self, sink: &mut W, bytes: &[u8])
        ensures { PutsTo W.gone_out W.has_failed self.old self.new sink.old sink.new bytes.now }
    {
        self.flush(sink);
        self.pass(sink, bytes);
    }

    /// Hands all that waits to the sink.
    #[tactic(auto, using(crate::proofs::OutgoingLemmas::puts_stopped, crate::proofs::OutgoingLemmas::flushed, crate::proofs::OutgoingLemmas::flushed_some))]
    pub fn flush<W: Sink>(&mut self, sink: &mut W)
        ensures puts { PutsTo W.gone_out W.has_failed self.old self.new sink.old sink.new [] }
        ensures empty { self.new.failed ≡ false → self.new.waiting ≡ [] }
    {
        if self.failed {
            return;
        }
        match give_all(sink, self.waiting.as_slice()) {
            Ok(()) => {
                self.written = self.written.saturating_add(self.waiting.len() as u64);
                self.waiting.clear();
            }
            Err(fault) => {
                self.written = self.written.saturating_add(fault.given as u64);
                self.failed = true;
            }
        }
    }

    /// Puts bytes where nothing waits.
    #[tactic(auto, using(crate::proofs::OutgoingLemmas::puts_stopped, crate::proofs::OutgoingLemmas::puts_gathered, crate::proofs::OutgoingLemmas::passed, crate::proofs::OutgoingLemmas::passed_some))]
    fn pass<W: Sink>(&mut self, sink: &mut W, bytes: &[u8])
        requires { self.old.failed ≡ false → self.old.waiting ≡ [] }
        ensures { PutsTo W.gone_out W.has_failed self.old self.new sink.old sink.new bytes.now }
    {
        if self.failed {
            return;
        }
        if self.gather(bytes) {
            return;
        }
        match give_all(sink, bytes) {
            Ok(()) => {
                self.written = self.written.saturating_add(bytes.len() as u64);
            }
            Err(fault) => {
                self.written = self.written.saturating_add(fault.given as u64);
                self.failed = true;
            }
        }
    }

    /// Lets bytes wait after those that do, where they fit.
    #[inline(always)]
    fn gather(&mut self, bytes: &[u8]) -> bool
        ensures { MatchBool result (self.new ≡ record self.old { waiting = self.old.waiting ++ bytes.now }) (self.new ≡ self.old) }
    {
        self.waiting.try_extend_from_slice(bytes).is_ok()
    }

    /// Puts a byte.
    pub fn put_u8<W: Sink>(&mut self, sink: &mut W, byte: u8)
        ensures { PutsTo W.gone_out W.has_failed self.old self.new sink.old sink.new (byte ∷ []) }
    {
        self.put(sink, &[byte]);
    }

    /// Puts a number in two bytes, highest first.
    pub fn put_u16<W: Sink>(&mut self, sink: &mut W, number: u16)
        ensures { PutsTo W.gone_out W.has_failed self.old self.new sink.old sink.new (big_bytes 2 number) }
    {
        let mut bytes = [0; 2];
        BigEndian::write_u16(&mut bytes, number);
        self.put(sink, &bytes);
    }

    /// Puts a number in four bytes, highest first.
    pub fn put_u32<W: Sink>(&mut self, sink: &mut W, number: u32)
        ensures { PutsTo W.gone_out W.has_failed self.old self.new sink.old sink.new (big_bytes 4 number) }
    {
        let mut bytes = [0; 4];
        BigEndian::write_u32(&mut bytes, number);
        self.put(sink, &bytes);
    }

    /// Puts a number in eight bytes, highest first.
    pub fn put_u64<W: Sink>(&mut self, sink: &mut W, number: u64)
        ensures { PutsTo W.gone_out W.has_failed self.old self.new sink.old sink.new (big_bytes 8 number) }
    {
        let mut bytes = [0; 8];
        BigEndian::write_u64(&mut bytes, number);
        self.put(sink, &bytes);
    }
}
