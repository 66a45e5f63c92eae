//! A number, or the header, of which the first bytes came in an earlier piece.
ghost use Rattle.std.specs.Prelude.{◌≡◌, ◌+◌, ◌++◌, ◌<◌, ◌≤◌, [], length};
ghost use Rattle.jser_prim.specs.Bytes.{big_bytes};
ghost use Rattle.jser_reader.specs.Walks.{size_of_phase};
ghost use Rattle.jser_reader.specs.Cuts.{CanBeCut, IsCutToken};

use crate::phase::Phase;
use arrayvec::ArrayVec;
use jser_prim::{read_u16, read_u32, read_u64};
use std::marker::Model;

/// Which token was cut, and its first bytes: fewer than it has.
#[derive(Drop)]
pub(crate) struct Cut {
    phase: Phase,
    kept: ArrayVec<u8, 8>,
}

impl Model for Cut {
    ghost use Rattle.jser_reader.specs.Cuts.{CutToken, IsCutToken};

    ghost Value = { CutToken };

    ghost view = { λ a. record { phase = a.phase; kept = a.kept.items } };

    ghost invariant = { λ a. IsCutToken a.phase a.kept.items };
}

impl Cut {
    /// Nothing was cut so far. Takes no memory.
    pub(crate) fn new() -> Cut
        ensures phase { result.phase ≡ Phase.Header }
        ensures kept { result.kept ≡ [] }
    {
        Cut {
            phase: Phase::Header,
            kept: ArrayVec::new(),
        }
    }

    /// Which token was cut.
    pub(crate) fn phase(&self) -> Phase
        ensures is { result ≡ self.now.phase }
        ensures may_be { CanBeCut result }
    {
        self.phase
    }

    /// How many of its bytes are still to come.
    pub(crate) fn missing(&self) -> usize
        ensures some { 0 < result }
        ensures all { length self.now.kept + result ≡ size_of_phase self.now.phase }
    {
        self.phase.size() - self.kept.len()
    }

    /// The first bytes of this token have come.
    pub(crate) fn begin(&mut self, phase: Phase, bytes: &[u8])
        requires { IsCutToken phase bytes.now }
        ensures phase { self.new.phase ≡ phase }
        ensures kept { self.new.kept ≡ bytes.now }
    {
        self.phase = phase;
        self.kept.clear();
        let _ = self.kept.try_extend_from_slice(bytes);
    }

    /// More of its bytes have come, and not all.
    pub(crate) fn go_on(&mut self, bytes: &[u8])
        requires { length (self.old.kept ++ bytes.now) < size_of_phase self.old.phase }
        ensures phase { self.new.phase ≡ self.old.phase }
        ensures kept { self.new.kept ≡ self.old.kept ++ bytes.now }
    {
        let _ = self.kept.try_extend_from_slice(bytes);
    }

    /// All bytes of the token, whose last bytes are these.
    fn whole(&self, last: &[u8]) -> ArrayVec<u8, 8>
        requires { length (self.now.kept ++ last.now) ≤ 8 }
        ensures { result.items ≡ self.now.kept ++ last.now }
    {
        let mut bytes = self.kept();
        let _ = bytes.try_extend_from_slice(last);
        bytes
    }

    /// The bytes that were kept.
    pub(crate) fn kept(&self) -> ArrayVec<u8, 8>
        ensures { result.items ≡ self.now.kept }
    {
        let mut bytes: ArrayVec<u8, 8> = ArrayVec::new();
        let _ = bytes.try_extend_from_slice(self.kept.as_slice());
        bytes
    }

    /// The number in two bytes whose last bytes are these.
    pub(crate) fn two(&self, last: &[u8]) -> u16
        requires { length (self.now.kept ++ last.now) ≡ 2 }
        ensures { big_bytes 2 result ≡ self.now.kept ++ last.now }
    {
        read_u16(self.whole(last).as_slice())
    }

    /// The number in four bytes whose last bytes are these.
    pub(crate) fn four(&self, last: &[u8]) -> u32
        requires { length (self.now.kept ++ last.now) ≡ 4 }
        ensures { big_bytes 4 result ≡ self.now.kept ++ last.now }
    {
        read_u32(self.whole(last).as_slice())
    }

    /// The number in eight bytes whose last bytes are these.
    pub(crate) fn eight(&self, last: &[u8]) -> u64
        requires { length (self.now.kept ++ last.now) ≡ 8 }
        ensures { big_bytes 8 result ≡ self.now.kept ++ last.now }
    {
        read_u64(self.whole(last).as_slice())
    }
}
