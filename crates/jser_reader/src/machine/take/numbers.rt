//! Numbers, as they are taken: whole in a piece, or the last bytes of one that was cut. The bytes are
//! counted, and the handler of the token judges the number.
ghost use Rattle.std.specs.Prelude.{◌≡◌, ◌+◌, ◌<◌, ◌^◌, length};
ghost use Rattle.jser_reader.specs.Walks.{open_phase};
ghost use Rattle.jser_reader.specs.Cuts.{IsFour};
ghost use Rattle.jser_reader.specs.Takes.{TakesNumber, TakesFrom};

use crate::machine::Machine;
use crate::machine::flow::Flow;
use crate::machine::take::taken::Taken;
use crate::phase::Phase;
use jser_prim::{read_u16, read_u32, read_u64};

impl Machine {
    /// Takes the last `count` bytes of the number of fields of a descriptor.
    #[tactic(auto, using(crate::proofs::TakeLemmas::takes_field_count))]
    #[inline(always)]
    pub(crate) fn take_field_count(&mut self, n: u16, count: u64) -> Flow
        requires phase { open_phase self.old ≡ Phase.FieldCount }
        requires some { 0 < count }
        requires room { self.old.meter.at + count < 2 ^ 64 }
        ensures { TakesNumber 2 n count result self.old self.new }
    {
        self.at += count;
        self.field_count(n)
    }

    /// Takes the number of fields of a descriptor, which comes next, or the first of its two bytes.
    #[tactic(auto, using(crate::proofs::CutLemmas::two_kept, crate::proofs::CutLemmas::two_taken))]
    #[inline(always)]
    pub(crate) fn take_two(&mut self, piece: &[u8]) -> Taken
        requires phase { self.old.phase ≡ Phase.FieldCount }
        requires some { 0 < length piece.now }
        requires room { self.old.meter.at + length piece.now < 2 ^ 64 }
        ensures { TakesFrom result piece.now self.old self.new }
    {
        if piece.len() < 2 {
            self.keep(piece);
            return Taken::Open;
        }
        let (number, _) = piece.split_at(2);
        let flow = self.take_field_count(read_u16(number), 2);
        Taken::after(2, flow)
    }

    /// Takes the last `count` bytes of a number of four bytes, the token that is open.
    #[tactic(auto, using(crate::proofs::CutLemmas::no_other_four, crate::proofs::TakeLemmas::takes_back_handle, crate::proofs::TakeLemmas::takes_class_handle, crate::proofs::TakeLemmas::takes_super_handle, crate::proofs::TextTakeLemmas::takes_text_handle, crate::proofs::TakeLemmas::takes_interface_count, crate::proofs::TakeLemmas::takes_array_length, crate::proofs::TakeLemmas::takes_long_block_length))]
    #[inline(always)]
    pub(crate) fn end_four(&mut self, phase: Phase, n: u32, count: u64) -> Flow
        requires four { IsFour phase }
        requires open { open_phase self.old ≡ phase }
        requires some { 0 < count }
        requires room { self.old.meter.at + count < 2 ^ 64 }
        ensures { TakesNumber 4 n count result self.old self.new }
    {
        self.at += count;
        match phase {
            Phase::BackHandle => self.back_handle(n),
            Phase::ClassHandle => self.class_handle(n),
            Phase::SuperHandle => self.super_handle(n),
            Phase::TextHandle => self.text_handle(n),
            Phase::InterfaceCount => self.interface_count(n),
            Phase::ArrayLength => self.array_length(n),
            Phase::BlockLength4 => self.long_block_length(n),
            _ => unreachable!(),
        }
    }

    /// Takes a number of four bytes, the token that comes next, or as many of its bytes as there are.
    #[tactic(auto, using(crate::proofs::CutLemmas::four_kept, crate::proofs::CutLemmas::four_taken))]
    #[inline(always)]
    pub(crate) fn take_four(&mut self, piece: &[u8]) -> Taken
        requires four { IsFour self.old.phase }
        requires some { 0 < length piece.now }
        requires room { self.old.meter.at + length piece.now < 2 ^ 64 }
        ensures { TakesFrom result piece.now self.old self.new }
    {
        if piece.len() < 4 {
            self.keep(piece);
            return Taken::Open;
        }
        let (number, _) = piece.split_at(4);
        let phase = self.phase;
        let flow = self.end_four(phase, read_u32(number), 4);
        Taken::after(4, flow)
    }

    /// Takes the last `count` bytes of the suid of a descriptor, which may be any number.
    #[tactic(auto, using(crate::proofs::TakeLemmas::takes_suid))]
    #[inline(always)]
    pub(crate) fn take_suid(&mut self, n: u64, count: u64) -> Flow
        requires phase { open_phase self.old ≡ Phase.Suid }
        requires some { 0 < count }
        requires room { self.old.meter.at + count < 2 ^ 64 }
        ensures { TakesNumber 8 n count result self.old self.new }
    {
        let _ = n;
        self.at += count;
        self.suid()
    }

    /// Takes the suid of a descriptor, which comes next, or as many of its eight bytes as there are.
    #[tactic(auto, using(crate::proofs::CutLemmas::eight_kept, crate::proofs::CutLemmas::eight_taken))]
    #[inline(always)]
    pub(crate) fn take_eight(&mut self, piece: &[u8]) -> Taken
        requires phase { self.old.phase ≡ Phase.Suid }
        requires some { 0 < length piece.now }
        requires room { self.old.meter.at + length piece.now < 2 ^ 64 }
        ensures { TakesFrom result piece.now self.old self.new }
    {
        if piece.len() < 8 {
            self.keep(piece);
            return Taken::Open;
        }
        let (number, _) = piece.split_at(8);
        let flow = self.take_suid(read_u64(number), 8);
        Taken::after(8, flow)
    }
}
