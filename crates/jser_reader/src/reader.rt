//! The reader: a stream in pieces of any sizes, token by token.
ghost use Rattle.std.specs.Prelude.{◌≡◌, ◌+◌, ◌<◌, ◌≤◌, [], length, take, IfOk, Ok, None};
ghost use Rattle.jser_reader.specs.ReaderStates.{IsItem, HasProgress, StandsFor, NextTells, SkipTells, StaysStopped, FinishTells, WholeTold, WholeAtEnd, KeepsWhole};
ghost use Rattle.jser_reader.specs.Tallies.{whole_of};
ghost use Rattle.jser_reader.specs.Bounds.{FramesAreBounded, AreAssigned, MemoryFree, SkipMemoryFree};
ghost use Rattle.jser_reader.specs.ItemsMade.{MakesStep};
ghost use Rattle.jser_reader.specs.ItemsTold.{StandsIn, TellsItems, TellsTokens};
ghost use Rattle.jser_reader.specs.States.{IsWithin};

mod feed;
mod lent;
mod pass;

use crate::gate::Gate;
use crate::item::{Step, Totals};
use crate::machine::Machine;
use crate::machine::items::{Kept, item_of};
use crate::machine::passed::Passed;
use crate::machine::take::taken::Taken;
use crate::phase::Phase;
use crate::refusal::Stop;
use crate::tally::Tally;
use jser_table::Table;
use std::alloc::Global;
use std::marker::Model;

/// The step for the first `used` bytes of `front`; `kept` has earlier bytes of the same token.
#[tactic(auto, using(crate::proofs::ItemLemmas::makes_step))]
#[inline(always)]
fn lend<'p>(token: Phase, kept: Kept, front: &'p [u8], used: usize) -> Step<'p>
    requires { used ≤ length front.now }
    ensures used { IsItem used result }
    ensures lent { MakesStep token kept.items (take used front.now) result }
{
    let (part, _) = front.split_at(used);
    Step::Item {
        item: item_of(token, kept, part),
        used,
    }
}

/// Takes a Java object serialization stream in pieces of any sizes, and lends its tokens one by one.
///
/// It keeps no tree and no text but the one class name that is being read. What it allocates is the table of handles
/// and the stack of what is open.
#[derive(Drop)]
pub struct Reader<G: Gate> {
    gate: G,
    machine: Machine,
    tally: Tally,
}

impl<G: Gate> Model for Reader<G> {
    ghost use Rattle.jser_reader.specs.ReaderStates.{Reading};

    ghost Value = { Reading G };

    ghost view = { λ a. record { gate = a.gate; machine = a.machine; tally = a.tally } };
}

impl<G: Gate> Reader<G> {
    /// A reader that has taken nothing, under this gate. Takes no memory.
    pub fn new(alloc: Global, gate: G) -> Reader<G>
        ensures gate { result.gate ≡ gate }
        ensures stands { StandsFor (G.told gate) [] result.machine result.tally }
        ensures begins { StandsIn (G.told gate) [] [] result.machine result.tally }
    {
        let machine = Machine::new(alloc, gate.limits());
        Reader {
            gate,
            machine,
            tally: Tally::new(),
        }
    }

    /// Makes it a reader that has taken nothing, under the same gate, whatever it took or answered before. It keeps the
    /// memory that it has, and takes none.
    pub fn restart(&mut self)
        ensures gate { self.new.gate ≡ self.old.gate }
        ensures stands { StandsFor (G.told self.old.gate) [] self.new.machine self.new.tally }
        ensures begins { StandsIn (G.told self.old.gate) [] [] self.new.machine self.new.tally }
    {
        self.machine.restart(self.gate.limits());
        self.tally = Tally::new();
    }

    /// Takes some of the front of the piece, which is not empty and within the limit.
    #[tactic(auto, using(crate::proofs::NextLemmas::is_taken, crate::proofs::NextLemmas::is_part))]
    #[inline(always)]
    fn step<'p>(&mut self, piece: &'p [u8], front: &'p [u8]) -> Result<Step<'p>, Stop>
        requires within { IsWithin self.old.machine piece.now front.now }
        requires some { 0 < length front.now }
        requires goes_on { self.old.machine.phase ≡ Phase.Stopped → ⊥ }
        ensures tells { NextTells (G.told self.old.gate) piece.now result self.old.machine self.old.tally self.new.machine self.new.tally }
        ensures items { TellsItems (G.told self.old.gate) piece.now result self.old.machine self.old.tally self.new.machine self.new.tally }
        ensures memory { MemoryFree (G.told self.old.gate) piece.now result self.old.machine self.old.tally }
        ensures progress { IfOk result (λ step. HasProgress piece.now step) }
        ensures gate { self.new.gate ≡ self.old.gate }
    {
        let token = self.machine.token();
        let kept = self.machine.kept();
        self.machine.count(&mut self.tally, front[0]);
        match self.machine.take(&self.gate, front) {
            Taken::Ended(used) => Ok(lend(token, kept, front, used)),
            Taken::Part(used) => Ok(lend(token, kept, front, used)),
            Taken::Stopped(_) => Err(self.machine.answer()),
            _ => {
                if front.len() < piece.len() {
                    return Err(self.machine.exceed(&mut self.tally));
                }
                Ok(Step::More)
            }
        }
    }

    /// The next item, from the front of the piece, or more bytes are wanted.
    ///
    /// # Errors
    ///
    /// `Refused` where the bytes up to one of the piece are refused: it was taken, and none after it. `OutOfMemory`
    /// where memory ran out. `Spent` after `OutOfMemory`, and after `finish` answered Ok. After `Refused` each call
    /// answers the same refusal.
    #[inline(always)]
    pub fn next<'p>(&mut self, piece: &'p [u8]) -> Result<Step<'p>, Stop>
        ensures tells { NextTells (G.told self.old.gate) piece.now result self.old.machine self.old.tally self.new.machine self.new.tally }
        ensures items { TellsItems (G.told self.old.gate) piece.now result self.old.machine self.old.tally self.new.machine self.new.tally }
        ensures memory { MemoryFree (G.told self.old.gate) piece.now result self.old.machine self.old.tally }
        ensures stays { StaysStopped result self.old.machine self.new.machine }
        ensures keeps { KeepsWhole self.old.machine self.old.tally self.new.machine self.new.tally }
        ensures progress { IfOk result (λ step. HasProgress piece.now step) }
        ensures gate { self.new.gate ≡ self.old.gate }
    {
        if self.machine.is_stopped() {
            return Err(self.machine.answer());
        }
        if piece.is_empty() {
            return Ok(Step::More);
        }
        let front = self.machine.within(piece);
        if front.is_empty() {
            return Err(self.machine.exceed(&mut self.tally));
        }
        self.step(piece, front)
    }

    /// Takes the whole piece: as `next` called on it, and on what is left of it, until it answers `More`.
    ///
    /// # Errors
    ///
    /// As `next`.
    pub fn skip(&mut self, piece: &[u8]) -> Result<(), Stop>
        ensures tells { SkipTells (G.told self.old.gate) piece.now result self.old.machine self.old.tally self.new.machine self.new.tally }
        ensures memory { SkipMemoryFree (G.told self.old.gate) piece.now result self.old.machine self.old.tally }
        ensures stays { StaysStopped result self.old.machine self.new.machine }
        ensures keeps { KeepsWhole self.old.machine self.old.tally self.new.machine self.new.tally }
        ensures gate { self.new.gate ≡ self.old.gate }
    {
        if self.machine.is_stopped() {
            return Err(self.machine.answer());
        }
        let mut used = 0;
        'steps: while used < piece.len() {
            let (_, rest) = piece.split_at(used);
            match self.pass(rest) {
                Passed::Stopped => return Err(self.machine.answer()),
                Passed::Took(more) => used += more,
            }
        }
        Ok(())
    }

    /// The end of the input.
    ///
    /// # Errors
    ///
    /// `Refused` as `Truncated` where the stream has not ended; else as `next`, but never `OutOfMemory`.
    pub fn finish(&mut self) -> Result<Totals, Stop>
        ensures tells { FinishTells (G.told self.old.gate) result self.old.machine self.old.tally self.new.machine }
        ensures tokens { TellsTokens (G.told self.old.gate) result self.old.machine self.old.tally }
        ensures whole { WholeAtEnd (G.told self.old.gate) self.old.machine self.old.tally self.new.machine self.new.tally }
        ensures stays { StaysStopped result self.old.machine self.new.machine }
        ensures keeps { KeepsWhole self.old.machine self.old.tally self.new.machine self.new.tally }
        ensures gate { self.new.gate ≡ self.old.gate }
    {
        if self.machine.is_stopped() {
            return Err(self.machine.answer());
        }
        if !self.machine.is_at_top() {
            return Err(self.machine.truncate());
        }
        let totals = self.machine.totals(self.tally);
        self.machine.keep_whole(&mut self.tally);
        self.machine.end();
        Ok(totals)
    }

    /// How many of the bytes that were taken are whole contents: the length of their longest front that is a stream which
    /// the gate lets pass. The header alone is a stream of no contents; before its end this is 0.
    ///
    /// After a refusal, and after the end, it is that of all bytes that came, whatever comes after them. After `OutOfMemory`
    /// it says nothing.
    #[tactic(auto, using(crate::proofs::NextLemmas::whole_known))]
    pub fn whole(&self) -> u64
        ensures is { result ≡ whole_of self.now.machine self.now.tally }
        ensures tells { WholeTold (G.told self.now.gate) result self.now.machine self.now.tally }
    {
        self.machine.whole(self.tally)
    }

    /// The gate under which it reads.
    #[inline(always)]
    pub fn gate(&self) -> &G
        ensures { result.now ≡ self.now.gate }
    {
        &self.gate
    }

    /// The units of the class name that is being read, or was read last. After `ClassRejected` and `ClassUnmatched` it is the
    /// name that the gate did not let pass. Takes no memory.
    pub fn class_name(&self) -> &[u16]
        ensures { result.now ≡ self.now.machine.name }
    {
        self.machine.class_units()
    }

    /// How many frames are open: arrays, objects and descriptors. The layers of descriptors that are kept beside them
    /// are at most one more.
    pub fn open_frames(&self) -> u64
        ensures is { result ≡ length self.now.machine.frames }
        ensures bounds { FramesAreBounded (G.told self.now.gate) result self.now.machine self.now.tally }
        ensures layers { length self.now.machine.layers ≤ result + 1 }
    {
        self.machine.depth() as u64
    }

    /// How many handles of the epoch are assigned before the token that is open or comes next.
    #[inline(always)]
    pub fn epoch_handles(&self) -> u32
        ensures is { result ≡ length self.now.machine.table.entries }
        ensures assigned { AreAssigned (G.told self.now.gate) result self.now.machine self.now.tally }
    {
        self.machine.handles()
    }

    /// The handles of the epoch that are assigned before the token that is open or comes next, and their classes.
    pub fn table(&self) -> &Table
        ensures { result.now ≡ self.now.machine.table }
    {
        self.machine.table()
    }
}
