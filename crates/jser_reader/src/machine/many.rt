//! The loop over whole values: contents and values of which all bytes are in the piece are taken one after another, with no
//! look at the tokens between their bytes. What it counts is written back once, at its end. Any doubt ends it before the value in
//! question has changed anything, so that the tokens decide, one by one.
ghost use Rattle.std.specs.Prelude.{◌≡◌, ◌+◌, ◌^◌, ◌<◌, ◌≤◌, true, length, Some};
ghost use Rattle.jser_verdict.specs.Gates.{Gate as ToldGate, IsGate};
ghost use Rattle.jser_reader.specs.Handlers.{Comes};
ghost use Rattle.jser_reader.specs.Many.{phase_on, seen_at, tally_at, counts_of, IsAtRest, HoldsNext, Turns, Ends};
ghost use Rattle.jser_reader.specs.Passes.{Passes, CanPass};
ghost use Rattle.jser_reader.specs.Steps.{Kept, after_value};

use crate::frame::Frame;
use crate::machine::Machine;
use crate::machine::many::counts::{Begun, Counts, Turn};
use crate::phase::Phase;
use crate::tally::Tally;
use jser_grammar::wire::{
    TC_ARRAY, TC_BLOCKDATA, TC_ENDBLOCKDATA, TC_ENUM, TC_NULL, TC_OBJECT, TC_REFERENCE, TC_STRING,
};

mod arrays;
mod constants;
mod counts;
mod ends;
mod notes;
mod objects;
mod plain;
mod sections;

impl Machine {
    /// Where a content or a value comes next, by what is on top.
    #[inline(always)]
    pub(crate) fn phase_on_top(&self) -> Phase
        ensures { result ≡ phase_on self.now.frames }
    {
        match self.frames.top() {
            None => Phase::Top,
            Some(Frame::Elements { .. } | Frame::Fields { .. }) => Phase::Value,
            Some(Frame::Notes { .. } | Frame::ExternalNotes | Frame::Descriptor { .. }) =>
                Phase::Note,
        }
    }

    /// Whether the loop may begin here: a content or a value comes next.
    #[inline(always)]
    fn is_at_rest(&self) -> bool
        ensures { result ≡ true → IsAtRest self.now }
    {
        let next = self.phase_on_top();
        self.from == self.at && self.phase == next
    }

    /// The counters at the beginning of the loop.
    #[inline(always)]
    fn counts(&self, tally: &Tally) -> Counts
        ensures { result ≡ counts_of self.now tally.now }
    {
        Counts {
            used: 0,
            refs: self.refs,
            items: Begun { count: 0, last: 0 },
            depth: self.frames.len() as u64,
            deepest: tally.depth,
        }
    }

    /// Takes the content or value that comes next, where it is common and its bytes are there.
    #[tactic(auto, using(crate::proofs::ManyPlain::nothing_done))]
    #[inline(always)]
    fn value_at(&mut self, counts: &mut Counts, piece: &[u8]) -> Turn
        requires holds { HoldsNext piece.now self.old counts.old }
        requires room { counts.old.used + 6 ≤ length piece.now }
        ensures { Turns piece.now result self.old counts.old self.new counts.new }
    {
        match piece[counts.used] {
            TC_NULL => self.null_at(counts, piece),
            TC_REFERENCE => self.reference_at(counts, piece),
            TC_STRING => self.string_at(counts, piece),
            TC_OBJECT => self.object_at(counts, piece),
            TC_ARRAY => self.array_at(counts, piece),
            TC_ENUM => self.constant_at(counts, piece),
            TC_BLOCKDATA => self.block_at(counts, piece),
            TC_ENDBLOCKDATA => self.notes_end_at(counts, piece),
            _ => Turn::Nothing,
        }
    }

    /// A turn of the loop, with the end of what has ended.
    #[inline(always)]
    fn turn(&mut self, counts: &mut Counts, piece: &[u8]) -> Turn
        requires holds { HoldsNext piece.now self.old counts.old }
        requires room { counts.old.used + 6 ≤ length piece.now }
        ensures { Turns piece.now result self.old counts.old self.new counts.new }
    {
        match self.value_at(counts, piece) {
            Turn::Nothing => Turn::Nothing,
            Turn::Next => Turn::Next,
            Turn::Ended => self.end_value(counts, piece),
        }
    }

    /// Writes back what was counted.
    #[inline(always)]
    fn write_back(&mut self, tally: &mut Tally, counts: Counts)
        requires used { self.old.meter.at + counts.used < 2 ^ 64 }
        requires last { counts.items.last ≤ counts.used }
        ensures machine { self.new ≡ seen_at self.old counts }
        ensures tally { tally.old.contents + counts.items.count < 2 ^ 64 → tally.new ≡ tally_at self.old.meter.at tally.old counts }
    {
        tally.begun = if counts.items.count == 0 {
            tally.begun
        } else {
            self.at + counts.items.last as u64
        };
        tally.contents = tally.contents.wrapping_add(counts.items.count);
        tally.depth = counts.deepest;
        self.at += counts.used as u64;
        self.from = self.at;
        self.refs = counts.refs;
        self.phase = self.phase_on_top();
    }

    /// Takes contents and values from the front of the piece, as many as are common and have all their bytes there, and returns
    /// how many bytes they are.
    #[inline(never)]
    pub(crate) fn pass_many(&mut self, tally: &mut Tally, piece: &[u8]) -> usize
        requires can { CanPass self.old piece.now }
        requires some { 0 < length piece.now }
        ensures passes { (gate : ToldGate) → IsGate gate → Passes gate piece.now (Some result) self.old tally.old self.new tally.new }
        ensures within { result ≤ length piece.now }
        ensures nothing { result ≡ 0 → (self.new ≡ self.old) × (tally.new ≡ tally.old) }
    {
        if tally.depth > u64::from(self.limits.depth) {
            return 0;
        }
        if !self.is_at_rest() {
            return 0;
        }
        let mut counts = self.counts(tally);
        let last = piece.len().saturating_sub(5);
        'values: while counts.used < last {
            match self.turn(&mut counts, piece) {
                Turn::Next => {}
                Turn::Ended => {
                    self.write_back(tally, counts);
                    self.value_done();
                    return counts.used;
                }
                Turn::Nothing => {
                    if counts.used == 0 {
                        return 0;
                    }
                    self.write_back(tally, counts);
                    return counts.used;
                }
            }
        }
        if counts.used == 0 {
            return 0;
        }
        self.write_back(tally, counts);
        counts.used
    }
}
