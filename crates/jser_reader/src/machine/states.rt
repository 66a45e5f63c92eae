//! The machine before its first token and after its last: made, stopped, at the limit of bytes, spent.
ghost use Rattle.std.specs.Prelude.{◌≡◌, ◌+◌, ◌-◌, ◌<◌, ◌≤◌, ◌^◌, true, false, length};
ghost use Rattle.jser_reading.specs.TokensFromBytes.{tag_from};
ghost use Rattle.jser_reader.specs.Handlers.{StopsWith, refusal};
ghost use Rattle.jser_reader.specs.Walks.{IsNew};
ghost use Rattle.jser_reader.specs.Tallies.{may_count, with_token, EpochFits, CountsNext, begun_next, tally_stopped, totals_of, whole_of};
ghost use Rattle.jser_reader.specs.Passes.{CanPass};
ghost use Rattle.jser_reader.specs.States.{HasLimits, AnswersStop, IsWithin, exceeded};

use crate::cut::Cut;
use crate::field_list::FieldList;
use crate::frame::{Owner, Role};
use crate::gate::Limits;
use crate::item::Totals;
use crate::machine::Machine;
use crate::phase::{Phase, TextFor};
use crate::refusal::{Reason, Refusal, Stop};
use crate::stack::Stack;
use crate::tag::{Tag, tag_of};
use crate::tally::Tally;
use jser_prim::TextScan;
use jser_table::{KeptLayer, LayerKind, Table};
use std::alloc::Global;

impl Machine {
    /// A machine that has taken nothing, with these limits. Takes no memory.
    #[tactic(auto, using(crate::proofs::LayerLemmas::no_layers))]
    pub(crate) fn new(alloc: Global, limits: Limits) -> Machine
        ensures new { IsNew result }
        ensures limits { HasLimits limits result }
    {
        Machine {
            alloc,
            phase: Phase::Header,
            at: 0,
            from: 0,
            left: 0,
            refs: 0,
            limits,
            frames: Stack::new(alloc),
            table: Table::new(alloc, limits.handles),
            owner: Owner::Object,
            elements: None,
            role: Role::Value,
            kind: LayerKind::Other,
            fields: FieldList::new(alloc),
            interfaces: 0,
            layer: KeptLayer::bare(LayerKind::Other, 0),
            outer: Vec::new(alloc),
            text: TextFor::Value,
            scan: TextScan::new(0),
            name: Vec::new(alloc),
            stop: Stop::Spent,
            cut: Cut::new(),
        }
    }

    /// Makes it a machine that has taken nothing, with these limits. It keeps its memory. Members not set here are written before
    /// anything depends on them.
    #[tactic(auto, using(crate::proofs::LayerLemmas::no_layers))]
    pub(crate) fn restart(&mut self, limits: Limits)
        ensures new { IsNew self.new }
        ensures limits { HasLimits limits self.new }
    {
        self.phase = Phase::Header;
        self.at = 0;
        self.from = 0;
        self.refs = 0;
        self.limits = limits;
        self.frames.clear();
        self.outer.clear();
        self.table.restart(limits.handles);
    }

    /// Whether it has stopped.
    #[inline(always)]
    pub(crate) fn is_stopped(&self) -> bool
        ensures stopped { result ≡ true → self.now.phase ≡ Phase.Stopped }
        ensures goes_on { result ≡ false → self.now.phase ≡ Phase.Stopped → ⊥ }
    {
        self.phase == Phase::Stopped
    }

    /// Why it has stopped. That memory ran out is answered once; then it is spent.
    #[inline(never)]
    pub(crate) fn answer(&mut self) -> Stop
        ensures { AnswersStop result self.old self.new }
    {
        let stop = self.stop;
        if stop == Stop::OutOfMemory {
            self.stop = Stop::Spent;
        }
        stop
    }

    /// The front of the piece that is within the limit of bytes.
    #[inline(always)]
    pub(crate) fn within<'p>(&self, piece: &'p [u8]) -> &'p [u8]
        ensures { IsWithin self.now piece.now result.now }
    {
        let room = self.limits.bytes.saturating_sub(self.at);
        let (front, _) = piece.split_at(room.min(piece.len() as u64) as usize);
        front
    }

    /// Whether all of the piece is within the limit of bytes.
    #[inline(always)]
    pub(crate) fn has_room(&self, piece: &[u8]) -> bool
        ensures { result ≡ true → CanPass self.now piece.now }
    {
        piece.len() as u64 <= self.limits.bytes.saturating_sub(self.at)
    }

    /// One byte more than the limit has come.
    #[inline(never)]
    pub(crate) fn exceed(&mut self, tally: &mut Tally) -> Stop
        ensures stops { self.old.meter.at + 1 < 2 ^ 64 → (result ≡ exceeded self.old.meter) × StopsWith (exceeded self.old.meter) self.old self.new }
        ensures tally { tally.new ≡ tally_stopped self.old tally.old }
    {
        self.keep_whole(tally);
        self.at = self.at.saturating_add(1);
        self.refuse(Reason::BytesExceeded);
        self.stop
    }

    /// Updates the tally for a tag: the depth for a value's tag, the handles of earlier epochs for a reset.
    #[tactic(auto, using(crate::proofs::CountSteps::counts_end, crate::proofs::CountSteps::counts_exception, crate::proofs::CountSteps::counts_other))]
    #[inline(always)]
    fn count_tag(&self, tally: &mut Tally, tag: u8)
        ensures next { EpochFits self.now (tag_from tag) tally.old → tally.new ≡ with_token self.now (tag_from tag) tally.old }
        ensures begun { tally.new.begun ≡ tally.old.begun }
    {
        match tag_of(tag) {
            Some(Tag::Value(_)) => tally.depth = tally.depth.max(self.frames.len() as u64 + 1),
            Some(Tag::Reset) => {
                tally.earlier = tally.earlier.wrapping_add(u64::from(self.table.count()));
            }
            Some(Tag::Block(_)) => {}
            Some(Tag::EndBlockData) => {}
            Some(Tag::Exception) => {}
            None => {}
        }
    }

    /// Counts the token that comes next, of which this is the first byte that is taken.
    #[inline(always)]
    pub(crate) fn count(&self, tally: &mut Tally, byte: u8)
        ensures next { CountsNext self.now byte tally.old tally.new }
        ensures begun { tally.new.begun ≡ begun_next self.now tally.old }
        ensures quiet { may_count self.now.phase ≡ false → tally.new ≡ tally.old }
    {
        if self.phase.is_quiet() {
            return;
        }
        let at_top = self.phase == Phase::Top;
        self.count_tag(tally, byte);
        if !at_top {
            return;
        }
        tally.contents = tally.contents.wrapping_add(1);
        tally.begun = self.at;
    }

    /// Called when the reader ends: fixes `begun`, so that `whole` keeps its answer.
    #[inline(always)]
    pub(crate) fn keep_whole(&self, tally: &mut Tally)
        ensures { tally.new ≡ tally_stopped self.now tally.old }
    {
        tally.begun = self.whole(*tally);
    }

    /// What comes next, or is open.
    #[inline(always)]
    pub(crate) fn phase(&self) -> Phase
        ensures { result ≡ self.now.phase }
    {
        self.phase
    }

    /// How many bytes were taken.
    #[inline(always)]
    pub(crate) fn at(&self) -> u64
        ensures { result ≡ self.now.meter.at }
    {
        self.at
    }

    /// How many handles of the epoch are assigned.
    #[inline(always)]
    pub(crate) fn handles(&self) -> u32
        ensures { result ≡ length self.now.table.entries }
    {
        self.table.count()
    }

    /// The handles of the epoch.
    pub(crate) fn table(&self) -> &Table
        ensures { result.now ≡ self.now.table }
    {
        &self.table
    }

    /// Whether the stream may end: the next token is a tag at the top.
    pub(crate) fn is_at_top(&self) -> bool
        ensures top { result ≡ true → self.now.phase ≡ Phase.Top }
        ensures inside { result ≡ false → self.now.phase ≡ Phase.Top → ⊥ }
    {
        self.phase == Phase::Top
    }

    /// The input has ended within a token, or where another has to come.
    pub(crate) fn truncate(&mut self) -> Stop
        ensures result { result ≡ Stop.Refused record { from_byte = self.old.meter.from; to_byte = self.old.meter.at; reason = Reason.Truncated } }
        ensures stops { StopsWith (refusal self.old.meter Reason.Truncated) self.old self.new }
    {
        self.refuse(Reason::Truncated);
        self.stop
    }

    /// Nothing more is taken or answered.
    pub(crate) fn end(&mut self)
        ensures { StopsWith Stop.Spent self.old self.new }
    {
        self.stop = Stop::Spent;
        self.phase = Phase::Stopped;
    }

    /// The counts of what was read, with those that the tally keeps.
    pub(crate) fn totals(&self, tally: Tally) -> Totals
        ensures { tally.earlier + length self.now.table.entries < 2 ^ 64 → result ≡ totals_of self.now tally }
    {
        Totals {
            bytes: self.at,
            contents: tally.contents,
            refs: self.refs,
            depth: tally.depth,
            handles: tally.earlier.saturating_add(u64::from(self.table.count())),
        }
    }

    /// How many of the bytes that it took are whole contents, with what the tally keeps.
    pub(crate) fn whole(&self, tally: Tally) -> u64
        ensures { result ≡ whole_of self.now tally }
    {
        if self.is_at_top() {
            return self.at;
        }
        tally.begun
    }

    /// How many frames there are.
    #[tactic(auto, using(crate::proofs::LayerLemmas::layers_are_bounded))]
    pub(crate) fn depth(&self) -> usize
        ensures frames { result ≡ length self.now.frames }
        ensures layers { length self.now.layers ≤ result + 1 }
    {
        self.frames.len()
    }
}
