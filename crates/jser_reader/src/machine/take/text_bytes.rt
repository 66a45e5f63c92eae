//! The bytes of a text: they are scanned, counted, and forgotten, but for the units of a checked name. A text is
//! refused at the first byte with which no text of its length goes on.
ghost use Rattle.std.specs.Prelude.{◌≡◌, ◌+◌, ◌<◌, ◌≤◌, ◌^◌, ◌++◌, length, true, false, None, vec_len, vec_capacity};
ghost use Rattle.jser_reader.specs.Readers.{is_checked};
ghost use Rattle.jser_reader.specs.Takes.{TakesFromFor};
ghost use Rattle.jser_reader.specs.TextTakes.{KeepsUnit, ScansByte, Scanned, Scans};

use crate::gate::Gate;
use crate::machine::Machine;
use crate::machine::flow::Flow;
use crate::machine::take::taken::Taken;
use crate::phase::{Phase, TextFor};
use crate::refusal::Reason;
use std::simd::prelude::*;

/// What came of the scan of some bytes.
#[derive(Clone, Copy)]
pub(crate) enum ScanEnd {
    /// All were scanned.
    All,
    /// The machine stopped at the last of so many.
    Stopped(usize),
}

/// How many units of a name are kept together.
const LANES: usize = 16;

/// How many are kept together where there are fewer.
const HALF: usize = 8;

/// Whether a text is a name that is judged when it ends.
fn is_checked(text: TextFor) -> bool
    ensures { result ≡ is_checked text }
{
    matches!(text, TextFor::ClassName | TextFor::InterfaceName)
}

/// Adds units of one byte each, where there is room for them.
fn add_few(name: &mut Vec<u16>, bytes: &[u8])
    requires { vec_len name.old + length bytes.now ≤ vec_capacity name.old }
    ensures { name.new.items ≡ name.old.items ++ bytes.now }
{
    'bytes: for byte in bytes {
        name.push_reserved(u16::from(*byte));
    }
}

/// Adds as many units of one byte each as there are lanes, where there is room for them.
#[inline(always)]
fn add_lanes<const N: usize>(name: &mut Vec<u16>, bytes: &[u8])
    requires few { N ≤ 64 }
    requires all { length bytes.now ≡ N }
    requires room { vec_len name.old + N ≤ vec_capacity name.old }
    ensures added { name.new.items ≡ name.old.items ++ bytes.now }
    ensures capacity { vec_capacity name.old ≤ vec_capacity name.new }
{
    let units = Simd::<u8, N>::from_slice(bytes).cast::<u16>();
    match name.extend_from_slice(&units.to_array()) {
        Ok(()) => (),
        Err(_) => unreachable!(),
    }
}

/// Adds units of one byte each: eight together if there are as many, the rest one by one.
#[inline(always)]
fn add_half(name: &mut Vec<u16>, bytes: &[u8])
    requires { vec_len name.old + length bytes.now ≤ vec_capacity name.old }
    ensures { name.new.items ≡ name.old.items ++ bytes.now }
{
    if bytes.len() < HALF {
        add_few(name, bytes);
        return;
    }
    let (front, rest) = bytes.split_at(HALF);
    add_lanes::<HALF>(name, front);
    add_few(name, rest);
}

/// Adds units of one byte each, many together, where there is room for them.
pub(crate) fn add_units(name: &mut Vec<u16>, bytes: &[u8])
    requires { vec_len name.old + length bytes.now ≤ vec_capacity name.old }
    ensures { name.new.items ≡ name.old.items ++ bytes.now }
{
    let mut rest = bytes;
    'loads: while rest.len() >= LANES {
        let (front, others) = rest.split_at(LANES);
        add_lanes::<LANES>(name, front);
        rest = others;
    }
    add_half(name, rest);
}

impl Machine {
    /// Keeps the unit of a checked name that a byte ended, if it ended one.
    #[tactic(auto, using(crate::proofs::TextScanLemmas::keeps_none, crate::proofs::TextScanLemmas::keeps_unit, crate::proofs::TextScanLemmas::no_room))]
    fn keep_unit(&mut self, unit: Option<u16>) -> Flow
        ensures { KeepsUnit unit result self.old self.new }
    {
        let Some(unit) = unit else {
            return Flow::On;
        };
        if self.name.push(unit).is_err() {
            return self.no_memory();
        }
        Flow::On
    }

    /// Scans the next byte of a checked name, counts it, and keeps the unit that it ends, if it ends one.
    #[tactic(auto, using(crate::proofs::TextScanLemmas::name_fault, crate::proofs::TextScanLemmas::name_goes_on))]
    fn scan_byte(&mut self, byte: u8) -> Flow
        requires checked { is_checked self.old.text ≡ true }
        requires within { 0 < self.old.scan.left }
        requires room { self.old.meter.at + 1 < 2 ^ 64 }
        ensures { ScansByte byte result self.old self.new }
    {
        self.at += 1;
        match self.scan.push(byte) {
            Ok(unit) => self.keep_unit(unit),
            Err(_) => self.refuse(Reason::BadText),
        }
    }

    /// Scans these bytes of a checked name: all of them, or up to the one at which the machine stops.
    #[tactic(auto, using(crate::proofs::TextScanLemmas::none_scanned, crate::proofs::TextScanLemmas::one_more, crate::proofs::TextScanLemmas::stops_at, crate::proofs::TextScanLemmas::all_scanned))]
    #[inline(never)]
    fn scan_name(&mut self, part: &[u8]) -> ScanEnd
        requires checked { is_checked self.old.text ≡ true }
        requires within { length part.now ≤ self.old.scan.left }
        requires room { self.old.meter.at + length part.now < 2 ^ 64 }
        ensures { Scans part.now result self.old self.new }
    {
        'bytes: for (index, byte) in part.iter().enumerate() {
            match self.scan_byte(*byte) {
                Flow::On => {}
                Flow::Stopped => return ScanEnd::Stopped(index + 1),
            }
        }
        ScanEnd::All
    }

    /// Scans these bytes of a checked name, where each of them is a unit of one byte and there is memory for them; else it
    /// does nothing, and answers false.
    fn scan_units(&mut self, part: &[u8]) -> bool
        requires checked { is_checked self.old.text ≡ true }
        requires within { length part.now ≤ self.old.scan.left }
        requires room { self.old.meter.at + length part.now < 2 ^ 64 }
        ensures scanned { result ≡ true → Scanned part.now self.old self.new }
        ensures nothing { result ≡ false → self.new ≡ self.old }
    {
        if self.name.reserve(part.len()).is_err() || !self.scan.push_plain(part) {
            return false;
        }
        add_units(&mut self.name, part);
        self.at += part.len() as u64;
        true
    }

    /// Scans these bytes of a text whose units are not kept, where each of them is a unit of one byte; else it does
    /// nothing, and answers false.
    #[inline(always)]
    fn scan_ascii(&mut self, part: &[u8]) -> bool
        requires plain { is_checked self.old.text ≡ false }
        requires within { length part.now ≤ self.old.scan.left }
        requires room { self.old.meter.at + length part.now < 2 ^ 64 }
        ensures scanned { result ≡ true → Scans part.now ScanEnd.All self.old self.new }
        ensures nothing { result ≡ false → self.new ≡ self.old }
    {
        if !self.scan.push_plain(part) {
            return false;
        }
        self.at += part.len() as u64;
        true
    }

    /// Scans these bytes of a text whose units are not kept: all of them, or up to the one at which the machine stops.
    #[tactic(auto, using(crate::proofs::TextScanLemmas::plain_scanned, crate::proofs::TextScanLemmas::plain_fault))]
    fn scan_plain(&mut self, part: &[u8]) -> ScanEnd
        requires plain { is_checked self.old.text ≡ false }
        requires within { length part.now ≤ self.old.scan.left }
        requires room { self.old.meter.at + length part.now < 2 ^ 64 }
        ensures { Scans part.now result self.old self.new }
    {
        match self.scan.push_all(part) {
            Ok(()) => {
                self.at += part.len() as u64;
                ScanEnd::All
            }
            Err(fault) => {
                let count = fault.accepted + 1;
                self.at += count as u64;
                self.refuse(Reason::BadText);
                ScanEnd::Stopped(count)
            }
        }
    }

    /// Scans the next bytes of the open text, and counts them: all of them, or up to the one at which the machine stops.
    #[tactic(auto, using(crate::proofs::TextScanLemmas::units_scan))]
    fn scan_part(&mut self, part: &[u8]) -> ScanEnd
        requires within { length part.now ≤ self.old.scan.left }
        requires room { self.old.meter.at + length part.now < 2 ^ 64 }
        ensures { Scans part.now result self.old self.new }
    {
        if !is_checked(self.text) {
            return self.scan_plain(part);
        }
        if self.scan_units(part) {
            return ScanEnd::All;
        }
        self.scan_name(part)
    }

    /// Takes bytes of the open text: as many as are left of it, or all of the piece.
    #[tactic(auto, using(crate::proofs::TextScanLemmas::text_stops, crate::proofs::TextScanLemmas::text_stays_open, crate::proofs::TextScanLemmas::text_ends))]
    #[inline(never)]
    pub(crate) fn take_text<G: Gate>(&mut self, gate: &G, piece: &[u8]) -> Taken
        requires phase { self.old.phase ≡ Phase.Text }
        requires some { 0 < length piece.now }
        requires room { self.old.meter.at + length piece.now < 2 ^ 64 }
        ensures { TakesFromFor (G.told gate.now) result piece.now self.old self.new }
    {
        let used = self.scan.left().min(piece.len() as u64) as usize;
        let (part, _) = piece.split_at(used);
        if let ScanEnd::Stopped(count) = self.scan_part(part) {
            return Taken::Stopped(count);
        }
        if self.scan.left() > 0 {
            return Taken::Part(piece.len());
        }
        let flow = self.text_ended(gate);
        Taken::after(used.max(1), flow)
    }

    /// Takes bytes of the open text: as many as are left of it, or all of the piece. Where the units of the text are not
    /// kept and each byte is one, that is found in line.
    #[tactic(auto, using(crate::proofs::TextScanLemmas::text_stays_open, crate::proofs::TextScanLemmas::text_ends))]
    #[inline(always)]
    pub(crate) fn take_text_in_line<G: Gate>(&mut self, gate: &G, piece: &[u8]) -> Taken
        requires phase { self.old.phase ≡ Phase.Text }
        requires some { 0 < length piece.now }
        requires room { self.old.meter.at + length piece.now < 2 ^ 64 }
        ensures { TakesFromFor (G.told gate.now) result piece.now self.old self.new }
    {
        if is_checked(self.text) {
            return self.take_text(gate, piece);
        }
        let used = self.scan.left().min(piece.len() as u64) as usize;
        let (part, _) = piece.split_at(used);
        if !self.scan_ascii(part) {
            return self.take_text(gate, piece);
        }
        if self.scan.left() > 0 {
            return Taken::Part(piece.len());
        }
        let flow = self.text_done_in_line(gate);
        Taken::after(used.max(1), flow)
    }
}
