//! What is known of good streams.
ghost use Rattle.std.specs.Prelude.{◌≡◌, [], ℕ, List, true, IfErr, IfOk, OnOk, string_bytes};
ghost use Rattle.jser_prim.specs.ModifiedUtf8.{utf16_units};
ghost use Rattle.jser_filter.specs.Pieces.{pieces_of};
ghost use Rattle.jser_suggest.specs.Answers.{IsNoSample, IsNoSampleFound, IsRaised, Learns, LearnsFound};
ghost use Rattle.jser_suggest.specs.Samples.{AreKnown};
ghost use Rattle.jser_suggest.specs.Suggested.{suggested, suggested_text, widened, is_one_line};

use crate::names::gather;
use crate::text::{text_of, times};
use jser_names::{Found, Keyed, names_in};
use jser_reader::Stop;
use std::alloc::{AllocError, Global};
use std::collections::BTreeSet;
use std::marker::Model;

/// Why a stream is no sample.
#[derive(Debug, Drop)]
pub enum SampleFault {
    /// The bytes are no stream within the greatest limits, with the first fault; or memory ran out. Never `Spent`.
    Stop(Stop),
    /// No pattern of a filter can safely name this class: its name is empty, or has a unit that is no letter or digit and none
    /// of `_`, `$`, `.` and `-`. Such a unit may be read as a part of the filter, or move a terminal. These are its UTF-16 units.
    Unwritable(Vec<u16>),
}

/// What good streams have: the greatest of their counts and array lengths, and the names of their classes, each once, in
/// the order of their bytes in UTF-8.
#[derive(Drop)]
pub struct Samples {
    bytes: u64,
    refs: u64,
    depth: u64,
    longest: u64,
    names: BTreeSet<String>,
}

impl Model for Samples {
    ghost use Rattle.jser_suggest.specs.Suggested.{Known};
    ghost use Rattle.jser_suggest.specs.Gathering.{name_list};

    ghost Value = { Known };

    ghost view = { λ a. record { bytes = a.bytes; refs = a.refs; depth = a.depth; array = a.longest; names = name_list a.names } };
}

impl Samples {
    /// No streams. Takes no memory.
    pub fn new(alloc: Global) -> Samples
        ensures { AreKnown [] result }
    {
        Samples {
            bytes: 0,
            refs: 0,
            depth: 0,
            longest: 0,
            names: BTreeSet::new(alloc),
        }
    }

    /// Takes one good stream more. It goes once along the stream, and keeps the names that are new. They are counted under a fixed
    /// key: for a stream that someone may have written to be slow, there is `add_found`.
    ///
    /// # Errors
    ///
    /// `SampleFault`, with the reason. Then some of the stream's names may have been kept: begin anew.
    #[tactic(auto, using(crate::proofs::KnownLemmas::learns_so, crate::proofs::GatherLemmas::fault_so))]
    pub fn add(&mut self, alloc: Global, bytes: &[u8]) -> Result<(), SampleFault>
        ensures learns { OnOk result (Learns bytes.now self.old self.new) }
        ensures fault { IfErr result (IsNoSample bytes.now) }
    {
        match names_in(alloc, Keyed::fixed(), bytes) {
            Ok(found) => self.add_found(alloc, &found),
            Err(stop) => Err(SampleFault::Stop(stop)),
        }
    }

    /// Takes what was found along one good stream more, such as `found_of` of `jser_names` finds of a source. It keeps the names
    /// that are new.
    ///
    /// # Errors
    ///
    /// `SampleFault`, with the reason. Then some of the stream's names may have been kept: begin anew.
    #[tactic(auto, using(crate::proofs::GatherLemmas::no_sample))]
    pub fn add_found(&mut self, alloc: Global, found: &Found) -> Result<(), SampleFault>
        ensures learns { OnOk result (LearnsFound found.now self.old self.new) }
        ensures fault { IfErr result (IsNoSampleFound found.now) }
    {
        match gather(alloc, &found.names, &mut self.names) {
            Ok(()) => {
                self.raise(found);
                Ok(())
            }
            Err(fault) => Err(fault),
        }
    }

    /// The text of the least filter that admits all of the streams, in one line:
    /// `maxbytes=B;maxrefs=R;maxdepth=D;maxarray=A;NAME;..;!*`.
    ///
    /// `laws` says what it promises. Takes memory for the text.
    pub fn text(&self, alloc: Global) -> Result<String, AllocError>
        ensures text { IfOk result (λ text. utf16_units (string_bytes text) ≡ suggested_text self.now) }
        ensures one_line { (streams : List (List ℕ)) → AreKnown streams self.now → IfOk result (λ text. is_one_line (utf16_units (string_bytes text)) ≡ true) }
        ensures pieces { (streams : List (List ℕ)) → AreKnown streams self.now → IfOk result (λ text. pieces_of (utf16_units (string_bytes text)) ≡ suggested self.now) }
    {
        text_of(
            alloc,
            self.bytes,
            self.refs,
            self.depth,
            self.longest,
            &self.names,
        )
    }

    /// The text of that filter with each limit so many times as high, so that the next good stream is not refused for one
    /// element more; at most 9,223,372,036,854,775,807, the greatest limit of a filter.
    ///
    /// `laws::admits_widened` says what it promises from one time on. Takes memory for the text.
    pub fn text_with_slack(&self, alloc: Global, slack: u64) -> Result<String, AllocError>
        ensures text { IfOk result (λ text. utf16_units (string_bytes text) ≡ suggested_text (widened slack self.now)) }
        ensures one_line { (streams : List (List ℕ)) → AreKnown streams self.now → IfOk result (λ text. is_one_line (utf16_units (string_bytes text)) ≡ true) }
        ensures pieces { (streams : List (List ℕ)) → AreKnown streams self.now → IfOk result (λ text. pieces_of (utf16_units (string_bytes text)) ≡ suggested (widened slack self.now)) }
    {
        text_of(
            alloc,
            times(slack, self.bytes),
            times(slack, self.refs),
            times(slack, self.depth),
            times(slack, self.longest),
            &self.names,
        )
    }

    /// Raises the counts to those of a stream.
    fn raise(&mut self, found: &Found)
        ensures { IsRaised found.now self.old self.new }
    {
        self.bytes = self.bytes.max(found.totals.bytes);
        self.refs = self.refs.max(found.totals.refs);
        self.depth = self.depth.max(found.totals.depth);
        self.longest = self.longest.max(u64::from(found.longest));
    }
}
