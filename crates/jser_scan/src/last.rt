//! The last bytes of a stream, in which the name of a refused class is looked up; or all its bytes.
ghost use Rattle.std.specs.Prelude.{◌≡◌, ◌⊎◌, ◌++◌, ◌+◌, ◌-◌, ◌<◌, ◌^◌, ◌≤◌, ℕ, List, [], length, take, drop, Ok, None, IfOk, OnOk, IfSome};

use std::alloc::{AllocError, Global};
use std::marker::Model;

/// How many of the last bytes are kept at least: a text with its length.
const MOST: usize = 65_537;

/// The last bytes of a stream: at least 65,537 of them, or all. Where there is no memory for them none are kept, and that is
/// remembered.
#[derive(Drop)]
pub struct LastBytes {
    /// How many newer bytes there are before older ones are let go.
    most: usize,
    older: Vec<u8>,
    newer: Vec<u8>,
    end: u64,
    ran_out: bool,
}

impl Model for LastBytes {
    ghost use Rattle.std.specs.Prelude.{◌++◌};
    ghost use Rattle.jser_scan.specs.LastSeen.{LastSeen};

    ghost Value = { LastSeen };

    ghost view = { λ a. record { kept = a.older.items ++ a.newer.items; end = a.end } };
}

impl LastBytes {
    ghost use Rattle.jser_scan.specs.LastSeen.{AreLast, LetsGo, StandsBetween};

    /// The last bytes of a stream of none. Takes no memory.
    pub fn new(alloc: Global) -> LastBytes
        ensures { AreLast result [] }
    {
        LastBytes::with(alloc, MOST)
    }

    /// All bytes of a stream of none. Takes no memory.
    pub(crate) fn all(alloc: Global) -> LastBytes
        ensures { AreLast result [] }
    {
        LastBytes::with(alloc, usize::MAX)
    }

    /// The last bytes of a stream of none, of which older ones are let go where there are so many newer ones.
    fn with(alloc: Global, most: usize) -> LastBytes
        ensures { AreLast result [] }
    {
        LastBytes {
            most,
            older: Vec::new(alloc),
            newer: Vec::new(alloc),
            end: 0,
            ran_out: false,
        }
    }

    /// Begins another stream. Keeps the memory that it has.
    pub fn clear(&mut self)
        ensures { AreLast self.new [] }
    {
        self.older.clear();
        self.newer.clear();
        self.end = 0;
        self.ran_out = false;
    }

    /// Whether there was no memory for the bytes.
    pub(crate) fn ran_out(&self) -> bool {
        self.ran_out
    }

    /// All bytes of the stream, if they are all still kept.
    #[tactic(auto, using(crate::proofs::LastLemmas::all_kept))]
    pub fn whole(&self) -> Option<&[u8]>
        ensures { IfSome result (λ whole. (bytes : List ℕ) → AreLast self.now bytes → length bytes < 2 ^ 64 → whole.now ≡ bytes) }
    {
        if self.older.is_empty() && self.newer.len() as u64 == self.end {
            Some(self.newer.as_slice())
        } else {
            None
        }
    }

    /// The bytes from one place of the stream to another, if they are all still kept.
    #[tactic(auto)]
    pub(crate) fn part(
        &self,
        alloc: Global,
        start: u64,
        end: u64,
    ) -> Result<Option<Vec<u8>>, AllocError>
        ensures stands { IfOk result (λ found. IfSome found (λ part. (bytes : List ℕ) → AreLast self.now bytes → length bytes < 2 ^ 64
            → StandsBetween bytes start end part.items)) }
        ensures none { result ≡ Ok None → (bytes : List ℕ) → AreLast self.now bytes → length bytes < 2 ^ 64
            → (start + length self.now.kept < length bytes) ⊎ ((part : List ℕ) → StandsBetween bytes start end part → ⊥) }
    {
        let older = self.older.len() as u64;
        let newer = self.newer.len() as u64;
        let Some(first) = self.end.checked_sub(older.saturating_add(newer)) else {
            return Ok(None);
        };
        if start < first || end < start || end > self.end {
            return Ok(None);
        }
        let mut part = Vec::new(alloc);
        push_part(&mut part, &self.older, start - first, end - first)?;
        push_part(
            &mut part,
            &self.newer,
            (start - first).saturating_sub(older),
            (end - first).saturating_sub(older),
        )?;
        Ok(Some(part))
    }

    /// Keeps the next bytes of the stream.
    #[tactic(auto, using(crate::proofs::LastLemmas::kept_more, crate::proofs::LastLemmas::kept_none))]
    pub fn keep(&mut self, bytes: &[u8])
        ensures { (before : List ℕ) → AreLast self.old before → AreLast self.new (before ++ bytes.now) }
    {
        self.let_go();
        self.end = self.end.saturating_add(bytes.len() as u64);
        if self.newer.extend_from_slice(bytes).is_err() {
            self.older.clear();
            self.newer.clear();
            self.ran_out = true;
        }
    }

    /// Lets the older bytes go where there are enough newer ones.
    #[tactic(auto, using(crate::proofs::LastLemmas::gone_none, crate::proofs::LastLemmas::gone_older))]
    fn let_go(&mut self)
        ensures { LetsGo self.old self.new }
    {
        if self.newer.len() >= self.most {
            std::mem::swap(&mut self.older, &mut self.newer);
            self.newer.clear();
        }
    }
}

/// Adds the bytes from one place of a piece to another, as many as it has there.
fn push_part(part: &mut Vec<u8>, piece: &[u8], from: u64, to: u64) -> Result<(), AllocError>
    requires { from ≤ to }
    ensures { OnOk result (part.new.items ≡ part.old.items ++ take (to - from) (drop from piece.now)) }
{
    let len = piece.len() as u64;
    let (front, _) = piece.split_at(to.min(len) as usize);
    let (_, wanted) = front.split_at(from.min(len) as usize);
    part.extend_from_slice(wanted)
}
