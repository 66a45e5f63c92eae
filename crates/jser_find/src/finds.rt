//! The streams in some bytes, one after another.
ghost use Rattle.std.specs.Prelude.{◌≡◌, ◌+◌, ◌≤◌, List, IfOk, IfSome, OnErr, [], length};
ghost use Rattle.jser_find.specs.declared.finder.Find.{Find};
ghost use Rattle.jser_find.specs.Finds.{FindsNext, HasFound, IsFirstHeader, NextLiesIn, Spends};

use crate::budget::Budget;
use crate::finder::{Find, first_header, stream_in};
use crate::next::Next;
use std::alloc::{AllocError, Global};
use std::marker::Model;

/// The streams in some bytes, one after another. Contracts see the bytes, and where the search goes on.
#[derive(Drop)]
pub struct Finds<'b> {
    bytes: &'b [u8],
    most: usize,
    place: usize,
}

impl<'b> Model for Finds<'b> {
    ghost use Rattle.std.specs.Prelude.{◌≤◌, length};
    ghost use Rattle.jser_find.specs.Finds.{Searching};

    ghost Value = { Searching };

    ghost view = { λ a. record { bytes = a.bytes.now; most = a.most; place = a.place } };

    ghost invariant = { λ a. a.place ≤ length a.bytes.now };
}

impl<'b> Finds<'b> {
    /// The streams in these bytes, of each of which at most `most` bytes are read.
    pub fn new(bytes: &'b [u8], most: usize) -> Finds<'b>
        ensures bytes { result.bytes ≡ bytes.now }
        ensures most { result.most ≡ most }
        ensures begins { HasFound result [] }
    {
        Finds {
            bytes,
            most,
            place: 0,
        }
    }

    /// Where the search goes on: behind the stream that was found last.
    pub fn place(&self) -> usize
        ensures { result ≡ self.now.place }
    {
        self.place
    }

    /// Where the next header outside of the streams before it is. `None` where there is no more.
    #[tactic(auto, using(crate::proofs::FindsLemmas::header_here, crate::proofs::FindsLemmas::no_header_here))]
    pub fn header(&self) -> Option<usize>
        ensures first { IsFirstHeader self.now.bytes self.now.place result }
        ensures inside { IfSome result (λ at. at + 4 ≤ length self.now.bytes) }
    {
        let (_, rest) = self.bytes.split_at(self.place);
        match first_header(rest) {
            Some(at) => Some(self.place + at),
            None => None,
        }
    }

    /// The next header outside of the streams before it, with the longest stream that begins there and has at most `most` bytes,
    /// whatever classes it names; or the first header of which the budget is too small to know that.
    ///
    /// It reads each byte once up to the header, and from there on those that decide, which it takes off the budget, and no more
    /// than the budget has. What it allocates is what a check does.
    ///
    /// # Errors
    ///
    /// `AllocError` where memory ran out. Then the search stays where it is.
    #[tactic(auto, using(crate::proofs::FindsLemmas::found_one, crate::proofs::FindsLemmas::found_all, crate::proofs::FindsLemmas::find_lies))]
    pub fn next(&mut self, alloc: Global, budget: &mut Budget) -> Result<Next<Find>, AllocError>
        ensures finds { (finds : List Find) → HasFound self.old finds → IfOk result (FindsNext self.old self.new finds) }
        ensures spends { IfOk result (Spends self.old budget.old.left budget.new.left) }
        ensures inside { IfOk result (NextLiesIn self.old.bytes) }
        ensures bytes { self.new.bytes ≡ self.old.bytes }
        ensures most { self.new.most ≡ self.old.most }
        ensures stays { OnErr result ((self.new ≡ self.old) × (budget.new ≡ budget.old)) }
    {
        let Some(from) = self.header() else {
            return Ok(Next::End);
        };
        let (_, there) = self.bytes.split_at(from);
        match stream_in(alloc, there, self.most, budget.left) {
            Ok(Some(whole)) => {
                budget.left -= whole.read;
                self.place = from + whole.len.max(1);
                Ok(Next::Found(Find {
                    from,
                    len: whole.len,
                }))
            }
            Ok(None) => {
                budget.left = 0;
                Ok(Next::Spent(from))
            }
            Err(error) => Err(error),
        }
    }
}
