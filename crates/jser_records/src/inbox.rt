//! What came from a source and waits to be taken, in room that does not grow.
ghost use Rattle.std.specs.Prelude.{◌≡◌, ◌≤◌, ◌<◌, ◌+◌, ◌-◌, ◌++◌, [], length, min, take, drop, IfSome, IfOk, OnOk, OnErr, Ok, None, true, false};
ghost use Rattle.std.specs.Io.KnownBytes.{IsAtEnd, ReadConsumes};
ghost use Rattle.jser_records.specs.Arriving.{ComesMore, HasEnded, HasNone, IsBefore, Stays, room_size};

use jser_prim::{Failed, Source};
use memchr::memchr;
use std::alloc::{AllocError, Global};
use std::marker::Model;

/// How many bytes wait at most. A KEY of 65,535 bytes and the beginning of its value fit.
pub(crate) const ROOM: usize = 131_072;

/// What came from a source and waits to be taken.
#[derive(Drop)]
pub(crate) struct Inbox<'s, R: Source> {
    source: &'s mut R,
    room: Vec<u8>,
    start: usize,
    end: usize,
    /// The byte that is looked for.
    sought: u8,
    /// How many of the bytes that wait are known to be other ones.
    searched: usize,
    is_over: bool,
}

impl<'s, R: Source> Model for Inbox<'s, R> {
    ghost use Rattle.jser_records.specs.Arriving.{Arriving, Holds, view_of};

    ghost Value = { Arriving };

    ghost view = { λ a. view_of (R.to_come a.source.now) a.room.items a.start a.end a.sought a.is_over };

    ghost invariant = { λ a. Holds (R.to_come a.source.now) a.room.items a.start a.end a.sought a.searched a.is_over };
}

impl<'s, R: Source> Inbox<'s, R> {
    /// Nothing waits so far. This byte is looked for.
    #[tactic(auto, using(crate::proofs::RoomLemmas::room_empty))]
    pub(crate) fn new(
        alloc: Global,
        source: &'s mut R,
        sought: u8,
    ) -> Result<Inbox<'s, R>, AllocError>
        ensures begins { IfOk result (λ inbox. inbox ≡ record { waiting = []; to_come = R.to_come source.old; sought = sought; is_over = false }) }
    {
        let room = vec![in alloc; 0u8; ROOM]?;
        Ok(Inbox {
            source,
            room,
            start: 0,
            end: 0,
            sought,
            searched: 0,
            is_over: false,
        })
    }

    /// What waits.
    pub(crate) fn waiting(&self) -> &[u8]
        ensures { result.now ≡ self.now.waiting }
    {
        let (front, _) = self.room.split_at(self.end);
        let (_, waiting) = front.split_at(self.start);
        waiting
    }

    /// The first bytes of what waits, as many as are asked for if so many wait.
    pub(crate) fn front(&self, count: usize) -> &[u8]
        ensures { result.now ≡ take count self.now.waiting }
    {
        let waiting = self.waiting();
        let (front, _) = waiting.split_at(count.min(waiting.len()));
        front
    }

    /// Goes past the first bytes of what waits.
    pub(crate) fn pass(&mut self, count: usize)
        ensures { self.new ≡ record self.old { waiting = drop count self.old.waiting } }
    {
        self.start += count.min(self.end - self.start);
        self.searched = 0;
    }

    /// How many bytes wait before the first that is looked for. It looks at each byte once.
    #[tactic(auto, using(crate::proofs::RoomLemmas::found_first, crate::proofs::RoomLemmas::found_none))]
    pub(crate) fn find(&mut self) -> Option<usize>
        ensures kept { self.new ≡ self.old }
        ensures found { IfSome result (λ count. IsBefore self.old.sought self.old.waiting count) }
        ensures within { IfSome result (λ count. count < room_size) }
        ensures none { result ≡ None → HasNone self.old.sought self.old.waiting }
    {
        let searched = self.searched;
        let (_, rest) = self.waiting().split_at(searched);
        match memchr(self.sought, rest) {
            Some(at) => Some(searched + at),
            None => {
                self.searched = self.end - self.start;
                None
            }
        }
    }

    /// Whether there is no room for more.
    pub(crate) fn is_full(&self) -> bool
        ensures { result ≡ true → length self.now.waiting ≡ room_size }
    {
        self.start == 0 && self.end >= self.room.len()
    }

    /// Whether nothing comes any more.
    pub(crate) fn is_over(&self) -> bool
        ensures is { result ≡ self.now.is_over }
        ensures ends { result ≡ true → IsAtEnd self.now.to_come }
    {
        self.is_over
    }

    /// Reads once, behind what waits, if there is room. `false` where the source has ended.
    pub(crate) fn read(&mut self) -> Result<bool, Failed>
        ensures comes { OnOk result (ComesMore self.old self.new) }
        ensures ends { result ≡ Ok false → HasEnded self.old self.new }
        ensures kept { OnErr result (Stays self.old self.new) }
    {
        if self.is_over {
            return Ok(false);
        }
        self.move_to_front();
        self.fill()
    }

    /// Reads once, into the room behind what waits. `false` where the source has ended.
    #[tactic(auto, using(crate::proofs::RoomLemmas::comes_none, crate::proofs::RoomLemmas::failed_holds, crate::proofs::RoomLemmas::same_part))]
    fn fill(&mut self) -> Result<bool, Failed>
        requires { self.old.is_over ≡ false }
        ensures comes { OnOk result (ComesMore self.old self.new) }
        ensures ends { result ≡ Ok false → HasEnded self.old self.new }
        ensures kept { OnErr result (Stays self.old self.new) }
    {
        let end = self.end;
        if end >= self.room.len() {
            return Ok(true);
        }
        let count = match take_behind(self.source, self.room.as_mut_slice(), end) {
            Ok(count) => count,
            Err(failed) => return Err(failed),
        };
        self.is_over = count == 0;
        self.end += count;
        Ok(count > 0)
    }

    /// Moves what waits to the front of the room.
    #[tactic(auto, using(crate::proofs::RoomLemmas::moved, crate::proofs::RoomLemmas::moved_fits))]
    fn move_to_front(&mut self)
        ensures { self.new ≡ self.old }
    {
        if self.start > 0 {
            self.room.copy_within(self.start..self.end, 0);
            self.end -= self.start;
            self.start = 0;
        }
    }
}

/// One read of a source, into the room behind so many bytes.
fn take_behind<R: Source>(source: &mut R, room: &mut [u8], end: usize) -> Result<usize, Failed>
    requires { end ≤ length room.old }
    ensures front { take end room.new ≡ take end room.old }
    ensures size { length room.new ≡ length room.old }
    ensures within { IfOk result (λ count. count ≤ length (drop end room.new)) }
    ensures bytes { ReadConsumes (R.to_come source.old) (R.to_come source.new) result (drop end room.new) }
{
    let (_, free) = room.split_at_mut(end);
    source.take(free)
}
