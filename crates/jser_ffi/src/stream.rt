//! A stream that is checked in pieces.
ghost use Rattle.std.specs.Prelude.{◌≡◌, ◌≢◌, ◌⊎◌, ℕ, List, IfOk, IfSome};
ghost use Rattle.jser_ffi.specs.declared.answer.Answer.{Answer};
ghost use Rattle.jser_ffi.specs.Told.{Zeros};
ghost use Rattle.jser_ffi.specs.Streams.{Taken, Begins, HasNotPassed, IsOpen, IsOver, KeepsZeros, NextSays, FeedSays, EndSays};

use crate::answer::{Answer, MORE};
use crate::checks::{ended, fed};
use crate::compiled::Compiled;
use jser_check::Check;
use jser_shared::SharedFilter;
use std::alloc::AllocError;
use std::mem;

/// A stream that is being checked, or what was answered of it.
#[derive(Drop)]
pub enum Stream {
    /// It is checked, and nothing is decided yet.
    Open(Check<SharedFilter>),
    /// It cannot go on: each call answers this.
    Over(Answer),
    /// It cannot go on, for a class name that the filter did not let pass: each call answers this, and the check has the name.
    Refused(Answer, Check<SharedFilter>),
}

impl Stream {
    /// A stream of which nothing has come yet.
    ///
    /// # Errors
    ///
    /// Where the filter has too many owners, and where there is no memory for the names at any place.
    pub(crate) fn new(compiled: &Compiled) -> Result<Stream, AllocError>
        ensures { IfOk result (Begins compiled.now) }
    {
        let gate = match compiled.gate() {
            Ok(gate) => gate,
            Err(error) => return Err(error),
        };
        match Check::under(compiled.alloc, gate, compiled.anywhere) {
            Ok(check) => Ok(Stream::Open(check)),
            Err(error) => Err(error),
        }
    }

    /// Takes the next bytes. Every answer but that more are wanted is its last.
    pub(crate) fn feed(&mut self, piece: &[u8]) -> Answer
        ensures says { (taken : List ℕ) → Taken self.old taken → FeedSays self.old self.new taken piece.now result }
        ensures zeros { KeepsZeros self.old → Zeros result × KeepsZeros self.new }
        ensures stops { result.status ≢ 4 → IsOver result self.new }
        ensures over { (answer : Answer) → IsOver answer self.old → (result ≡ answer) × (self.new ≡ self.old) }
    {
        let answer = self.next(piece);
        if answer.status != MORE {
            self.stop(answer);
        }
        answer
    }

    /// It is over, and answers this. A function of its own, since a call clears the room of each value that it may make.
    #[inline(never)]
    fn stop(&mut self, answer: Answer)
        ensures stops { IsOver answer self.old ⊎ IsOpen self.old → IsOver answer self.new }
        ensures stays { IsOver answer self.old → self.new ≡ self.old }
    {
        *self = match mem::replace(self, Stream::Over(answer)) {
            Stream::Open(check) => stopped(answer, check),
            Stream::Over(before) => Stream::Over(before),
            Stream::Refused(before, check) => Stream::Refused(before, check),
        };
    }

    /// Takes the next bytes of a stream of which nothing is decided yet.
    fn next(&mut self, piece: &[u8]) -> Answer
        ensures says { (taken : List ℕ) → Taken self.old taken → NextSays self.old self.new taken piece.now result }
        ensures zeros { KeepsZeros self.old → Zeros result × KeepsZeros self.new }
        ensures over { (answer : Answer) → IsOver answer self.old → (result ≡ answer) × (self.new ≡ self.old) }
        ensures stops { result.status ≢ 4 → IsOver result self.new ⊎ IsOpen self.new }
    {
        match self {
            Stream::Open(check) => fed(check, piece),
            Stream::Over(answer) => *answer,
            Stream::Refused(answer, _) => *answer,
        }
    }

    /// The answer at the end of the stream.
    pub(crate) fn finish(&mut self) -> Answer
        ensures says { (taken : List ℕ) → Taken self.old taken → EndSays self.old taken result }
        ensures zeros { KeepsZeros self.old → Zeros result }
        ensures over { (answer : Answer) → IsOver answer self.old → result ≡ answer }
    {
        match self {
            Stream::Open(check) => ended(check),
            Stream::Over(answer) => *answer,
            Stream::Refused(answer, _) => *answer,
        }
    }

    /// The class name for which it is over, if that is why.
    pub(crate) fn refused_class(&self) -> Option<&[u16]>
        ensures { IfSome result (λ units. HasNotPassed self.now units.now) }
    {
        match self {
            Stream::Refused(_, check) => check.refused_class(),
            Stream::Open(_) | Stream::Over(_) => None,
        }
    }
}

/// A stream that is over, of a check that stopped.
fn stopped(answer: Answer, check: Check<SharedFilter>) -> Stream
    ensures { IsOver answer result }
{
    if check.refused_class().is_some() {
        Stream::Refused(answer, check)
    } else {
        Stream::Over(answer)
    }
}
