//! The first header in some bytes, and the longest stream that begins there.
ghost use Rattle.std.specs.Prelude.{◌≡◌, ◌+◌, ◌<◌, ◌≤◌, [], IfOk, IfSome, length, take};
ghost use Rattle.jser_reader.specs.ReaderStates.{StandsFor};
ghost use Rattle.jser_reader.specs.Gates.{open_gate};
ghost use Rattle.jser_reader.specs.WholeContents.{IsWhole, StaysWhole};
ghost use Rattle.jser_find.specs.Budgets.{IsKnown, deciding};
ghost use Rattle.jser_find.specs.Finds.{IsFirstHeader};

use jser_reader::{OpenGate, Reader, Stop};
use memchr::memmem;
use std::alloc::{AllocError, Global};

/// The header of a stream: `STREAM_MAGIC` and `STREAM_VERSION` (Java Object Serialization Specification, section 6.4.2).
pub(crate) const HEADER: [u8; 4] = [0xAC, 0xED, 0x00, 0x05];

/// A header, and the longest stream that begins there.
#[derive(Clone, Copy, PartialEq, Eq, Debug)]
pub struct Find {
    /// Where the header begins.
    pub from: usize,
    /// How many bytes the longest stream has. The header alone, of 4 bytes, is a stream of no contents.
    pub len: usize,
}

/// Where the first header in some bytes is. `None` where there is none.
pub(crate) fn first_header(bytes: &[u8]) -> Option<usize>
    ensures first { IsFirstHeader bytes.now 0 result }
    ensures inside { IfSome result (λ at. at + 4 ≤ length bytes.now) }
{
    memmem::find(bytes, &HEADER)
}

/// The longest stream that the first `most` of some bytes begin with. `None` where more than `left` of them decide it.
pub(crate) fn stream_in(
    alloc: Global,
    bytes: &[u8],
    most: usize,
    left: usize,
) -> Result<Option<Whole>, AllocError>
    ensures { IfOk result (IsKnown left (take most bytes.now)) }
{
    let (front, _) = bytes.split_at(bytes.len().min(most));
    known_in(alloc, front, left)
}

/// The longest stream that some bytes begin with. `None` where more than `left` of them decide it.
#[tactic(auto, using(crate::proofs::BudgetLemmas::known_all, crate::proofs::BudgetLemmas::known_front, crate::proofs::BudgetLemmas::not_known))]
fn known_in(alloc: Global, bytes: &[u8], left: usize) -> Result<Option<Whole>, AllocError>
    ensures { IfOk result (IsKnown left bytes.now) }
{
    if bytes.len() <= left {
        let whole = whole_of(alloc, bytes)?;
        return Ok(Some(whole));
    }
    let (front, _) = bytes.split_at(left + 1);
    let whole = whole_of(alloc, front)?;
    if whole.read > left {
        Ok(None)
    } else {
        Ok(Some(whole))
    }
}

/// The longest stream that some bytes begin with.
#[derive(Clone, Copy, Debug)]
pub(crate) struct Whole {
    /// How many bytes it has; 0 where there is none.
    pub(crate) len: usize,
    /// How many bytes decide that. Where they are not all, it is so whatever comes behind them.
    pub(crate) read: usize,
}

/// The longest stream that these bytes begin with, and how many of them decide it.
pub(crate) fn whole_of(alloc: Global, bytes: &[u8]) -> Result<Whole, AllocError>
    ensures whole { IfOk result (λ whole. IsWhole open_gate bytes.now whole.len) }
    ensures read { IfOk result (λ whole. whole.read ≡ deciding bytes.now) }
    ensures sure { IfOk result (λ whole. whole.read < length bytes.now → StaysWhole open_gate bytes.now whole.len) }
{
    let mut reader = Reader::new(alloc, OpenGate);
    whole_by(&mut reader, bytes)
}

/// What `reader`, which has taken nothing, finds to be the longest stream that these bytes begin with.
#[tactic(auto, using(crate::proofs::FindLemmas::all_taken, crate::proofs::FindLemmas::some_taken, crate::proofs::FindLemmas::sure_taken, crate::proofs::FindLemmas::all_read, crate::proofs::FindLemmas::some_read))]
fn whole_by(reader: &mut Reader<OpenGate>, bytes: &[u8]) -> Result<Whole, AllocError>
    requires { StandsFor open_gate [] reader.old.machine reader.old.tally }
    ensures whole { IfOk result (λ whole. IsWhole open_gate bytes.now whole.len) }
    ensures read { IfOk result (λ whole. whole.read ≡ deciding bytes.now) }
    ensures sure { IfOk result (λ whole. whole.read < length bytes.now → StaysWhole open_gate bytes.now whole.len) }
{
    match reader.skip(bytes) {
        Ok(()) => Ok(Whole {
            len: reader.whole() as usize,
            read: bytes.len(),
        }),
        Err(Stop::Refused(refusal)) => Ok(Whole {
            len: reader.whole() as usize,
            read: refusal.to_byte as usize,
        }),
        Err(_) => Err(AllocError),
    }
}
