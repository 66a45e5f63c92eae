//! What a call answers, as C reads it.
ghost use Rattle.std.specs.Prelude.{◌≡◌};
ghost use Rattle.jser_ffi.specs.Told.{HasHidden, HasRefusal, HasReport, Zeros, bare_answer, name_by, reason_number};

use jser_check::{Reason, Refusal, Report};

/// The stream is accepted, or what was asked for was done.
pub(crate) const YES: u32 = 0;
/// The stream is refused.
pub(crate) const NO: u32 = 1;
/// The filter, the table of modules or the flags are faulty.
pub(crate) const MISUSE: u32 = 2;
/// Memory ran out.
pub(crate) const NO_MEMORY: u32 = 3;
/// Nothing is decided yet: more bytes are wanted.
pub(crate) const MORE: u32 = 4;
/// There is nothing to check with: the handle is empty, or its stream has ended.
pub(crate) const SPENT: u32 = 5;
/// The text is longer than the room.
pub(crate) const SMALL: u32 = 6;

/// The reason of a class name that can be read at some place and does not pass.
pub(crate) const HIDDEN_NAME: u32 = 26;

/// What a call answers: by `status` the counts of a stream, or the bytes and the reason of a refusal. What a status does not
/// speak of is 0.
#[derive(Clone, Copy)]
#[repr(C)]
pub struct Answer {
    /// 0 accepted, 1 refused, 2 faulty filter, modules or flags, 3 no memory, 4 more bytes are wanted, 5 nothing is left to
    /// check with, 6 the room is too small.
    pub status: u32,
    /// The number of the reason of a refusal, or of the cause of a misuse.
    pub reason: u32,
    /// Where the faulty token of a refusal starts, or the number of the faulty piece or line.
    pub from_byte: u64,
    /// How many bytes decide a refusal.
    pub to_byte: u64,
    /// The length of an accepted stream.
    pub bytes: u64,
    /// The number of its top-level contents.
    pub contents: u64,
    /// The number of its places.
    pub refs: u64,
    /// The greatest depth of a place.
    pub depth: u64,
    /// The number of its handles.
    pub handles: u64,
    /// Where the class name of a refusal starts that the filter did not let pass.
    pub name_from: u64,
    /// Where that name ends.
    pub name_to: u64,
    /// How many of the bytes that came are whole contents: the length of their longest front that the filter admits.
    pub whole: u64,
}

/// The answer of an accepted stream.
#[tactic(auto, using(crate::proofs::ZeroLemmas::yes_zeros))]
pub(crate) fn accepted(report: Report, whole: u64) -> Answer
    ensures has { HasReport result report }
    ensures whole { result.whole ≡ whole }
    ensures zeros { Zeros result }
{
    Answer {
        bytes: report.bytes,
        contents: report.contents,
        refs: report.refs,
        depth: report.depth,
        handles: report.handles,
        whole,
        ..bare(YES)
    }
}

/// The answer of a refusal.
#[tactic(auto, using(crate::proofs::ZeroLemmas::no_zeros))]
pub(crate) fn refused(refusal: Refusal, whole: u64) -> Answer
    ensures has { HasRefusal result refusal }
    ensures whole { result.whole ≡ whole }
    ensures zeros { Zeros result }
{
    let (name_from, name_to) = name_of(refusal);
    Answer {
        reason: number_of(refusal.reason),
        from_byte: refusal.from_byte,
        to_byte: refusal.to_byte,
        name_from,
        name_to,
        whole,
        ..bare(NO)
    }
}

/// The answer of a class name that can be read at some place and does not pass.
#[tactic(auto, using(crate::proofs::ZeroLemmas::no_zeros))]
pub(crate) fn hidden(from_byte: u64, to_byte: u64, whole: u64) -> Answer
    ensures has { HasHidden result from_byte to_byte }
    ensures whole { result.whole ≡ whole }
    ensures zeros { Zeros result }
{
    Answer {
        reason: HIDDEN_NAME,
        from_byte,
        to_byte,
        name_from: from_byte,
        name_to: to_byte,
        whole,
        ..bare(NO)
    }
}

/// The answer where more bytes are wanted.
#[tactic(auto, using(crate::proofs::ZeroLemmas::more_zeros))]
pub(crate) fn more(whole: u64) -> Answer
    ensures status { result.status ≡ 4 }
    ensures whole { result.whole ≡ whole }
    ensures zeros { Zeros result }
{
    Answer {
        whole,
        ..bare(MORE)
    }
}

/// The answer of a misuse, by the number of its cause and that of the faulty piece or line.
#[tactic(auto, using(crate::proofs::ZeroLemmas::misuse_zeros))]
pub(crate) fn misuse(cause: u32, place: u64) -> Answer
    ensures status { result.status ≡ 2 }
    ensures reason { result.reason ≡ cause }
    ensures place { result.from_byte ≡ place }
    ensures zeros { Zeros result }
{
    Answer {
        reason: cause,
        from_byte: place,
        ..bare(MISUSE)
    }
}

/// The answer of a status alone.
#[tactic(auto, using(crate::proofs::ZeroLemmas::bare_zeros))]
pub(crate) fn bare(status: u32) -> Answer
    ensures status { result.status ≡ status }
    ensures is { result ≡ bare_answer status }
    ensures zeros { Zeros result }
{
    Answer {
        status,
        reason: 0,
        from_byte: 0,
        to_byte: 0,
        bytes: 0,
        contents: 0,
        refs: 0,
        depth: 0,
        handles: 0,
        name_from: 0,
        name_to: 0,
        whole: 0,
    }
}

/// Where the class name of a refusal stands: behind the two bytes of its length.
fn name_of(refusal: Refusal) -> (u64, u64)
    ensures { result ≡ name_by (reason_number refusal.reason) refusal.from_byte refusal.to_byte }
{
    let (from, to) = (refusal.from_byte, refusal.to_byte);
    match refusal.reason {
        Reason::ClassRejected | Reason::ClassUnmatched => (from.saturating_add(2).min(to), to),
        _ => (0, 0),
    }
}

/// The number of a reason.
fn number_of(reason: Reason) -> u32
    ensures { result ≡ reason_number reason }
{
    match reason {
        Reason::BytesExceeded => 1,
        Reason::BadHeader => 2,
        Reason::BadTag => 3,
        Reason::ExceptionTag => 4,
        Reason::ResetInside => 5,
        Reason::BadText => 6,
        Reason::NegativeLength => 7,
        Reason::BadTypeCode => 8,
        Reason::FieldOrder => 9,
        Reason::BadFlags => 10,
        Reason::NullClass => 11,
        Reason::NoSuchHandle => 12,
        Reason::WrongKind => 13,
        Reason::OpenDescriptor => 14,
        Reason::BadArrayName => 15,
        Reason::WrongClass => 16,
        Reason::ExternalRaw => 17,
        Reason::NotSerializable => 18,
        Reason::ClassRejected => 19,
        Reason::ClassUnmatched => 20,
        Reason::DepthExceeded => 21,
        Reason::RefsExceeded => 22,
        Reason::ArrayExceeded => 23,
        Reason::Truncated => 24,
        Reason::HandleSpace => 25,
    }
}
