//! Records that are frames: a length in 4 bytes, highest first, and so many bytes.

ghost use Rattle.std.specs.Prelude.{◌≡◌, ◌⊎◌, ◌<◌, ◌≤◌, ℕ, List, [], length, IfOk, IfSome, OnOk, Ok, false};
ghost use Rattle.std.specs.Io.KnownBytes.{IsAtEnd};
ghost use Rattle.jser_records.specs.Arriving.{IsOver};
ghost use Rattle.jser_records.specs.Frames.{Begun, PieceTakes, Takes, TakesSome, TakesValue};
ghost use Rattle.jser_records.specs.Held.{Keeps};
ghost use Rattle.jser_records.specs.Readings.{Counts, HasLost, HasPlain};
ghost use Rattle.jser_records.specs.Records.{RecordsGoTo, RecordsTo};
ghost use Rattle.jser_records.specs.Told.{QuietTo};
ghost use Rattle.jser_records.specs.declared.layout.Shape.TheVariants as Shape;

use crate::answer::Answer;
use crate::clerk::Clerk;
use crate::current::Record;
use crate::inbox::Inbox;
use crate::run::{Trouble, read_more};
use jser_inputs::Form;
use jser_prim::{Sink, Source, read_u32};

/// How many bytes the length has.
const HEAD: usize = 4;

/// The length that says that there is no value.
const NULL: u32 = u32::MAX;

/// Reads frames, to the end of the input.
#[tactic(auto, using(crate::proofs::RecordLemmas::records_both, crate::proofs::RecordLemmas::records_then, crate::proofs::RecordLemmas::records_front, crate::proofs::RecordLemmas::records_none))]
pub(crate) fn read_frames<R: Source, W: Sink, E: Sink>(
    inbox: &mut Inbox<'_, R>,
    clerk: &mut Clerk<'_>,
    output: &mut W,
    faults: &mut E,
) -> Result<(), Trouble>
    ensures frames { RecordsTo W.gone_out W.has_failed E.gone_out E.has_failed result Shape.Frames clerk.old clerk.new inbox.old inbox.new output.old output.new faults.old faults.new }
    ensures over { OnOk result (IsOver inbox.new) }
{
    'frames: for _ in 0..u64::MAX {
        match next_frame(inbox, clerk, output, faults) {
            Ok(true) => {}
            Ok(false) => return Ok(()),
            Err(trouble) => return Err(trouble),
        }
    }
    // No input has so many frames.
    Err(Trouble::Read)
}

/// Reads the next frame, or more of the input where its length is not whole. `false` at the end of the input.
#[tactic(auto, using(crate::proofs::RecordLemmas::records_quiet, crate::proofs::RecordLemmas::records_both, crate::proofs::RecordLemmas::front_quiet, crate::proofs::RoomLemmas::took_more, crate::proofs::RoomLemmas::ended_over))]
fn next_frame<R: Source, W: Sink, E: Sink>(
    inbox: &mut Inbox<'_, R>,
    clerk: &mut Clerk<'_>,
    output: &mut W,
    faults: &mut E,
) -> Result<bool, Trouble>
    ensures frames { RecordsTo W.gone_out W.has_failed E.gone_out E.has_failed result Shape.Frames clerk.old clerk.new inbox.old inbox.new output.old output.new faults.old faults.new }
    ensures over { result ≡ Ok false → IsOver inbox.new }
{
    if inbox.waiting().len() >= HEAD {
        return read_frame(inbox, clerk, output, faults);
    }
    match read_more(inbox, clerk, output, faults) {
        Ok(true) => Ok(true),
        Ok(false) => {
            end_frames(inbox, clerk, output, faults);
            Ok(false)
        }
        Err(trouble) => Err(trouble),
    }
}

/// The input has ended: what waits is a part of a length, if it has a byte.
#[tactic(auto, using(crate::proofs::RecordLemmas::records_none))]
fn end_frames<R: Source, W: Sink, E: Sink>(
    inbox: &mut Inbox<'_, R>,
    clerk: &mut Clerk<'_>,
    output: &mut W,
    faults: &mut E,
)
    requires few { length inbox.old.waiting < 4 }
    requires ends { IsAtEnd inbox.old.to_come }
    ensures frames { RecordsGoTo W.gone_out W.has_failed E.gone_out E.has_failed Shape.Frames clerk.old clerk.new inbox.old inbox.new output.old output.new faults.old faults.new }
    ensures over { IsOver inbox.new }
{
    let at = inbox.waiting().len();
    if at == 0 {
        return;
    }
    clerk.current.begin(Form::Binary);
    clerk.current.reading.decide(Answer::Cut {
        at: at as u64,
        of: HEAD as u64,
    });
    inbox.pass(at);
    clerk.close(output, faults);
}

/// Reads a frame, whose length waits. Always `true`.
fn read_frame<R: Source, W: Sink, E: Sink>(
    inbox: &mut Inbox<'_, R>,
    clerk: &mut Clerk<'_>,
    output: &mut W,
    faults: &mut E,
) -> Result<bool, Trouble>
    requires { 4 ≤ length inbox.old.waiting }
    ensures frames { RecordsTo W.gone_out W.has_failed E.gone_out E.has_failed result Shape.Frames clerk.old clerk.new inbox.old inbox.new output.old output.new faults.old faults.new }
    ensures more { result ≡ Ok false → IsOver inbox.new }
{
    let length = read_u32(inbox.front(HEAD));
    clerk.current.begin(Form::Binary);
    clerk.current.hold(inbox.front(HEAD));
    inbox.pass(HEAD);
    match take_value(inbox, clerk, length, output, faults) {
        Ok(()) => {
            clerk.close(output, faults);
            Ok(true)
        }
        Err(trouble) => Err(trouble),
    }
}

/// Takes the value of a frame of this length, which may be that of a null.
#[tactic(auto, using(crate::proofs::FrameLemmas::null_taken, crate::proofs::FrameLemmas::value_taken, crate::proofs::ToldLemmas::quiet_changed))]
fn take_value<R: Source, W: Sink, E: Sink>(
    inbox: &mut Inbox<'_, R>,
    clerk: &mut Clerk<'_>,
    length: u32,
    output: &mut W,
    faults: &mut E,
) -> Result<(), Trouble>
    ensures quiet { QuietTo W.gone_out W.has_failed E.gone_out E.has_failed clerk.old clerk.new output.old output.new faults.old faults.new }
    ensures key { clerk.new.current.reading.key ≡ clerk.old.current.reading.key }
    ensures takes { Begun clerk.old.current.reading → OnOk result (TakesValue length inbox.old inbox.new clerk.old.current clerk.new.current) }
{
    if length == NULL {
        clerk.current.reading.decide_null();
        return Ok(());
    }
    take_bytes(inbox, clerk, u64::from(length), output, faults)
}

/// Takes the bytes of a record, so many. Where there are more than are read at most, it goes over them.
#[tactic(auto, using(crate::proofs::FrameLemmas::takes_all))]
pub(crate) fn take_bytes<R: Source, W: Sink, E: Sink>(
    inbox: &mut Inbox<'_, R>,
    clerk: &mut Clerk<'_>,
    count: u64,
    output: &mut W,
    faults: &mut E,
) -> Result<(), Trouble>
    ensures quiet { QuietTo W.gone_out W.has_failed E.gone_out E.has_failed clerk.old clerk.new output.old output.new faults.old faults.new }
    ensures key { clerk.new.current.reading.key ≡ clerk.old.current.reading.key }
    ensures takes { HasPlain clerk.old.current.reading [] ⊎ HasLost clerk.old.current.reading → OnOk result (Takes count inbox.old inbox.new clerk.old.current clerk.new.current) }
    ensures sought { OnOk result (inbox.new.sought ≡ inbox.old.sought) }
{
    clerk.current.reading.limit(count);
    let mut taken: u64 = 0;
    'pieces: for _ in 0..u64::MAX {
        if taken >= count {
            return Ok(());
        }
        match next_piece(inbox, clerk, count - taken, output, faults) {
            Ok(Some(size)) => taken += size,
            Ok(None) => {
                clerk.current.reading.decide(Answer::Cut {
                    at: taken,
                    of: count,
                });
                return Ok(());
            }
            Err(trouble) => return Err(trouble),
        }
    }
    // No record comes in so many pieces.
    Err(Trouble::Read)
}

/// Takes what waits of the bytes of a record, of which so many are left, or reads more where nothing waits. How many it took, if the
/// input has not ended.
#[tactic(auto, using(crate::proofs::FrameLemmas::some_later, crate::proofs::ToldLemmas::quiet_both, crate::proofs::ToldLemmas::quiet_changed, crate::proofs::ToldLemmas::quiet_from, crate::proofs::RoomLemmas::took_more))]
fn next_piece<R: Source, W: Sink, E: Sink>(
    inbox: &mut Inbox<'_, R>,
    clerk: &mut Clerk<'_>,
    left: u64,
    output: &mut W,
    faults: &mut E,
) -> Result<Option<u64>, Trouble>
    requires { 0 < left }
    ensures quiet { QuietTo W.gone_out W.has_failed E.gone_out E.has_failed clerk.old clerk.new output.old output.new faults.old faults.new }
    ensures key { clerk.new.current.reading.key ≡ clerk.old.current.reading.key }
    ensures takes { (total : ℕ) (before : List ℕ) → Counts clerk.old.current.reading total before
        → IfOk result (PieceTakes total before inbox.old inbox.new clerk.old.current clerk.new.current) }
    ensures within { IfOk result (λ size. IfSome size (λ count. count ≤ left)) }
    ensures sought { OnOk result (inbox.new.sought ≡ inbox.old.sought) }
{
    let size = take_waiting(inbox, &mut clerk.current, left);
    if size > 0 {
        return Ok(Some(size));
    }
    match read_more(inbox, clerk, output, faults) {
        Ok(true) => Ok(Some(0)),
        Ok(false) => Ok(None),
        Err(trouble) => Err(trouble),
    }
}

/// Takes what waits of the bytes of a record, of which so many are left. How many that are.
fn take_waiting<R: Source>(inbox: &mut Inbox<'_, R>, current: &mut Record<'_>, left: u64) -> u64
    ensures within { result ≤ left }
    ensures none { result ≡ 0 → 0 < left → inbox.new.waiting ≡ [] }
    ensures sought { inbox.new.sought ≡ inbox.old.sought }
    ensures takes { (total : ℕ) (before : List ℕ) → Counts current.old.reading total before → TakesSome total before inbox.old inbox.new current.old current.new result }
    ensures keeps { Keeps current.old current.new }
    ensures key { current.new.reading.key ≡ current.old.reading.key }
{
    let most = left.min(u64::from(u32::MAX)) as usize;
    let piece = inbox.front(most);
    let size = piece.len();
    current.take(piece);
    inbox.pass(most);
    size as u64
}
