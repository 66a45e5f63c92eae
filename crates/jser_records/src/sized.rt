//! Records that lie behind their length: a line that ends in it, so many bytes, and a line end.

ghost use Rattle.std.specs.Prelude.{◌≡◌, ◌⊎◌, ◌≤◌, List, ℕ, [], length, take, drop, true, false, OnOk, Ok};
ghost use Rattle.std.specs.Io.KnownBytes.{IsAtEnd};
ghost use Rattle.jser_records.specs.Arriving.{HasNone, IsBefore, room_size};
ghost use Rattle.jser_records.specs.Held.{Holds, HoldsSame, Keeps};
ghost use Rattle.jser_records.specs.Keys.{HasNoKey, IsKeyOf, key_if};
ghost use Rattle.jser_records.specs.Readings.{Value as ToldValue};
ghost use Rattle.jser_records.specs.Records.{AllSizedTo, NextTo, ValueTo};
ghost use Rattle.jser_records.specs.Sized.{HasBegun, HeadWaits, IsLoss, LineWaits, TellsLossTo, WithoutReturn, at_line, at_line_end, line_end_at};
ghost use Rattle.jser_records.specs.declared.header.Header.TheVariants as ToldHeader;

use crate::answer::Answer;
use crate::clerk::Clerk;
use crate::current::Record;
use crate::frames::take_bytes;
use crate::header::{Header, header_of};
use crate::inbox::Inbox;
use crate::run::{Trouble, read_more};
use jser_inputs::Form;
use jser_prim::{Sink, Source};

/// What is behind a value.
enum LineEnd {
    /// A line end of so many bytes, or the end of the input.
    There(usize),
    /// It may be, once more is read.
    Awaited,
    /// Something else.
    Missing,
}

/// Reads records behind their length, to the end of the input, or to where no length is.
pub(crate) fn read_sized<R: Source, W: Sink, E: Sink>(
    inbox: &mut Inbox<'_, R>,
    clerk: &mut Clerk<'_>,
    output: &mut W,
    faults: &mut E,
) -> Result<(), Trouble>
    requires sought { inbox.old.sought ≡ 0x0A }
    ensures records { AllSizedTo W.gone_out W.has_failed E.gone_out E.has_failed result clerk.old clerk.new inbox.old inbox.new output.old output.new faults.old faults.new }
{
    'records: for _ in 0..u64::MAX {
        match next_record(inbox, clerk, output, faults) {
            Ok(true) => {}
            Ok(false) => return Ok(()),
            Err(trouble) => return Err(trouble),
        }
    }
    // No input has so many records.
    Err(Trouble::Read)
}

/// Reads the next record, or more of the input where the line of its length is not whole. `false` at the end of the input, and where
/// nobody knows what comes next.
fn next_record<R: Source, W: Sink, E: Sink>(
    inbox: &mut Inbox<'_, R>,
    clerk: &mut Clerk<'_>,
    output: &mut W,
    faults: &mut E,
) -> Result<bool, Trouble>
    requires sought { inbox.old.sought ≡ 0x0A }
    ensures records { NextTo W.gone_out W.has_failed E.gone_out E.has_failed result at_line clerk.old clerk.new inbox.old inbox.new output.old output.new faults.old faults.new }
    ensures sought { OnOk result (inbox.new.sought ≡ inbox.old.sought) }
{
    match inbox.find() {
        Some(count) => take_line(inbox, clerk, count, 1, output, faults),
        None if inbox.is_full() => {
            tell_loss(clerk, Answer::NoLength, output, faults);
            Ok(false)
        }
        None => match read_more(inbox, clerk, output, faults) {
            Ok(true) => Ok(true),
            Ok(false) => take_last_line(inbox, clerk, output, faults),
            Err(trouble) => Err(trouble),
        },
    }
}

/// Takes the record behind the line that is left at the end of the input, if it has a byte.
fn take_last_line<R: Source, W: Sink, E: Sink>(
    inbox: &mut Inbox<'_, R>,
    clerk: &mut Clerk<'_>,
    output: &mut W,
    faults: &mut E,
) -> Result<bool, Trouble>
    requires none { HasNone 0x0A inbox.old.waiting }
    requires ends { IsAtEnd inbox.old.to_come }
    ensures records { NextTo W.gone_out W.has_failed E.gone_out E.has_failed result at_line clerk.old clerk.new inbox.old inbox.new output.old output.new faults.old faults.new }
    ensures sought { OnOk result (inbox.new.sought ≡ inbox.old.sought) }
{
    let count = inbox.waiting().len();
    if count == 0 {
        return Ok(false);
    }
    take_line(inbox, clerk, count, 0, output, faults)
}

/// Takes the record behind a line of so many bytes, with an end of so many. `false` where nobody knows what comes next.
fn take_line<R: Source, W: Sink, E: Sink>(
    inbox: &mut Inbox<'_, R>,
    clerk: &mut Clerk<'_>,
    count: usize,
    end: usize,
    output: &mut W,
    faults: &mut E,
) -> Result<bool, Trouble>
    requires line { LineWaits inbox.old count end }
    ensures records { NextTo W.gone_out W.has_failed E.gone_out E.has_failed result at_line clerk.old clerk.new inbox.old inbox.new output.old output.new faults.old faults.new }
    ensures sought { OnOk result (inbox.new.sought ≡ inbox.old.sought) }
{
    let header = header_of(without_return(inbox.front(count)));
    let size = count.saturating_add(end);
    take_record(inbox, clerk, header, size, output, faults)
}

/// A line without the carriage return at its end.
fn without_return(line: &[u8]) -> &[u8]
    ensures { WithoutReturn line.now result.now }
{
    match line {
        [front @ .., b'\r'] => front,
        _ => line,
    }
}

/// Takes the record behind a header of so many bytes, its line end among them. `false` where nobody knows what comes next.
fn take_record<R: Source, W: Sink, E: Sink>(
    inbox: &mut Inbox<'_, R>,
    clerk: &mut Clerk<'_>,
    header: Header,
    size: usize,
    output: &mut W,
    faults: &mut E,
) -> Result<bool, Trouble>
    requires head { HeadWaits inbox.old size header }
    ensures records { NextTo W.gone_out W.has_failed E.gone_out E.has_failed result at_line clerk.old clerk.new inbox.old inbox.new output.old output.new faults.old faults.new }
    ensures sought { OnOk result (inbox.new.sought ≡ inbox.old.sought) }
{
    match header {
        Header::Other => {
            inbox.pass(size);
            Ok(true)
        }
        Header::NoLength => {
            tell_loss(clerk, Answer::NoLength, output, faults);
            Ok(false)
        }
        Header::LineEnd => {
            tell_loss(clerk, Answer::LineEndInKey, output, faults);
            Ok(false)
        }
        Header::Error => {
            begin_record(inbox, &mut clerk.current, 0, size);
            clerk.current.reading.decide(Answer::ErrorReply);
            clerk.close(output, faults);
            Ok(true)
        }
        Header::Null { key } => {
            begin_record(inbox, &mut clerk.current, key, size);
            clerk.current.reading.decide_null();
            clerk.close(output, faults);
            Ok(true)
        }
        Header::Bytes { key, count } => {
            match take_value(inbox, clerk, key, count, size, output, faults) {
                Ok(passed) => take_line_end(inbox, clerk, passed, output, faults),
                Err(trouble) => Err(trouble),
            }
        }
    }
}

/// Takes a header of so many bytes and the value of so many behind it. What is returned says whether the record is accepted.
fn take_value<R: Source, W: Sink, E: Sink>(
    inbox: &mut Inbox<'_, R>,
    clerk: &mut Clerk<'_>,
    key: usize,
    count: u64,
    size: usize,
    output: &mut W,
    faults: &mut E,
) -> Result<bool, Trouble>
    requires head { HeadWaits inbox.old size (ToldHeader.Bytes key count) }
    ensures records { ValueTo W.gone_out W.has_failed E.gone_out E.has_failed result clerk.old clerk.new inbox.old inbox.new output.old output.new faults.old faults.new }
    ensures sought { OnOk result (inbox.new.sought ≡ inbox.old.sought) }
{
    begin_record(inbox, &mut clerk.current, key, size);
    match take_bytes(inbox, clerk, count, output, faults) {
        Ok(()) => Ok(clerk.close(output, faults)),
        Err(trouble) => Err(trouble),
    }
}

/// Tells of a record why nobody knows what comes next.
fn tell_loss<W: Sink, E: Sink>(
    clerk: &mut Clerk<'_>,
    answer: Answer,
    output: &mut W,
    faults: &mut E,
)
    ensures { (value : ToldValue) → IsLoss value answer → TellsLossTo W.gone_out W.has_failed E.gone_out E.has_failed value clerk.old clerk.new output.old output.new faults.old faults.new }
{
    clerk.current.begin(Form::Binary);
    clerk.current.reading.decide(answer);
    clerk.close(output, faults);
}

/// Begins a record behind a header of so many bytes, whose first ones are the KEY.
#[tactic(auto, using(crate::proofs::SizedLemmas::begun_held, crate::proofs::HeldLemmas::keeps_both))]
fn begin_record<R: Source>(
    inbox: &mut Inbox<'_, R>,
    current: &mut Record<'_>,
    key: usize,
    size: usize,
)
    ensures passed { inbox.new ≡ record inbox.old { waiting = drop size inbox.old.waiting } }
    ensures begun { HasBegun current.new.reading }
    ensures key { IsKeyOf current.new.reading.key (key_if (take key (take size inbox.old.waiting))) }
    ensures held { Holds current.new (take size inbox.old.waiting) }
    ensures keeps { Keeps current.old current.new }
{
    current.begin(Form::Binary);
    let header = inbox.front(size);
    current.hold(header);
    let (bytes, _) = header.split_at(key.min(header.len()));
    keep_key(current, bytes);
    inbox.pass(size);
}

/// Keeps the KEY of a record, if it has one.
#[tactic(auto, using(crate::proofs::SizedLemmas::begun_keyed, crate::proofs::KeyLemmas::key_kept_some, crate::proofs::KeyLemmas::key_kept_none, crate::proofs::HeldLemmas::holds_keyed, crate::proofs::HeldLemmas::keeps_keyed))]
fn keep_key(current: &mut Record<'_>, bytes: &[u8])
    ensures begun { HasBegun current.old.reading → HasBegun current.new.reading }
    ensures key { HasNoKey current.old.reading.key → IsKeyOf current.new.reading.key (key_if bytes.now) }
    ensures held { HoldsSame current.old current.new }
    ensures keeps { Keeps current.old current.new }
{
    if !bytes.is_empty() {
        current.reading.add_key(bytes);
    }
}

/// Takes the line end behind a value. `false` where something else is there.
fn take_line_end<R: Source, W: Sink, E: Sink>(
    inbox: &mut Inbox<'_, R>,
    clerk: &mut Clerk<'_>,
    passed: bool,
    output: &mut W,
    faults: &mut E,
) -> Result<bool, Trouble>
    ensures records { NextTo W.gone_out W.has_failed E.gone_out E.has_failed result (at_line_end passed) clerk.old clerk.new inbox.old inbox.new output.old output.new faults.old faults.new }
    ensures sought { OnOk result (inbox.new.sought ≡ inbox.old.sought) }
{
    'reads: for _ in 0..u64::MAX {
        match line_end(inbox.waiting(), inbox.is_over()) {
            LineEnd::There(size) => {
                clerk.pass_on(output, faults, inbox.front(size), passed);
                inbox.pass(size);
                return Ok(true);
            }
            LineEnd::Missing => {
                tell_loss(clerk, Answer::NoLength, output, faults);
                return Ok(false);
            }
            LineEnd::Awaited => match read_more(inbox, clerk, output, faults) {
                Ok(_) => {}
                Err(trouble) => return Err(trouble),
            },
        }
    }
    // No line end takes so many reads.
    Err(Trouble::Read)
}

/// What is behind a value.
fn line_end(waiting: &[u8], is_over: bool) -> LineEnd
    ensures { result ≡ line_end_at waiting.now is_over }
{
    match waiting {
        [b'\n', ..] => LineEnd::There(1),
        [b'\r', b'\n', ..] => LineEnd::There(2),
        [] if is_over => LineEnd::There(0),
        [] => LineEnd::Awaited,
        [b'\r'] if !is_over => LineEnd::Awaited,
        _ => LineEnd::Missing,
    }
}
