//! All records of an input, from the first to the counts.
ghost use Rattle.std.specs.Prelude.{◌≡◌, ◌≢◌, ◌⊎◌, [], false, OnOk, Ok};
ghost use Rattle.jser_records.specs.Arriving.{ComesMore, HasEnded, ahead};
ghost use Rattle.jser_records.specs.Ends.{ToldAt, WrittenTo, end_by, status_at, told_at};
ghost use Rattle.jser_records.specs.Inputs.{ReadsTo, WroteTo, sought_in};
ghost use Rattle.jser_records.specs.Told.{QuietTo};

use crate::clerk::Clerk;
use crate::frames::read_frames;
use crate::inbox::Inbox;
use crate::layout::{Layout, Shape};
use crate::lines::read_lines;
use crate::sized::read_sized;
use jser_prim::{Sink, Source};
use jser_scan::{How, Rules, Tally, print_counts};
use jser_settings::tell_failure;
use std::alloc::Global;

/// What is asked of records.
#[derive(Clone, Copy, PartialEq, Eq, Debug)]
pub struct Asked {
    /// How they lie in the input.
    pub layout: Layout,
    /// How their answers are printed.
    pub how: How,
    /// Whether the records that are accepted are handed on, and the answers of the others go to standard error.
    pub pass: bool,
}

/// Why reading ended before the input did.
#[derive(Clone, Copy, PartialEq, Eq, Debug)]
pub(crate) enum Trouble {
    /// A read failed.
    Read,
    /// A write failed.
    Write,
    /// There was no memory to begin with.
    Memory,
}

/// How reading ended.
#[derive(Clone, Copy, PartialEq, Eq, Debug)]
pub(crate) enum End {
    /// With the input, or where nobody knows what comes next.
    Whole,
    /// By a read that failed.
    ReadFailed,
    /// By a write that failed.
    WriteFailed,
    /// Where memory ran out.
    NoMemory,
}

/// Checks each record of a source, and writes one answer for each, in order.
///
/// What it allocates is what a check does, and room that does not grow: 128 KB for what was read and a KEY of at most 65,535 bytes.
/// With `pass` it also keeps one record. The status is that of `scan`: 3 where a record could not be read, a device failed or there
/// was no memory to begin with, else 1 where one was refused, else 0. Behind the answers `faults` is told how reading ended, and
/// the counts.
#[tactic(auto, using(crate::proofs::EndLemmas::written_none, crate::proofs::EndLemmas::written_by))]
pub fn run_records<R: Source, W: Sink, E: Sink>(
    alloc: Global,
    rules: &Rules,
    asked: Asked,
    source: &mut R,
    output: &mut W,
    faults: &mut E,
) -> u8
    ensures status { (result ≡ 0) ⊎ ((result ≡ 1) ⊎ (result ≡ 3)) }
    ensures unbroken { result ≢ 3 → W.has_failed output.new ≡ W.has_failed output.old }
    ensures written { WrittenTo W.gone_out W.has_failed E.gone_out E.has_failed asked rules.now (R.to_come source.old) (R.has_failed source.new) output.old output.new faults.old faults.new result }
{
    if output.failed() {
        return tell_end(End::WriteFailed, Tally::new(), faults);
    }
    let (read, tally) = read_all(alloc, rules, asked, source, output, faults);
    let end = end_by(read, source.failed(), output.failed());
    tell_end(end, tally, faults)
}

/// How reading ended, by what the devices say.
fn end_by(read: Result<(), Trouble>, has_source_failed: bool, has_output_failed: bool) -> End
    ensures { result ≡ end_by read has_source_failed has_output_failed }
{
    match read {
        _ if has_output_failed => End::WriteFailed,
        Ok(()) => End::Whole,
        Err(Trouble::Read) if has_source_failed => End::ReadFailed,
        Err(_) => End::NoMemory,
    }
}

/// Tells how reading ended, and the counts of all records that were read. The status is returned.
#[tactic(auto, using(crate::proofs::EndLemmas::told_whole, crate::proofs::EndLemmas::told_failed, crate::proofs::EndLemmas::told_line))]
fn tell_end<E: Sink>(end: End, tally: Tally, faults: &mut E) -> u8
    ensures status { result ≡ status_at end tally }
    ensures told { ToldAt (told_at end tally) (E.gone_out faults.old) (E.gone_out faults.new) (E.has_failed faults.old) (E.has_failed faults.new) }
{
    match end {
        End::Whole => {
            let _ = print_counts(b" records, ", tally, faults);
            tally.status()
        }
        End::ReadFailed => {
            let status = tell_failure(faults, "read failed\n");
            let _ = print_counts(b" records, ", tally, faults);
            status
        }
        End::WriteFailed => tell_failure(faults, "write failed\n"),
        End::NoMemory => tell_failure(faults, "out of memory\n"),
    }
}

/// Reads all records, and writes their answers. The counts are returned beside what went wrong.
#[tactic(auto, using(crate::proofs::InputLemmas::wrote_none))]
fn read_all<R: Source, W: Sink, E: Sink>(
    alloc: Global,
    rules: &Rules,
    asked: Asked,
    source: &mut R,
    output: &mut W,
    faults: &mut E,
) -> (Result<(), Trouble>, Tally)
    ensures { WroteTo W.gone_out W.has_failed E.gone_out E.has_failed asked rules.now (R.to_come source.old) output.old output.new faults.old faults.new result.0 result.1 }
{
    match Inbox::new(alloc, source, sought_in(asked.layout.shape)) {
        Ok(mut inbox) => read_from(alloc, rules, asked, &mut inbox, output, faults),
        Err(_) => (Err(Trouble::Memory), Tally::new()),
    }
}

/// The byte that ends a line of this shape.
fn sought_in(shape: Shape) -> u8
    ensures { result ≡ sought_in shape }
{
    match shape {
        Shape::Lines(lines) => lines.end(),
        Shape::Frames | Shape::Sized => b'\n',
    }
}

/// Reads all records that come there.
#[tactic(auto, using(crate::proofs::InputLemmas::wrote, crate::proofs::InputLemmas::wrote_none))]
fn read_from<R: Source, W: Sink, E: Sink>(
    alloc: Global,
    rules: &Rules,
    asked: Asked,
    inbox: &mut Inbox<'_, R>,
    output: &mut W,
    faults: &mut E,
) -> (Result<(), Trouble>, Tally)
    requires { inbox.old.sought ≡ sought_in asked.layout.shape }
    ensures { WroteTo W.gone_out W.has_failed E.gone_out E.has_failed asked rules.now (ahead inbox.old) output.old output.new faults.old faults.new result.0 result.1 }
{
    match Clerk::new(alloc, rules, asked.how, asked.pass, asked.layout.most) {
        Ok(mut clerk) => {
            let read = read_by(inbox, &mut clerk, asked.layout.shape, output, faults);
            (read, clerk.tally())
        }
        Err(_) => (Err(Trouble::Memory), Tally::new()),
    }
}

/// Reads all records by this clerk, and writes all that waits.
#[tactic(auto, using(crate::proofs::InputLemmas::reads_flushed))]
fn read_by<R: Source, W: Sink, E: Sink>(
    inbox: &mut Inbox<'_, R>,
    clerk: &mut Clerk<'_>,
    shape: Shape,
    output: &mut W,
    faults: &mut E,
) -> Result<(), Trouble>
    requires { inbox.old.sought ≡ sought_in shape }
    ensures reads { ReadsTo W.gone_out W.has_failed E.gone_out E.has_failed result shape clerk.old clerk.new (ahead inbox.old) output.old output.new faults.old faults.new }
    ensures empty { clerk.new.output.failed ≡ false → clerk.new.output.waiting ≡ [] }
    ensures told { clerk.new.faults.failed ≡ false → clerk.new.faults.waiting ≡ [] }
{
    let read = read_shape(inbox, clerk, shape, output, faults);
    match clerk.flush(output, faults) {
        Ok(()) => read,
        Err(_) => Err(Trouble::Write),
    }
}

/// Reads all records of this shape.
#[tactic(auto, using(crate::proofs::InputLemmas::reads_lines, crate::proofs::InputLemmas::reads_frames, crate::proofs::InputLemmas::reads_sized))]
fn read_shape<R: Source, W: Sink, E: Sink>(
    inbox: &mut Inbox<'_, R>,
    clerk: &mut Clerk<'_>,
    shape: Shape,
    output: &mut W,
    faults: &mut E,
) -> Result<(), Trouble>
    requires { inbox.old.sought ≡ sought_in shape }
    ensures reads { ReadsTo W.gone_out W.has_failed E.gone_out E.has_failed result shape clerk.old clerk.new (ahead inbox.old) output.old output.new faults.old faults.new }
{
    match shape {
        Shape::Lines(lines) => read_lines(inbox, clerk, lines, output, faults),
        Shape::Frames => read_frames(inbox, clerk, output, faults),
        Shape::Sized => read_sized(inbox, clerk, output, faults),
    }
}

/// Reads once more, after all that waits has gone out. `false` at the end of the input.
pub(crate) fn read_more<R: Source, W: Sink, E: Sink>(
    inbox: &mut Inbox<'_, R>,
    clerk: &mut Clerk<'_>,
    output: &mut W,
    faults: &mut E,
) -> Result<bool, Trouble>
    ensures quiet { QuietTo W.gone_out W.has_failed E.gone_out E.has_failed clerk.old clerk.new output.old output.new faults.old faults.new }
    ensures current { clerk.new.current ≡ clerk.old.current }
    ensures comes { OnOk result (ComesMore inbox.old inbox.new) }
    ensures ends { result ≡ Ok false → HasEnded inbox.old inbox.new }
{
    if clerk.flush(output, faults).is_err() {
        return Err(Trouble::Write);
    }
    match inbox.read() {
        Ok(more) => Ok(more),
        Err(_) => Err(Trouble::Read),
    }
}
