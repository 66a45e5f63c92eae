//! What is done with a record that has ended: its answer is written, or the record itself, and it counts.
ghost use Rattle.std.specs.Prelude.{◌≡◌, [], ◌∷◌, false, IfOk, OnOk, OnErr, true};
ghost use Rattle.jser_printer.specs.Says.{SaysTo};
ghost use Rattle.jser_scan.specs.Tallies.{no_files};
ghost use Rattle.jser_records.specs.Held.{terms_of};
ghost use Rattle.jser_records.specs.Told.{ClosesTo, QuietTo, SaysAllTo, behind_it, counted, entry_words, put_of, told_of};

use crate::answer::Answer;
use crate::current::{Ended, Record};
use crate::key::Key;
use crate::words::{write_line, write_object};
use jser_prim::{Failed, Outbox, Sink};
use jser_printer::write;
use jser_scan::{How, Rules, Tally};
use std::alloc::{AllocError, Global};

/// What is done with records.
#[derive(Drop)]
pub(crate) struct Clerk<'f> {
    how: How,
    passes: bool,
    /// The record that is read.
    pub(crate) current: Record<'f>,
    number: u64,
    tally: Tally,
    output: Outbox,
    faults: Outbox,
}

impl<'f> Clerk<'f> {
    /// No record so far.
    pub(crate) fn new(
        alloc: Global,
        rules: &'f Rules,
        how: How,
        passes: bool,
        most: u64,
    ) -> Result<Clerk<'f>, AllocError>
        ensures how { IfOk result (λ clerk. clerk.how ≡ how) }
        ensures passes { IfOk result (λ clerk. clerk.passes ≡ passes) }
        ensures number { IfOk result (λ clerk. clerk.number ≡ 0) }
        ensures tally { IfOk result (λ clerk. clerk.tally ≡ no_files) }
        ensures terms { IfOk result (λ clerk. terms_of clerk.current ≡ record { rules = rules.now; most = most; hands_on = passes }) }
        ensures output { IfOk result (λ clerk. clerk.output ≡ record { waiting = []; written = 0; failed = false }) }
        ensures faults { IfOk result (λ clerk. clerk.faults ≡ record { waiting = []; written = 0; failed = false }) }
    {
        match Record::new(alloc, rules, passes, most) {
            Ok(current) => Ok(Clerk {
                how,
                passes,
                current,
                number: 0,
                tally: Tally::new(),
                output: Outbox::new(),
                faults: Outbox::new(),
            }),
            Err(failed) => Err(failed),
        }
    }

    /// The record has ended: it is counted, and its answer is written, or the record itself. What is returned says whether it is
    /// accepted.
    pub(crate) fn close<W: Sink, E: Sink>(&mut self, output: &mut W, faults: &mut E) -> bool
        ensures closes { ClosesTo W.gone_out W.has_failed E.gone_out E.has_failed self.old self.new output.old output.new faults.old faults.new result }
    {
        let ended = self.current.finish(self.how.json);
        put_record(
            &mut self.output,
            output,
            self.how,
            self.passes,
            self.number,
            &self.current,
            &ended,
        );
        tell_record(
            &mut self.faults,
            faults,
            self.how,
            self.passes,
            self.number,
            &self.current,
            &ended,
        );
        self.tally = counted(self.tally, &ended.answer);
        self.number = self.number.saturating_add(1);
        ended.answer.passes()
    }

    /// Bytes are behind a record: they are handed on with one that passed, else passed over.
    #[tactic(auto, using(crate::proofs::ToldLemmas::said_behind, crate::proofs::ToldLemmas::said_over))]
    pub(crate) fn pass_on<W: Sink, E: Sink>(
        &mut self,
        output: &mut W,
        faults: &mut E,
        bytes: &[u8],
        passed: bool,
    )
        ensures says { SaysAllTo W.gone_out W.has_failed E.gone_out E.has_failed self.old self.new output.old output.new faults.old faults.new (behind_it passed bytes.now ∷ []) }
        ensures current { self.new.current ≡ self.old.current }
    {
        if passed && self.passes {
            write(&mut self.output, output, bytes);
        }
    }

    /// Hands all that waits to the devices.
    #[tactic(auto, using(crate::proofs::ToldLemmas::quiet_flushed))]
    pub(crate) fn flush<W: Sink, E: Sink>(
        &mut self,
        output: &mut W,
        faults: &mut E,
    ) -> Result<(), Failed>
        ensures quiet { QuietTo W.gone_out W.has_failed E.gone_out E.has_failed self.old self.new output.old output.new faults.old faults.new }
        ensures current { self.new.current ≡ self.old.current }
        ensures empty { self.new.output.failed ≡ false → self.new.output.waiting ≡ [] }
        ensures told { self.new.faults.failed ≡ false → self.new.faults.waiting ≡ [] }
        ensures ok { OnOk result (self.new.output.failed ≡ false) }
        ensures err { OnErr result (self.new.output.failed ≡ true) }
    {
        self.faults.flush(faults);
        self.output.flush(output);
        if self.output.has_failed() {
            Err(Failed)
        } else {
            Ok(())
        }
    }

    /// The counts of all records.
    pub(crate) fn tally(&self) -> Tally
        ensures { result ≡ self.now.tally }
    {
        self.tally
    }
}

/// Writes what goes to standard output of a record.
fn put_record<W: Sink>(
    outbox: &mut Outbox,
    sink: &mut W,
    how: How,
    passes: bool,
    number: u64,
    current: &Record<'_>,
    ended: &Ended,
)
    ensures { SaysTo W.gone_out W.has_failed outbox.old outbox.new sink.old sink.new (λ k. put_of how passes number current.now.reading.key ended.now.signs.items ended.now.answer current.now.held.items k) }
{
    if passes {
        if ended.answer.passes() {
            write(outbox, sink, current.held());
        } else {
            write(outbox, sink, b"");
        }
    } else if how.refused && ended.answer.passes() {
        write(outbox, sink, b"");
    } else {
        write_entry(outbox, sink, how.json, number, &current.reading.key, ended);
    }
}

/// Writes what goes to standard error of a record.
fn tell_record<W: Sink>(
    outbox: &mut Outbox,
    sink: &mut W,
    how: How,
    passes: bool,
    number: u64,
    current: &Record<'_>,
    ended: &Ended,
)
    ensures { SaysTo W.gone_out W.has_failed outbox.old outbox.new sink.old sink.new (λ k. told_of how passes number current.now.reading.key ended.now.signs.items ended.now.answer k) }
{
    if passes && !ended.answer.passes() {
        write_entry(outbox, sink, how.json, number, &current.reading.key, ended);
    } else {
        write(outbox, sink, b"");
    }
}

/// Writes the line of a record, or its object.
fn write_entry<W: Sink>(
    outbox: &mut Outbox,
    sink: &mut W,
    json: bool,
    number: u64,
    key: &Key,
    ended: &Ended,
)
    ensures { SaysTo W.gone_out W.has_failed outbox.old outbox.new sink.old sink.new (λ k. entry_words json number key.now ended.now.signs.items ended.now.answer k) }
{
    if json {
        write_object(
            outbox,
            sink,
            number,
            key,
            ended.signs.as_slice(),
            &ended.answer,
        );
    } else {
        write_line(
            outbox,
            sink,
            number,
            key,
            ended.signs.as_slice(),
            &ended.answer,
        );
    }
}

/// The counts with one record more.
fn counted(tally: Tally, answer: &Answer) -> Tally
    ensures { result ≡ counted tally answer.now }
{
    let mut tally = tally;
    match answer {
        Answer::Checked(found) => tally.note(found),
        Answer::Null => tally.note_accepted(),
        Answer::Longer { .. }
        | Answer::LongKey
        | Answer::LineEndInKey
        | Answer::Cut { .. }
        | Answer::ErrorReply
        | Answer::NoLength => tally.note_unread(),
    }
    tally
}
