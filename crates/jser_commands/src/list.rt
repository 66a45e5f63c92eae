//! The job of `list`: the checked names of a stream, with how often each stands there and what a filter says of it. The stream
//! is read in pieces, and its names alone are kept.
ghost use Rattle.std.specs.Prelude.{◌≡◌, ◌≢◌, ◌⊎◌, ◌++◌, IfErr, IfOk, IfSome, OnErr, OnOk, true};
ghost use Rattle.std.specs.Io.KnownBytes.{Appends};
ghost use Rattle.jser_filter.specs.Filters.{verdict_of};
ghost use Rattle.jser_shown.specs.Counting.{name_tally, tally_lines};
ghost use Rattle.jser_shown.specs.Listed.{listed};
ghost use Rattle.jser_index.specs.Reading.{IsRefused};
ghost use Rattle.jser_names.specs.Sources.{HasNames};
ghost use Rattle.jser_printer.specs.Says.{SaysTo};
ghost use Rattle.jser_commands.specs.Counts.{tally_line, lines_before};
ghost use Rattle.jser_commands.specs.Inputs.{IfUnreadRefused, IsReadFault};
ghost use Rattle.jser_commands.specs.Lines.{AppendsSome, SaysText, SaysRefusal, SaysWhy, SaysUnwritten, KeptOrCut, KeptOrSaidSome, marked_words, verdict_words, words_on};

use crate::input::{Unread, print_unread, unread_of};
use crate::telling::Telling;
use jser_filter::{Filter, Verdict};
use jser_names::{Keyed, NameCount, NameCounts, names_of};
use jser_prim::{Failed, Outbox, Sink, Source};
use jser_printer::{write, write_decimal, write_quoted};
use jser_settings::{ACCEPTED, tell_failure};
use jser_shown::laws::counted;
use jser_table::{Element, element_of};
use std::alloc::Global;

/// Reads the stream of the input in pieces, and prints the lines of its checked names, which are counted under this key.
#[tactic(auto, using(crate::proofs::ListLemmas::says_listed, crate::proofs::InputLemmas::says_refusal, crate::proofs::InputLemmas::refusal_cut, crate::proofs::InputLemmas::unbroken_refusal, crate::proofs::InputLemmas::why_unread))]
pub(crate) fn list<R: Source, Y: Telling<R>, W: Sink, E: Sink>(
    alloc: Global,
    keyed: Keyed,
    filter: &Filter,
    input: &mut R,
    output: &mut W,
    faults: &mut E,
) -> u8
    ensures accepted { result ≡ 0 → IfSome (R.to_come input.old) (λ bytes. SaysText (listed (words_on filter.now)) bytes (Appends (W.gone_out output.old) (W.gone_out output.new))) }
    ensures refused { result ≡ 1 → IfSome (R.to_come input.old) (λ bytes. SaysRefusal bytes (Appends (W.gone_out output.old) (W.gone_out output.new))) }
    ensures failed { result ≡ 3 → KeptOrSaidSome (W.has_failed output.new) (W.gone_out output.old) (W.gone_out output.new) (R.to_come input.old) (SaysText (listed (words_on filter.now))) SaysRefusal }
    ensures status { (result ≡ 0) ⊎ ((result ≡ 1) ⊎ (result ≡ 3)) }
    ensures why { result ≡ 3 → SaysWhy (Y.why_failed input.new) (R.has_failed input.old) (R.has_failed input.new) (W.has_failed output.old) (W.has_failed output.new) (E.has_failed faults.new) (E.gone_out faults.old) (E.gone_out faults.new) }
    ensures unbroken { result ≢ 3 → (R.has_failed input.new ≡ R.has_failed input.old) × (W.has_failed output.new ≡ W.has_failed output.old) }
    ensures quiet { result ≢ 3 → faults.new ≡ faults.old }
{
    counted();
    match read_names(alloc, keyed, input) {
        Ok(names) => print_names(filter, &names, output, faults),
        Err(unread) => print_unread(alloc, unread, Y::fault(input), output, faults),
    }
}

/// The checked names of the stream of a source, which is read to its end, or until one byte more than a stream may have has
/// come.
///
/// # Errors
///
/// `Unread`, with the reason. A failed read is told whatever came before it.
#[tactic(auto, using(crate::proofs::InputLemmas::unread_refuses, crate::proofs::InputLemmas::unread_fails))]
fn read_names<R: Source>(alloc: Global, keyed: Keyed, input: &mut R) -> Result<NameCounts, Unread>
    ensures accepted { IfOk result (λ names. IfSome (R.to_come input.old) (λ bytes. HasNames bytes names)) }
    ensures refused { IfErr result (λ unread. IfSome (R.to_come input.old) (λ bytes. IfUnreadRefused (IsRefused bytes) unread)) }
    ensures unbroken { OnOk result (R.has_failed input.new ≡ R.has_failed input.old) }
    ensures fault { IfErr result (λ unread. IsReadFault unread (R.has_failed input.old) (R.has_failed input.new)) }
{
    match names_of(alloc, keyed, input) {
        Ok(names) => Ok(names),
        Err(fault) => Err(unread_of(fault)),
    }
}

/// Prints the lines of the checked names of a stream.
#[tactic(auto, using(crate::proofs::Lines::kept))]
fn print_names<W: Sink, E: Sink>(
    filter: &Filter,
    names: &NameCounts,
    output: &mut W,
    faults: &mut E,
) -> u8
    ensures printed { result ≡ 0 → Appends (W.gone_out output.old) (W.gone_out output.new) (tally_lines (words_on filter.now) names.now) }
    ensures failed { result ≡ 3 → KeptOrCut (W.has_failed output.new) (W.gone_out output.old) (W.gone_out output.new) (tally_lines (words_on filter.now) names.now) }
    ensures status { (result ≡ 0) ⊎ (result ≡ 3) }
    ensures why { result ≡ 3 → SaysUnwritten (W.has_failed output.old) (W.has_failed output.new) (E.has_failed faults.new) (E.gone_out faults.old) (E.gone_out faults.new) }
    ensures unbroken { result ≡ 0 → W.has_failed output.new ≡ W.has_failed output.old }
    ensures quiet { result ≡ 0 → faults.new ≡ faults.old }
{
    match write_names(filter, names, output) {
        Ok(()) => ACCEPTED,
        Err(_) => tell_failure(faults, "write failed\n"),
    }
}

/// Writes the text of `list`: a line for each different name, with how often it was counted and what the filter says of it.
/// Takes no memory.
///
/// # Errors
///
/// Where the sink failed, behind the first bytes of the text.
#[tactic(auto, using(crate::proofs::ListLemmas::text_kept))]
pub(crate) fn write_names<W: Sink>(
    filter: &Filter,
    names: &NameCounts,
    sink: &mut W,
) -> Result<(), Failed>
    ensures written { OnOk result (Appends (W.gone_out sink.old) (W.gone_out sink.new) (tally_lines (words_on filter.now) names.now)) }
    ensures unbroken { OnOk result (W.has_failed sink.new ≡ W.has_failed sink.old) }
    ensures cut { OnErr result ((W.has_failed sink.new ≡ true) × AppendsSome (W.gone_out sink.old) (W.gone_out sink.new) (tally_lines (words_on filter.now) names.now)) }
{
    let mut outbox = Outbox::new();
    write_lines(&mut outbox, sink, filter, b"", names);
    outbox.flush(sink);
    if outbox.has_failed() {
        return Err(Failed);
    }
    Ok(())
}

/// Writes a line for each name that was counted, with this mark before its verdict.
pub(crate) fn write_lines<W: Sink>(
    outbox: &mut Outbox,
    sink: &mut W,
    filter: &Filter,
    mark: &[u8],
    names: &NameCounts,
)
    ensures { SaysTo W.gone_out W.has_failed outbox.old outbox.new sink.old sink.new (λ k. lines_before (marked_words mark.now filter.now) names.now k) }
{
    'lines: for number in 0..names.len() {
        match names.get(number) {
            Some(count) => write_line(outbox, sink, filter, mark, count),
            None => unreachable!(),
        }
    }
}

/// Writes the line of a name: how often it was counted, the mark, what the filter says of it, and the name.
fn write_line<W: Sink>(
    outbox: &mut Outbox,
    sink: &mut W,
    filter: &Filter,
    mark: &[u8],
    count: NameCount<'_>,
)
    ensures { SaysTo W.gone_out W.has_failed outbox.old outbox.new sink.old sink.new (λ k. tally_line (marked_words mark.now filter.now) (name_tally count.entry.name.now count.entry.times) k) }
{
    write_decimal(outbox, sink, count.times);
    write(outbox, sink, b" ");
    write_marked(outbox, sink, filter, mark, count.name);
    write(outbox, sink, b" ");
    write_quoted(outbox, sink, count.name);
    write(outbox, sink, b"\n");
}

/// Writes the mark, and what the filter says of a name.
#[tactic(auto, using(crate::proofs::ListLemmas::says_marked))]
fn write_marked<W: Sink>(
    outbox: &mut Outbox,
    sink: &mut W,
    filter: &Filter,
    mark: &[u8],
    name: &[u16],
)
    ensures { SaysTo W.gone_out W.has_failed outbox.old outbox.new sink.old sink.new (λ k. marked_words mark.now filter.now name.now ++ k) }
{
    write(outbox, sink, mark);
    write_verdict(outbox, sink, verdict_on(filter, name));
}

/// Writes a verdict: `allowed:I`, `rejected:I`, `undecided` or `noclass`, with the index of the piece that decides.
fn write_verdict<W: Sink>(outbox: &mut Outbox, sink: &mut W, verdict: Verdict)
    ensures { SaysTo W.gone_out W.has_failed outbox.old outbox.new sink.old sink.new (λ k. verdict_words verdict ++ k) }
{
    match verdict {
        Verdict::Allowed(index) => {
            write(outbox, sink, b"allowed:");
            write_decimal(outbox, sink, index as u64);
        }
        Verdict::Rejected(index) => {
            write(outbox, sink, b"rejected:");
            write_decimal(outbox, sink, index as u64);
        }
        Verdict::Undecided => write(outbox, sink, b"undecided"),
        Verdict::NoClass => write(outbox, sink, b"noclass"),
    }
}

/// What a filter says of a name. A checked name is never malformed; no pattern would match one that were.
fn verdict_on(filter: &Filter, name: &[u16]) -> Verdict
    ensures { result ≡ verdict_of filter.now name.now }
{
    match element_of(name) {
        Element::Malformed => Verdict::Undecided,
        _ => filter.judge(name),
    }
}
