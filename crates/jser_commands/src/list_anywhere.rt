//! The job of `list --anywhere`: the lines of `list`, and one for each name of a class that can be read at some place of the
//! stream and is no checked name of it.
ghost use Rattle.std.specs.Prelude.{◌≡◌, ◌≢◌, ◌⊎◌, ◌++◌, codes, IfErr, IfOk, IfSome, OnOk};
ghost use Rattle.std.specs.Io.KnownBytes.{Appends};
ghost use Rattle.jser_index.specs.Reading.{IsRefused};
ghost use Rattle.jser_names.specs.Named.{IsNamed};
ghost use Rattle.jser_shown.specs.Counting.{tally_lines};
ghost use Rattle.jser_commands.specs.Inputs.{IfUnreadRefused, IsReadFault};
ghost use Rattle.jser_commands.specs.Lines.{SaysListedAnywhere, SaysRefusal, SaysWhy, SaysUnwritten, KeptOrCut, KeptOrSaidSome, marked_words, words_on};
ghost use Rattle.jser_commands.specs.Places.{lines_of_both};

use crate::hidden::hidden_names;
use crate::input::{Unread, print_unread, unread_of};
use crate::list::write_lines;
use crate::telling::Telling;
use jser_filter::Filter;
use jser_names::{Keyed, NameCounts, NamedStream, bytes_and_names_of};
use jser_prim::{Outbox, Sink, Source};
use jser_settings::{ACCEPTED, tell_failure};
use jser_shown::laws::counted;
use std::alloc::Global;

/// Reads the stream of the input, and prints the lines of its checked names and of those at any place, both counted under this
/// key.
#[tactic(auto, using(crate::proofs::InputLemmas::says_refusal, crate::proofs::InputLemmas::refusal_cut, crate::proofs::InputLemmas::unbroken_refusal, crate::proofs::InputLemmas::why_unread))]
pub(crate) fn list_anywhere<R: Source, Y: Telling<R>, W: Sink, E: Sink>(
    alloc: Global,
    keyed: Keyed,
    filter: &Filter,
    input: &mut R,
    output: &mut W,
    faults: &mut E,
) -> u8
    ensures accepted { result ≡ 0 → IfSome (R.to_come input.old) (λ bytes. SaysListedAnywhere filter.now bytes (Appends (W.gone_out output.old) (W.gone_out output.new))) }
    ensures refused { result ≡ 1 → IfSome (R.to_come input.old) (λ bytes. SaysRefusal bytes (Appends (W.gone_out output.old) (W.gone_out output.new))) }
    ensures failed { result ≡ 3 → KeptOrSaidSome (W.has_failed output.new) (W.gone_out output.old) (W.gone_out output.new) (R.to_come input.old) (SaysListedAnywhere filter.now) SaysRefusal }
    ensures status { (result ≡ 0) ⊎ ((result ≡ 1) ⊎ (result ≡ 3)) }
    ensures why { result ≡ 3 → SaysWhy (Y.why_failed input.new) (R.has_failed input.old) (R.has_failed input.new) (W.has_failed output.old) (W.has_failed output.new) (E.has_failed faults.new) (E.gone_out faults.old) (E.gone_out faults.new) }
    ensures unbroken { result ≢ 3 → (R.has_failed input.new ≡ R.has_failed input.old) × (W.has_failed output.new ≡ W.has_failed output.old) }
    ensures quiet { result ≢ 3 → faults.new ≡ faults.old }
{
    counted();
    match read_whole(alloc, keyed, input) {
        Ok(whole) => print_whole(alloc, keyed, filter, &whole, output, faults),
        Err(unread) => print_unread(alloc, unread, Y::fault(input), output, faults),
    }
}

/// The stream of a source, which is read to its end, or until one byte more than a stream may have has come.
///
/// # Errors
///
/// `Unread`, with the reason. A failed read is told whatever came before it.
#[tactic(auto, using(crate::proofs::InputLemmas::unread_refuses, crate::proofs::InputLemmas::unread_fails))]
fn read_whole<R: Source>(alloc: Global, keyed: Keyed, input: &mut R) -> Result<NamedStream, Unread>
    ensures accepted { IfOk result (λ whole. IfSome (R.to_come input.old) (λ bytes. IsNamed bytes whole)) }
    ensures refused { IfErr result (λ unread. IfSome (R.to_come input.old) (λ bytes. IfUnreadRefused (IsRefused bytes) unread)) }
    ensures unbroken { OnOk result (R.has_failed input.new ≡ R.has_failed input.old) }
    ensures fault { IfErr result (λ unread. IsReadFault unread (R.has_failed input.old) (R.has_failed input.new)) }
{
    match bytes_and_names_of(alloc, keyed, input) {
        Ok(whole) => Ok(whole),
        Err(fault) => Err(unread_of(fault)),
    }
}

/// Prints the lines of the checked names and of the hidden ones, which are gathered first.
#[tactic(auto, using(crate::proofs::Lines::kept))]
fn print_whole<W: Sink, E: Sink>(
    alloc: Global,
    keyed: Keyed,
    filter: &Filter,
    whole: &NamedStream,
    output: &mut W,
    faults: &mut E,
) -> u8
    ensures printed { result ≡ 0 → Appends (W.gone_out output.old) (W.gone_out output.new) (lines_of_both filter.now whole.now) }
    ensures failed { result ≡ 3 → KeptOrCut (W.has_failed output.new) (W.gone_out output.old) (W.gone_out output.new) (lines_of_both filter.now whole.now) }
    ensures status { (result ≡ 0) ⊎ (result ≡ 3) }
    ensures why { result ≡ 3 → SaysUnwritten (W.has_failed output.old) (W.has_failed output.new) (E.has_failed faults.new) (E.gone_out faults.old) (E.gone_out faults.new) }
    ensures unbroken { result ≡ 0 → W.has_failed output.new ≡ W.has_failed output.old }
    ensures quiet { result ≡ 0 → faults.new ≡ faults.old }
{
    match hidden_names(alloc, keyed, &whole.bytes, &whole.names) {
        Ok(hidden) => print_both(filter, &whole.names, &hidden, output, faults),
        Err(_) => tell_failure(faults, "out of memory\n"),
    }
}

/// Prints a line for each checked name, and then for each hidden one. Takes no memory.
#[tactic(auto, using(crate::proofs::ListLemmas::text_kept))]
fn print_both<W: Sink, E: Sink>(
    filter: &Filter,
    checked: &NameCounts,
    hidden: &NameCounts,
    output: &mut W,
    faults: &mut E,
) -> u8
    ensures printed { result ≡ 0 → Appends (W.gone_out output.old) (W.gone_out output.new) (tally_lines (words_on filter.now) checked.now ++ tally_lines (marked_words (codes "hidden ") filter.now) hidden.now) }
    ensures failed { result ≡ 3 → KeptOrCut (W.has_failed output.new) (W.gone_out output.old) (W.gone_out output.new) (tally_lines (words_on filter.now) checked.now ++ tally_lines (marked_words (codes "hidden ") filter.now) hidden.now) }
    ensures status { (result ≡ 0) ⊎ (result ≡ 3) }
    ensures why { result ≡ 3 → SaysUnwritten (W.has_failed output.old) (W.has_failed output.new) (E.has_failed faults.new) (E.gone_out faults.old) (E.gone_out faults.new) }
    ensures unbroken { result ≡ 0 → W.has_failed output.new ≡ W.has_failed output.old }
    ensures quiet { result ≡ 0 → faults.new ≡ faults.old }
{
    let mut outbox = Outbox::new();
    write_lines(&mut outbox, output, filter, b"", checked);
    write_lines(&mut outbox, output, filter, b"hidden ", hidden);
    outbox.flush(output);
    if outbox.has_failed() {
        return tell_failure(faults, "write failed\n");
    }
    ACCEPTED
}
