//! The job of `show --limit N`: the text of a stream, or as many of its lines as the limit allows.
ghost use Rattle.std.specs.Prelude.{◌≡◌, ◌≢◌, ◌<◌, ◌⊎◌, ◌++◌, List, ℕ, length, vec_len, IfOk, IfSome};
ghost use Rattle.std.specs.Io.KnownBytes.{Appends};
ghost use Rattle.jser_commands.specs.Limits.{IsLimitedText, WroteWithin, WroteCut, WroteSomeLimited};
ghost use Rattle.jser_commands.specs.Lines.{CutText, SaysWithin, SaysCutShown, SaysLimited, SaysRefusal, SaysWhy, SaysUnwritten, KeptOrSaidSome};

use crate::answer::print_bytes;
use crate::input::{print_unread, read_stream};
use crate::start::{Start, start_of_show};
use crate::telling::Telling;
use jser_index::Index;
use jser_prim::{Sink, Source, whole_lines};
use jser_settings::{ACCEPTED, CUT, tell_failure};
use std::alloc::{AllocError, Global};

/// Reads the stream of the input, and prints its text, or as many lines of it as the limit allows.
#[tactic(auto, using(crate::proofs::LimitLemmas::says_within, crate::proofs::LimitLemmas::says_cut, crate::proofs::LimitLemmas::limited_failed, crate::proofs::InputLemmas::says_refusal, crate::proofs::InputLemmas::refusal_cut, crate::proofs::InputLemmas::unbroken_refusal, crate::proofs::InputLemmas::why_unread))]
pub(crate) fn show_limited<R: Source, Y: Telling<R>, W: Sink, E: Sink>(
    alloc: Global,
    values: bool,
    limit: u64,
    input: &mut R,
    output: &mut W,
    faults: &mut E,
) -> u8
    ensures accepted { result ≡ 0 → IfSome (R.to_come input.old) (λ bytes. SaysWithin values limit bytes (Appends (W.gone_out output.old) (W.gone_out output.new))) }
    ensures cut { result ≡ 4 → IfSome (R.to_come input.old) (λ bytes. SaysCutShown values limit bytes (Appends (W.gone_out output.old) (W.gone_out output.new))) }
    ensures refused { result ≡ 1 → IfSome (R.to_come input.old) (λ bytes. SaysRefusal bytes (Appends (W.gone_out output.old) (W.gone_out output.new))) }
    ensures failed { result ≡ 3 → KeptOrSaidSome (W.has_failed output.new) (W.gone_out output.old) (W.gone_out output.new) (R.to_come input.old) (SaysLimited values limit) SaysRefusal }
    ensures status { (result ≡ 0) ⊎ ((result ≡ 1) ⊎ ((result ≡ 3) ⊎ (result ≡ 4))) }
    ensures why { result ≡ 3 → SaysWhy (Y.why_failed input.new) (R.has_failed input.old) (R.has_failed input.new) (W.has_failed output.old) (W.has_failed output.new) (E.has_failed faults.new) (E.gone_out faults.old) (E.gone_out faults.new) }
    ensures unbroken { result ≢ 3 → (R.has_failed input.new ≡ R.has_failed input.old) × (W.has_failed output.new ≡ W.has_failed output.old) }
    ensures quiet { result ≢ 3 → faults.new ≡ faults.old }
{
    let mut bytes = Vec::new(alloc);
    match read_stream(alloc, input, &mut bytes) {
        Ok(graph) => print_limited(alloc, values, limit, &graph, output, faults),
        Err(unread) => print_unread(alloc, unread, Y::fault(input), output, faults),
    }
}

/// Prints the text of a stream, or as many lines of it as the limit allows.
fn print_limited<W: Sink, E: Sink>(
    alloc: Global,
    values: bool,
    limit: u64,
    graph: &Index<&[u8]>,
    output: &mut W,
    faults: &mut E,
) -> u8
    ensures printed { result ≡ 0 → WroteWithin values limit graph.now (W.gone_out output.old) (W.gone_out output.new) }
    ensures cut { result ≡ 4 → WroteCut values limit graph.now (W.gone_out output.old) (W.gone_out output.new) }
    ensures failed { result ≡ 3 → WroteSomeLimited values limit graph.now (W.has_failed output.new) (W.gone_out output.old) (W.gone_out output.new) }
    ensures status { (result ≡ 0) ⊎ ((result ≡ 3) ⊎ (result ≡ 4)) }
    ensures why { result ≡ 3 → SaysUnwritten (W.has_failed output.old) (W.has_failed output.new) (E.has_failed faults.new) (E.gone_out faults.old) (E.gone_out faults.new) }
    ensures unbroken { result ≢ 3 → W.has_failed output.new ≡ W.has_failed output.old }
    ensures quiet { result ≢ 3 → faults.new ≡ faults.old }
{
    match limited_text(alloc, values, graph, limit) {
        Ok(Limited::Whole(text)) => print_bytes(output, faults, &text, ACCEPTED),
        Ok(Limited::Cut(text)) => print_bytes(output, faults, &text, CUT),
        Err(_) => tell_failure(faults, "out of memory\n"),
    }
}

/// What is printed of a text.
#[derive(Drop)]
pub(crate) enum Limited {
    /// All of it.
    Whole(Vec<u8>),
    /// Some of its lines, and the line that says so.
    Cut(Vec<u8>),
}

/// What is printed of the text of a stream. It holds one byte more than the limit allows, at most, and the walk stops there.
fn limited_text(
    alloc: Global,
    values: bool,
    graph: &Index<&[u8]>,
    limit: u64,
) -> Result<Limited, AllocError>
    ensures { IfOk result (IsLimitedText values limit graph.now) }
{
    let Start { bytes, whole } = start_of_show(alloc, values, graph, limit)?;
    if bytes.len() as u64 > limit {
        return Ok(Limited::Cut(cut(alloc, bytes, limit)?));
    }
    if whole {
        return Ok(Limited::Whole(bytes));
    }
    // The sink takes one byte more than the limit allows, so where it failed, memory had run out.
    Err(AllocError)
}

/// The lines that the limit allows of a text that begins with these bytes, and the line that says so.
fn cut(alloc: Global, bytes: Vec<u8>, limit: u64) -> Result<Vec<u8>, AllocError>
    requires { limit < vec_len bytes }
    ensures { IfOk result (λ text. (rest : List ℕ) → CutText limit (bytes.items ++ rest) text.items) }
{
    let mut text = bytes;
    let count = whole_lines(&text, limit as usize);
    text.truncate(count);
    let line = format!(in alloc; "cut at {limit} bytes\n")?;
    text.extend_from_slice(line.as_bytes())?;
    Ok(text)
}
