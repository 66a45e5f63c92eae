//! The job of `show`: the text of a stream.
ghost use Rattle.std.specs.Prelude.{◌≡◌, ◌≢◌, ◌⊎◌, IfSome};
ghost use Rattle.std.specs.Io.KnownBytes.{Appends};
ghost use Rattle.jser_shown.specs.Shown.{shown};
ghost use Rattle.jser_index.specs.Showing.{WroteText, WroteFront};
ghost use Rattle.jser_commands.specs.Lines.{AppendsSome, SaysText, SaysRefusal, SaysWhy, SaysUnwritten, KeptOrSaidSome};

use crate::input::{print_unread, read_stream};
use crate::telling::Telling;
use jser_index::{GraphFault, Index};
use jser_prim::{Sink, Source};
use jser_settings::{ACCEPTED, tell_failure};
use std::alloc::Global;

/// Reads the stream of the input, and prints its text, with what raw values mean where `values` asks for that.
#[tactic(auto, using(crate::proofs::ShowLemmas::says_shown, crate::proofs::InputLemmas::says_refusal, crate::proofs::InputLemmas::refusal_cut, crate::proofs::InputLemmas::unbroken_refusal, crate::proofs::InputLemmas::why_unread))]
pub(crate) fn show<R: Source, Y: Telling<R>, W: Sink, E: Sink>(
    alloc: Global,
    values: bool,
    input: &mut R,
    output: &mut W,
    faults: &mut E,
) -> u8
    ensures accepted { result ≡ 0 → IfSome (R.to_come input.old) (λ bytes. SaysText (shown values) bytes (Appends (W.gone_out output.old) (W.gone_out output.new))) }
    ensures refused { result ≡ 1 → IfSome (R.to_come input.old) (λ bytes. SaysRefusal bytes (Appends (W.gone_out output.old) (W.gone_out output.new))) }
    ensures failed { result ≡ 3 → KeptOrSaidSome (W.has_failed output.new) (W.gone_out output.old) (W.gone_out output.new) (R.to_come input.old) (SaysText (shown values)) SaysRefusal
        ⊎ IfSome (R.to_come input.old) (λ bytes. SaysText (shown values) bytes (AppendsSome (W.gone_out output.old) (W.gone_out output.new))) }
    ensures status { (result ≡ 0) ⊎ ((result ≡ 1) ⊎ (result ≡ 3)) }
    ensures why { result ≡ 3 → SaysWhy (Y.why_failed input.new) (R.has_failed input.old) (R.has_failed input.new) (W.has_failed output.old) (W.has_failed output.new) (E.has_failed faults.new) (E.gone_out faults.old) (E.gone_out faults.new) }
    ensures unbroken { result ≢ 3 → (R.has_failed input.new ≡ R.has_failed input.old) × (W.has_failed output.new ≡ W.has_failed output.old) }
    ensures quiet { result ≢ 3 → faults.new ≡ faults.old }
{
    let mut bytes = Vec::new(alloc);
    match read_stream(alloc, input, &mut bytes) {
        Ok(graph) => print_text(alloc, values, &graph, output, faults),
        Err(unread) => print_unread(alloc, unread, Y::fault(input), output, faults),
    }
}

/// Prints the text of a stream.
fn print_text<W: Sink, E: Sink>(
    alloc: Global,
    values: bool,
    graph: &Index<&[u8]>,
    output: &mut W,
    faults: &mut E,
) -> u8
    ensures printed { result ≡ 0 → WroteText values graph.now (W.gone_out output.old) (W.gone_out output.new) }
    ensures failed { result ≡ 3 → (why : GraphFault) × WroteFront values graph.now (W.gone_out output.old) (W.gone_out output.new) why }
    ensures status { (result ≡ 0) ⊎ (result ≡ 3) }
    ensures why { result ≡ 3 → SaysUnwritten (W.has_failed output.old) (W.has_failed output.new) (E.has_failed faults.new) (E.gone_out faults.old) (E.gone_out faults.new) }
    ensures unbroken { result ≡ 0 → W.has_failed output.new ≡ W.has_failed output.old }
    ensures quiet { result ≡ 0 → faults.new ≡ faults.old }
{
    match graph.show(alloc, values, output) {
        Ok(_) => ACCEPTED,
        Err(GraphFault::Write { .. }) => tell_failure(faults, "write failed\n"),
        Err(GraphFault::OutOfMemory { .. }) => tell_failure(faults, "out of memory\n"),
    }
}
