//! What a printed filter is worth.
ghost use Rattle.std.specs.Prelude.{◌≡◌, ◌≢◌, ◌≤◌, IfOk, [], ◌∷◌, true};
ghost use Rattle.std.specs.Io.KnownBytes.{Keeps};
ghost use Rattle.jser_suggest.specs.Samples.{AreKnown};
ghost use Rattle.uses_commands.specs.Suggests.{PrintsFilterOf};

use jser_prim::Sink;
use jser_scan::{FilePath, print_suggested, tell_no_sample};
use jser_suggest::laws::admits_widened;
use jser_suggest::{SampleFault, Samples};
use std::alloc::Global;

/// Prints the filter that is suggested for one stream, with its limits `slack` times as high, and at 0 did; or tells why there is
/// none. At 3 nothing was printed, where the output did not fail.
pub fn suggest_one<W: Sink, E: Sink>(
    alloc: Global,
    path: &FilePath,
    bytes: &[u8],
    slack: u64,
    output: &mut W,
    faults: &mut E,
) -> u8
    ensures admits { 1 ≤ slack → result ≡ 0 → PrintsFilterOf bytes.now (W.gone_out output.old) (W.gone_out output.new) }
    ensures nothing { result ≡ 3 → W.has_failed output.new ≢ true → Keeps (W.gone_out output.old) (W.gone_out output.new) }
    ensures quiet { result ≡ 0 → faults.new ≡ faults.old }
    ensures status { result ≤ 3 }
{
    admits_widened();
    match known_of(alloc, bytes) {
        Ok(samples) => print_suggested(alloc, &samples, slack, output, faults),
        Err(fault) => tell_no_sample(path, &fault, faults),
    }
}

/// What is known of one stream.
fn known_of(alloc: Global, bytes: &[u8]) -> Result<Samples, SampleFault>
    ensures { IfOk result (λ samples. AreKnown (bytes.now ∷ []) samples) }
{
    let mut samples = Samples::new(alloc);
    match samples.add(alloc, bytes) {
        Ok(()) => Ok(samples),
        Err(fault) => Err(fault),
    }
}
