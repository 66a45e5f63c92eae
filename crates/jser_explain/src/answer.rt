//! The answer of a check, and why.
ghost use Rattle.std.specs.Prelude.{◌≡◌, ◌≢◌, ◌⊎◌, IfSome, true};
ghost use Rattle.std.specs.Io.KnownBytes.{Appends};
ghost use Rattle.jser_commands.specs.Lines.{SaysAccepted, SaysRefused, SaysUnwritten};
ghost use Rattle.jser_commands.specs.Lines.{SaysWhy as SaysWhyNot};
ghost use Rattle.jser_explain.specs.Explains.{asked, Explained, LeavesSome, SaidOfKept};
ghost use Rattle.jser_explain.specs.Whys.{SaysSomeWhy, SaysWhy};

use crate::line::print_answer;
use crate::why::{WhyFault, print_why};
use jser_inputs::Input;
use jser_prim::Sink;
use jser_scan::{Found, LastBytes, Rules, check_keeping};
use jser_settings::{REFUSED, tell_failure};
use std::alloc::Global;

/// Checks an input as `check` does, prints its line, and behind that of a refusal why. `text` is that of the filter in
/// `rules`. Returns the status, and the input: 3 where it was not read, the output failed, or memory ran out, and that is told
/// on `faults`.
///
/// The input is checked once, and the bytes that the check reads are kept.
#[tactic(auto, using(crate::proofs::ExplainLemmas::status_of))]
pub fn explain<R: Input + Drop, W: Sink, E: Sink>(
    alloc: Global,
    rules: &Rules,
    text: &str,
    input: R,
    output: &mut W,
    faults: &mut E,
) -> (u8, R)
    ensures accepted { result.0 ≡ 0 → IfSome (R.to_come input) (λ bytes. SaysAccepted (asked rules.now) bytes (Appends (W.gone_out output.old) (W.gone_out output.new))) }
    ensures refused { result.0 ≡ 1 → IfSome (R.to_come input) (λ bytes. SaysRefused (asked rules.now) bytes (Explained rules.now bytes (W.gone_out output.old) (W.gone_out output.new))) }
    ensures failed { result.0 ≡ 3 → LeavesSome rules.now (R.to_come input) (W.has_failed output.new) (W.gone_out output.old) (W.gone_out output.new) }
    ensures why { result.0 ≡ 3 → SaysWhyNot (R.why_failed result.1) (R.has_failed input) (R.has_failed result.1) (W.has_failed output.old) (W.has_failed output.new) (E.has_failed faults.new) (E.gone_out faults.old) (E.gone_out faults.new) }
    ensures sound { result.0 ≢ 3 → R.has_failed result.1 ≡ R.has_failed input }
    ensures unbroken { result.0 ≢ 3 → W.has_failed output.new ≡ W.has_failed output.old }
    ensures quiet { result.0 ≢ 3 → faults.new ≡ faults.old }
    ensures status { (result.0 ≡ 0) ⊎ ((result.0 ≡ 1) ⊎ (result.0 ≡ 3)) }
{
    let (found, input, read) = check_keeping(alloc, rules, input);
    let status = print_answer(alloc, &found, output, faults);
    if status != REFUSED {
        return (status, input);
    }
    let status = write_more(alloc, rules, text, &found, &read, output, faults);
    (status, input)
}

/// Prints why an input is refused, of which this was found and these bytes were read.
#[tactic(auto, using(crate::proofs::ExplainLemmas::said_of_kept, crate::proofs::ExplainLemmas::some_said_of_kept, crate::proofs::ExplainLemmas::nothing_said))]
fn write_more<W: Sink, E: Sink>(
    alloc: Global,
    rules: &Rules,
    text: &str,
    found: &Found,
    read: &LastBytes,
    output: &mut W,
    faults: &mut E,
) -> u8
    ensures more { result ≡ 1 → SaidOfKept read.now (λ kept. SaysWhy kept found.now (W.gone_out output.old) (W.gone_out output.new)) }
    ensures failed { result ≡ 3 → (W.gone_out output.new ≡ W.gone_out output.old)
        ⊎ ((W.has_failed output.new ≡ true) × SaidOfKept read.now (λ kept. SaysSomeWhy kept found.now (W.gone_out output.old) (W.gone_out output.new))) }
    ensures why { result ≡ 3 → SaysUnwritten (W.has_failed output.old) (W.has_failed output.new) (E.has_failed faults.new) (E.gone_out faults.old) (E.gone_out faults.new) }
    ensures unbroken { result ≡ 1 → W.has_failed output.new ≡ W.has_failed output.old }
    ensures quiet { result ≡ 1 → faults.new ≡ faults.old }
    ensures status { (result ≡ 1) ⊎ (result ≡ 3) }
{
    let Some(bytes) = read.whole() else {
        return tell_failure(faults, "out of memory\n");
    };
    match print_why(alloc, rules, text, bytes, found, output) {
        Ok(()) => REFUSED,
        Err(WhyFault::Write) => tell_failure(faults, "write failed\n"),
        Err(WhyFault::OutOfMemory) => tell_failure(faults, "out of memory\n"),
    }
}
