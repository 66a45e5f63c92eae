//! What an explanation says of the bytes of an input, where the input tells them.
ghost use Rattle.std.specs.Prelude.{◌≡◌, ◌≢◌, Some, None, IfSome, true, false};
ghost use Rattle.std.specs.Io.KnownBytes.{Appends};
ghost use Rattle.jser_commands.specs.Lines.{SaysRefused, SaysWhy};
ghost use Rattle.jser_explain.specs.Explains.{asked, Explained, LeavesSome};
ghost use Rattle.uses_commands.specs.Answers.{EachListPrints, IsNo, IsYes};

use jser_explain::explain;
use jser_inputs::Input;
use jser_prim::Sink;
use jser_reading::laws::one_reading;
use jser_scan::Rules;
use std::alloc::Global;

/// Whether the filter admits the stream of an input, under these rules. Where it does, the line of `check` went out, and nothing
/// else; where it does not, that line went out, and then why. `None` where a device failed or memory ran out, and then that was told, and no other
/// line went out, or some of these.
pub fn explained<R: Input + Drop, W: Sink, E: Sink>(
    alloc: Global,
    rules: &Rules,
    text: &str,
    input: R,
    output: &mut W,
    faults: &mut E,
) -> (Option<bool>, R)
    ensures yes { result.0 ≡ Some true → IfSome (R.to_come input) (IsYes (asked rules.now)) }
    ensures no { result.0 ≡ Some false → IfSome (R.to_come input) (IsNo (asked rules.now)) }
    ensures printed { result.0 ≡ Some true → IfSome (R.to_come input) (λ bytes. EachListPrints (asked rules.now) bytes (Appends (W.gone_out output.old) (W.gone_out output.new))) }
    ensures said { result.0 ≡ Some false → IfSome (R.to_come input) (λ bytes. SaysRefused (asked rules.now) bytes (Explained rules.now bytes (W.gone_out output.old) (W.gone_out output.new))) }
    ensures failed { result.0 ≡ None → LeavesSome rules.now (R.to_come input) (W.has_failed output.new) (W.gone_out output.old) (W.gone_out output.new) }
    ensures why { result.0 ≡ None → SaysWhy (R.why_failed result.1) (R.has_failed input) (R.has_failed result.1) (W.has_failed output.old) (W.has_failed output.new) (E.has_failed faults.new) (E.gone_out faults.old) (E.gone_out faults.new) }
    ensures quiet { result.0 ≢ None → faults.new ≡ faults.old }
    ensures unbroken { result.0 ≢ None → W.has_failed output.new ≡ W.has_failed output.old }
{
    one_reading();
    let (status, input) = explain(alloc, rules, text, input, output, faults);
    (said_of(status), input)
}

/// What the status of an explanation says.
fn said_of(status: u8) -> Option<bool>
    ensures yes { result ≡ Some true → status ≡ 0 }
    ensures no { result ≡ Some false → status ≡ 1 }
    ensures none { result ≡ None → (status ≢ 0) × (status ≢ 1) }
    ensures some { result ≢ None → status ≢ 3 }
{
    match status {
        0 => Some(true),
        1 => Some(false),
        _ => None,
    }
}
