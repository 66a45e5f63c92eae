//! What the status of a command says of the bytes of an input, where the input tells them.
ghost use Rattle.std.specs.Prelude.{◌≡◌, ◌≢◌, ◌⊎◌, Some, None, IfSome, true, false};
ghost use Rattle.std.specs.Io.KnownBytes.{Appends};
ghost use Rattle.jser_inputs.specs.declared.fault.InputFault.TheVariants as fault;
ghost use Rattle.jser_commands.specs.Lines.{SaysWhy};
ghost use Rattle.uses_commands.specs.Answers.{EachListPrints, IsNo, IsYes, PrintsNothing};

use jser_commands::{Job, Keyed, run, run_input};
use jser_inputs::Input;
use jser_prim::{Sink, Source};
use jser_reading::laws::one_reading;
use std::alloc::Global;

/// Whether the answer to a job is yes: for a check, that the filter admits the stream of the input; else that the input is a
/// stream. Then it was printed, of whatever list the bytes of the input spell: its counts, its text, as far as a limit allows,
/// or its names. `None` where a device failed or memory ran out, and then that was told; nothing was printed then if the output
/// did not fail, but by `Show`, which prints as it goes.
pub fn answers<R: Input, W: Sink, E: Sink>(
    alloc: Global,
    job: &Job,
    input: &mut R,
    output: &mut W,
    faults: &mut E,
) -> Option<bool>
    ensures yes { result ≡ Some true → IfSome (R.to_come input.old) (IsYes job.now) }
    ensures no { result ≡ Some false → IfSome (R.to_come input.old) (IsNo job.now) }
    ensures printed { result ≡ Some true → IfSome (R.to_come input.old) (λ bytes. EachListPrints job.now bytes (Appends (W.gone_out output.old) (W.gone_out output.new))) }
    ensures why { result ≡ None → SaysWhy (R.why_failed input.new) (R.has_failed input.old) (R.has_failed input.new) (W.has_failed output.old) (W.has_failed output.new) (E.has_failed faults.new) (E.gone_out faults.old) (E.gone_out faults.new) }
    ensures nothing { result ≡ None → W.has_failed output.new ≡ false → PrintsNothing job.now (W.gone_out output.old) (W.gone_out output.new) }
    ensures quiet { result ≢ None → faults.new ≡ faults.old }
    ensures unbroken { result ≢ None → (R.has_failed input.new ≡ R.has_failed input.old) × (W.has_failed output.new ≡ W.has_failed output.old) }
{
    one_reading();
    answer_of(run_input(alloc, Keyed::fixed(), job, input, output, faults))
}

/// Whether the answer to a job on any source is yes, as of an input; of its failure nothing is known but that a read failed.
pub fn answers_of_any<R: Source, W: Sink, E: Sink>(
    alloc: Global,
    job: &Job,
    input: &mut R,
    output: &mut W,
    faults: &mut E,
) -> Option<bool>
    ensures yes { result ≡ Some true → IfSome (R.to_come input.old) (IsYes job.now) }
    ensures no { result ≡ Some false → IfSome (R.to_come input.old) (IsNo job.now) }
    ensures printed { result ≡ Some true → IfSome (R.to_come input.old) (λ bytes. EachListPrints job.now bytes (Appends (W.gone_out output.old) (W.gone_out output.new))) }
    ensures why { result ≡ None → SaysWhy fault.Failed (R.has_failed input.old) (R.has_failed input.new) (W.has_failed output.old) (W.has_failed output.new) (E.has_failed faults.new) (E.gone_out faults.old) (E.gone_out faults.new) }
    ensures nothing { result ≡ None → W.has_failed output.new ≡ false → PrintsNothing job.now (W.gone_out output.old) (W.gone_out output.new) }
    ensures quiet { result ≢ None → faults.new ≡ faults.old }
    ensures unbroken { result ≢ None → (R.has_failed input.new ≡ R.has_failed input.old) × (W.has_failed output.new ≡ W.has_failed output.old) }
{
    one_reading();
    answer_of(run(alloc, job, input, output, faults))
}

/// What a status answers.
fn answer_of(status: u8) -> Option<bool>
    ensures yes { result ≡ Some true → (status ≡ 0) ⊎ (status ≡ 4) }
    ensures no { result ≡ Some false → status ≡ 1 }
    ensures none { result ≡ None → (status ≢ 0) × (status ≢ 1) × (status ≢ 4) }
    ensures some { result ≢ None → status ≢ 3 }
{
    match status {
        0 | 4 => Some(true),
        1 => Some(false),
        _ => None,
    }
}
