//! What the program does: one job on an opened input, printed to an output; faults go to another one.
ghost use Rattle.std.specs.Prelude.{◌≡◌, ◌≢◌, ◌⊎◌, IfSome};
ghost use Rattle.std.specs.Io.KnownBytes.{Appends};
ghost use Rattle.jser_inputs.specs.declared.fault.InputFault.TheVariants as fault;
ghost use Rattle.jser_commands.specs.Lines.{SaysYes, SaysNo, SaysYesAnywhere, SaysNoAnywhere, SaysAccepted, SaysRefused, SaysCut, SaysFailed, SaysWhy, KeptOrSaidSome, HasLimit};

use crate::answer::{print_line, text_of_hidden, text_of_refusal, text_of_report};
use crate::limited::show_limited;
use crate::list::list;
use crate::list_anywhere::list_anywhere;
use crate::show::show;
use crate::telling::{ByInput, ByNone, Telling};
use jser_check::{AnywhereFault, CheckFault, Options, Stop, check_anywhere, check_reader};
use jser_filter::Filter;
use jser_inputs::Input;
use jser_names::Keyed;
use jser_prim::{Sink, Source};
use jser_settings::{ACCEPTED, REFUSED, tell_failure, tell_input_fault};
use std::alloc::Global;

/// What is to be done.
#[derive(Debug, Drop)]
pub enum Job {
    /// Check whether the input is a stream that the filter admits.
    Check {
        /// The filter, with its table of modules.
        filter: Filter,
        /// Whether a name that no pattern matches is refused.
        strict: bool,
    },
    /// Check the input under a filter that is also asked about each class name that can be read at any place of it.
    CheckAnywhere {
        /// The filter, with its table of modules.
        filter: Filter,
        /// Whether a name that no pattern matches is refused.
        strict: bool,
    },
    /// Print the input as text, if it is a stream.
    Show {
        /// Whether raw values are followed by what they mean.
        values: bool,
    },
    /// Print the input as text, if that has at most so many bytes; else as many of its lines as that allows, and a line that
    /// says so.
    ShowLimited {
        /// Whether raw values are followed by what they mean.
        values: bool,
        /// How many bytes of the text are printed at most.
        limit: u64,
    },
    /// Print the checked names of the input, if it is a stream, with how often each stands there and what the filter
    /// says of it. The filter refuses nothing.
    List {
        /// The filter, with its table of modules.
        filter: Filter,
    },
    /// List the class names of the input, and behind them the names of classes that can be read at some place of it and are
    /// no checked names of the stream, with at how many places the text of each stands.
    ListAnywhere {
        /// The filter, with its table of modules.
        filter: Filter,
    },
}

/// Does the job: reads `input`, prints the answer to `output`, and returns the status. Faults of the devices
/// and a lack of memory are reported on `faults`; a fault of `faults` itself changes nothing.
///
/// Nothing is printed to `output` before the input was accepted or refused. The input is read in pieces. A check keeps none of
/// it, a list its names, and the others all of it until it is refused. The other jobs than a check read on then, at most
/// 2^40 + 1 bytes in all, and keep none.
///
/// A list counts names under a key that everybody knows: whoever writes the stream can choose names whose count takes a time that
/// grows with the square of their number. `run_input` takes another key.
pub fn run<R: Source, W: Sink, E: Sink>(
    alloc: Global,
    job: &Job,
    input: &mut R,
    output: &mut W,
    faults: &mut E,
) -> u8
    ensures accepted { result ≡ 0 → IfSome (R.to_come input.old) (λ bytes. SaysAccepted job.now bytes (Appends (W.gone_out output.old) (W.gone_out output.new))) }
    ensures refused { result ≡ 1 → IfSome (R.to_come input.old) (λ bytes. SaysRefused job.now bytes (Appends (W.gone_out output.old) (W.gone_out output.new))) }
    ensures cut { result ≡ 4 → IfSome (R.to_come input.old) (λ bytes. SaysCut job.now bytes (Appends (W.gone_out output.old) (W.gone_out output.new))) }
    ensures failed { result ≡ 3 → SaysFailed job.now (R.to_come input.old) (W.has_failed output.new) (W.gone_out output.old) (W.gone_out output.new) }
    ensures why { result ≡ 3 → SaysWhy fault.Failed (R.has_failed input.old) (R.has_failed input.new) (W.has_failed output.old) (W.has_failed output.new) (E.has_failed faults.new) (E.gone_out faults.old) (E.gone_out faults.new) }
    ensures unbroken { result ≢ 3 → (R.has_failed input.new ≡ R.has_failed input.old) × (W.has_failed output.new ≡ W.has_failed output.old) }
    ensures quiet { result ≢ 3 → faults.new ≡ faults.old }
    ensures status { (result ≡ 0) ⊎ ((result ≡ 1) ⊎ ((result ≡ 3) ⊎ ((result ≡ 4) × HasLimit job.now))) }
{
    run_by::<R, ByNone, W, E>(alloc, Keyed::fixed(), job, input, output, faults)
}

/// Does the job as `run` does, on an input, which says why it failed where it did. The names of a list are counted under this key,
/// which changes nothing that is printed.
pub fn run_input<R: Input, W: Sink, E: Sink>(
    alloc: Global,
    keyed: Keyed,
    job: &Job,
    input: &mut R,
    output: &mut W,
    faults: &mut E,
) -> u8
    ensures accepted { result ≡ 0 → IfSome (R.to_come input.old) (λ bytes. SaysAccepted job.now bytes (Appends (W.gone_out output.old) (W.gone_out output.new))) }
    ensures refused { result ≡ 1 → IfSome (R.to_come input.old) (λ bytes. SaysRefused job.now bytes (Appends (W.gone_out output.old) (W.gone_out output.new))) }
    ensures cut { result ≡ 4 → IfSome (R.to_come input.old) (λ bytes. SaysCut job.now bytes (Appends (W.gone_out output.old) (W.gone_out output.new))) }
    ensures failed { result ≡ 3 → SaysFailed job.now (R.to_come input.old) (W.has_failed output.new) (W.gone_out output.old) (W.gone_out output.new) }
    ensures why { result ≡ 3 → SaysWhy (R.why_failed input.new) (R.has_failed input.old) (R.has_failed input.new) (W.has_failed output.old) (W.has_failed output.new) (E.has_failed faults.new) (E.gone_out faults.old) (E.gone_out faults.new) }
    ensures unbroken { result ≢ 3 → (R.has_failed input.new ≡ R.has_failed input.old) × (W.has_failed output.new ≡ W.has_failed output.old) }
    ensures quiet { result ≢ 3 → faults.new ≡ faults.old }
    ensures status { (result ≡ 0) ⊎ ((result ≡ 1) ⊎ ((result ≡ 3) ⊎ ((result ≡ 4) × HasLimit job.now))) }
{
    run_by::<R, ByInput, W, E>(alloc, keyed, job, input, output, faults)
}

/// Does the job; of a source that failed this says why.
fn run_by<R: Source, Y: Telling<R>, W: Sink, E: Sink>(
    alloc: Global,
    keyed: Keyed,
    job: &Job,
    input: &mut R,
    output: &mut W,
    faults: &mut E,
) -> u8
    ensures accepted { result ≡ 0 → IfSome (R.to_come input.old) (λ bytes. SaysAccepted job.now bytes (Appends (W.gone_out output.old) (W.gone_out output.new))) }
    ensures refused { result ≡ 1 → IfSome (R.to_come input.old) (λ bytes. SaysRefused job.now bytes (Appends (W.gone_out output.old) (W.gone_out output.new))) }
    ensures cut { result ≡ 4 → IfSome (R.to_come input.old) (λ bytes. SaysCut job.now bytes (Appends (W.gone_out output.old) (W.gone_out output.new))) }
    ensures failed { result ≡ 3 → SaysFailed job.now (R.to_come input.old) (W.has_failed output.new) (W.gone_out output.old) (W.gone_out output.new) }
    ensures why { result ≡ 3 → SaysWhy (Y.why_failed input.new) (R.has_failed input.old) (R.has_failed input.new) (W.has_failed output.old) (W.has_failed output.new) (E.has_failed faults.new) (E.gone_out faults.old) (E.gone_out faults.new) }
    ensures unbroken { result ≢ 3 → (R.has_failed input.new ≡ R.has_failed input.old) × (W.has_failed output.new ≡ W.has_failed output.old) }
    ensures quiet { result ≢ 3 → faults.new ≡ faults.old }
    ensures status { (result ≡ 0) ⊎ ((result ≡ 1) ⊎ ((result ≡ 3) ⊎ ((result ≡ 4) × HasLimit job.now))) }
{
    match job {
        Job::Check { filter, strict } => {
            let options = Options { strict: *strict };
            check::<R, Y, W, E>(alloc, filter, options, input, output, faults)
        }
        Job::CheckAnywhere { filter, strict } => {
            let options = Options { strict: *strict };
            check_names::<R, Y, W, E>(alloc, filter, options, input, output, faults)
        }
        Job::Show { values } => show::<R, Y, W, E>(alloc, *values, input, output, faults),
        Job::ShowLimited { values, limit } => {
            show_limited::<R, Y, W, E>(alloc, *values, *limit, input, output, faults)
        }
        Job::List { filter } => list::<R, Y, W, E>(alloc, keyed, filter, input, output, faults),
        Job::ListAnywhere { filter } => list_anywhere::<R, Y, W, E>(
            alloc, keyed, filter, input, output, faults,
        ),
    }
}

/// Checks the input, and prints the line of the answer.
#[tactic(auto, using(crate::proofs::Lines::says_yes, crate::proofs::Lines::says_no, crate::proofs::Lines::kept))]
fn check<R: Source, Y: Telling<R>, W: Sink, E: Sink>(
    alloc: Global,
    filter: &Filter,
    options: Options,
    input: &mut R,
    output: &mut W,
    faults: &mut E,
) -> u8
    ensures accepted { result ≡ 0 → IfSome (R.to_come input.old) (λ bytes. SaysYes filter.now options bytes (Appends (W.gone_out output.old) (W.gone_out output.new))) }
    ensures refused { result ≡ 1 → IfSome (R.to_come input.old) (λ bytes. SaysNo filter.now options bytes (Appends (W.gone_out output.old) (W.gone_out output.new))) }
    ensures failed { result ≡ 3 → KeptOrSaidSome (W.has_failed output.new) (W.gone_out output.old) (W.gone_out output.new) (R.to_come input.old) (SaysYes filter.now options) (SaysNo filter.now options) }
    ensures status { (result ≡ 0) ⊎ ((result ≡ 1) ⊎ (result ≡ 3)) }
    ensures why { result ≡ 3 → SaysWhy (Y.why_failed input.new) (R.has_failed input.old) (R.has_failed input.new) (W.has_failed output.old) (W.has_failed output.new) (E.has_failed faults.new) (E.gone_out faults.old) (E.gone_out faults.new) }
    ensures unbroken { result ≢ 3 → (R.has_failed input.new ≡ R.has_failed input.old) × (W.has_failed output.new ≡ W.has_failed output.old) }
    ensures quiet { result ≢ 3 → faults.new ≡ faults.old }
{
    match check_reader(alloc, input, filter, options) {
        Ok(report) => print_line(output, faults, text_of_report(alloc, report), ACCEPTED),
        Err(CheckFault::Stop(Stop::Refused(refusal))) => {
            print_line(output, faults, text_of_refusal(alloc, refusal), REFUSED)
        }
        Err(CheckFault::Stop(_)) => tell_failure(faults, "out of memory\n"),
        Err(CheckFault::ReadFault) => tell_input_fault(alloc, Y::fault(input), faults),
    }
}

/// Checks the input, with each class name that can be read at any place, and prints the line of the answer.
#[tactic(auto, using(crate::proofs::Lines::says_yes_anywhere, crate::proofs::Lines::says_no_anywhere, crate::proofs::Lines::says_hidden, crate::proofs::Lines::kept))]
fn check_names<R: Source, Y: Telling<R>, W: Sink, E: Sink>(
    alloc: Global,
    filter: &Filter,
    options: Options,
    input: &mut R,
    output: &mut W,
    faults: &mut E,
) -> u8
    ensures accepted { result ≡ 0 → IfSome (R.to_come input.old) (λ bytes. SaysYesAnywhere filter.now options bytes (Appends (W.gone_out output.old) (W.gone_out output.new))) }
    ensures refused { result ≡ 1 → IfSome (R.to_come input.old) (λ bytes. SaysNoAnywhere filter.now options bytes (Appends (W.gone_out output.old) (W.gone_out output.new))) }
    ensures failed { result ≡ 3 → KeptOrSaidSome (W.has_failed output.new) (W.gone_out output.old) (W.gone_out output.new) (R.to_come input.old) (SaysYesAnywhere filter.now options) (SaysNoAnywhere filter.now options) }
    ensures status { (result ≡ 0) ⊎ ((result ≡ 1) ⊎ (result ≡ 3)) }
    ensures why { result ≡ 3 → SaysWhy (Y.why_failed input.new) (R.has_failed input.old) (R.has_failed input.new) (W.has_failed output.old) (W.has_failed output.new) (E.has_failed faults.new) (E.gone_out faults.old) (E.gone_out faults.new) }
    ensures unbroken { result ≢ 3 → (R.has_failed input.new ≡ R.has_failed input.old) × (W.has_failed output.new ≡ W.has_failed output.old) }
    ensures quiet { result ≢ 3 → faults.new ≡ faults.old }
{
    match check_anywhere(alloc, input, filter, options) {
        Ok(report) => print_line(output, faults, text_of_report(alloc, report), ACCEPTED),
        Err(AnywhereFault::Stop(Stop::Refused(refusal))) => {
            print_line(output, faults, text_of_refusal(alloc, refusal), REFUSED)
        }
        Err(AnywhereFault::Hidden { from_byte, to_byte }) => {
            print_line(
                output,
                faults,
                text_of_hidden(alloc, from_byte, to_byte),
                REFUSED,
            )
        }
        Err(AnywhereFault::Stop(_)) => tell_failure(faults, "out of memory\n"),
        Err(AnywhereFault::ReadFault) => tell_input_fault(alloc, Y::fault(input), faults),
    }
}
