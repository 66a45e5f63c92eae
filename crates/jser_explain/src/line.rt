//! The line of an answer.
ghost use Rattle.std.specs.Prelude.{◌≡◌, ◌≢◌};
ghost use Rattle.std.specs.Io.KnownBytes.{Appends};
ghost use Rattle.jser_explain.specs.Explains.{line_of, HasStatus, LeavesLine, WhyUnsaid};

use jser_commands::{print_line, text_of_hidden, text_of_refusal, text_of_report};
use jser_prim::Sink;
use jser_scan::Found;
use jser_settings::{ACCEPTED, REFUSED, tell_failure, tell_input_fault};
use std::alloc::Global;

/// Prints the line of `check` for what was found of an input that was opened, and returns the status; or tells why there is no
/// answer.
#[tactic(auto, using(jser_commands::proofs::Lines::line_cut, jser_commands::proofs::Lines::kept))]
pub(crate) fn print_answer<W: Sink, E: Sink>(
    alloc: Global,
    found: &Found,
    output: &mut W,
    faults: &mut E,
) -> u8
    requires opened { found.now ≢ Found.NotOpened }
    ensures status { HasStatus found.now result }
    ensures printed { result ≢ 3 → Appends (W.gone_out output.old) (W.gone_out output.new) (line_of found.now) }
    ensures failed { result ≡ 3 → LeavesLine found.now (W.has_failed output.new) (W.gone_out output.old) (W.gone_out output.new) }
    ensures why { result ≡ 3 → WhyUnsaid found.now (W.has_failed output.old) (W.has_failed output.new) (E.has_failed faults.new) (E.gone_out faults.old) (E.gone_out faults.new) }
    ensures unbroken { result ≢ 3 → W.has_failed output.new ≡ W.has_failed output.old }
    ensures quiet { result ≢ 3 → faults.new ≡ faults.old }
{
    match found {
        Found::Accepted(totals) => {
            print_line(output, faults, text_of_report(alloc, *totals), ACCEPTED)
        }
        Found::Refused { refusal, .. } => {
            print_line(output, faults, text_of_refusal(alloc, *refusal), REFUSED)
        }
        Found::Hidden {
            from_byte,
            to_byte,
            ..
        } => {
            let line = text_of_hidden(alloc, *from_byte, *to_byte);
            print_line(output, faults, line, REFUSED)
        }
        Found::NotRead(fault) => tell_input_fault(alloc, *fault, faults),
        Found::OutOfMemory => tell_failure(faults, "out of memory\n"),
        Found::NotOpened => unreachable!(),
    }
}
