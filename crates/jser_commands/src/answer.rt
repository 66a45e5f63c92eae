//! The lines of answers, and how an answer is printed.
ghost use Rattle.std.specs.Prelude.{◌≡◌, ◌≢◌, ◌⊎◌, ◌<◌, ◌++◌, IfOk, OnOk, IsOkAnd, true, string_bytes};
ghost use Rattle.std.specs.Fmt.{decimal};
ghost use Rattle.std.specs.Io.KnownBytes.{Appends, Keeps};
ghost use Rattle.jser_commands.specs.Lines.{yes_line, no_line, hidden_line, AppendsSome, KeptOrCut, SaysUnwritten};

use jser_check::{Refusal, Report};
use jser_prim::{Sink, give_all};
use jser_settings::tell_failure;
use std::alloc::{AllocError, Global};
use std::fmt::Write;

/// The line of a stream that was accepted: `yes B bytes, C contents, R refs, depth D`, and a line end. Takes memory for the line.
///
/// # Errors
///
/// Where memory ran out.
pub fn text_of_report(alloc: Global, report: Report) -> Result<String, AllocError>
    ensures { IfOk result (λ text. string_bytes text ≡ yes_line report) }
{
    let mut text = String::new(alloc);
    push_count(&mut text, "yes ", report.bytes)?;
    push_count(&mut text, " bytes, ", report.contents)?;
    push_count(&mut text, " contents, ", report.refs)?;
    push_count(&mut text, " refs, depth ", report.depth)?;
    text.push_str("\n")?;
    Ok(text)
}

/// The line of a refusal: `no at A to E: REASON`, and a line end. Takes memory for the line.
///
/// # Errors
///
/// Where memory ran out.
pub fn text_of_refusal(alloc: Global, refusal: Refusal) -> Result<String, AllocError>
    ensures { IfOk result (λ text. string_bytes text ≡ no_line refusal) }
{
    let mut text = String::new(alloc);
    push_count(&mut text, "no at ", refusal.from_byte)?;
    push_count(&mut text, " to ", refusal.to_byte)?;
    text.push_str(": ")?;
    text.push_str(refusal.reason.name())?;
    text.push_str("\n")?;
    Ok(text)
}

/// The line of a class name that stands somewhere in the bytes and does not pass: `no at A to E: HiddenName`, and a line end.
/// Takes memory for the line.
///
/// # Errors
///
/// Where memory ran out.
pub fn text_of_hidden(alloc: Global, from_byte: u64, to_byte: u64) -> Result<String, AllocError>
    ensures { IfOk result (λ text. string_bytes text ≡ hidden_line from_byte to_byte) }
{
    let mut text = String::new(alloc);
    push_count(&mut text, "no at ", from_byte)?;
    push_count(&mut text, " to ", to_byte)?;
    text.push_str(": HiddenName\n")?;
    Ok(text)
}

/// Appends some words and a number in decimal.
fn push_count(text: &mut String, words: &str, count: u64) -> Result<(), AllocError>
    ensures { OnOk result (string_bytes text.new ≡ string_bytes text.old ++ words.now ++ decimal count) }
{
    text.push_str(words)?;
    write!(text, "{count}")?;
    Ok(())
}

/// Prints a text, and returns its status, or tells why it could not be printed.
#[tactic(auto, using(crate::proofs::Lines::appends_some))]
pub(crate) fn print_bytes<W: Sink, E: Sink>(
    output: &mut W,
    faults: &mut E,
    text: &[u8],
    status: u8,
) -> u8
    requires { status ≢ 3 }
    ensures printed { result ≡ status → Appends (W.gone_out output.old) (W.gone_out output.new) text.now }
    ensures failed { result ≡ 3 → KeptOrCut (W.has_failed output.new) (W.gone_out output.old) (W.gone_out output.new) text.now }
    ensures status { (result ≡ status) ⊎ (result ≡ 3) }
    ensures why { result ≡ 3 → SaysUnwritten (W.has_failed output.old) (W.has_failed output.new) (E.has_failed faults.new) (E.gone_out faults.old) (E.gone_out faults.new) }
    ensures unbroken { result ≡ status → W.has_failed output.new ≡ W.has_failed output.old }
    ensures quiet { result ≡ status → faults.new ≡ faults.old }
{
    match give_all(output, text) {
        Ok(()) => status,
        Err(_) => tell_failure(faults, "write failed\n"),
    }
}

/// Prints a line, and returns its status. Where the line could not be printed, or there was no memory for it, that is told on
/// `faults`, and the status is that of a failure.
#[tactic(auto, using(crate::proofs::Lines::kept, crate::proofs::Lines::appends_some))]
pub fn print_line<W: Sink, E: Sink>(
    output: &mut W,
    faults: &mut E,
    line: Result<String, AllocError>,
    status: u8,
) -> u8
    requires { status < 3 }
    ensures printed { result ≡ status → IsOkAnd line (λ text. Appends (W.gone_out output.old) (W.gone_out output.new) (string_bytes text)) }
    ensures failed { result ≡ 3 → Keeps (W.gone_out output.old) (W.gone_out output.new)
        ⊎ ((W.has_failed output.new ≡ true) × IsOkAnd line (λ text. AppendsSome (W.gone_out output.old) (W.gone_out output.new) (string_bytes text))) }
    ensures status { (result ≡ status) ⊎ (result ≡ 3) }
    ensures why { result ≡ 3 → SaysUnwritten (W.has_failed output.old) (W.has_failed output.new) (E.has_failed faults.new) (E.gone_out faults.old) (E.gone_out faults.new) }
    ensures unbroken { result ≡ status → W.has_failed output.new ≡ W.has_failed output.old }
    ensures quiet { result ≡ status → faults.new ≡ faults.old }
{
    let Ok(text) = line else {
        return tell_failure(faults, "out of memory\n");
    };
    print_bytes(output, faults, text.as_bytes(), status)
}
