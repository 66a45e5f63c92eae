//! What is printed of good files, for which a filter is suggested: the filter, or why a file is none.
ghost use Rattle.std.specs.Prelude.{◌≡◌, ◌⊎◌, [], ℕ, List, IfOk, OnOk, OnErr, string_bytes, true};
ghost use Rattle.std.specs.Io.KnownBytes.{Appends};
ghost use Rattle.jser_printer.specs.Says.{SaysTo};
ghost use Rattle.jser_suggest.specs.Suggested.{widened};
ghost use Rattle.jser_suggest.specs.Samples.{AreKnown};
ghost use Rattle.jser_scan.specs.Samples.{LeavesSuggested, SaysSuggested, SpellsSuggested, TellsUnprinted, no_sample_status, no_sample_words, unwritable_words};

use crate::found::Found;
use crate::line::{write_line, write_path};
use crate::path::FilePath;
use jser_prim::{Failed, Outbox, Sink, give_all};
use jser_printer::{write, write_quoted};
use jser_reader::Stop;
use jser_settings::{ACCEPTED, FAILED, REFUSED, tell_failure};
use jser_suggest::{SampleFault, Samples};
use std::alloc::{AllocError, Global};

/// Prints the filter that is suggested, with its limits `slack` times as high, in a line, and returns the status: 0, or 3 where
/// the output failed or memory ran out, which is told.
#[tactic(auto, using(crate::proofs::SampleLemmas::says_suggested, crate::proofs::SampleLemmas::leaves_some, crate::proofs::SampleLemmas::leaves_none))]
pub fn print_suggested<W: Sink, E: Sink>(
    alloc: Global,
    samples: &Samples,
    slack: u64,
    output: &mut W,
    faults: &mut E,
) -> u8
    ensures printed { (streams : List (List ℕ)) → AreKnown streams samples.now → result ≡ 0 → SaysSuggested (widened slack samples.now) (W.gone_out output.old) (W.gone_out output.new) }
    ensures failed { (streams : List (List ℕ)) → AreKnown streams samples.now → result ≡ 3 → LeavesSuggested (widened slack samples.now) (W.has_failed output.new) (W.gone_out output.old) (W.gone_out output.new) }
    ensures why { result ≡ 3 → TellsUnprinted (W.has_failed output.old) (W.has_failed output.new) (E.has_failed faults.new) (E.gone_out faults.old) (E.gone_out faults.new) }
    ensures unbroken { result ≡ 0 → W.has_failed output.new ≡ W.has_failed output.old }
    ensures quiet { result ≡ 0 → faults.new ≡ faults.old }
    ensures status { (result ≡ 0) ⊎ (result ≡ 3) }
{
    let Ok(text) = line_of(alloc, samples, slack) else {
        return tell_failure(faults, "out of memory\n");
    };
    match give_all(output, text.as_bytes()) {
        Ok(()) => ACCEPTED,
        Err(_) => tell_failure(faults, "write failed\n"),
    }
}

/// The line of the filter.
#[tactic(auto, using(crate::proofs::SampleLemmas::line_says))]
fn line_of(alloc: Global, samples: &Samples, slack: u64) -> Result<String, AllocError>
    ensures { (streams : List (List ℕ)) → AreKnown streams samples.now → IfOk result (λ line. SpellsSuggested (widened slack samples.now) (string_bytes line)) }
{
    let mut text = samples.text_with_slack(alloc, slack)?;
    text.push_str("\n")?;
    Ok(text)
}

/// Tells why a file is no sample, and returns the status: 1, or 3 where memory ran out.
pub fn tell_no_sample<E: Sink>(path: &FilePath, fault: &SampleFault, faults: &mut E) -> u8
    ensures told { (E.has_failed faults.new ≡ true) ⊎ Appends (E.gone_out faults.old) (E.gone_out faults.new) (no_sample_words path.now fault.now []) }
    ensures status { result ≡ no_sample_status fault.now }
{
    let _ = print_no_sample(path, fault, faults);
    match fault {
        SampleFault::Unwritable(_) | SampleFault::Stop(Stop::Refused(_)) => REFUSED,
        SampleFault::Stop(_) => FAILED,
    }
}

/// The line, to any sink.
#[tactic(auto, using(crate::proofs::ScanLemmas::went, crate::proofs::ScanLemmas::broke, crate::proofs::ScanLemmas::kept))]
fn print_no_sample<W: Sink>(
    path: &FilePath,
    fault: &SampleFault,
    sink: &mut W,
) -> Result<(), Failed>
    ensures printed { OnOk result (Appends (W.gone_out sink.old) (W.gone_out sink.new) (no_sample_words path.now fault.now [])) }
    ensures failed { OnErr result (W.has_failed sink.new ≡ true) }
{
    let mut outbox = Outbox::new();
    write_no_sample(&mut outbox, sink, path, fault);
    outbox.flush(sink);
    if outbox.has_failed() {
        Err(Failed)
    } else {
        Ok(())
    }
}

/// Writes why a file is no sample.
fn write_no_sample<W: Sink>(outbox: &mut Outbox, sink: &mut W, path: &FilePath, fault: &SampleFault)
    ensures { SaysTo W.gone_out W.has_failed outbox.old outbox.new sink.old sink.new (λ k. no_sample_words path.now fault.now k) }
{
    match fault {
        SampleFault::Unwritable(name) => write_unwritable(outbox, sink, path, name.as_slice()),
        SampleFault::Stop(Stop::Refused(refusal)) => {
            let found = Found::Refused {
                refusal: *refusal,
                class: None,
            };
            write_line(outbox, sink, path, &found);
        }
        SampleFault::Stop(_) => write_line(outbox, sink, path, &Found::OutOfMemory),
    }
}

/// Writes that no pattern can safely name a class.
fn write_unwritable<W: Sink>(outbox: &mut Outbox, sink: &mut W, path: &FilePath, name: &[u16])
    ensures { SaysTo W.gone_out W.has_failed outbox.old outbox.new sink.old sink.new (λ k. unwritable_words path.now name.now k) }
{
    write_path(outbox, sink, path);
    write(outbox, sink, b": no pattern can safely name ");
    write_quoted(outbox, sink, name);
    write(outbox, sink, b"\n");
}
