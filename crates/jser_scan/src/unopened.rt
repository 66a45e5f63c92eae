//! What is told of a file that cannot be opened, where it is the only one.
ghost use Rattle.std.specs.Prelude.{◌≡◌, ◌⊎◌, ◌++◌, [], OnOk, OnErr, true};
ghost use Rattle.std.specs.Io.KnownBytes.{Appends};
ghost use Rattle.jser_printer.specs.Says.{SaysTo};
ghost use Rattle.jser_scan.specs.Paths.{told_words, unopened_words};

use crate::path::{FilePath, is_told};
use jser_prim::{Failed, Outbox, Sink};
use jser_printer::{write, write_quoted};

/// Tells that a file cannot be opened, as far as that can be done.
pub fn tell_unopened<E: Sink>(path: &FilePath, faults: &mut E)
    ensures { (E.has_failed faults.new ≡ true) ⊎ Appends (E.gone_out faults.old) (E.gone_out faults.new) (unopened_words path.now []) }
{
    let _ = print_unopened(path, faults);
}

/// The line, to any sink.
#[tactic(auto, using(crate::proofs::ScanLemmas::went, crate::proofs::ScanLemmas::broke, crate::proofs::ScanLemmas::kept))]
fn print_unopened<W: Sink>(path: &FilePath, sink: &mut W) -> Result<(), Failed>
    ensures printed { OnOk result (Appends (W.gone_out sink.old) (W.gone_out sink.new) (unopened_words path.now [])) }
    ensures failed { OnErr result (W.has_failed sink.new ≡ true) }
{
    let mut outbox = Outbox::new();
    write_unopened(&mut outbox, sink, path);
    outbox.flush(sink);
    if outbox.has_failed() {
        Err(Failed)
    } else {
        Ok(())
    }
}

/// Writes the line.
fn write_unopened<W: Sink>(outbox: &mut Outbox, sink: &mut W, path: &FilePath)
    ensures { SaysTo W.gone_out W.has_failed outbox.old outbox.new sink.old sink.new (λ k. unopened_words path.now k) }
{
    write(outbox, sink, b"cannot open ");
    write_told(outbox, sink, path);
    write(outbox, sink, b"\n");
}

/// Writes a path as it was given, where that can be seen.
fn write_told<W: Sink>(outbox: &mut Outbox, sink: &mut W, path: &FilePath)
    ensures { SaysTo W.gone_out W.has_failed outbox.old outbox.new sink.old sink.new (λ k. told_words path.now k) }
{
    if is_told(path.text.as_str()) {
        write(outbox, sink, path.text.as_bytes());
    } else {
        write_quoted(outbox, sink, path.units.as_slice());
    }
}
