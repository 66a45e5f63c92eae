//! What is printed of one file after another, and of all.
ghost use Rattle.std.specs.Prelude.{◌≡◌, ◌≢◌, ◌⊎◌, [], IfOk, OnOk, OnErr, true};
ghost use Rattle.std.specs.Io.KnownBytes.{Appends};
ghost use Rattle.jser_printer.specs.Says.{SaysTo};
ghost use Rattle.jser_scan.specs.Lines.{counted_words, is_accepted, is_unread, line_words, printed, says_found, summary_words};

use crate::answer::write_count;
use crate::found::Found;
use crate::json::write_object;
use crate::line::write_line;
use crate::path::FilePath;
use crate::tally::Tally;
use jser_prim::{Failed, Outbox, Sink};
use jser_printer::{write, write_decimal};

/// How the files of a scan are printed.
#[derive(Clone, Copy, PartialEq, Eq, Debug)]
pub struct How {
    /// Only files that are not accepted.
    pub refused: bool,
    /// As JSON objects.
    pub json: bool,
}

/// Prints what was found of a file: its line to `output`, or to `faults` where it was not read; or its object to `output`,
/// and the line of one that was not read to `faults` too. A fault of `faults` changes nothing.
///
/// # Errors
///
/// `Failed` where the output failed.
pub fn print_found<W: Sink, E: Sink>(
    how: How,
    path: &FilePath,
    found: &Found,
    output: &mut W,
    faults: &mut E,
) -> Result<(), Failed>
    ensures printed { OnOk result (Appends (W.gone_out output.old) (W.gone_out output.new) (printed how path.now found.now)) }
    ensures kept { OnOk result (W.has_failed output.new ≡ W.has_failed output.old) }
    ensures failed { OnErr result (W.has_failed output.new ≡ true) }
    ensures quiet { is_unread found.now ≢ true → faults.new ≡ faults.old }
    ensures told { is_unread found.now ≡ true → (E.has_failed faults.new ≡ true) ⊎ Appends (E.gone_out faults.old) (E.gone_out faults.new) (line_words path.now found.now []) }
{
    if is_unread(found) {
        tell_found(path, found, faults);
    }
    print_to_output(how, path, found, output)
}

/// Tells the line of a file, as far as that can be done.
pub fn tell_found<E: Sink>(path: &FilePath, found: &Found, faults: &mut E)
    ensures { (E.has_failed faults.new ≡ true) ⊎ Appends (E.gone_out faults.old) (E.gone_out faults.new) (line_words path.now found.now []) }
{
    let _ = print_line(path, found, faults);
}

/// The line, to any sink.
#[tactic(auto, using(crate::proofs::ScanLemmas::went, crate::proofs::ScanLemmas::broke, crate::proofs::ScanLemmas::kept))]
fn print_line<W: Sink>(path: &FilePath, found: &Found, sink: &mut W) -> Result<(), Failed>
    ensures printed { OnOk result (Appends (W.gone_out sink.old) (W.gone_out sink.new) (line_words path.now found.now [])) }
    ensures kept { OnOk result (W.has_failed sink.new ≡ W.has_failed sink.old) }
    ensures failed { OnErr result (W.has_failed sink.new ≡ true) }
{
    let mut outbox = Outbox::new();
    write_line(&mut outbox, sink, path, found);
    outbox.flush(sink);
    if outbox.has_failed() {
        Err(Failed)
    } else {
        Ok(())
    }
}

/// What goes to the output.
#[tactic(auto, using(crate::proofs::ScanLemmas::went, crate::proofs::ScanLemmas::broke, crate::proofs::ScanLemmas::kept))]
fn print_to_output<W: Sink>(
    how: How,
    path: &FilePath,
    found: &Found,
    output: &mut W,
) -> Result<(), Failed>
    ensures printed { OnOk result (Appends (W.gone_out output.old) (W.gone_out output.new) (printed how path.now found.now)) }
    ensures kept { OnOk result (W.has_failed output.new ≡ W.has_failed output.old) }
    ensures failed { OnErr result (W.has_failed output.new ≡ true) }
{
    let mut outbox = Outbox::new();
    write_found(&mut outbox, output, how, path, found);
    outbox.flush(output);
    if outbox.has_failed() {
        Err(Failed)
    } else {
        Ok(())
    }
}

/// Writes what goes to the output.
fn write_found<W: Sink>(outbox: &mut Outbox, sink: &mut W, how: How, path: &FilePath, found: &Found)
    ensures { SaysTo W.gone_out W.has_failed outbox.old outbox.new sink.old sink.new (λ k. says_found how path.now found.now k) }
{
    if how.refused && is_accepted(found) {
        write(outbox, sink, b"");
    } else if how.json {
        write_object(outbox, sink, path, found);
    } else if is_unread(found) {
        write(outbox, sink, b"");
    } else {
        write_line(outbox, sink, path, found);
    }
}

/// Prints the counts of all files.
///
/// # Errors
///
/// `Failed` where the sink failed.
pub fn print_summary<E: Sink>(tally: Tally, faults: &mut E) -> Result<(), Failed>
    ensures printed { OnOk result (Appends (E.gone_out faults.old) (E.gone_out faults.new) (summary_words tally [])) }
    ensures kept { OnOk result (E.has_failed faults.new ≡ E.has_failed faults.old) }
    ensures failed { OnErr result (E.has_failed faults.new ≡ true) }
{
    print_counts(b" files, ", tally, faults)
}

/// Prints the counts of all things, which are named between the first two numbers, as ` files, `.
///
/// # Errors
///
/// `Failed` where the sink failed.
#[tactic(auto, using(crate::proofs::ScanLemmas::went, crate::proofs::ScanLemmas::broke, crate::proofs::ScanLemmas::kept))]
pub fn print_counts<E: Sink>(things: &[u8], tally: Tally, faults: &mut E) -> Result<(), Failed>
    ensures printed { OnOk result (Appends (E.gone_out faults.old) (E.gone_out faults.new) (counted_words things.now tally [])) }
    ensures kept { OnOk result (E.has_failed faults.new ≡ E.has_failed faults.old) }
    ensures failed { OnErr result (E.has_failed faults.new ≡ true) }
{
    let mut outbox = Outbox::new();
    write_tally(&mut outbox, faults, things, tally);
    outbox.flush(faults);
    if outbox.has_failed() {
        Err(Failed)
    } else {
        Ok(())
    }
}

/// Writes the counts.
fn write_tally<W: Sink>(outbox: &mut Outbox, sink: &mut W, things: &[u8], tally: Tally)
    ensures { SaysTo W.gone_out W.has_failed outbox.old outbox.new sink.old sink.new (λ k. counted_words things.now tally k) }
{
    write_decimal(outbox, sink, tally.files);
    write_count(outbox, sink, things, tally.accepted);
    write_count(outbox, sink, b" accepted, ", tally.refused);
    write_count(outbox, sink, b" refused, ", tally.unread);
    write(outbox, sink, b" not read\n");
}

/// Whether a file was accepted.
fn is_accepted(found: &Found) -> bool
    ensures { result ≡ is_accepted found.now }
{
    match found {
        Found::Accepted(_) => true,
        _ => false,
    }
}

/// Whether a file was not read.
fn is_unread(found: &Found) -> bool
    ensures { result ≡ is_unread found.now }
{
    match found {
        Found::NotOpened | Found::NotRead(_) | Found::OutOfMemory => true,
        Found::Accepted(_) | Found::Refused { .. } | Found::Hidden { .. } => false,
    }
}
