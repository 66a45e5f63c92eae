//! The line or the JSON object of a stream that was found, and of where a search ended.
ghost use Rattle.std.specs.Prelude.{◌≡◌, ◌++◌, [], OnOk, OnErr, true};
ghost use Rattle.std.specs.Io.KnownBytes.{Appends};
ghost use Rattle.jser_printer.specs.Says.{SaysTo};
ghost use Rattle.jser_find.specs.Lines.{find_words, form_words, line_words, object_words, place_members, place_words, spent_line, spent_object, spent_words};

use crate::form::Form;
use jser_prim::{Failed, Outbox, Sink};
use jser_printer::{write, write_quoted};
use jser_scan::{FilePath, Found, write_answer, write_count, write_members, write_path};

/// Where a stream lies in a file.
#[derive(Clone, Copy, PartialEq, Eq, Debug)]
pub struct Place {
    /// Where its header begins.
    pub from: u64,
    /// Where it ends.
    pub to: u64,
    /// How it is spelled there.
    pub form: Form,
}

/// Prints what was found at a place: `PATH: FROM to TO: ANSWER`, or `FROM to TO as base64` where a text
/// spells it, ANSWER as of scan; or a JSON object, on a line.
///
/// # Errors
///
/// `Failed` where the output failed.
#[tactic(auto, using(jser_scan::proofs::ScanLemmas::went, jser_scan::proofs::ScanLemmas::broke, jser_scan::proofs::ScanLemmas::kept))]
pub fn print_find<W: Sink>(
    json: bool,
    path: &FilePath,
    place: Place,
    found: &Found,
    output: &mut W,
) -> Result<(), Failed>
    ensures printed { OnOk result (Appends (W.gone_out output.old) (W.gone_out output.new) (find_words json path.now place found.now [])) }
    ensures kept { OnOk result (W.has_failed output.new ≡ W.has_failed output.old) }
    ensures failed { OnErr result (W.has_failed output.new ≡ true) }
{
    let mut outbox = Outbox::new();
    write_find(&mut outbox, output, json, path, place, found);
    outbox.flush(output);
    if outbox.has_failed() {
        Err(Failed)
    } else {
        Ok(())
    }
}

/// Prints that a search ended at a place, since its budget was spent: `PATH: searched to PLACE of ALL bytes`, or a JSON object,
/// on a line.
///
/// # Errors
///
/// `Failed` where the output failed.
#[tactic(auto, using(jser_scan::proofs::ScanLemmas::went, jser_scan::proofs::ScanLemmas::broke, jser_scan::proofs::ScanLemmas::kept))]
pub fn print_spent<W: Sink>(
    json: bool,
    path: &FilePath,
    place: u64,
    all: u64,
    output: &mut W,
) -> Result<(), Failed>
    ensures printed { OnOk result (Appends (W.gone_out output.old) (W.gone_out output.new) (spent_words json path.now place all [])) }
    ensures kept { OnOk result (W.has_failed output.new ≡ W.has_failed output.old) }
    ensures failed { OnErr result (W.has_failed output.new ≡ true) }
{
    let mut outbox = Outbox::new();
    write_spent(&mut outbox, output, json, path, place, all);
    outbox.flush(output);
    if outbox.has_failed() {
        Err(Failed)
    } else {
        Ok(())
    }
}

/// Writes where a search ended.
fn write_spent<W: Sink>(
    outbox: &mut Outbox,
    sink: &mut W,
    json: bool,
    path: &FilePath,
    place: u64,
    all: u64,
)
    ensures { SaysTo W.gone_out W.has_failed outbox.old outbox.new sink.old sink.new (λ k. spent_words json path.now place all k) }
{
    if json {
        write_spent_object(outbox, sink, path, place, all);
    } else {
        write_spent_line(outbox, sink, path, place, all);
    }
}

/// Writes its line.
fn write_spent_line<W: Sink>(
    outbox: &mut Outbox,
    sink: &mut W,
    path: &FilePath,
    place: u64,
    all: u64,
)
    ensures { SaysTo W.gone_out W.has_failed outbox.old outbox.new sink.old sink.new (λ k. spent_line path.now place all k) }
{
    write_path(outbox, sink, path);
    write_count(outbox, sink, b": searched to ", place);
    write_count(outbox, sink, b" of ", all);
    write(outbox, sink, b" bytes\n");
}

/// Writes its object.
fn write_spent_object<W: Sink>(
    outbox: &mut Outbox,
    sink: &mut W,
    path: &FilePath,
    place: u64,
    all: u64,
)
    ensures { SaysTo W.gone_out W.has_failed outbox.old outbox.new sink.old sink.new (λ k. spent_object path.now place all k) }
{
    write(outbox, sink, b"{\"path\":");
    write_quoted(outbox, sink, path.units.as_slice());
    write_count(outbox, sink, b",\"searched\":", place);
    write_count(outbox, sink, b",\"of\":", all);
    write(outbox, sink, b"}\n");
}

/// Writes it.
fn write_find<W: Sink>(
    outbox: &mut Outbox,
    sink: &mut W,
    json: bool,
    path: &FilePath,
    place: Place,
    found: &Found,
)
    ensures { SaysTo W.gone_out W.has_failed outbox.old outbox.new sink.old sink.new (λ k. find_words json path.now place found.now k) }
{
    if json {
        write_object(outbox, sink, path, place, found);
    } else {
        write_line(outbox, sink, path, place, found);
    }
}

/// Writes the line.
fn write_line<W: Sink>(
    outbox: &mut Outbox,
    sink: &mut W,
    path: &FilePath,
    place: Place,
    found: &Found,
)
    ensures { SaysTo W.gone_out W.has_failed outbox.old outbox.new sink.old sink.new (λ k. line_words path.now place found.now k) }
{
    write_path(outbox, sink, path);
    write_place(outbox, sink, place);
    write(outbox, sink, b": ");
    write_answer(outbox, sink, found);
    write(outbox, sink, b"\n");
}

/// Writes where a stream lies.
fn write_place<W: Sink>(outbox: &mut Outbox, sink: &mut W, place: Place)
    ensures { SaysTo W.gone_out W.has_failed outbox.old outbox.new sink.old sink.new (λ k. place_words place k) }
{
    write_count(outbox, sink, b": ", place.from);
    write_count(outbox, sink, b" to ", place.to);
    write_form(outbox, sink, b" as ", place.form, b"");
}

/// Writes the object.
fn write_object<W: Sink>(
    outbox: &mut Outbox,
    sink: &mut W,
    path: &FilePath,
    place: Place,
    found: &Found,
)
    ensures { SaysTo W.gone_out W.has_failed outbox.old outbox.new sink.old sink.new (λ k. object_words path.now place found.now k) }
{
    write(outbox, sink, b"{\"path\":");
    write_quoted(outbox, sink, path.units.as_slice());
    write_place_members(outbox, sink, place);
    write_members(outbox, sink, found);
    write(outbox, sink, b"}\n");
}

/// Writes the members of where a stream lies.
fn write_place_members<W: Sink>(outbox: &mut Outbox, sink: &mut W, place: Place)
    ensures { SaysTo W.gone_out W.has_failed outbox.old outbox.new sink.old sink.new (λ k. place_members place k) }
{
    write_count(outbox, sink, b",\"start\":", place.from);
    write_count(outbox, sink, b",\"end\":", place.to);
    write_form(outbox, sink, b",\"form\":\"", place.form, b"\"");
}

/// Writes how a stream is spelled between these words, if a text spells it.
fn write_form<W: Sink>(outbox: &mut Outbox, sink: &mut W, before: &[u8], form: Form, after: &[u8])
    ensures { SaysTo W.gone_out W.has_failed outbox.old outbox.new sink.old sink.new (λ k. form_words before.now form after.now k) }
{
    match form {
        Form::Bytes => write(outbox, sink, b""),
        Form::Base64 => write_between(outbox, sink, before, b"base64", after),
        Form::Hexadecimal => write_between(outbox, sink, before, b"hexadecimal", after),
    }
}

/// Writes words between two others.
fn write_between<W: Sink>(
    outbox: &mut Outbox,
    sink: &mut W,
    before: &[u8],
    words: &[u8],
    after: &[u8],
)
    ensures { SaysTo W.gone_out W.has_failed outbox.old outbox.new sink.old sink.new (λ k. before.now ++ (words.now ++ (after.now ++ k))) }
{
    write(outbox, sink, before);
    write(outbox, sink, words);
    write(outbox, sink, after);
}
