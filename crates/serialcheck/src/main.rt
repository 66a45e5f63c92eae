//! serialcheck: checks and shows Java serialization streams, and runs none of their classes.
//!
//! `main` reads the command line, the filter and the table of modules, and then opens the input; `run_input` of jser_commands
//! does the work on what was opened.
#![tactic(auto)]

ghost use Rattle.std.specs.Prelude.{◌≡◌, ◌≢◌, ◌⊎◌, ◌≤◌, None, [], IfOk, IfErr, IfSome, length, string_bytes, vec_len};
ghost use Rattle.jser_prim.specs.ModifiedUtf8.{utf16_units};
ghost use Rattle.jser_filter.specs.Pieces.{pieces_of};
ghost use Rattle.jser_settings.specs.Settings.{IsTable};
ghost use Rattle.jser_commands.specs.Lines.{HasLimit};
ghost use Rattle.jser_explain.specs.Explains.{check_of};
ghost use Rattle.serialcheck.specs.Jobs.{list_of};

mod course;
mod explain;
mod files;
mod find;
mod number;
mod progress;
mod records;
mod scan;
mod suggest;

use crate::explain::{ExplainOptions, explain_file};
use crate::files::{Opened, path_of};
use crate::find::find_in_files;
use crate::number::number_from_one;
use crate::records::check_records;
use crate::scan::{Task, scan_paths};
use crate::suggest::suggest_from;
use jser_commands::{Job, Keyed, run_input};
use jser_filter::Filter;
use jser_inputs::{Decoded, Form, Input};
use jser_line::{Clash, Filters, Line, LineFault, line_of, printable};
use jser_prim::{FromRead, Sink, Source, ToWrite};
use jser_scan::{How, Rules};
use jser_settings::{
    FAILED, filter_of, filter_text_in, limit_of, modules_of, note_modules, note_patterns,
    note_text, tell_failure, tell_misuse,
};
use std::alloc::{AllocError, Global};
use std::env;
use std::fs::File;
use std::io::ErrorKind;
use std::process::ExitCode;
use std::random::RandomSource;

fn main(rt: HostRuntime) -> ExitCode {
    let mut output = ToWrite::new(rt.stdout());
    let mut faults = ToWrite::new(rt.stderr());
    ExitCode::from(status_of(&rt, &mut output, &mut faults))
}

/// Reads the command line and does what it asks for. Where the output fails the status is 3, and at 2 nothing went to it.
fn status_of<W: Sink, E: Sink>(rt: &HostRuntime, output: &mut W, faults: &mut E) -> u8
    ensures status { result ≤ 4 }
    ensures unbroken { result ≢ 3 → W.has_failed output.new ≡ W.has_failed output.old }
    ensures misuse { result ≡ 2 → output.new ≡ output.old }
{
    match words_of_line(rt, faults) {
        Ok(words) => on_words(rt, &words, output, faults),
        Err(status) => status,
    }
}

/// The words of the command line, the name of the program first.
fn words_of_line<E: Sink>(rt: &HostRuntime, faults: &mut E) -> Result<Vec<String>, u8>
    ensures { IfErr result (λ status. (status ≡ 2) ⊎ (status ≡ 3)) }
{
    let args = match env::args(rt) {
        Ok(args) => args,
        Err(error) => {
            return Err(match error.kind() {
                ErrorKind::OutOfMemory => tell_failure(faults, "out of memory\n"),
                _ => tell_misuse(faults, "the command line is not text\n"),
            });
        }
    };
    let mut words: Vec<String> = Vec::new(rt.alloc());
    for arg in args {
        if words.push(arg).is_err() {
            return Err(tell_failure(faults, "out of memory\n"));
        }
    }
    Ok(words)
}

/// Does what these words ask for.
fn on_words<W: Sink, E: Sink>(
    rt: &HostRuntime,
    words: &[String],
    output: &mut W,
    faults: &mut E,
) -> u8
    ensures status { result ≤ 4 }
    ensures unbroken { result ≢ 3 → W.has_failed output.new ≡ W.has_failed output.old }
    ensures misuse { result ≡ 2 → output.new ≡ output.old }
{
    let alloc = rt.alloc();
    let Ok(words) = borrowed(alloc, words) else {
        return tell_failure(faults, "out of memory\n");
    };
    match line_of(alloc, &words) {
        Ok(Some(line)) => match line.clash() {
            None => on_line(rt, &line, output, faults),
            Some(clash) => tell_misuse(faults, clash_line(clash)),
        },
        Ok(None) => tell_misuse(faults, "no command\n"),
        Err(fault) => tell_line_fault(alloc, &fault, faults),
    }
}

/// What is told of two options that exclude one another.
fn clash_line(clash: Clash) -> &'static str {
    match clash {
        Clash::Filters => "--filter and --filter-file are both given\n",
        Clash::HexAndBase64 => "--hex and --base64 are both given\n",
        Clash::HexAndBase64Url => "--hex and --base64url are both given\n",
        Clash::BothBase64 => "--base64 and --base64url are both given\n",
        Clash::FramesAndForm => "--frames and another form are both given\n",
        Clash::SizedAndForm => "--sized and another form are both given\n",
        Clash::LinesAlone => "--zero and --field are of lines alone\n",
        Clash::Base64Alone => "--copy is of base64 alone\n",
        Clash::CopyAndPass => "--copy and --pass are both given\n",
    }
}

/// Does what a line with a command says.
fn on_line<W: Sink, E: Sink>(rt: &HostRuntime, line: &Line, output: &mut W, faults: &mut E) -> u8
    ensures status { result ≤ 4 }
    ensures unbroken { result ≢ 3 → W.has_failed output.new ≡ W.has_failed output.old }
    ensures misuse { result ≡ 2 → output.new ≡ output.old }
{
    match line {
        Line::Check {
            filters,
            strict,
            forms,
            anywhere,
            file,
        } => match filter_with(rt, filters, faults) {
            Ok(filter) => {
                let job = check_job(filter, *strict, *anywhere);
                on_file(
                    rt,
                    Keyed::fixed(),
                    &job,
                    forms.form(),
                    file.as_str(),
                    output,
                    faults,
                )
            }
            Err(status) => status,
        },
        Line::Show {
            forms,
            values,
            limit,
            file,
        } => match show_job(*values, limit, faults) {
            Ok(job) => on_file(
                rt,
                Keyed::fixed(),
                &job,
                forms.form(),
                file.as_str(),
                output,
                faults,
            ),
            Err(status) => status,
        },
        Line::Records(words) => check_records(rt, words, output, faults),
        Line::Find(words) => find_in_files(rt, words, output, faults),
        Line::Suggest {
            forms,
            slack,
            files,
        } => match number_from_one(slack, faults, "--slack is not a number from 1\n") {
            Ok(slack) => suggest_from(rt, forms.form(), slack.unwrap_or(1), files, output, faults),
            Err(status) => status,
        },
        Line::List {
            filters,
            forms,
            anywhere,
            file,
        } => match filter_with(rt, filters, faults) {
            Ok(filter) => {
                let job = list_job(filter, *anywhere);
                list_file(rt, &job, forms.form(), file.as_str(), output, faults)
            }
            Err(status) => status,
        },
        Line::Explain {
            filters,
            strict,
            forms,
            anywhere,
            file,
        } => {
            let options = ExplainOptions {
                strict: *strict,
                anywhere: *anywhere,
                form: forms.form(),
            };
            explain_file(rt, filters, options, file.as_str(), output, faults)
        }
        Line::Scan {
            filters,
            strict,
            forms,
            anywhere,
            refused,
            json,
            progress,
            paths,
        } => match filter_with(rt, filters, faults) {
            Ok(filter) => {
                let rules = Rules {
                    filter,
                    strict: *strict,
                    anywhere: *anywhere,
                };
                let task = Task {
                    rules: &rules,
                    form: forms.form(),
                    how: How {
                        refused: *refused,
                        json: *json,
                    },
                    progress: *progress,
                };
                scan_paths(rt, &task, paths, output, faults)
            }
            Err(status) => status,
        },
    }
}

/// The job of a list.
fn list_job(filter: Filter, anywhere: bool) -> Job
    ensures { result ≡ list_of anywhere «filter» }
{
    if anywhere {
        Job::ListAnywhere { filter }
    } else {
        Job::List { filter }
    }
}

/// The job of a check.
fn check_job(filter: Filter, strict: bool, anywhere: bool) -> Job
    ensures { result ≡ check_of anywhere strict «filter» }
{
    if anywhere {
        Job::CheckAnywhere { filter, strict }
    } else {
        Job::Check { filter, strict }
    }
}

/// The job of a text, with what raw values mean where that is asked, under the limit that is named, if one is.
fn show_job<E: Sink>(values: bool, limit: &Option<String>, faults: &mut E) -> Result<Job, u8>
    ensures { IfErr result (λ status. status ≡ 2) }
{
    let Some(text) = limit else {
        return Ok(Job::Show { values });
    };
    match limit_of(text.as_str(), faults) {
        Ok(limit) => Ok(Job::ShowLimited { values, limit }),
        Err(status) => Err(status),
    }
}

/// Writes why a line is none of the commands.
fn tell_line_fault<E: Sink>(alloc: Global, fault: &LineFault, faults: &mut E) -> u8
    ensures { (result ≡ 2) ⊎ (result ≡ 3) }
{
    match fault {
        LineFault::OutOfMemory => tell_failure(faults, "out of memory\n"),
        LineFault::Clap(error) => match error.to_string(alloc) {
            Ok(text) => tell_clap(alloc, text.as_str(), faults),
            Err(_) => tell_failure(faults, "out of memory\n"),
        },
    }
}

/// Writes what clap tells, which repeats words of the line.
fn tell_clap<E: Sink>(alloc: Global, text: &str, faults: &mut E) -> u8
    ensures { (result ≡ 2) ⊎ (result ≡ 3) }
{
    match printable(alloc, text) {
        Ok(text) => tell_misuse(faults, text.as_str()),
        Err(_) => tell_failure(faults, "out of memory\n"),
    }
}

/// The words of a command line, as clap takes them.
fn borrowed<'a>(alloc: Global, owned: &'a [String]) -> Result<Vec<&'a str>, AllocError>
    ensures { IfOk result (λ words. vec_len words ≡ length owned.now) }
{
    let mut words = Vec::new(alloc);
    for word in owned {
        words.push(word.as_str())?;
    }
    Ok(words)
}

/// The filter that the options ask for, with the table of modules of a file, if one is named.
pub(crate) fn filter_with<E: Sink>(
    rt: &HostRuntime,
    filters: &Filters,
    faults: &mut E,
) -> Result<Filter, u8>
    ensures given { IfSome filters.now.text (λ text. IfOk result (λ filter. filter.pieces ≡ pieces_of (utf16_units (string_bytes text)))) }
    ensures plain { filters.now.modules ≡ None → IfOk result (λ filter. filter.modules ≡ []) }
    ensures status { IfErr result (λ status. (status ≡ 2) ⊎ (status ≡ 3)) }
{
    match filter_text(rt, filters, faults) {
        Ok(text) => filter_reading(rt, filters, text.as_str(), faults),
        Err(status) => Err(status),
    }
}

/// The text of the filter: given, or that of a file. Where neither is given, it is empty. What may not be meant so is told.
pub(crate) fn filter_text<E: Sink>(
    rt: &HostRuntime,
    filters: &Filters,
    faults: &mut E,
) -> Result<String, u8>
    ensures given { IfSome filters.now.text (λ text. IfOk result (λ made. string_bytes made ≡ string_bytes text)) }
    ensures status { IfErr result (λ status. (status ≡ 2) ⊎ (status ≡ 3)) }
{
    let alloc = rt.alloc();
    if let Some(text) = &filters.text {
        note_text(alloc, text.as_str(), faults);
        return match String::from_str(alloc, text.as_str()) {
            Ok(text) => Ok(text),
            Err(_) => Err(tell_failure(faults, "out of memory\n")),
        };
    }
    let Some(file) = &filters.file else {
        return Ok(String::new(alloc));
    };
    match File::open(rt, file.as_str()) {
        Ok(opened) => filter_text_of(alloc, opened, faults),
        Err(_) => Err(tell_unopened(alloc, file.as_str(), faults)),
    }
}

/// The text of the filter that an opened file holds. That it has no pattern is told.
fn filter_text_of<E: Sink>(alloc: Global, opened: File, faults: &mut E) -> Result<String, u8>
    ensures { IfErr result (λ status. (status ≡ 2) ⊎ (status ≡ 3)) }
{
    match filter_text_in(alloc, &mut FromRead::new(opened), faults) {
        Ok(text) => {
            note_patterns(text.as_str(), faults);
            Ok(text)
        }
        Err(status) => Err(status),
    }
}

/// The filter of this text, with the table of modules of a file, if one is named.
pub(crate) fn filter_reading<E: Sink>(
    rt: &HostRuntime,
    filters: &Filters,
    text: &str,
    faults: &mut E,
) -> Result<Filter, u8>
    ensures pieces { IfOk result (λ filter. filter.pieces ≡ pieces_of (utf16_units text.now)) }
    ensures plain { filters.now.modules ≡ None → IfOk result (λ filter. filter.modules ≡ []) }
    ensures status { IfErr result (λ status. (status ≡ 2) ⊎ (status ≡ 3)) }
{
    let filter = match filter_of(rt.alloc(), text, faults) {
        Ok(filter) => filter,
        Err(status) => return Err(status),
    };
    let Some(file) = &filters.modules else {
        return Ok(filter);
    };
    match File::open(rt, file.as_str()) {
        Ok(opened) => with_modules_of(rt.alloc(), filter, &mut FromRead::new(opened), faults),
        Err(_) => Err(tell_unopened(rt.alloc(), file.as_str(), faults)),
    }
}

/// The filter, with the table of modules that an input holds. That the table is empty is told.
fn with_modules_of<R: Source, E: Sink>(
    alloc: Global,
    filter: Filter,
    input: &mut R,
    faults: &mut E,
) -> Result<Filter, u8>
    ensures pieces { IfOk result (λ whole. whole.pieces ≡ «filter».pieces) }
    ensures modules { IfOk result (λ whole. IfSome (R.to_come input.old) (λ bytes. IsTable bytes whole.modules)) }
    ensures status { IfErr result (λ status. (status ≡ 2) ⊎ (status ≡ 3)) }
{
    match modules_of(alloc, input, faults) {
        Ok(table) => {
            note_modules(&table, faults);
            Ok(filter.with_modules(table))
        }
        Err(status) => Err(status),
    }
}

/// Does the job of a list on a file in this form, or on standard input where it is named `-`. Who wrote it does not know the key
/// under which its names are counted.
fn list_file<W: Sink, E: Sink>(
    rt: &HostRuntime,
    job: &Job,
    form: Form,
    file: &str,
    output: &mut W,
    faults: &mut E,
) -> u8
    ensures status { (result ≡ 0) ⊎ ((result ≡ 1) ⊎ ((result ≡ 3) ⊎ ((result ≡ 4) × HasLimit job.now))) }
    ensures unbroken { result ≢ 3 → W.has_failed output.new ≡ W.has_failed output.old }
    ensures misuse { result ≢ 2 }
{
    match new_key(rt, faults) {
        Ok(keyed) => on_file(rt, keyed, job, form, file, output, faults),
        Err(status) => status,
    }
}

/// A key that nobody knows. Where the system has none, that is told as a failed read.
pub(crate) fn new_key<E: Sink>(rt: &HostRuntime, faults: &mut E) -> Result<Keyed, u8>
    ensures { IfErr result (λ status. status ≡ 3) }
{
    let mut key = [0; 8];
    match rt.fill_bytes(&mut key) {
        Ok(()) => Ok(Keyed::new(u64::from_le_bytes(key))),
        Err(_) => Err(tell_failure(faults, "read failed\n")),
    }
}

/// Does the job on a file in this form, or on standard input where it is named `-`; the names of a list are counted under this
/// key.
fn on_file<W: Sink, E: Sink>(
    rt: &HostRuntime,
    keyed: Keyed,
    job: &Job,
    form: Form,
    file: &str,
    output: &mut W,
    faults: &mut E,
) -> u8
    ensures status { (result ≡ 0) ⊎ ((result ≡ 1) ⊎ ((result ≡ 3) ⊎ ((result ≡ 4) × HasLimit job.now))) }
    ensures unbroken { result ≢ 3 → W.has_failed output.new ≡ W.has_failed output.old }
    ensures misuse { result ≢ 2 }
{
    let alloc = rt.alloc();
    match Opened::new(rt, file) {
        Ok(opened) => {
            let mut input = Decoded::new(FromRead::new(opened), form);
            on_input(alloc, keyed, job, &mut input, output, faults)
        }
        Err(_) => tell_unopened(alloc, file, faults),
    }
}

/// Does the job on an opened input. Of what `run_input` promises it passes on the statuses, and whether the output failed.
fn on_input<R: Input, W: Sink, E: Sink>(
    alloc: Global,
    keyed: Keyed,
    job: &Job,
    input: &mut R,
    output: &mut W,
    faults: &mut E,
) -> u8
    ensures status { (result ≡ 0) ⊎ ((result ≡ 1) ⊎ ((result ≡ 3) ⊎ ((result ≡ 4) × HasLimit job.now))) }
    ensures unbroken { result ≢ 3 → W.has_failed output.new ≡ W.has_failed output.old }
    ensures misuse { result ≢ 2 }
{
    run_input(alloc, keyed, job, input, output, faults)
}

/// Tells that a file cannot be opened, and returns the status of a failure.
pub(crate) fn tell_unopened<E: Sink>(alloc: Global, file: &str, faults: &mut E) -> u8
    ensures { result ≡ 3 }
{
    let Ok(path) = path_of(alloc, file) else {
        return tell_failure(faults, "out of memory\n");
    };
    jser_scan::tell_unopened(&path, faults);
    FAILED
}
