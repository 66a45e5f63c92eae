//! `records`: opens the input, and hands it to the check of its records.
ghost use Rattle.std.specs.Prelude.{◌≡◌, ◌≢◌, ◌⊎◌, ◌≤◌, IfErr};

use crate::files::Opened;
use crate::number::{number_from_one, number_in};
use crate::progress::{Counted, Progress};
use crate::{filter_with, tell_unopened};
use jser_inputs::Form;
use jser_line::Records;
use jser_prim::{FromRead, Sink};
use jser_records::{Asked, Layout, Lines, Shape, Spelling, run_records};
use jser_scan::{How, Rules, Tally, print_counts};

/// How many bytes of a record are read at most, where that is not said.
const MOST: u64 = 16_777_216;

/// Checks the records of a file, or of standard input where it is named `-`.
pub(crate) fn check_records<W: Sink, E: Sink>(
    rt: &HostRuntime,
    words: &Records,
    output: &mut W,
    faults: &mut E,
) -> u8
    ensures status { result ≤ 3 }
    ensures unbroken { result ≢ 3 → W.has_failed output.new ≡ W.has_failed output.old }
    ensures misuse { result ≡ 2 → output.new ≡ output.old }
{
    match asked_by(words, faults) {
        Ok(asked) => check_asked(rt, words, asked, output, faults),
        Err(status) => status,
    }
}

/// Checks the records as they are asked for.
fn check_asked<W: Sink, E: Sink>(
    rt: &HostRuntime,
    words: &Records,
    asked: Asked,
    output: &mut W,
    faults: &mut E,
) -> u8
    ensures status { result ≤ 3 }
    ensures unbroken { result ≢ 3 → W.has_failed output.new ≡ W.has_failed output.old }
    ensures misuse { result ≡ 2 → output.new ≡ output.old }
{
    match filter_with(rt, &words.filters, faults) {
        Ok(filter) => {
            let rules = Rules {
                filter,
                strict: words.strict,
                anywhere: words.anywhere,
            };
            let progress = if asked.pass {
                Progress::in_lines(rt, words.progress, "bytes")
            } else {
                Progress::new(rt, words.progress, "bytes")
            };
            let file = words.file.as_str();
            check_under(rt, &rules, asked, progress, file, output, faults)
        }
        Err(status) => status,
    }
}

/// Checks the records of a file under these rules.
fn check_under<W: Sink, E: Sink>(
    rt: &HostRuntime,
    rules: &Rules,
    asked: Asked,
    progress: Progress<'_>,
    file: &str,
    output: &mut W,
    faults: &mut E,
) -> u8
    ensures status { (result ≡ 0) ⊎ ((result ≡ 1) ⊎ (result ≡ 3)) }
    ensures unbroken { result ≢ 3 → W.has_failed output.new ≡ W.has_failed output.old }
{
    let alloc = rt.alloc();
    match Opened::new(rt, file) {
        Ok(opened) => {
            let mut source = FromRead::new(Counted::new(opened, progress));
            run_records(alloc, rules, asked, &mut source, output, faults)
        }
        Err(_) => {
            let status = tell_unopened(alloc, file, faults);
            let _ = print_counts(b" records, ", Tally::new(), faults);
            status
        }
    }
}

/// What is asked of the records.
fn asked_by<E: Sink>(words: &Records, faults: &mut E) -> Result<Asked, u8>
    ensures { IfErr result (λ status. status ≡ 2) }
{
    let field = match number_from_one(&words.field, faults, "--field is not a number from 1\n") {
        Ok(field) => field,
        Err(status) => return Err(status),
    };
    let most = match number_in(&words.most, faults, "--most is not a number of bytes\n") {
        Ok(most) => most.unwrap_or(MOST),
        Err(status) => return Err(status),
    };
    Ok(Asked {
        layout: Layout {
            shape: shape_of(words, field),
            most,
        },
        how: How {
            refused: words.refused,
            json: words.json,
        },
        pass: words.pass,
    })
}

/// How the records lie.
fn shape_of(words: &Records, field: Option<u64>) -> Shape {
    if words.frames {
        return Shape::Frames;
    }
    if words.sized {
        return Shape::Sized;
    }
    let form = match words.forms.form() {
        Form::Binary => Form::Base64,
        form => form,
    };
    Shape::Lines(Lines {
        spelling: Spelling {
            form,
            copy: words.copy,
        },
        zero: words.zero,
        field,
    })
}
