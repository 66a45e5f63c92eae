//! `explain`: the answer of a check, and why.
ghost use Rattle.std.specs.Prelude.{◌≡◌, ◌≢◌, ◌⊎◌, ◌≤◌, IfErr};

use crate::files::Opened;
use crate::{filter_reading, filter_text, tell_unopened};
use jser_explain::explain;
use jser_inputs::{Decoded, Form};
use jser_line::Filters;
use jser_prim::{FromRead, Sink};
use jser_scan::Rules;

/// What is asked beside the filter.
#[derive(Clone, Copy)]
pub(crate) struct ExplainOptions {
    /// Whether a name that no pattern matches is refused.
    pub(crate) strict: bool,
    /// Whether the filter is asked about each class name that can be read at any place.
    pub(crate) anywhere: bool,
    /// The form of the file.
    pub(crate) form: Form,
}

/// Explains the answer for a file, or for standard input where it is named `-`.
pub(crate) fn explain_file<W: Sink, E: Sink>(
    rt: &HostRuntime,
    filters: &Filters,
    options: ExplainOptions,
    file: &str,
    output: &mut W,
    faults: &mut E,
) -> u8
    ensures status { result ≤ 3 }
    ensures unbroken { result ≢ 3 → W.has_failed output.new ≡ W.has_failed output.old }
    ensures misuse { result ≡ 2 → output.new ≡ output.old }
{
    let text = match filter_text(rt, filters, faults) {
        Ok(text) => text,
        Err(status) => return status,
    };
    let filter = match filter_reading(rt, filters, text.as_str(), faults) {
        Ok(filter) => filter,
        Err(status) => return status,
    };
    let rules = Rules {
        filter,
        strict: options.strict,
        anywhere: options.anywhere,
    };
    explain_under(
        rt,
        &rules,
        text.as_str(),
        options.form,
        file,
        output,
        faults,
    )
}

/// Explains the answer for a file under these rules, whose filter has this text.
fn explain_under<W: Sink, E: Sink>(
    rt: &HostRuntime,
    rules: &Rules,
    text: &str,
    form: Form,
    file: &str,
    output: &mut W,
    faults: &mut E,
) -> u8
    ensures status { (result ≡ 0) ⊎ ((result ≡ 1) ⊎ (result ≡ 3)) }
    ensures unbroken { result ≢ 3 → W.has_failed output.new ≡ W.has_failed output.old }
{
    let alloc = rt.alloc();
    match Opened::new(rt, file) {
        Ok(opened) => {
            let input = Decoded::new(FromRead::new(opened), form);
            let (status, _input) = explain(alloc, rules, text, input, output, faults);
            status
        }
        Err(_) => tell_unopened(alloc, file, faults),
    }
}
