//! What the words of a command line set.
ghost use Rattle.std.specs.Prelude.{◌≡◌, ◌≢◌, ◌≤◌, ◌⊎◌, ◌∷◌, [], length, map, option_map, string_bytes, IfOk, IfErr, OnOk, IfSome};
ghost use Rattle.jser_prim.specs.ModifiedUtf8.{utf16_units};
ghost use Rattle.jser_table.specs.Names.{element_of, malformed_element};
ghost use Rattle.jser_filter.specs.Filters.{AreSound};
ghost use Rattle.jser_filter.specs.Laws.{verdict_with};
ghost use Rattle.jser_filter.specs.Pieces.{pieces_of};
ghost use Rattle.jser_filter.specs.Tables.{lines_of, module_of, table_of};
ghost use Rattle.jser_line.specs.App.{asked_in, line_asks, IsMistake};
ghost use Rattle.jser_settings.specs.FilterFiles.{filter_text};
ghost use Rattle.jser_settings.specs.Settings.{most_modules_bytes, FilterFileIsFaulty, FilterIsFaulty, IsNotRead, ModulesAreFaulty, RanOut, TellsNoMemory};
ghost use Rattle.uses_commands.specs.Settings.{all_files, files_of, form_asked, is_module};

use jser_filter::{Modules, Verdict};
use jser_inputs::Form;
use jser_line::{Find, Line, LineFault, Records, line_of};
use jser_prim::{Sink, Source};
use jser_settings::{filter_in, filter_of, modules_of};
use std::alloc::{AllocError, Global};

/// What the filter of a text says of a name, without a table of modules.
///
/// # Errors
///
/// The status: 2 where the text has a fault, whose line was written, and 3 where memory ran out.
pub fn verdict_on<E: Sink>(
    alloc: Global,
    text: &str,
    name: &[u16],
    faults: &mut E,
) -> Result<Verdict, u8>
    requires { element_of name.now ≢ malformed_element }
    ensures verdict { IfOk result (λ verdict. verdict ≡ verdict_with (utf16_units text.now) [] name.now) }
    ensures sound { OnOk result (AreSound (pieces_of (utf16_units text.now))) }
    ensures quiet { OnOk result (faults.new ≡ faults.old) }
    ensures faulty { result ≡ Err 2 → FilterIsFaulty (pieces_of (utf16_units text.now)) (E.has_failed faults.new) (E.gone_out faults.old) (E.gone_out faults.new) }
    ensures failed { result ≡ Err 3 → TellsNoMemory (E.has_failed faults.new) (E.gone_out faults.old) (E.gone_out faults.new) }
    ensures status { IfErr result (λ status. (status ≡ 2) ⊎ (status ≡ 3)) }
{
    match filter_of(alloc, text, faults) {
        Ok(filter) => Ok(filter.judge(name)),
        Err(status) => Err(status),
    }
}

/// What the filter of a file says of a name, without a table of modules: that of its lines, joined by `;`.
///
/// # Errors
///
/// The status: 2 where the file is at fault, and 3 where it was not read, or memory ran out; the line that says so was written.
#[tactic(auto, using(crate::proofs::SettingLemmas::verdict_in_file))]
pub fn verdict_in<R: Source, E: Sink>(
    alloc: Global,
    input: &mut R,
    name: &[u16],
    faults: &mut E,
) -> Result<Verdict, u8>
    requires { element_of name.now ≢ malformed_element }
    ensures verdict { IfOk result (λ verdict. IfSome (R.to_come input.old) (λ bytes. verdict ≡ verdict_with (utf16_units (filter_text bytes)) [] name.now)) }
    ensures short { OnOk result (IfSome (R.to_come input.old) (λ bytes. length bytes ≤ most_modules_bytes)) }
    ensures unbroken { OnOk result (R.has_failed input.new ≡ R.has_failed input.old) }
    ensures quiet { OnOk result (faults.new ≡ faults.old) }
    ensures faulty { result ≡ Err 2 → IfSome (R.to_come input.old) (λ bytes. FilterFileIsFaulty bytes (E.has_failed faults.new) (E.gone_out faults.old) (E.gone_out faults.new)) }
    ensures failed { result ≡ Err 3 → IsNotRead (R.has_failed input.new) (R.to_come input.old) (E.has_failed faults.new) (E.gone_out faults.old) (E.gone_out faults.new) ⊎ RanOut (R.has_failed input.old) (R.has_failed input.new) (E.has_failed faults.new) (E.gone_out faults.old) (E.gone_out faults.new) }
    ensures status { IfErr result (λ status. (status ≡ 2) ⊎ (status ≡ 3)) }
{
    match filter_in(alloc, input, faults) {
        Ok(filter) => Ok(filter.judge(name)),
        Err(status) => Err(status),
    }
}

/// Whether a file of modules puts the package into this module. Where a read failed, or the file is too long, there is no
/// answer.
///
/// # Errors
///
/// The status: 2 where the file is at fault, and 3 where it was not read, or memory ran out; the line that says so was written.
#[tactic(auto, using(crate::proofs::SettingLemmas::module_is))]
pub fn is_in_module<R: Source, E: Sink>(
    alloc: Global,
    input: &mut R,
    package: &[u16],
    module: &[u16],
    faults: &mut E,
) -> Result<bool, u8>
    ensures told { IfOk result (λ is_in. IfSome (R.to_come input.old)
        (λ bytes. is_in ≡ is_module «module».now (module_of (table_of (lines_of (utf16_units bytes))) «package».now))) }
    ensures short { OnOk result (IfSome (R.to_come input.old) (λ bytes. length bytes ≤ most_modules_bytes)) }
    ensures unbroken { OnOk result (R.has_failed input.new ≡ R.has_failed input.old) }
    ensures quiet { OnOk result (faults.new ≡ faults.old) }
    ensures faulty { result ≡ Err 2 → IfSome (R.to_come input.old) (λ bytes. ModulesAreFaulty bytes (E.has_failed faults.new) (E.gone_out faults.old) (E.gone_out faults.new)) }
    ensures failed { result ≡ Err 3 → IsNotRead (R.has_failed input.new) (R.to_come input.old) (E.has_failed faults.new) (E.gone_out faults.old) (E.gone_out faults.new) ⊎ RanOut (R.has_failed input.old) (R.has_failed input.new) (E.has_failed faults.new) (E.gone_out faults.old) (E.gone_out faults.new) }
    ensures status { IfErr result (λ status. (status ≡ 2) ⊎ (status ≡ 3)) }
{
    match modules_of(alloc, input, faults) {
        Ok(table) => Ok(has(&table, package, module)),
        Err(status) => Err(status),
    }
}

/// Whether the table puts the package into this module.
fn has(table: &Modules, package: &[u16], module: &[u16]) -> bool
    ensures { result ≡ is_module «module».now (module_of table.now «package».now) }
{
    match table.get(package) {
        Some(found) => found == module,
        None => false,
    }
}

/// The files that the words name, whatever they ask for. None where they name no command.
///
/// # Errors
///
/// As `line_of`.
pub fn files_named<'a>(alloc: Global, words: &'a [&'a str]) -> Result<Vec<String>, LineFault>
    ensures files { IfOk result (λ files. map string_bytes files.items ≡ all_files (asked_in (map (λ word. word.now) words.entry.now))) }
    ensures mistake { IfErr result (IsMistake (map (λ word. word.now) words.entry.now)) }
{
    match line_of(alloc, words) {
        Ok(Some(line)) => match files_in(alloc, line) {
            Ok(files) => Ok(files),
            Err(_) => Err(LineFault::OutOfMemory),
        },
        Ok(None) => Ok(Vec::new(alloc)),
        Err(fault) => Err(fault),
    }
}

/// The files that a line names.
fn files_in(alloc: Global, line: Line) -> Result<Vec<String>, AllocError>
    ensures { IfOk result (λ files. map string_bytes files.items ≡ files_of (line_asks line)) }
{
    match line {
        Line::Check {
            filters: _filters,
            strict: _,
            forms: _,
            anywhere: _,
            file,
        } => alone(alloc, file),
        Line::Show {
            forms: _,
            values: _,
            limit: _limit,
            file,
        } => alone(alloc, file),
        Line::List {
            filters: _filters,
            forms: _,
            anywhere: _,
            file,
        } => alone(alloc, file),
        Line::Scan {
            filters: _filters,
            strict: _,
            forms: _,
            anywhere: _,
            refused: _,
            json: _,
            progress: _,
            paths,
        } => Ok(paths),
        Line::Suggest {
            forms: _,
            slack: _slack,
            files,
        } => Ok(files),
        Line::Explain {
            filters: _filters,
            strict: _,
            forms: _,
            anywhere: _,
            file,
        } => alone(alloc, file),
        Line::Records(
            Records {
                filters: _filters,
                strict: _,
                forms: _,
                frames: _,
                sized: _,
                zero: _,
                copy: _,
                field: _field,
                most: _most,
                anywhere: _,
                refused: _,
                json: _,
                progress: _,
                pass: _,
                file,
            },
        ) => alone(alloc, file),
        Line::Find(
            Find {
                filters: _filters,
                strict: _,
                text: _,
                all: _,
                most: _most,
                effort: _effort,
                json: _,
                progress: _,
                carve: _carve,
                most_files: _most_files,
                files,
            },
        ) => Ok(files),
    }
}

/// One file.
fn alone(alloc: Global, file: String) -> Result<Vec<String>, AllocError>
    ensures { IfOk result (λ files. map string_bytes files.items ≡ string_bytes file ∷ []) }
{
    let mut files = Vec::new(alloc);
    files.push(file)?;
    Ok(files)
}

/// The form of the input that a line asks for, if its options do not exclude one another.
pub fn form_named(line: &Line) -> Option<Form>
    ensures { result ≡ form_asked (line_asks line.now) }
{
    if line.clash().is_some() {
        return None;
    }
    match line {
        Line::Check { forms, .. }
        | Line::Explain { forms, .. }
        | Line::Show { forms, .. }
        | Line::List { forms, .. }
        | Line::Scan { forms, .. }
        | Line::Suggest { forms, .. } => Some(forms.form()),
        Line::Records(words) => Some(words.forms.form()),
        Line::Find(_) => Some(Form::Binary),
    }
}
