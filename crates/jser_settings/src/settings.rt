//! What a command line sets beside its input: the filter of a text or a file, and the table of modules of a file.
ghost use Rattle.std.specs.Prelude.{◌≡◌, ◌≢◌, ◌≤◌, ◌⊎◌, ◌++◌, [], codes, length, IfOk, IfErr, OnOk, IfSome, string_bytes};
ghost use Rattle.jser_prim.specs.ModifiedUtf8.{utf16_units};
ghost use Rattle.jser_filter.specs.Filters.{AreSound};
ghost use Rattle.jser_filter.specs.Pieces.{pieces_of};
ghost use Rattle.jser_settings.specs.FileFaults.{file_fault_text};
ghost use Rattle.jser_settings.specs.Settings.{most_modules_bytes, Tells, TellsNoMemory, RanOut, TellsFilterFault, TellsModulesFault, FilterIsFaulty, IsFilterOf, IsTextOf, IsNoFilterText, FilterFileIsFaulty, IsTable, IsNotRead, ModulesAreFaulty};

use crate::file_fault::FileFault;
use crate::file_text::{FileTextFault, filter_text_of};
use crate::status::{tell_failure, tell_misuse, tell_misuse_of};
use crate::whole::{WholeFault, read_whole};
use jser_filter::{Filter, FilterCause, FilterFault, Modules, ModulesCause, ModulesFault};
use jser_prim::{Sink, Source};
use std::alloc::Global;
use std::str;

/// The filter of a text. Its table of modules is empty.
///
/// # Errors
///
/// The status, after its line was written to `faults`: 2 for a faulty text, with its first fault; 3 where memory ran
/// out.
pub fn filter_of<E: Sink>(alloc: Global, text: &str, faults: &mut E) -> Result<Filter, u8>
    ensures pieces { IfOk result (λ filter. filter.pieces ≡ pieces_of (utf16_units text.now)) }
    ensures modules { IfOk result (λ filter. filter.modules ≡ []) }
    ensures sound { OnOk result (AreSound (pieces_of (utf16_units text.now))) }
    ensures faulty { result ≡ Err 2 → FilterIsFaulty (pieces_of (utf16_units text.now)) (E.has_failed faults.new) (E.gone_out faults.old) (E.gone_out faults.new) }
    ensures failed { result ≡ Err 3 → TellsNoMemory (E.has_failed faults.new) (E.gone_out faults.old) (E.gone_out faults.new) }
    ensures quiet { OnOk result (faults.new ≡ faults.old) }
    ensures status { IfErr result (λ status. (status ≡ 2) ⊎ (status ≡ 3)) }
{
    match Filter::parse(alloc, text) {
        Ok(filter) => Ok(filter),
        Err(fault) => Err(tell_filter_fault(alloc, fault, faults)),
    }
}

/// Tells the fault of a filter's text, and returns its status.
fn tell_filter_fault<E: Sink>(alloc: Global, fault: FilterFault, faults: &mut E) -> u8
    ensures tells { result ≡ 2 → TellsFilterFault (E.has_failed faults.new) (E.gone_out faults.old) (E.gone_out faults.new) fault }
    ensures failed { result ≡ 3 → TellsNoMemory (E.has_failed faults.new) (E.gone_out faults.old) (E.gone_out faults.new) }
    ensures status { (result ≡ 2) ⊎ (result ≡ 3) }
{
    match fault.cause {
        FilterCause::OutOfMemory => tell_failure(faults, "out of memory\n"),
        _ => tell_misuse_of(faults, format!(in alloc; "{fault}\n")),
    }
}

/// The text of a filter that a file holds, as text of at most 2^24 bytes: that of its lines, joined by `;`. Of a line that
/// begins with `#` nothing is left but its place, so that pieces have the numbers that they have in this text.
///
/// # Errors
///
/// The status, after its line was written to `faults`: 2 for bytes that are no UTF-8, and for a faulty line, with the first; 3
/// where a read failed, there are more bytes, or memory ran out.
pub fn filter_text_in<R: Source, E: Sink>(
    alloc: Global,
    input: &mut R,
    faults: &mut E,
) -> Result<String, u8>
    ensures text { IfOk result (λ text. IfSome (R.to_come input.old) (λ bytes. IsTextOf bytes (string_bytes text))) }
    ensures faulty { result ≡ Err 2 → IfSome (R.to_come input.old) (λ bytes. IsNoFilterText bytes (E.has_failed faults.new) (E.gone_out faults.old) (E.gone_out faults.new)) }
    ensures failed { result ≡ Err 3 → IsNotRead (R.has_failed input.new) (R.to_come input.old) (E.has_failed faults.new) (E.gone_out faults.old) (E.gone_out faults.new) ⊎ RanOut (R.has_failed input.old) (R.has_failed input.new) (E.has_failed faults.new) (E.gone_out faults.old) (E.gone_out faults.new) }
    ensures unbroken { result ≢ Err 3 → R.has_failed input.new ≡ R.has_failed input.old }
    ensures short { result ≢ Err 3 → IfSome (R.to_come input.old) (λ bytes. length bytes ≤ most_modules_bytes) }
    ensures quiet { OnOk result (faults.new ≡ faults.old) }
    ensures status { IfErr result (λ status. (status ≡ 2) ⊎ (status ≡ 3)) }
{
    match read_whole(alloc, input) {
        Ok(bytes) => text_of_bytes(alloc, &bytes, faults),
        Err(WholeFault::OutOfMemory) => Err(tell_failure(faults, "out of memory\n")),
        Err(WholeFault::Failed) => Err(tell_failure(faults, "read failed\n")),
        Err(WholeFault::TooLong) => Err(tell_failure(faults, "read failed\n")),
    }
}

/// The text of a filter with these bytes.
fn text_of_bytes<E: Sink>(alloc: Global, bytes: &[u8], faults: &mut E) -> Result<String, u8>
    requires { length bytes.now ≤ most_modules_bytes }
    ensures text { IfOk result (λ text. IsTextOf bytes.now (string_bytes text)) }
    ensures faulty { result ≡ Err 2 → IsNoFilterText bytes.now (E.has_failed faults.new) (E.gone_out faults.old) (E.gone_out faults.new) }
    ensures failed { result ≡ Err 3 → TellsNoMemory (E.has_failed faults.new) (E.gone_out faults.old) (E.gone_out faults.new) }
    ensures quiet { OnOk result (faults.new ≡ faults.old) }
    ensures status { IfErr result (λ status. (status ≡ 2) ⊎ (status ≡ 3)) }
{
    match filter_text_of(alloc, bytes) {
        Ok(text) => Ok(text),
        Err(FileTextFault::NoText) => Err(tell_misuse(faults, "filter file is not text\n")),
        Err(FileTextFault::Faulty(fault)) => Err(tell_file_fault(alloc, fault, faults)),
        Err(FileTextFault::OutOfMemory) => Err(tell_failure(faults, "out of memory\n")),
    }
}

/// Tells the faulty line of a filter's file, and returns its status.
fn tell_file_fault<E: Sink>(alloc: Global, fault: FileFault, faults: &mut E) -> u8
    ensures tells { result ≡ 2 → Tells (E.has_failed faults.new) (E.gone_out faults.old) (E.gone_out faults.new) (file_fault_text fault ++ codes "\n") }
    ensures failed { result ≡ 3 → TellsNoMemory (E.has_failed faults.new) (E.gone_out faults.old) (E.gone_out faults.new) }
    ensures status { (result ≡ 2) ⊎ (result ≡ 3) }
{
    tell_misuse_of(faults, format!(in alloc; "{fault}\n"))
}

/// The filter that a file holds, of the text that `filter_text_in` reads. Its table of modules is empty.
///
/// # Errors
///
/// The status, after its line was written to `faults`: 2 for bytes that are no UTF-8, for a faulty line, and for a faulty text,
/// with its first fault; 3 where a read failed, there are more bytes, or memory ran out.
#[tactic(auto, using(crate::proofs::FilterFileLemmas::filter_of_text, crate::proofs::FilterFileLemmas::text_is_faulty))]
pub fn filter_in<R: Source, E: Sink>(
    alloc: Global,
    input: &mut R,
    faults: &mut E,
) -> Result<Filter, u8>
    ensures filter { IfOk result (λ filter. IfSome (R.to_come input.old) (λ bytes. IsFilterOf bytes filter)) }
    ensures faulty { result ≡ Err 2 → IfSome (R.to_come input.old) (λ bytes. FilterFileIsFaulty bytes (E.has_failed faults.new) (E.gone_out faults.old) (E.gone_out faults.new)) }
    ensures failed { result ≡ Err 3 → IsNotRead (R.has_failed input.new) (R.to_come input.old) (E.has_failed faults.new) (E.gone_out faults.old) (E.gone_out faults.new) ⊎ RanOut (R.has_failed input.old) (R.has_failed input.new) (E.has_failed faults.new) (E.gone_out faults.old) (E.gone_out faults.new) }
    ensures unbroken { result ≢ Err 3 → R.has_failed input.new ≡ R.has_failed input.old }
    ensures short { result ≢ Err 3 → IfSome (R.to_come input.old) (λ bytes. length bytes ≤ most_modules_bytes) }
    ensures quiet { OnOk result (faults.new ≡ faults.old) }
    ensures status { IfErr result (λ status. (status ≡ 2) ⊎ (status ≡ 3)) }
{
    match filter_text_in(alloc, input, faults) {
        Ok(text) => filter_of(alloc, text.as_str(), faults),
        Err(status) => Err(status),
    }
}

/// The table of modules that a file holds, as text of at most 2^24 bytes.
///
/// # Errors
///
/// The status, after its line was written to `faults`: 2 for bytes that are no UTF-8, and for a faulty line, with the
/// first; 3 where a read failed, there are more bytes, or memory ran out.
pub fn modules_of<R: Source, E: Sink>(
    alloc: Global,
    input: &mut R,
    faults: &mut E,
) -> Result<Modules, u8>
    ensures table { IfOk result (λ table. IfSome (R.to_come input.old) (λ bytes. IsTable bytes table)) }
    ensures faulty { result ≡ Err 2 → IfSome (R.to_come input.old) (λ bytes. ModulesAreFaulty bytes (E.has_failed faults.new) (E.gone_out faults.old) (E.gone_out faults.new)) }
    ensures failed { result ≡ Err 3 → IsNotRead (R.has_failed input.new) (R.to_come input.old) (E.has_failed faults.new) (E.gone_out faults.old) (E.gone_out faults.new) ⊎ RanOut (R.has_failed input.old) (R.has_failed input.new) (E.has_failed faults.new) (E.gone_out faults.old) (E.gone_out faults.new) }
    ensures unbroken { result ≢ Err 3 → R.has_failed input.new ≡ R.has_failed input.old }
    ensures short { result ≢ Err 3 → IfSome (R.to_come input.old) (λ bytes. length bytes ≤ most_modules_bytes) }
    ensures quiet { OnOk result (faults.new ≡ faults.old) }
    ensures status { IfErr result (λ status. (status ≡ 2) ⊎ (status ≡ 3)) }
{
    match read_whole(alloc, input) {
        Ok(bytes) => table_of(alloc, &bytes, faults),
        Err(WholeFault::OutOfMemory) => Err(tell_failure(faults, "out of memory\n")),
        Err(WholeFault::Failed) => Err(tell_failure(faults, "read failed\n")),
        Err(WholeFault::TooLong) => Err(tell_failure(faults, "read failed\n")),
    }
}

/// The table of modules of these bytes.
fn table_of<E: Sink>(alloc: Global, bytes: &[u8], faults: &mut E) -> Result<Modules, u8>
    requires { length bytes.now ≤ most_modules_bytes }
    ensures table { IfOk result (IsTable bytes.now) }
    ensures faulty { result ≡ Err 2 → ModulesAreFaulty bytes.now (E.has_failed faults.new) (E.gone_out faults.old) (E.gone_out faults.new) }
    ensures failed { result ≡ Err 3 → TellsNoMemory (E.has_failed faults.new) (E.gone_out faults.old) (E.gone_out faults.new) }
    ensures quiet { OnOk result (faults.new ≡ faults.old) }
    ensures status { IfErr result (λ status. (status ≡ 2) ⊎ (status ≡ 3)) }
{
    let Ok(text) = str::from_utf8(bytes) else {
        return Err(tell_misuse(faults, "modules file is not text\n"));
    };
    match Modules::parse(alloc, text) {
        Ok(table) => Ok(table),
        Err(fault) => Err(tell_modules_fault(alloc, fault, faults)),
    }
}

/// Tells the fault of a table of modules, and returns its status.
fn tell_modules_fault<E: Sink>(alloc: Global, fault: ModulesFault, faults: &mut E) -> u8
    ensures tells { result ≡ 2 → TellsModulesFault (E.has_failed faults.new) (E.gone_out faults.old) (E.gone_out faults.new) fault }
    ensures failed { result ≡ 3 → TellsNoMemory (E.has_failed faults.new) (E.gone_out faults.old) (E.gone_out faults.new) }
    ensures status { (result ≡ 2) ⊎ (result ≡ 3) }
{
    match fault.cause {
        ModulesCause::OutOfMemory => tell_failure(faults, "out of memory\n"),
        _ => tell_misuse_of(faults, format!(in alloc; "{fault}\n")),
    }
}
