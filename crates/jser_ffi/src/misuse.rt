//! The answers where a filter's text or file or a table of modules is faulty.
ghost use Rattle.std.specs.Prelude.{◌≡◌, ◌≢◌, ◌⊎◌};
ghost use Rattle.jser_filter.specs.declared.FilterCause.TheVariants as cause;
ghost use Rattle.jser_filter.specs.declared.ModulesCause.TheVariants as line;
ghost use Rattle.jser_ffi.specs.Compiling.{file_cause_number, filter_cause_number, modules_cause_number};
ghost use Rattle.jser_ffi.specs.Told.{Zeros};

use crate::answer::{Answer, NO_MEMORY, bare, misuse};
use jser_filter::{FilterCause, FilterFault, ModulesCause, ModulesFault};
use jser_settings::{FileCause, FileFault};

/// The cause that the bytes of a filter are no text, by its number in `include/serialcheck.h`.
pub(crate) const FILTER_IS_NO_TEXT: u32 = 6;
/// The cause that the bytes of a table of modules are no text.
pub(crate) const MODULES_ARE_NO_TEXT: u32 = 9;
/// The cause that the bytes of a filter's file are no text.
pub(crate) const FILE_IS_NO_TEXT: u32 = 14;
/// The cause that a filter has no pattern, where one is wanted.
pub(crate) const NO_PATTERN: u32 = 15;
/// The cause that a flag is set that there is not.
pub(crate) const UNKNOWN_FLAG: u32 = 10;

/// The answer of a faulty piece of a filter.
pub(crate) fn filter_answer(fault: FilterFault) -> Answer
    ensures told { result.status ≡ 2 → (fault.cause ≢ cause.OutOfMemory) × (result.reason ≡ filter_cause_number fault.cause) × (result.from_byte ≡ fault.pattern) }
    ensures known { (result.status ≡ 2) ⊎ (result.status ≡ 3) }
    ensures zeros { Zeros result }
{
    let place = fault.pattern as u64;
    match fault.cause {
        FilterCause::UnknownLimit => misuse(1, place),
        FilterCause::BadLimit => misuse(2, place),
        FilterCause::ModuleMissing => misuse(3, place),
        FilterCause::NameMissing => misuse(4, place),
        FilterCause::PackageMissing => misuse(5, place),
        FilterCause::OutOfMemory => bare(NO_MEMORY),
    }
}

/// The answer of a faulty line of a filter's file.
pub(crate) fn file_answer(fault: FileFault) -> Answer
    ensures status { result.status ≡ 2 }
    ensures reason { result.reason ≡ file_cause_number fault.cause }
    ensures place { result.from_byte ≡ fault.line }
    ensures zeros { Zeros result }
{
    let place = fault.line as u64;
    match fault.cause {
        FileCause::ByteOrderMark => misuse(11, place),
        FileCause::NumberSign => misuse(12, place),
        FileCause::WhiteSpace => misuse(13, place),
    }
}

/// The answer of a faulty line of a table of modules.
pub(crate) fn modules_answer(fault: ModulesFault) -> Answer
    ensures told { result.status ≡ 2 → (fault.cause ≢ line.OutOfMemory) × (result.reason ≡ modules_cause_number fault.cause) × (result.from_byte ≡ fault.line) }
    ensures known { (result.status ≡ 2) ⊎ (result.status ≡ 3) }
    ensures zeros { Zeros result }
{
    let place = fault.line as u64;
    match fault.cause {
        ModulesCause::BadLine => misuse(7, place),
        ModulesCause::PackageTwice => misuse(8, place),
        ModulesCause::OutOfMemory => bare(NO_MEMORY),
    }
}
