//! What is wrong with a text, for the operator who wrote it.
ghost use Rattle.std.specs.Prelude.{◌≡◌, IfOk, IfSome, string_bytes};
ghost use Rattle.jser_prim.specs.ModifiedUtf8.{utf16_units};
ghost use Rattle.jser_filter.specs.Faults.{fault_text, modules_fault_text};
ghost use Rattle.jser_filter.specs.Filters.{IsFirstFault, AreSound};
ghost use Rattle.jser_filter.specs.Pieces.{pieces_of};
ghost use Rattle.jser_filter.specs.Tables.{lines_of, NoFaultBefore, IsFirstLineFault};

use jser_filter::{Filter, FilterFault, Modules, ModulesFault};
use std::alloc::{AllocError, Global};

/// The first faulty piece of a filter's text, if there is one or memory ran out.
pub fn faulty_piece(alloc: Global, text: &str) -> Option<FilterFault>
    ensures { IfSome result (IsFirstFault (pieces_of (utf16_units text.now))) }
{
    match Filter::parse(alloc, text) {
        Ok(_) => None,
        Err(fault) => Some(fault),
    }
}

/// How many lines of a table, from the first on, can be kept as they are, where not all can.
pub fn sound_lines(alloc: Global, table: &str) -> Option<usize>
    ensures { IfSome result (NoFaultBefore (lines_of (utf16_units table.now))) }
{
    match Modules::parse(alloc, table) {
        Ok(_) => None,
        Err(fault) => Some(fault.line),
    }
}

/// The line of a log for a faulty filter.
///
/// # Errors
///
/// `AllocError` where there was no memory for the line.
pub fn filter_line(alloc: Global, fault: FilterFault) -> Result<String, AllocError>
    ensures { IfOk result (λ line. string_bytes line ≡ fault_text fault) }
{
    fault.to_string(alloc)
}

/// The line of a log for a faulty table of modules.
///
/// # Errors
///
/// `AllocError` where there was no memory for the line.
pub fn modules_line(alloc: Global, told: ModulesFault) -> Result<String, AllocError>
    ensures { IfOk result (λ line. string_bytes line ≡ modules_fault_text told) }
{
    told.to_string(alloc)
}
