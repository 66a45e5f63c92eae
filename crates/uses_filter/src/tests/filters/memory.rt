//! What is answered where memory runs out. `tools/refuse-allocations` runs these tests with each allocation
//! refused in turn, and reads the lines that they print.
use super::{fault_of, modules_fault_of};
use jser_filter::{FilterCause, FilterFault, ModulesCause, ModulesFault};
use std::test::Fail;

/// One piece of each kind. All but the limit and the empty one allocate.
const PIECES: &str = "a.B;c.*;d.**;e*;m/f.G;maxdepth=3;;!h.I";

/// Of these lines the second is empty.
const LINES: &str = "a=b\n\nc=d\ne=f";

/// Texts of filters, each with the number of its faulty piece.
const FAULTY_PIECES: [(&str, usize); 3] = [
    ("a;b;max=1", 2),
    ("a;b;m/c.*;!d*;max=1", 4),
    ("max=1", 0),
];

/// Tables of modules, each with the number of its faulty line.
const FAULTY_LINES: [(&str, usize); 2] = [("a=b\na=c", 1), ("a=b\nc=d\n\ne=f\na=g", 4)];

/// A refused allocation is reported at its piece, before the faulty one; otherwise the right fault is.
#[test]
fn out_of_memory_or_the_fault(rt: HostRuntime) {
    for (text, faulty) in &FAULTY_PIECES {
        match fault_of(rt.alloc(), text) {
            Some(FilterFault { pattern, cause }) if cause == FilterCause::OutOfMemory => {
                holds!(rt; pattern < *faulty || pattern == 0, text);
            }
            fault => {
                let wanted = FilterFault {
                    pattern: *faulty,
                    cause: FilterCause::UnknownLimit,
                };
                same!(rt; fault, Some(wanted), text);
            }
        }
    }
}

/// A refused allocation is reported at its line of a table of modules, before the faulty one; otherwise the right fault is.
#[test]
fn out_of_memory_or_the_faulty_line(rt: HostRuntime) {
    for (text, faulty) in &FAULTY_LINES {
        match modules_fault_of(rt.alloc(), text) {
            Some(ModulesFault { line, cause }) if cause == ModulesCause::OutOfMemory => {
                holds!(rt; line < *faulty, text);
            }
            fault => {
                let wanted = ModulesFault {
                    line: *faulty,
                    cause: ModulesCause::PackageTwice,
                };
                same!(rt; fault, Some(wanted), text);
            }
        }
    }
}

/// Prints the piece for which memory ran out.
#[test]
fn refused_piece(rt: HostRuntime) -> Result<(), Fail> {
    match fault_of(rt.alloc(), PIECES) {
        None => eprintln!(rt; "every piece was read")?,
        Some(fault) => {
            same!(rt; fault.cause, FilterCause::OutOfMemory);
            let piece = fault.pattern;
            eprintln!(rt; "refused at piece {piece}")?;
        }
    }
    Ok(())
}

/// Prints the line for which memory ran out.
#[test]
fn refused_line(rt: HostRuntime) -> Result<(), Fail> {
    match modules_fault_of(rt.alloc(), LINES) {
        None => eprintln!(rt; "every line was read")?,
        Some(fault) => {
            same!(rt; fault.cause, ModulesCause::OutOfMemory);
            let line = fault.line;
            eprintln!(rt; "refused at line {line}")?;
        }
    }
    Ok(())
}
