//! Filters and tables of modules of jser_filter.

ghost use Rattle.std.specs.Prelude.{◌≢◌};
ghost use Rattle.jser_table.specs.Names.{element_of, malformed_element};

use jser_filter::{
    Filter, FilterCause, FilterFault, Limits, Modules, ModulesCause, ModulesFault, Verdict,
};
use std::alloc::Global;

/// A filter of this text over this table, or the faulty piece with the number of its cause.
pub fn filter(alloc: Global, text: &str, table: Modules) -> Result<Filter, (usize, u8)> {
    match Filter::parse(alloc, text) {
        Ok(filter) => Ok(filter.with_modules(table)),
        Err(FilterFault { pattern, cause }) => Err((
            pattern,
            match cause {
                FilterCause::UnknownLimit => 1,
                FilterCause::BadLimit => 2,
                FilterCause::ModuleMissing => 3,
                FilterCause::NameMissing => 4,
                FilterCause::PackageMissing => 5,
                FilterCause::OutOfMemory => 7,
            },
        )),
    }
}

/// A table of these lines, the empty one of none, or the faulty line with the number of its cause.
pub fn modules(alloc: Global, text: Option<&str>) -> Result<Modules, (usize, u8)> {
    let Some(text) = text else {
        return Ok(Modules::none(alloc));
    };
    match Modules::parse(alloc, text) {
        Ok(table) => Ok(table),
        Err(ModulesFault { line, cause }) => Err((
            line,
            match cause {
                ModulesCause::BadLine => 1,
                ModulesCause::PackageTwice => 2,
                ModulesCause::OutOfMemory => 3,
            },
        )),
    }
}

/// The module of a package.
pub fn module<'t>(table: &'t Modules, package: &[u16]) -> Option<&'t [u16]> {
    table.get(package)
}

/// The piece that decides of a name.
pub fn piece(filter: &Filter, name: &[u16]) -> Option<usize>
    requires { element_of name.now ≢ malformed_element }
{
    match filter.judge(name) {
        Verdict::Allowed(piece) => Some(piece),
        Verdict::Rejected(piece) => Some(piece),
        Verdict::Undecided => None,
        Verdict::NoClass => None,
    }
}

/// The limit on bytes and depth, on places and arrays.
pub fn limits(filter: &Filter) -> [Option<u64>; 4] {
    let Limits {
        depth,
        refs,
        bytes,
        array,
    } = filter.limits();
    [bytes, depth, refs, array]
}
