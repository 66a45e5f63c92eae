//! An operator's settings: a filter's text, a table of modules, and the limits of a service.
ghost use Rattle.std.specs.Prelude.{◌≡◌, ◌≤◌, [], IfOk, IfSome, OnOk};
ghost use Rattle.std.specs.Str.{bytes_eq};
ghost use Rattle.jser_prim.specs.ModifiedUtf8.{utf16_units};
ghost use Rattle.jser_filter.specs.Pieces.{pieces_of};
ghost use Rattle.jser_filter.specs.Filters.{AreSound, last_value, limits_of};
ghost use Rattle.jser_filter.specs.Tables.{module_of, lines_of, table_of, AreSoundLines};
ghost use Rattle.uses_filter.specs.Settings.{least, is_module};

use jser_filter::{Filter, FilterFault, Modules, ModulesFault};
use std::alloc::Global;

/// Why settings are not taken.
#[derive(Clone, Copy, PartialEq, Eq, Debug)]
pub enum SettingsFault {
    /// The filter's text has a fault.
    Filter(FilterFault),
    /// The table of modules has one.
    Modules(ModulesFault),
}

/// The filter of these two texts.
///
/// # Errors
///
/// The first fault of the filter's text, or else of the table.
pub fn load(alloc: Global, text: &str, table: &str) -> Result<Filter, SettingsFault>
    ensures pieces { IfOk result (λ filter. filter.pieces ≡ pieces_of (utf16_units text.now)) }
    ensures modules { IfOk result (λ filter. filter.modules ≡ table_of (lines_of (utf16_units table.now))) }
    ensures sound { OnOk result (AreSound (pieces_of (utf16_units text.now))) }
    ensures sound_table { OnOk result (AreSoundLines (lines_of (utf16_units table.now))) }
{
    let filter = match Filter::parse(alloc, text) {
        Ok(filter) => filter,
        Err(fault) => return Err(SettingsFault::Filter(fault)),
    };
    match Modules::parse(alloc, table) {
        Ok(modules) => Ok(filter.with_modules(modules)),
        Err(fault) => Err(SettingsFault::Modules(fault)),
    }
}

/// This filter, without its table of modules.
pub fn forget_modules(alloc: Global, filter: Filter) -> Filter
    ensures pieces { result.pieces ≡ filter.pieces }
    ensures modules { result.modules ≡ [] }
{
    filter.with_modules(Modules::none(alloc))
}

/// How deep a service reads: as deep as it can, and no deeper than its filter says.
pub fn depth_limit(filter: &Filter, own: u64) -> u64
    ensures { result ≡ least own (limits_of filter.now.pieces).depth }
{
    match filter.limits().depth {
        Some(depth) if depth < own => depth,
        _ => own,
    }
}

/// Whether the table puts the package into this module.
pub fn is_in_module(modules: &Modules, package: &[u16], module: &[u16]) -> bool
    ensures { result ≡ is_module «module».now (module_of modules.now «package».now) }
{
    match modules.get(package) {
        Some(found) => found == module,
        None => false,
    }
}
