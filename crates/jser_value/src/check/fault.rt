//! What the check tells of a part of a tree: why it did not pass.
ghost use Rattle.std.specs.Prelude.{◌≡◌, ◌+◌, ◌<◌, ◌≤◌, OnOk, length, true, IfOk, MatchBool, Ok, Err};
ghost use Rattle.jser_table.specs.Tables.{new_entry};
ghost use Rattle.jser_grammar.specs.TableAfter.{add};
ghost use Rattle.jser_value.specs.Tests.{Judges};

use crate::handles::Handles;
use jser_table::Kind;

/// Why a tree did not pass.
#[derive(Clone, Copy)]
pub(crate) enum Fault {
    /// It does not obey the format.
    NotRight,
    /// There was no memory for a handle.
    OutOfMemory,
}

/// Adds a handle, and returns its number.
pub(crate) fn assign(table: &mut Handles, kind: Kind) -> Result<u32, Fault>
    requires room { length table.old.entries < 2147483648 }
    ensures judged { Judges result true (add table.old.entries (new_entry kind)) table.new.entries }
    ensures number { IfOk result (λ number. number ≡ length table.old.entries) }
    ensures spent { OnOk result (length table.new.entries ≤ length table.old.entries + 1) }
{
    match table.assign(kind) {
        Ok(number) => Ok(number),
        Err(_) => Err(Fault::OutOfMemory),
    }
}

/// Passes where this holds.
pub(crate) fn require(holds: bool) -> Result<(), Fault>
    ensures { MatchBool holds (result ≡ Ok record {}) (result ≡ Err Fault.NotRight) }
{
    if holds { Ok(()) } else { Err(Fault::NotRight) }
}
