//! Handles, as a builder of trees assigns and looks them up.
ghost use Rattle.std.specs.Prelude.{◌≡◌, ◌<◌, ◌≤◌, ◌+◌, IfOk, IfErr, OnOk, length, slice_get};
ghost use Rattle.jser_table.specs.Entries.{is_closed};
ghost use Rattle.jser_table.specs.Tables.{new_entry};
ghost use Rattle.jser_grammar.specs.TableAfter.{add};

use crate::cursor::Fault;
use jser_table::{Entry, Kind, Table};
use jser_value::Handles;

/// Adds a handle, and returns its number.
pub(crate) fn assign(table: &mut Handles, kind: Kind) -> Result<u32, Fault>
    requires { length table.old.entries < 2147483648 }
    ensures added { OnOk result (table.new.entries ≡ add table.old.entries (new_entry kind)) }
    ensures number { IfOk result (λ number. number ≡ length table.old.entries) }
    ensures spent { OnOk result (length table.new.entries ≤ length table.old.entries + 1) }
    ensures memory { IfErr result (λ fault. fault ≡ Fault.OutOfMemory) }
{
    match table.assign(kind) {
        Ok(number) => Ok(number),
        Err(_) => Err(Fault::OutOfMemory),
    }
}

/// Whether the number is that of a class whose superclass place has been read.
pub(crate) fn is_class(table: &Table, number: u32) -> bool
    ensures { result ≡ is_closed (slice_get table.now.entries number) }
{
    matches!(table.get(number), Some(Entry::Closed(_)))
}
