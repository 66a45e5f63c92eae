//! The beginning and the end of a new descriptor: what stands around its annotation and its superclass place.
ghost use Rattle.std.specs.Prelude.{◌≡◌, ◌<◌, ◌≤◌, ◌^◌, ◌&&◌, [], OnOk, IfOk, IfErr, IsTrue, false, length, map, slice_get, slice_set};
ghost use Rattle.std.specs.Option.{ForSome};
ghost use Rattle.jser_table.specs.Entries.{is_closed, is_pending, pending_entry};
ghost use Rattle.jser_table.specs.Tables.{closed_under};
ghost use Rattle.jser_grammar.specs.Spelling.{fields_spelling};
ghost use Rattle.jser_grammar.specs.TableAfter.{add, after_fields, plain_layer};
ghost use Rattle.jser_value.specs.PartTests.{obeys_fields};
ghost use Rattle.jser_value.specs.Rooms.{HasRoomForOneMore, SpendsOneMore};
ghost use Rattle.jser_value.specs.Tests.{Judges, obeys_head};
ghost use Rattle.jser_value.specs.View.{view_field};

use crate::check::fault::{Fault, assign, require};
use crate::check::texts::check_fields;
use crate::handles::Handles;
use crate::layers::plain_layer;
use crate::parts::is_head;
use crate::tree::Field;
use jser_table::Kind;
use std::alloc::Global;

/// Begins a plain descriptor: its handle, its own data and its fields. Returns its number.
pub(crate) fn begin_plain(
    table: &mut Handles,
    name: &[u16],
    suid: u64,
    flags: u8,
    fields: &[Field],
) -> Result<u32, Fault>
    requires room { HasRoomForOneMore table.old.entries (fields_spelling (map view_field fields.now)) }
    ensures judged { Judges result
        (obeys_head name.now suid flags (map view_field fields.now) && obeys_fields (add table.old.entries pending_entry) false (map view_field fields.now))
        (after_fields (add table.old.entries pending_entry) (map view_field fields.now))
        table.new.entries }
    ensures number { IfOk result (λ number. number ≡ length table.old.entries) }
    ensures few { OnOk result (length fields.now < 2 ^ 15) }
    ensures spent { OnOk result (SpendsOneMore table.old.entries (fields_spelling (map view_field fields.now)) table.new.entries []) }
{
    let number = assign(table, Kind::Pending)?;
    require(is_head(name, suid, flags, fields))?;
    check_fields(table, fields)?;
    Ok(number)
}

/// Ends a plain descriptor, when its superclass place has been read.
pub(crate) fn end_plain(
    alloc: Global,
    table: &mut Handles,
    number: u32,
    name: &[u16],
    flags: u8,
    fields: &[Field],
    above: Option<u32>,
) -> Result<(), Fault>
    requires pending { IsTrue (is_pending (slice_get table.old.entries number)) }
    requires parent { ForSome above (λ p. IsTrue (is_closed (slice_get table.old.entries p))) }
    requires few { length fields.now < 2 ^ 15 }
    ensures closed { OnOk result (table.new.entries ≡ slice_set table.old.entries number (closed_under table.old.entries above (plain_layer name.now flags (map view_field fields.now)))) }
    ensures memory { IfErr result (λ fault. fault ≡ Fault.OutOfMemory) }
    ensures spent { OnOk result (length table.new.entries ≤ length table.old.entries) }
{
    match plain_layer(alloc, name, flags, fields) {
        Ok(layer) => {
            table.close(number, layer, above);
            Ok(())
        }
        Err(_) => Err(Fault::OutOfMemory),
    }
}
