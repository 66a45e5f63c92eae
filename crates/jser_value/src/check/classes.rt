//! What a reference to a handle names, and the beginning of what an object or an enum constant says of its class.
ghost use Rattle.std.specs.Prelude.{◌≡◌, [], ◌+◌, ◌<◌, ◌≤◌, OnOk, length, IfOk, slice_get, IsTrue};
ghost use Rattle.jser_table.specs.Entries.{is_closed, chain_at, other_entry};
ghost use Rattle.jser_table.specs.Fits.{fits};
ghost use Rattle.jser_table.specs.declared.Purpose.TheVariants as purpose;
ghost use Rattle.jser_grammar.specs.Parts.{is_external};
ghost use Rattle.jser_grammar.specs.Spelling.{text_place_spelling};
ghost use Rattle.jser_grammar.specs.TableAfter.{add, after_text_place};
ghost use Rattle.jser_value.specs.PartTests.{obeys_back, obeys_back_to_class};
ghost use Rattle.jser_value.specs.Rooms.{HasRoomForOneMore, SpendsOneMore};
ghost use Rattle.jser_value.specs.Tests.{obeys_enum_constant, Judges, IsClassAt};
ghost use Rattle.jser_value.specs.View.{view_text_place};

use crate::check::fault::{Fault, assign, require};
use crate::check::texts::check_text_place;
use crate::handles::Handles;
use crate::layers::is_external;
use crate::parts::has_handle;
use crate::tree::TextPlace;
use jser_table::{Entry, Fit, Kind, Purpose, Table};

/// Whether a reference may have this number: a handle has it.
pub(crate) fn is_back(table: &Table, number: u32) -> bool
    ensures { result ≡ obeys_back table.now.entries number }
{
    number < table.count() && has_handle(number)
}

/// A reference to a class that has been read. Returns its number.
pub(crate) fn check_back_class(table: &mut Handles, number: u32) -> Result<u32, Fault>
    ensures judged { Judges result
        (obeys_back_to_class table.old.entries number)
        table.old.entries
        table.new.entries }
    ensures class { IfOk result (λ class. IsClassAt table.new.entries class (chain_at table.old.entries number)) }
    ensures spent { OnOk result (length table.new.entries ≤ length table.old.entries) }
{
    require(matches!(table.table().get(number), Some(Entry::Closed(_))) && has_handle(number))?;
    Ok(number)
}

/// Begins an object of this class, and tells whether the class is externalizable.
pub(crate) fn begin_object(table: &mut Handles, number: u32) -> Result<bool, Fault>
    requires closed { IsTrue (is_closed (slice_get table.old.entries number)) }
    requires room { length table.old.entries < 2147483648 }
    ensures judged { Judges result
        (fits purpose.Object (chain_at table.old.entries number))
        (add table.old.entries other_entry)
        table.new.entries }
    ensures external { IfOk result (λ external. external ≡ is_external (chain_at table.old.entries number)) }
    ensures spent { OnOk result (length table.new.entries ≤ length table.old.entries + 1) }
{
    require(table.table().fit(number, Purpose::Object) == Fit::Fits)?;
    let external = is_external(table.table(), number);
    assign(table, Kind::Other)?;
    Ok(external)
}

/// An enum constant of this class: its name.
pub(crate) fn check_enum_constant(
    table: &mut Handles,
    number: u32,
    name: &TextPlace,
) -> Result<(), Fault>
    requires closed { IsTrue (is_closed (slice_get table.old.entries number)) }
    requires room { HasRoomForOneMore table.old.entries (text_place_spelling (view_text_place name.now)) }
    ensures judged { Judges result
        (obeys_enum_constant table.old.entries (view_text_place name.now) (chain_at table.old.entries number))
        (after_text_place (add table.old.entries other_entry) (view_text_place name.now))
        table.new.entries }
    ensures spent { OnOk result (SpendsOneMore table.old.entries (text_place_spelling (view_text_place name.now)) table.new.entries []) }
{
    require(table.table().fit(number, Purpose::EnumConst) == Fit::Fits)?;
    assign(table, Kind::Other)?;
    check_text_place(table, name)
}
