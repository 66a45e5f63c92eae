//! The check of texts and of the fields of a descriptor.
ghost use Rattle.std.specs.Prelude.{◌≡◌, [], ◌≤◌, OnOk, map, length, false, option_map};
ghost use Rattle.jser_grammar.specs.TableAfter.{after_text_place, after_type, after_fields};
ghost use Rattle.jser_grammar.specs.Spelling.{text_place_spelling, type_spelling, fields_spelling};
ghost use Rattle.jser_value.specs.PartTests.{obeys_text_place, obeys_type, obeys_fields};
ghost use Rattle.jser_value.specs.Rooms.{HasRoom, Spends};
ghost use Rattle.jser_value.specs.Tests.{Judges};
ghost use Rattle.jser_value.specs.View.{view_text_place, view_field};

use crate::check::fault::{Fault, assign, require};
use crate::handles::Handles;
use crate::parts::{has_handle, is_object, is_primitive, is_text};
use crate::tree::{Field, TextPlace};
use jser_table::{Entry, Kind};

/// A text place: a new string, or a reference to one.
pub(crate) fn check_text_place(table: &mut Handles, place: &TextPlace) -> Result<(), Fault>
    requires room { HasRoom table.old.entries (text_place_spelling (view_text_place place.now)) }
    ensures judged { Judges result
        (obeys_text_place table.old.entries (view_text_place place.now))
        (after_text_place table.old.entries (view_text_place place.now))
        table.new.entries }
    ensures spent { OnOk result (Spends table.old.entries (text_place_spelling (view_text_place place.now)) table.new.entries []) }
{
    match place {
        TextPlace::New(text) => {
            require(is_text(text.long, &text.units))?;
            assign(table, Kind::Text)?;
        }
        TextPlace::Back(number) => {
            require(
                matches!(table.table().get(*number), Some(Entry::Text)) && has_handle(*number),
            )?;
        }
    }
    Ok(())
}

/// The type of a field, where there is one. `seen` tells of an object field before it.
fn check_type(table: &mut Handles, seen: bool, field: &Field) -> Result<(), Fault>
    requires room { HasRoom table.old.entries (type_spelling (option_map view_text_place field.now.text)) }
    ensures judged { Judges result
        (obeys_type table.old.entries seen field.now.code (option_map view_text_place field.now.text))
        (after_type table.old.entries (option_map view_text_place field.now.text))
        table.new.entries }
    ensures spent { OnOk result (Spends table.old.entries (type_spelling (option_map view_text_place field.now.text)) table.new.entries []) }
{
    match &field.text {
        None => require(is_primitive(field.code) && !seen),
        Some(place) => {
            require(is_object(field.code))?;
            check_text_place(table, place)
        }
    }
}

/// The fields of a descriptor.
pub(crate) fn check_fields(table: &mut Handles, fields: &[Field]) -> Result<(), Fault>
    requires room { HasRoom table.old.entries (fields_spelling (map view_field fields.now)) }
    ensures judged { Judges result
        (obeys_fields table.old.entries false (map view_field fields.now))
        (after_fields table.old.entries (map view_field fields.now))
        table.new.entries }
    ensures spent { OnOk result (Spends table.old.entries (fields_spelling (map view_field fields.now)) table.new.entries []) }
{
    let mut seen = false;
    'fields: for field in fields {
        require(is_text(false, &field.name))?;
        check_type(table, seen, field)?;
        seen = seen || is_object(field.code);
    }
    Ok(())
}
