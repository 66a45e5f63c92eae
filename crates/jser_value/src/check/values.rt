//! The check of a value and of all that stands in it, with a function for each type of the tree. Recursion goes as
//! deep as the tree, which the caller bounds.
ghost use Rattle.std.specs.Prelude.{◌≡◌, [], ◌∷◌, ◌<◌, ◌≤◌, OnOk, length, IfOk, slice_get, IsTrue};
ghost use Rattle.jser_table.specs.Entries.{is_closed, chain_at, other_entry};
ghost use Rattle.jser_grammar.specs.Trees.{value_body};
ghost use Rattle.jser_grammar.specs.Spelling.{value_spelling, desc_spelling, class_spelling, body_spelling, values_spelling, sections_spelling, annotation_spelling};
ghost use Rattle.jser_grammar.specs.TableAfter.{add, after_value, after_desc, after_class, after_body, after_values, after_sections, after_contents, chain_of_class, chain_of_desc};
ghost use Rattle.jser_value.specs.Rooms.{HasRoom, HasRoomForOneMore, Spends, SpendsOneMore};
ghost use Rattle.jser_value.specs.Tests.{obeys_value, obeys_desc, obeys_class, obeys_superclass, obeys_body, obeys_values, obeys_external, obeys_sections, obeys_notes, obeys_array, obeys_object, obeys_section_at, obeys_held, obeys_alone, after_section, Judges, IsClassAt, IsParentAt};
ghost use Rattle.jser_value.specs.View.{view_value, view_desc, view_class_place, view_body, view_values, view_section, view_sections, view_contents};

use crate::check::classes::{begin_object, check_back_class, check_enum_constant, is_back};
use crate::check::descriptors::{begin_plain, end_plain};
use crate::check::fault::{Fault, assign, require};
use crate::check::layers::is_section_at;
use crate::handles::Handles;
use crate::layers::{element_code, proxy_layer};
use crate::parts::{are_elements, are_interfaces, are_value_elements, is_bare, is_block, is_text};
use crate::tree::{Body, ClassPlace, Content, Desc, Section, Value};
use jser_table::{Fit, Kind, Purpose};
use std::alloc::Global;

/// A value.
#[cycle(check)]
pub(crate) fn check_value(alloc: Global, table: &mut Handles, value: &Value) -> Result<(), Fault>
    requires room { HasRoom table.old.entries (value_spelling (view_value value.now)) }
    ensures judged { Judges result
        (obeys_value table.old.entries (view_value value.now))
        (after_value table.old.entries (view_value value.now))
        table.new.entries }
    ensures spent { OnOk result (Spends table.old.entries (value_spelling (view_value value.now)) table.new.entries []) }
{
    match value {
        Value::Null => {}
        Value::Back(number) => require(is_back(table.table(), *number))?,
        Value::Text(text) => {
            require(is_text(text.long, &text.units))?;
            assign(table, Kind::Text)?;
        }
        Value::Desc(desc) => {
            check_desc(alloc, table, desc)?;
        }
        Value::ClassObject(descr) => {
            check_class(alloc, table, descr)?;
            assign(table, Kind::Other)?;
        }
        Value::Array { descr, body } => {
            let number = check_class(alloc, table, descr)?;
            check_array(alloc, table, number, body)?;
        }
        Value::EnumConst { descr, name } => {
            let number = check_class(alloc, table, descr)?;
            check_enum_constant(table, number, name)?;
        }
        Value::Object { descr, sections } => {
            let number = check_class(alloc, table, descr)?;
            check_object(alloc, table, number, sections)?;
        }
    }
    Ok(())
}

/// An array of this class: elements of the kind that the class says.
#[cycle(check)]
fn check_array(alloc: Global, table: &mut Handles, number: u32, body: &Body) -> Result<(), Fault>
    requires closed { IsTrue (is_closed (slice_get table.old.entries number)) }
    requires room { HasRoomForOneMore table.old.entries (body_spelling (view_body body.now)) }
    ensures judged { Judges result
        (obeys_array table.old.entries (view_body body.now) (chain_at table.old.entries number))
        (after_body (add table.old.entries other_entry) (view_body body.now))
        table.new.entries }
    ensures spent { OnOk result (SpendsOneMore table.old.entries (body_spelling (view_body body.now)) table.new.entries []) }
{
    require(table.table().fit(number, Purpose::Array) == Fit::Fits)?;
    let code = element_code(table.table(), number);
    assign(table, Kind::Other)?;
    check_body(alloc, table, body, code)
}

/// An object of this class: what the classes of its chain wrote.
#[cycle(check)]
#[tactic(auto, using(crate::proofs::KeepLemmas::class_behind_add))]
fn check_object(
    alloc: Global,
    table: &mut Handles,
    number: u32,
    sections: &Vec<Section>,
) -> Result<(), Fault>
    requires closed { IsTrue (is_closed (slice_get table.old.entries number)) }
    requires room { HasRoomForOneMore table.old.entries (sections_spelling (view_sections sections.now.items)) }
    ensures judged { Judges result
        (obeys_object table.old.entries (view_sections sections.now.items) (chain_at table.old.entries number))
        (after_sections (add table.old.entries other_entry) (view_sections sections.now.items))
        table.new.entries }
    ensures spent { OnOk result (SpendsOneMore table.old.entries (sections_spelling (view_sections sections.now.items)) table.new.entries []) }
{
    if begin_object(table, number)? {
        check_external(alloc, table, sections)
    } else {
        check_sections(alloc, table, number, sections)
    }
}

/// A new descriptor. Gives its number.
#[cycle(check)]
#[tactic(auto, using(crate::proofs::KeepLemmas::pending_plain, crate::proofs::KeepLemmas::pending_proxy))]
fn check_desc(alloc: Global, table: &mut Handles, desc: &Desc) -> Result<u32, Fault>
    requires room { HasRoom table.old.entries (desc_spelling (view_desc desc.now)) }
    ensures judged { Judges result
        (obeys_desc table.old.entries (view_desc desc.now))
        (after_desc table.old.entries (view_desc desc.now))
        table.new.entries }
    ensures class { IfOk result (λ number. IsClassAt table.new.entries number (chain_of_desc table.old.entries (view_desc desc.now))) }
    ensures spent { OnOk result (Spends table.old.entries (desc_spelling (view_desc desc.now)) table.new.entries []) }
{
    match desc {
        Desc::Plain {
            name,
            suid,
            flags,
            fields,
            notes,
            parent,
        } => {
            let number = begin_plain(table, name, *suid, *flags, fields)?;
            check_notes(alloc, table, notes)?;
            let above = check_superclass(alloc, table, parent)?;
            end_plain(alloc, table, number, name, *flags, fields, above)?;
            Ok(number)
        }
        Desc::Proxy {
            interfaces,
            notes,
            parent,
        } => {
            let number = assign(table, Kind::Pending)?;
            require(are_interfaces(interfaces))?;
            check_notes(alloc, table, notes)?;
            let above = check_superclass(alloc, table, parent)?;
            table.close(number, proxy_layer(alloc), above);
            Ok(number)
        }
    }
}

/// A superclass place. Returns the number of the class, if there is one.
#[cycle(check)]
fn check_superclass(
    alloc: Global,
    table: &mut Handles,
    parent: &ClassPlace,
) -> Result<Option<u32>, Fault>
    requires room { HasRoom table.old.entries (class_spelling (view_class_place parent.now)) }
    ensures judged { Judges result
        (obeys_superclass table.old.entries (view_class_place parent.now))
        (after_class table.old.entries (view_class_place parent.now))
        table.new.entries }
    ensures parent { IfOk result (IsParentAt table.new.entries (chain_of_class table.old.entries (view_class_place parent.now))) }
    ensures spent { OnOk result (Spends table.old.entries (class_spelling (view_class_place parent.now)) table.new.entries []) }
{
    match parent {
        ClassPlace::New(desc) => Ok(Some(check_desc(alloc, table, desc)?)),
        ClassPlace::Back(number) => Ok(Some(check_back_class(table, *number)?)),
        ClassPlace::Null => Ok(None),
    }
}

/// A class place. Returns the number of the class.
#[cycle(check)]
fn check_class(alloc: Global, table: &mut Handles, descr: &ClassPlace) -> Result<u32, Fault>
    requires room { HasRoom table.old.entries (class_spelling (view_class_place descr.now)) }
    ensures judged { Judges result
        (obeys_class table.old.entries (view_class_place descr.now))
        (after_class table.old.entries (view_class_place descr.now))
        table.new.entries }
    ensures class { IfOk result (λ number. IsClassAt table.new.entries number (chain_of_class table.old.entries (view_class_place descr.now))) }
    ensures spent { OnOk result (Spends table.old.entries (class_spelling (view_class_place descr.now)) table.new.entries []) }
{
    match descr {
        ClassPlace::New(desc) => check_desc(alloc, table, desc),
        ClassPlace::Back(number) => check_back_class(table, *number),
        ClassPlace::Null => Err(Fault::NotRight),
    }
}

/// The elements of an array: raw values of the type with this code, or values where there is none.
#[cycle(check)]
fn check_body(
    alloc: Global,
    table: &mut Handles,
    body: &Body,
    code: Option<u8>,
) -> Result<(), Fault>
    requires room { HasRoom table.old.entries (body_spelling (view_body body.now)) }
    ensures judged { Judges result
        (obeys_body table.old.entries (view_body body.now) code)
        (after_body table.old.entries (view_body body.now))
        table.new.entries }
    ensures spent { OnOk result (Spends table.old.entries (body_spelling (view_body body.now)) table.new.entries []) }
{
    match body {
        Body::Prims(prims) => require(are_elements(code, prims)),
        Body::Values(values) => check_elements(alloc, table, code, values),
    }
}

/// The values that are an array's elements.
#[cycle(check)]
#[tactic(auto, using(crate::proofs::CheckLemmas::value_count_of))]
fn check_elements(
    alloc: Global,
    table: &mut Handles,
    code: Option<u8>,
    values: &[Value],
) -> Result<(), Fault>
    requires room { HasRoom table.old.entries (values_spelling (view_values values.now)) }
    ensures judged { Judges result
        (obeys_body table.old.entries (value_body (view_values values.now)) code)
        (after_values table.old.entries (view_values values.now))
        table.new.entries }
    ensures spent { OnOk result (Spends table.old.entries (values_spelling (view_values values.now)) table.new.entries []) }
{
    require(are_value_elements(code, values))?;
    check_values(alloc, table, values)
}

/// Values, one after the other.
#[cycle(check)]
fn check_values(alloc: Global, table: &mut Handles, values: &[Value]) -> Result<(), Fault>
    requires room { HasRoom table.old.entries (values_spelling (view_values values.now)) }
    ensures judged { Judges result
        (obeys_values table.old.entries (view_values values.now))
        (after_values table.old.entries (view_values values.now))
        table.new.entries }
    ensures spent { OnOk result (Spends table.old.entries (values_spelling (view_values values.now)) table.new.entries []) }
{
    'values: for value in values {
        check_value(alloc, table, value)?;
    }
    Ok(())
}

/// What an externalizable class wrote: one section, of an annotation alone.
#[cycle(check)]
#[tactic(auto, using(crate::proofs::CheckLemmas::only_section, crate::proofs::CheckLemmas::more_sections))]
fn check_external(alloc: Global, table: &mut Handles, sections: &Vec<Section>) -> Result<(), Fault>
    requires room { HasRoom table.old.entries (sections_spelling (view_sections sections.now.items)) }
    ensures judged { Judges result
        (obeys_external table.old.entries (view_sections sections.now.items))
        (after_sections table.old.entries (view_sections sections.now.items))
        table.new.entries }
    ensures spent { OnOk result (Spends table.old.entries (sections_spelling (view_sections sections.now.items)) table.new.entries []) }
{
    match sections.as_slice() {
        [section] => check_alone(alloc, table, section),
        _ => Err(Fault::NotRight),
    }
}

/// An annotation alone.
#[cycle(check)]
#[tactic(auto, using(crate::proofs::CheckLemmas::after_bare))]
fn check_alone(alloc: Global, table: &mut Handles, section: &Section) -> Result<(), Fault>
    requires room { HasRoom table.old.entries (sections_spelling (view_sections (section.now ∷ []))) }
    ensures judged { Judges result
        (obeys_alone table.old.entries (view_section section.now))
        (after_section table.old.entries (view_section section.now))
        table.new.entries }
    ensures spent { OnOk result (Spends table.old.entries (sections_spelling (view_sections (section.now ∷ []))) table.new.entries []) }
{
    require(is_bare(section))?;
    match &section.notes {
        None => Err(Fault::NotRight),
        Some(notes) => check_notes(alloc, table, notes),
    }
}

/// What the classes of a chain wrote: one section for each, the highest superclass first.
#[cycle(check)]
#[tactic(auto, using(crate::proofs::CheckLemmas::as_many_sections, crate::proofs::CheckLemmas::sections_failed, crate::proofs::CheckLemmas::sections_next))]
fn check_sections(
    alloc: Global,
    table: &mut Handles,
    number: u32,
    sections: &Vec<Section>,
) -> Result<(), Fault>
    requires closed { IsTrue (is_closed (slice_get table.old.entries number)) }
    requires room { HasRoom table.old.entries (sections_spelling (view_sections sections.now.items)) }
    ensures judged { Judges result
        (obeys_sections table.old.entries (view_sections sections.now.items) (chain_at table.old.entries number))
        (after_sections table.old.entries (view_sections sections.now.items))
        table.new.entries }
    ensures spent { OnOk result (Spends table.old.entries (sections_spelling (view_sections sections.now.items)) table.new.entries []) }
{
    require(sections.len() == table.table().layers(number))?;
    'sections: for (index, section) in sections.iter().enumerate() {
        check_section(alloc, table, number, index, section)?;
    }
    Ok(())
}

/// What the class at this index of a chain wrote.
#[cycle(check)]
fn check_section(
    alloc: Global,
    table: &mut Handles,
    number: u32,
    index: usize,
    section: &Section,
) -> Result<(), Fault>
    requires closed { IsTrue (is_closed (slice_get table.old.entries number)) }
    requires index { index < length (chain_at table.old.entries number) }
    requires room { HasRoom table.old.entries (sections_spelling (view_sections (section.now ∷ []))) }
    ensures judged { Judges result
        (obeys_section_at table.old.entries (view_section section.now) (slice_get (chain_at table.old.entries number) index))
        (after_section table.old.entries (view_section section.now))
        table.new.entries }
    ensures spent { OnOk result (Spends table.old.entries (sections_spelling (view_sections (section.now ∷ []))) table.new.entries []) }
{
    require(is_section_at(table.table(), number, index, section))?;
    check_held(alloc, table, section)
}

/// What a section holds: its values, and then what its annotation holds, if there is one.
#[cycle(check)]
fn check_held(alloc: Global, table: &mut Handles, section: &Section) -> Result<(), Fault>
    requires room { HasRoom table.old.entries (sections_spelling (view_sections (section.now ∷ []))) }
    ensures judged { Judges result
        (obeys_held table.old.entries (view_section section.now))
        (after_section table.old.entries (view_section section.now))
        table.new.entries }
    ensures spent { OnOk result (Spends table.old.entries (sections_spelling (view_sections (section.now ∷ []))) table.new.entries []) }
{
    check_values(alloc, table, &section.values)?;
    match &section.notes {
        None => Ok(()),
        Some(notes) => check_notes(alloc, table, notes),
    }
}

/// The contents of an annotation: no reset stands there.
#[cycle(check)]
fn check_notes(alloc: Global, table: &mut Handles, notes: &[Content]) -> Result<(), Fault>
    requires room { HasRoom table.old.entries (annotation_spelling (view_contents notes.now)) }
    ensures judged { Judges result
        (obeys_notes table.old.entries (view_contents notes.now))
        (after_contents table.old.entries (view_contents notes.now))
        table.new.entries }
    ensures spent { OnOk result (Spends table.old.entries (annotation_spelling (view_contents notes.now)) table.new.entries []) }
{
    'notes: for content in notes {
        match content {
            Content::Block { long, bytes } => require(is_block(*long, bytes))?,
            Content::Reset => return Err(Fault::NotRight),
            Content::Value(value) => check_value(alloc, table, value)?,
        }
    }
    Ok(())
}
