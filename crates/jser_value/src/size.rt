//! How many bytes a tree's spelling has, tested without a sum that may overflow: each function takes how
//! many bytes are left for a part, and gives how many are left behind it, or None where it has no room.
//!
//! One function for each type of the tree; the layouts are those of `specs/Spelling.antt`.
ghost use Rattle.std.specs.Prelude.{◌≡◌, length, map, [], ◌∷◌};
ghost use Rattle.std.specs.Option.{option_map};
ghost use Rattle.jser_prim.specs.ModifiedUtf8.{modified_utf8, unit_spelling};
ghost use Rattle.jser_value.specs.Rooms.{Leaves};
ghost use Rattle.jser_value.specs.View.{view_text, view_text_place, view_field, view_prim, view_value, view_desc, view_class_place, view_body, view_values, view_sections, view_contents, view_content};
ghost use Rattle.jser_grammar.specs.Spelling.{value_spelling, desc_spelling, class_spelling, body_spelling, values_spelling, sections_spelling, annotation_spelling, content_spelling, contents_spelling, string_spelling, text_place_spelling, type_spelling, fields_spelling, interfaces_spelling, prims_spelling, utf};

use crate::tree::{Body, ClassPlace, Content, Desc, Field, Raw, Section, Text, TextPlace, Value};

const TAG: u64 = 1;

/// A tag and a handle.
const REFERENCE: u64 = 5;

const SUID: u64 = 8;

const FLAGS: u64 = 1;

const FIELD_COUNT: u64 = 2;

/// The length of an array, the number of a proxy's interfaces.
const COUNT: u64 = 4;

/// How many bytes the spelling of a unit has.
#[tactic(auto, unfolding(jser_prim::specs::ModifiedUtf8::unit_spelling))]
fn unit_size(unit: u16) -> u64
    ensures { result ≡ length (unit_spelling unit) }
{
    match unit {
        0x0001..=0x007F => 1,
        0x0000..=0x07FF => 2,
        _ => 3,
    }
}

/// The modified UTF-8 of a text.
pub(crate) fn after_units(room: u64, units: &[u16]) -> Option<u64>
    ensures { Leaves room (length (modified_utf8 units.now)) result }
{
    let mut left = room;
    for unit in units {
        left = left.checked_sub(unit_size(*unit))?;
    }
    Some(left)
}

/// A text and its length in 2 bytes.
fn after_utf(room: u64, units: &[u16]) -> Option<u64>
    ensures { Leaves room (length (utf units.now)) result }
{
    after_units(room.checked_sub(2)?, units)
}

fn after_text(room: u64, text: &Text) -> Option<u64>
    ensures { Leaves room (length (string_spelling text.now.long text.now.units.items)) result }
{
    let length_size = if text.long { 8 } else { 2 };
    after_units(room.checked_sub(TAG + length_size)?, &text.units)
}

fn after_text_place(room: u64, place: &TextPlace) -> Option<u64>
    ensures { Leaves room (length (text_place_spelling (view_text_place place.now))) result }
{
    match place {
        TextPlace::New(text) => after_text(room, text),
        TextPlace::Back(_) => room.checked_sub(REFERENCE),
    }
}

/// A type code, the field's name and its type, where there is one.
fn after_field(room: u64, field: &Field) -> Option<u64>
    ensures { Leaves room (length (fields_spelling (view_field field.now ∷ []))) result }
{
    let left = after_utf(room.checked_sub(1)?, &field.name)?;
    match &field.text {
        None => Some(left),
        Some(place) => after_text_place(left, place),
    }
}

fn after_fields(room: u64, fields: &[Field]) -> Option<u64>
    ensures { Leaves room (length (fields_spelling (map view_field fields.now))) result }
{
    let mut left = room;
    for field in fields {
        left = after_field(left, field)?;
    }
    Some(left)
}

fn after_interfaces(room: u64, interfaces: &[Vec<u16>]) -> Option<u64>
    ensures { Leaves room (length (interfaces_spelling (map (λ name. name.items) interfaces.now))) result }
{
    let mut left = room;
    for name in interfaces {
        left = after_utf(left, name)?;
    }
    Some(left)
}

fn prim_size(prim: Raw) -> u64
    ensures { result ≡ length (prims_spelling (view_prim prim ∷ [])) }
{
    match prim {
        Raw::B(_) | Raw::Z(_) => 1,
        Raw::C(_) | Raw::S(_) => 2,
        Raw::F(_) | Raw::I(_) => 4,
        Raw::D(_) | Raw::J(_) => 8,
    }
}

fn after_prims(room: u64, prims: &[Raw]) -> Option<u64>
    ensures { Leaves room (length (prims_spelling (map view_prim prims.now))) result }
{
    let mut left = room;
    for prim in prims {
        left = left.checked_sub(prim_size(*prim))?;
    }
    Some(left)
}

/// A value.
#[cycle(size)]
fn after_value(room: u64, value: &Value) -> Option<u64>
    ensures { Leaves room (length (value_spelling (view_value value.now))) result }
{
    match value {
        Value::Null => room.checked_sub(TAG),
        Value::Back(_) => room.checked_sub(REFERENCE),
        Value::Text(text) => after_text(room, text),
        Value::Desc(desc) => after_desc(room, desc),
        Value::ClassObject(descr) => after_class(room.checked_sub(TAG)?, descr),
        Value::Array { descr, body } => {
            let left = after_class(room.checked_sub(TAG)?, descr)?;
            after_body(left, body)
        }
        Value::EnumConst { descr, name } => {
            let left = after_class(room.checked_sub(TAG)?, descr)?;
            after_text_place(left, name)
        }
        Value::Object { descr, sections } => {
            let left = after_class(room.checked_sub(TAG)?, descr)?;
            after_sections(left, sections)
        }
    }
}

/// A new descriptor: its tag, its own data, its annotation and its superclass.
#[cycle(size)]
fn after_desc(room: u64, desc: &Desc) -> Option<u64>
    ensures { Leaves room (length (desc_spelling (view_desc desc.now))) result }
{
    match desc {
        Desc::Plain {
            name,
            fields,
            notes,
            parent,
            ..
        } => {
            let left = after_utf(room.checked_sub(TAG)?, name)?;
            let left = after_fields(left.checked_sub(SUID + FLAGS + FIELD_COUNT)?, fields)?;
            after_class(after_notes(left, notes)?, parent)
        }
        Desc::Proxy {
            interfaces,
            notes,
            parent,
        } => {
            let left = after_interfaces(room.checked_sub(TAG + COUNT)?, interfaces)?;
            after_class(after_notes(left, notes)?, parent)
        }
    }
}

/// A class place.
#[cycle(size)]
fn after_class(room: u64, descr: &ClassPlace) -> Option<u64>
    ensures { Leaves room (length (class_spelling (view_class_place descr.now))) result }
{
    match descr {
        ClassPlace::New(desc) => after_desc(room, desc),
        ClassPlace::Back(_) => room.checked_sub(REFERENCE),
        ClassPlace::Null => room.checked_sub(TAG),
    }
}

/// The length of an array and its elements.
#[cycle(size)]
fn after_body(room: u64, body: &Body) -> Option<u64>
    ensures { Leaves room (length (body_spelling (view_body body.now))) result }
{
    let left = room.checked_sub(COUNT)?;
    match body {
        Body::Prims(prims) => after_prims(left, prims),
        Body::Values(values) => after_values(left, values),
    }
}

#[cycle(size)]
fn after_values(room: u64, values: &[Value]) -> Option<u64>
    ensures { Leaves room (length (values_spelling (view_values values.now))) result }
{
    let mut left = room;
    for value in values {
        left = after_value(left, value)?;
    }
    Some(left)
}

#[cycle(size)]
fn after_sections(room: u64, sections: &Vec<Section>) -> Option<u64>
    ensures { Leaves room (length (sections_spelling (view_sections sections.now.items))) result }
{
    let mut left = room;
    for section in sections {
        left = after_section(left, section)?;
    }
    Some(left)
}

#[cycle(size)]
fn after_section(room: u64, section: &Section) -> Option<u64>
    ensures { Leaves room (length (sections_spelling (view_sections (section.now ∷ [])))) result }
{
    let left = after_prims(room, &section.prims)?;
    let left = after_values(left, &section.values)?;
    match &section.notes {
        None => Some(left),
        Some(notes) => after_notes(left, notes),
    }
}

/// An annotation: its contents and its end.
#[cycle(size)]
#[tactic(auto, using(crate::proofs::SizeLemmas::length_annotation))]
fn after_notes(room: u64, notes: &[Content]) -> Option<u64>
    ensures { Leaves room (length (annotation_spelling (view_contents notes.now))) result }
{
    after_contents(room, notes)?.checked_sub(TAG)
}

/// Contents, of a stream or of an annotation.
#[cycle(size)]
pub(crate) fn after_contents(room: u64, contents: &[Content]) -> Option<u64>
    ensures { Leaves room (length (contents_spelling (view_contents contents.now))) result }
{
    let mut left = room;
    for content in contents {
        left = after_content(left, content)?;
    }
    Some(left)
}

/// Block data with its tag and its size, a reset, or a value.
#[cycle(size)]
fn after_content(room: u64, content: &Content) -> Option<u64>
    ensures { Leaves room (length (content_spelling (view_content content.now))) result }
{
    match content {
        Content::Block { long, bytes } => {
            let size_size = if *long { 4 } else { 1 };
            room.checked_sub(TAG + size_size)?
                .checked_sub(bytes.len() as u64)
        }
        Content::Reset => room.checked_sub(TAG),
        Content::Value(value) => after_value(room, value),
    }
}
