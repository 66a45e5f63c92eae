//! How deep a tree goes, tested without going further down than it may. `specs/Counts.antt` says where a
//! place is one deeper; there `room`, how many levels are left, is one less.
ghost use Rattle.std.specs.Prelude.{suc, [], ◌∷◌};
ghost use Rattle.jser_grammar.specs.Counts.{depth_of_value, depth_in_desc, depth_in_class, depth_in_body, depth_in_values, depth_in_sections, depth_in_contents};
ghost use Rattle.jser_value.specs.Rooms.{FitsRoom};
ghost use Rattle.jser_value.specs.View.{view_value, view_desc, view_class_place, view_body, view_values, view_sections, view_contents};

use crate::tree::{Body, ClassPlace, Content, Desc, Section, Value};

/// Whether the value is at most `room` deep.
#[cycle(depth)]
fn value_within(value: &Value, room: u32) -> bool
    ensures { FitsRoom (depth_of_value (view_value value.now)) room result }
{
    if room == 0 {
        return false;
    }
    let room = room - 1;
    match value {
        Value::Null | Value::Back(_) | Value::Text(_) => true,
        Value::Desc(desc) => desc_within(desc, room),
        Value::ClassObject(descr) => class_within(descr, room),
        Value::Array { descr, body } => class_within(descr, room) && body_within(body, room),
        Value::EnumConst { descr, .. } => class_within(descr, room),
        Value::Object { descr, sections } => {
            class_within(descr, room) && sections_within(sections, room)
        }
    }
}

#[cycle(depth)]
fn desc_within(desc: &Desc, room: u32) -> bool
    ensures { FitsRoom (depth_in_desc (view_desc desc.now)) room result }
{
    match desc {
        Desc::Plain { notes, parent, .. } => {
            contents_within(notes, room) && superclass_within(parent, room)
        }
        Desc::Proxy { notes, parent, .. } => {
            contents_within(notes, room) && superclass_within(parent, room)
        }
    }
}

/// A superclass place is one deeper than its descriptor.
#[cycle(depth)]
fn superclass_within(parent: &ClassPlace, room: u32) -> bool
    ensures { FitsRoom (suc (depth_in_class (view_class_place parent.now))) room result }
{
    room > 0 && class_within(parent, room - 1)
}

#[cycle(depth)]
fn class_within(descr: &ClassPlace, room: u32) -> bool
    ensures { FitsRoom (depth_in_class (view_class_place descr.now)) room result }
{
    match descr {
        ClassPlace::New(desc) => desc_within(desc, room),
        ClassPlace::Back(_) | ClassPlace::Null => true,
    }
}

#[cycle(depth)]
fn body_within(body: &Body, room: u32) -> bool
    ensures { FitsRoom (depth_in_body (view_body body.now)) room result }
{
    match body {
        Body::Prims(_) => true,
        Body::Values(values) => values_within(values, room),
    }
}

#[cycle(depth)]
fn values_within(values: &[Value], room: u32) -> bool
    ensures { FitsRoom (depth_in_values (view_values values.now)) room result }
{
    for value in values {
        if !value_within(value, room) {
            return false;
        }
    }
    true
}

#[cycle(depth)]
fn sections_within(sections: &Vec<Section>, room: u32) -> bool
    ensures { FitsRoom (depth_in_sections (view_sections sections.now.items)) room result }
{
    for section in sections {
        if !section_within(section, room) {
            return false;
        }
    }
    true
}

#[cycle(depth)]
fn section_within(section: &Section, room: u32) -> bool
    ensures { FitsRoom (depth_in_sections (view_sections (section.now ∷ []))) room result }
{
    if !values_within(&section.values, room) {
        return false;
    }
    match &section.notes {
        None => true,
        Some(notes) => contents_within(notes, room),
    }
}

/// Whether the contents, of a stream or of an annotation, are at most `room` deep.
#[cycle(depth)]
pub(crate) fn contents_within(contents: &[Content], room: u32) -> bool
    ensures { FitsRoom (depth_in_contents (view_contents contents.now)) room result }
{
    for content in contents {
        if !content_within(content, room) {
            return false;
        }
    }
    true
}

#[cycle(depth)]
fn content_within(content: &Content, room: u32) -> bool
    ensures { FitsRoom (depth_in_contents (view_contents (content.now ∷ []))) room result }
{
    match content {
        Content::Block { .. } | Content::Reset => true,
        Content::Value(value) => value_within(value, room),
    }
}
