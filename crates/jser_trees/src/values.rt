//! Values out of their bytes: one function for each form of the grammar.
//!
//! Recursion goes as deep as the trees, which `steps` bounds.
ghost use Rattle.std.specs.Prelude.{◌≡◌, ◌<◌, ◌≤◌, ◌+◌, ◌∷◌, [], IfOk, IfErr, OnOk, IsTrue, map, length, slice_get, option_map};
ghost use Rattle.jser_table.specs.Chains.{is_external};
ghost use Rattle.jser_table.specs.Entries.{is_closed, chain_at, other_entry};
ghost use Rattle.jser_grammar.specs.TableAfter.{add, after_fields, after_type, after_text_place, after_value, after_desc, after_class, after_body, after_values, after_sections, after_contents, chain_of_class, chain_of_desc};
ghost use Rattle.jser_value.specs.Tests.{after_section, IsClassAt, IsParentAt};
ghost use Rattle.jser_value.specs.View.{view_text_place, view_field, view_value, view_desc, view_class_place, view_body, view_values, view_section, view_sections, view_content, view_contents};
ghost use Rattle.jser_trees.specs.Building.{after_content, back_class_in, block_content_in, data_in, body_in, top_content_in, first_content_in, after_top, string_in, value_in, desc_in, level_in, desc_level_in, tagged_in, class_in, superclass_in, content_in, annotation_in, values_in, section_at_in, sections_in, external_in, elements_in, plain_in, proxy_in, class_object_in, array_in, enum_constant_in, object_in, top_in};
ghost use Rattle.jser_grammar.specs.Trees.{back_class};
ghost use Rattle.jser_grammar.specs.Caps.{most_tree_bytes};
ghost use Rattle.jser_trees.specs.Found.{Finds, FindsAll};
ghost use Rattle.jser_value.specs.Rooms.{HasRoom, HasRoomForOneMore, Spends, SpendsOneMore};

use crate::cursor::{Cursor, Fault};
use crate::handles::{assign, is_class};
use crate::texts::{
    block, fields, interfaces, kept, number_of_handle, prims, prims_of, text_place, units,
};
use jser_grammar::wire::{
    TC_ARRAY, TC_BLOCKDATA, TC_BLOCKDATALONG, TC_CLASS, TC_CLASSDESC, TC_ENDBLOCKDATA, TC_ENUM,
    TC_LONGSTRING, TC_NULL, TC_OBJECT, TC_PROXYCLASSDESC, TC_REFERENCE, TC_RESET, TC_STRING,
};
use jser_table::{Kind, Table};
use jser_value::layers::{count_values, element_code, is_external, plain_layer, proxy_layer};
use jser_value::{
    Body, ClassPlace, Content, Desc, Field, Handles, Section, Text, TextPlace, Value,
};
use std::alloc::Global;

/// How many values and descriptors may stand within one another: two for each level of a tree.
const MOST_STEPS: u32 = 2000;

/// A new string has a handle.
fn enter_text(table: &mut Handles, place: &TextPlace) -> Result<(), Fault>
    requires room { length table.old.entries < 2147483648 }
    ensures entered { OnOk result (table.new.entries ≡ after_text_place table.old.entries (view_text_place place.now)) }
    ensures memory { IfErr result (λ fault. fault ≡ Fault.OutOfMemory) }
    ensures spent { OnOk result (length table.new.entries ≤ length table.old.entries + 1) }
{
    match place {
        TextPlace::New(_) => {
            assign(table, Kind::Text)?;
        }
        TextPlace::Back(_) => {}
    }
    Ok(())
}

/// So has a new string that is the type of a field.
fn enter_type(table: &mut Handles, field: &Field) -> Result<(), Fault>
    requires room { length table.old.entries < 2147483648 }
    ensures entered { OnOk result (table.new.entries ≡ after_type table.old.entries (option_map view_text_place field.now.text)) }
    ensures memory { IfErr result (λ fault. fault ≡ Fault.OutOfMemory) }
    ensures spent { OnOk result (length table.new.entries ≤ length table.old.entries + 1) }
{
    match &field.text {
        Some(place) => enter_text(table, place),
        None => Ok(()),
    }
}

/// The new strings among the types of these fields have handles.
fn enter_types(table: &mut Handles, fields: &[Field]) -> Result<(), Fault>
    requires room { length table.old.entries + length fields.now ≤ most_tree_bytes }
    ensures entered { OnOk result (table.new.entries ≡ after_fields table.old.entries (map view_field fields.now)) }
    ensures memory { IfErr result (λ fault. fault ≡ Fault.OutOfMemory) }
    ensures spent { OnOk result (length table.new.entries ≤ length table.old.entries + length fields.now) }
{
    'fields: for field in fields {
        enter_type(table, field)?;
    }
    Ok(())
}

/// A reference to a class that has been read, behind its tag, and its number.
fn back_class(cursor: &mut Cursor<'_>, table: &Table) -> Result<u32, Fault>
    ensures found { Finds (λ number. back_class number) result cursor.new (back_class_in table.now.entries cursor.old) }
    ensures class { IfOk result (λ number. IsTrue (is_closed (slice_get table.now.entries number))) }
    ensures shorter { OnOk result (length cursor.new < length cursor.old) }
{
    let number = number_of_handle(cursor)?;
    if !is_class(table, number) {
        return Err(Fault::Lost);
    }
    Ok(number)
}

/// A block, behind its tag.
fn block_content(alloc: Global, cursor: &mut Cursor<'_>, long: bool) -> Result<Content, Fault>
    ensures found { Finds view_content result cursor.new (block_content_in long cursor.old) }
    ensures shorter { OnOk result (length cursor.new < length cursor.old) }
{
    let bytes = block(alloc, cursor, long)?;
    Ok(Content::Block { long, bytes })
}

/// A string, behind its tag.
#[tactic(auto, unfolding(crate::specs::Building::string_in))]
fn string(
    alloc: Global,
    cursor: &mut Cursor<'_>,
    table: &mut Handles,
    long: bool,
) -> Result<Value, Fault>
    requires room { HasRoomForOneMore table.old.entries cursor.old }
    ensures found { Finds view_value result cursor.new (string_in long cursor.old) }
    ensures after { IfOk result (λ value. table.new.entries ≡ after_value table.old.entries (view_value value)) }
    ensures spent { OnOk result (SpendsOneMore table.old.entries cursor.old table.new.entries cursor.new) }
{
    let units = units(alloc, cursor, long)?;
    assign(table, Kind::Text)?;
    Ok(Value::Text(Text { long, units }))
}

/// The contents of a stream, behind its header.
#[tactic(auto, using(crate::proofs::TopLoop::top_begun, crate::proofs::TopLoop::top_next, crate::proofs::TopLoop::top_done, crate::proofs::TopLoop::top_failed, crate::proofs::TopLoop::top_endless))]
pub(crate) fn contents(alloc: Global, cursor: &mut Cursor<'_>) -> Result<Vec<Content>, Fault>
    requires room { length cursor.old ≤ most_tree_bytes }
    ensures { FindsAll (λ list. view_contents list.items) result (top_in (value_in 2000) (length cursor.old) [] cursor.old) }
{
    let mut table = Handles::new(alloc);
    let mut list = Vec::new(alloc);
    let mut left = cursor.left();
    'contents: while left > 0 && cursor.left() > 0 {
        left -= 1;
        let next = top_content(alloc, cursor, &mut table)?;
        kept(list.push(next))?;
    }
    if cursor.left() > 0 {
        return Err(Fault::Lost);
    }
    Ok(list)
}

/// A content at the top.
#[tactic(auto, unfolding(crate::specs::Building::top_content_in), using(crate::proofs::TopLoop::after_no_reset))]
fn top_content(
    alloc: Global,
    cursor: &mut Cursor<'_>,
    table: &mut Handles,
) -> Result<Content, Fault>
    requires room { HasRoom table.old.entries cursor.old }
    ensures found { Finds view_content result cursor.new (first_content_in (value_in 2000) table.old.entries cursor.old) }
    ensures after { IfOk result (λ content. table.new.entries ≡ after_top table.old.entries (view_content content)) }
    ensures spent { OnOk result (Spends table.old.entries cursor.old table.new.entries cursor.new) }
{
    let tag = cursor.byte()?;
    if tag == TC_RESET {
        table.reset();
        return Ok(Content::Reset);
    }
    content(alloc, cursor, table, MOST_STEPS, tag)
}

/// A content with this tag, which is not that of the end of an annotation or of a reset.
#[cycle(build)]
#[tactic(auto, unfolding(crate::specs::Building::content_in))]
pub(crate) fn content(
    alloc: Global,
    cursor: &mut Cursor<'_>,
    table: &mut Handles,
    steps: u32,
    tag: u8,
) -> Result<Content, Fault>
    requires room { HasRoomForOneMore table.old.entries cursor.old }
    ensures found { Finds view_content result cursor.new (content_in (value_in steps) table.old.entries (tag ∷ cursor.old)) }
    ensures after { IfOk result (λ content. table.new.entries ≡ after_content table.old.entries (view_content content)) }
    ensures spent { OnOk result (SpendsOneMore table.old.entries cursor.old table.new.entries cursor.new) }
{
    match tag {
        TC_BLOCKDATA => block_content(alloc, cursor, false),
        TC_BLOCKDATALONG => block_content(alloc, cursor, true),
        _ => Ok(Content::Value(value(alloc, cursor, table, steps, tag)?)),
    }
}

/// The contents of an annotation, and its end.
#[cycle(build)]
#[tactic(auto, using(crate::proofs::NotesLoop::notes_begun, crate::proofs::NotesLoop::notes_next, crate::proofs::NotesLoop::notes_ended, crate::proofs::NotesLoop::notes_after, crate::proofs::NotesLoop::notes_cut, crate::proofs::NotesLoop::notes_failed, crate::proofs::NotesLoop::notes_endless))]
fn notes(
    alloc: Global,
    cursor: &mut Cursor<'_>,
    table: &mut Handles,
    steps: u32,
) -> Result<Vec<Content>, Fault>
    requires room { HasRoom table.old.entries cursor.old }
    ensures found { Finds (λ notes. view_contents notes.items) result cursor.new (annotation_in (value_in steps) table.old.entries cursor.old) }
    ensures after { IfOk result (λ notes. table.new.entries ≡ after_contents table.old.entries (view_contents notes.items)) }
    ensures spent { OnOk result (Spends table.old.entries cursor.old table.new.entries cursor.new) }
{
    let mut notes = Vec::new(alloc);
    let mut left = cursor.left();
    'notes: while left > 0 {
        left -= 1;
        let tag = cursor.byte()?;
        if tag == TC_ENDBLOCKDATA {
            return Ok(notes);
        }
        let note = content(alloc, cursor, table, steps, tag)?;
        kept(notes.push(note))?;
    }
    Err(Fault::Lost)
}

/// So many values.
#[cycle(build)]
#[tactic(auto, using(crate::proofs::ValuesLoop::values_begun, crate::proofs::ValuesLoop::values_next, crate::proofs::ValuesLoop::values_done, crate::proofs::ValuesLoop::values_failed, crate::proofs::ValuesLoop::values_ended))]
fn values(
    alloc: Global,
    cursor: &mut Cursor<'_>,
    table: &mut Handles,
    count: usize,
    steps: u32,
) -> Result<Vec<Value>, Fault>
    requires room { HasRoom table.old.entries cursor.old }
    ensures found { Finds (λ values. view_values values.items) result cursor.new (values_in (value_in steps) count table.old.entries cursor.old) }
    ensures after { IfOk result (λ values. table.new.entries ≡ after_values table.old.entries (view_values values.items)) }
    ensures spent { OnOk result (Spends table.old.entries cursor.old table.new.entries cursor.new) }
{
    let mut values = Vec::new(alloc);
    let mut left = count;
    'values: while left > 0 {
        left -= 1;
        let next = next_value(alloc, cursor, table, steps)?;
        kept(values.push(next))?;
    }
    Ok(values)
}

/// A value, with its tag.
#[cycle(build)]
#[tactic(auto, using(crate::proofs::Levels::no_value))]
fn next_value(
    alloc: Global,
    cursor: &mut Cursor<'_>,
    table: &mut Handles,
    steps: u32,
) -> Result<Value, Fault>
    requires room { HasRoom table.old.entries cursor.old }
    ensures found { Finds view_value result cursor.new (value_in steps table.old.entries cursor.old) }
    ensures after { IfOk result (λ value. table.new.entries ≡ after_value table.old.entries (view_value value)) }
    ensures spent { OnOk result (Spends table.old.entries cursor.old table.new.entries cursor.new) }
{
    let tag = cursor.byte()?;
    value(alloc, cursor, table, steps, tag)
}

/// A value with this tag.
#[cycle(build)]
#[tactic(auto, using(crate::proofs::Levels::value_of_level, crate::proofs::Levels::value_too_deep))]
fn value(
    alloc: Global,
    cursor: &mut Cursor<'_>,
    table: &mut Handles,
    steps: u32,
    tag: u8,
) -> Result<Value, Fault>
    requires room { HasRoomForOneMore table.old.entries cursor.old }
    ensures found { Finds view_value result cursor.new (value_in steps table.old.entries (tag ∷ cursor.old)) }
    ensures after { IfOk result (λ value. table.new.entries ≡ after_value table.old.entries (view_value value)) }
    ensures spent { OnOk result (SpendsOneMore table.old.entries cursor.old table.new.entries cursor.new) }
{
    if steps == 0 {
        return Err(Fault::Lost);
    }
    level(alloc, cursor, table, steps - 1, tag)
}

/// A value with this tag, one level further in.
#[cycle(build)]
#[tactic(auto, unfolding(crate::specs::Building::level_in))]
fn level(
    alloc: Global,
    cursor: &mut Cursor<'_>,
    table: &mut Handles,
    steps: u32,
    tag: u8,
) -> Result<Value, Fault>
    requires room { HasRoomForOneMore table.old.entries cursor.old }
    ensures found { Finds view_value result cursor.new (level_in (desc_in steps) (value_in steps) table.old.entries tag cursor.old) }
    ensures after { IfOk result (λ value. table.new.entries ≡ after_value table.old.entries (view_value value)) }
    ensures spent { OnOk result (SpendsOneMore table.old.entries cursor.old table.new.entries cursor.new) }
{
    match tag {
        TC_CLASSDESC | TC_PROXYCLASSDESC => {
            let (desc, _) = desc(alloc, cursor, table, steps, tag)?;
            Ok(Value::Desc(kept(Box::new(alloc, desc))?))
        }
        _ => tagged(alloc, cursor, table, steps, tag),
    }
}

/// A value with this tag, which is not that of a descriptor.
#[cycle(build)]
#[tactic(auto, unfolding(crate::specs::Building::tagged_in))]
fn tagged(
    alloc: Global,
    cursor: &mut Cursor<'_>,
    table: &mut Handles,
    steps: u32,
    tag: u8,
) -> Result<Value, Fault>
    requires room { HasRoomForOneMore table.old.entries cursor.old }
    ensures found { Finds view_value result cursor.new (tagged_in (desc_in steps) (value_in steps) table.old.entries tag cursor.old) }
    ensures after { IfOk result (λ value. table.new.entries ≡ after_value table.old.entries (view_value value)) }
    ensures spent { OnOk result (SpendsOneMore table.old.entries cursor.old table.new.entries cursor.new) }
{
    match tag {
        TC_NULL => Ok(Value::Null),
        TC_REFERENCE => Ok(Value::Back(number_of_handle(cursor)?)),
        TC_STRING => string(alloc, cursor, table, false),
        TC_LONGSTRING => string(alloc, cursor, table, true),
        TC_CLASS => class_object(alloc, cursor, table, steps),
        TC_ARRAY => array(alloc, cursor, table, steps),
        TC_ENUM => enum_constant(alloc, cursor, table, steps),
        TC_OBJECT => object(alloc, cursor, table, steps),
        _ => Err(Fault::Lost),
    }
}

/// A class object, behind its tag.
#[cycle(build)]
#[tactic(auto, unfolding(crate::specs::Building::class_object_in))]
fn class_object(
    alloc: Global,
    cursor: &mut Cursor<'_>,
    table: &mut Handles,
    steps: u32,
) -> Result<Value, Fault>
    requires room { HasRoomForOneMore table.old.entries cursor.old }
    ensures found { Finds view_value result cursor.new (class_object_in (desc_in steps) table.old.entries cursor.old) }
    ensures after { IfOk result (λ value. table.new.entries ≡ after_value table.old.entries (view_value value)) }
    ensures spent { OnOk result (SpendsOneMore table.old.entries cursor.old table.new.entries cursor.new) }
{
    let (descr, _) = next_class(alloc, cursor, table, steps)?;
    assign(table, Kind::Other)?;
    Ok(Value::ClassObject(descr))
}

/// An array, behind its tag.
#[cycle(build)]
#[tactic(auto, unfolding(crate::specs::Building::array_in, crate::specs::Building::body_in))]
fn array(
    alloc: Global,
    cursor: &mut Cursor<'_>,
    table: &mut Handles,
    steps: u32,
) -> Result<Value, Fault>
    requires room { HasRoomForOneMore table.old.entries cursor.old }
    ensures found { Finds view_value result cursor.new (array_in (desc_in steps) (value_in steps) table.old.entries cursor.old) }
    ensures after { IfOk result (λ value. table.new.entries ≡ after_value table.old.entries (view_value value)) }
    ensures spent { OnOk result (SpendsOneMore table.old.entries cursor.old table.new.entries cursor.new) }
{
    let (descr, number) = next_class(alloc, cursor, table, steps)?;
    let code = element_code(table.table(), number);
    assign(table, Kind::Other)?;
    let body = body(alloc, cursor, table, code, steps)?;
    Ok(Value::Array { descr, body })
}

/// The elements of an array, whose number stands before them.
#[cycle(build)]
#[tactic(auto, unfolding(crate::specs::Building::body_in, crate::specs::Building::elements_in))]
fn body(
    alloc: Global,
    cursor: &mut Cursor<'_>,
    table: &mut Handles,
    code: Option<u8>,
    steps: u32,
) -> Result<Body, Fault>
    requires room { HasRoom table.old.entries cursor.old }
    ensures found { Finds view_body result cursor.new (body_in (value_in steps) table.old.entries code cursor.old) }
    ensures after { IfOk result (λ body. table.new.entries ≡ after_body table.old.entries (view_body body)) }
    ensures spent { OnOk result (Spends table.old.entries cursor.old table.new.entries cursor.new) }
{
    let count = cursor.number_of_four()?;
    match code {
        Some(code) => Ok(Body::Prims(prims(alloc, cursor, code, count)?)),
        None => {
            let values = values(alloc, cursor, table, count as usize, steps)?;
            Ok(Body::Values(values))
        }
    }
}

/// An enum constant, behind its tag.
#[cycle(build)]
#[tactic(auto, unfolding(crate::specs::Building::enum_constant_in))]
fn enum_constant(
    alloc: Global,
    cursor: &mut Cursor<'_>,
    table: &mut Handles,
    steps: u32,
) -> Result<Value, Fault>
    requires room { HasRoomForOneMore table.old.entries cursor.old }
    ensures found { Finds view_value result cursor.new (enum_constant_in (desc_in steps) table.old.entries cursor.old) }
    ensures after { IfOk result (λ value. table.new.entries ≡ after_value table.old.entries (view_value value)) }
    ensures spent { OnOk result (SpendsOneMore table.old.entries cursor.old table.new.entries cursor.new) }
{
    let (descr, _) = next_class(alloc, cursor, table, steps)?;
    assign(table, Kind::Other)?;
    let name = text_place(alloc, cursor)?;
    enter_text(table, &name)?;
    Ok(Value::EnumConst { descr, name })
}

/// An object, behind its tag.
#[cycle(build)]
#[tactic(auto, unfolding(crate::specs::Building::object_in, crate::specs::Building::data_in), using(jser_value::proofs::KeepLemmas::class_behind_add))]
fn object(
    alloc: Global,
    cursor: &mut Cursor<'_>,
    table: &mut Handles,
    steps: u32,
) -> Result<Value, Fault>
    requires room { HasRoomForOneMore table.old.entries cursor.old }
    ensures found { Finds view_value result cursor.new (object_in (desc_in steps) (value_in steps) table.old.entries cursor.old) }
    ensures after { IfOk result (λ value. table.new.entries ≡ after_value table.old.entries (view_value value)) }
    ensures spent { OnOk result (SpendsOneMore table.old.entries cursor.old table.new.entries cursor.new) }
{
    let (descr, number) = next_class(alloc, cursor, table, steps)?;
    assign(table, Kind::Other)?;
    let sections = data(alloc, cursor, table, number, steps)?;
    Ok(Value::Object { descr, sections })
}

/// What the classes of an object wrote.
#[cycle(build)]
#[tactic(auto, unfolding(crate::specs::Building::data_in))]
fn data(
    alloc: Global,
    cursor: &mut Cursor<'_>,
    table: &mut Handles,
    number: u32,
    steps: u32,
) -> Result<Vec<Section>, Fault>
    requires closed { IsTrue (is_closed (slice_get table.old.entries number)) }
    requires room { HasRoom table.old.entries cursor.old }
    ensures found { Finds (λ sections. view_sections sections.items) result cursor.new (data_in (value_in steps) table.old.entries (chain_at table.old.entries number) cursor.old) }
    ensures after { IfOk result (λ sections. table.new.entries ≡ after_sections table.old.entries (view_sections sections.items)) }
    ensures spent { OnOk result (Spends table.old.entries cursor.old table.new.entries cursor.new) }
{
    if is_external(table.table(), number) {
        external_section(alloc, cursor, table, steps)
    } else {
        sections(alloc, cursor, table, number, steps)
    }
}

/// What an externalizable class wrote: one section, of an annotation alone.
#[cycle(build)]
#[tactic(auto, unfolding(crate::specs::Building::external_in))]
fn external_section(
    alloc: Global,
    cursor: &mut Cursor<'_>,
    table: &mut Handles,
    steps: u32,
) -> Result<Vec<Section>, Fault>
    requires room { HasRoom table.old.entries cursor.old }
    ensures found { Finds (λ sections. view_sections sections.items) result cursor.new (external_in (value_in steps) table.old.entries cursor.old) }
    ensures after { IfOk result (λ sections. table.new.entries ≡ after_sections table.old.entries (view_sections sections.items)) }
    ensures spent { OnOk result (Spends table.old.entries cursor.old table.new.entries cursor.new) }
{
    let notes = notes(alloc, cursor, table, steps)?;
    let mut sections = Vec::new(alloc);
    kept(sections.push(Section {
        prims: Vec::new(alloc),
        values: Vec::new(alloc),
        notes: Some(notes),
    }))?;
    Ok(sections)
}

/// What the classes of a chain wrote: one section for each, the highest superclass first.
#[cycle(build)]
#[tactic(auto, using(crate::proofs::SectionsLoop::sections_begun, crate::proofs::SectionsLoop::sections_next, crate::proofs::SectionsLoop::sections_done, crate::proofs::SectionsLoop::sections_after, crate::proofs::SectionsLoop::sections_failed))]
fn sections(
    alloc: Global,
    cursor: &mut Cursor<'_>,
    table: &mut Handles,
    number: u32,
    steps: u32,
) -> Result<Vec<Section>, Fault>
    requires closed { IsTrue (is_closed (slice_get table.old.entries number)) }
    requires room { HasRoom table.old.entries cursor.old }
    ensures found { Finds (λ sections. view_sections sections.items) result cursor.new (sections_in (value_in steps) table.old.entries (chain_at table.old.entries number) cursor.old) }
    ensures after { IfOk result (λ sections. table.new.entries ≡ after_sections table.old.entries (view_sections sections.items)) }
    ensures spent { OnOk result (Spends table.old.entries cursor.old table.new.entries cursor.new) }
{
    let count = table.table().layers(number);
    let mut sections = Vec::new(alloc);
    'sections: for index in 0..count {
        let next = section(alloc, cursor, table, number, index, steps)?;
        kept(sections.push(next))?;
    }
    Ok(sections)
}

/// What the class at this index of a chain wrote.
#[cycle(build)]
#[tactic(auto, using(crate::proofs::SectionsLoop::section_whole, crate::proofs::SectionsLoop::section_bare, crate::proofs::SectionsLoop::section_no_prims, crate::proofs::SectionsLoop::section_no_values, crate::proofs::SectionsLoop::section_no_notes))]
fn section(
    alloc: Global,
    cursor: &mut Cursor<'_>,
    table: &mut Handles,
    number: u32,
    index: usize,
    steps: u32,
) -> Result<Section, Fault>
    requires closed { IsTrue (is_closed (slice_get table.old.entries number)) }
    requires index { index < length (chain_at table.old.entries number) }
    requires room { HasRoom table.old.entries cursor.old }
    ensures found { Finds view_section result cursor.new (section_at_in (value_in steps) table.old.entries (slice_get (chain_at table.old.entries number) index) cursor.old) }
    ensures after { IfOk result (λ section. table.new.entries ≡ after_section table.old.entries (view_section section)) }
    ensures spent { OnOk result (Spends table.old.entries cursor.old table.new.entries cursor.new) }
{
    let layer = table.table().layer(number, index);
    let codes = layer.codes();
    let prims = prims_of(alloc, cursor, codes)?;
    let count = count_values(codes);
    let has_notes = layer.has_write_method();
    let values = values(alloc, cursor, table, count, steps)?;
    if has_notes {
        let notes = notes(alloc, cursor, table, steps)?;
        Ok(Section {
            prims,
            values,
            notes: Some(notes),
        })
    } else {
        Ok(Section {
            prims,
            values,
            notes: None,
        })
    }
}

/// A class place, with its tag, and the number of the class.
#[cycle(build)]
#[tactic(auto, unfolding(crate::specs::Building::class_in))]
fn next_class(
    alloc: Global,
    cursor: &mut Cursor<'_>,
    table: &mut Handles,
    steps: u32,
) -> Result<(ClassPlace, u32), Fault>
    requires room { HasRoom table.old.entries cursor.old }
    ensures found { Finds (λ x. view_class_place x.0) result cursor.new (class_in (desc_in steps) table.old.entries cursor.old) }
    ensures after { IfOk result (λ x. table.new.entries ≡ after_class table.old.entries (view_class_place x.0)) }
    ensures class { IfOk result (λ x. IsClassAt table.new.entries x.1 (chain_of_class table.old.entries (view_class_place x.0))) }
    ensures spent { OnOk result (Spends table.old.entries cursor.old table.new.entries cursor.new) }
{
    let tag = cursor.byte()?;
    class(alloc, cursor, table, steps, tag)
}

/// A class place with this tag, and the number of the class.
#[cycle(build)]
#[tactic(auto, unfolding(crate::specs::Building::class_in))]
fn class(
    alloc: Global,
    cursor: &mut Cursor<'_>,
    table: &mut Handles,
    steps: u32,
    tag: u8,
) -> Result<(ClassPlace, u32), Fault>
    requires room { HasRoomForOneMore table.old.entries cursor.old }
    ensures found { Finds (λ x. view_class_place x.0) result cursor.new (class_in (desc_in steps) table.old.entries (tag ∷ cursor.old)) }
    ensures after { IfOk result (λ x. table.new.entries ≡ after_class table.old.entries (view_class_place x.0)) }
    ensures class { IfOk result (λ x. IsClassAt table.new.entries x.1 (chain_of_class table.old.entries (view_class_place x.0))) }
    ensures spent { OnOk result (SpendsOneMore table.old.entries cursor.old table.new.entries cursor.new) }
{
    if tag == TC_REFERENCE {
        let number = back_class(cursor, table.table())?;
        return Ok((ClassPlace::Back(number), number));
    }
    let (desc, number) = desc(alloc, cursor, table, steps, tag)?;
    let desc = kept(Box::new(alloc, desc))?;
    Ok((ClassPlace::New(desc), number))
}

/// A superclass place, with its tag, and the number of the class, if there is one.
#[cycle(build)]
#[tactic(auto, unfolding(crate::specs::Building::superclass_in))]
fn superclass(
    alloc: Global,
    cursor: &mut Cursor<'_>,
    table: &mut Handles,
    steps: u32,
) -> Result<(ClassPlace, Option<u32>), Fault>
    requires room { HasRoom table.old.entries cursor.old }
    ensures found { Finds (λ x. view_class_place x.0) result cursor.new (superclass_in (desc_in steps) table.old.entries cursor.old) }
    ensures after { IfOk result (λ x. table.new.entries ≡ after_class table.old.entries (view_class_place x.0)) }
    ensures parent { IfOk result (λ x. IsParentAt table.new.entries (chain_of_class table.old.entries (view_class_place x.0)) x.1) }
    ensures spent { OnOk result (Spends table.old.entries cursor.old table.new.entries cursor.new) }
{
    let tag = cursor.byte()?;
    if tag == TC_NULL {
        return Ok((ClassPlace::Null, None));
    }
    let (place, number) = class(alloc, cursor, table, steps, tag)?;
    Ok((place, Some(number)))
}

/// A descriptor with this tag, and its number.
#[cycle(build)]
#[tactic(auto, using(crate::proofs::Levels::desc_of_level, crate::proofs::Levels::desc_too_deep))]
fn desc(
    alloc: Global,
    cursor: &mut Cursor<'_>,
    table: &mut Handles,
    steps: u32,
    tag: u8,
) -> Result<(Desc, u32), Fault>
    requires room { HasRoomForOneMore table.old.entries cursor.old }
    ensures found { Finds (λ x. view_desc x.0) result cursor.new (desc_in steps table.old.entries (tag ∷ cursor.old)) }
    ensures after { IfOk result (λ x. table.new.entries ≡ after_desc table.old.entries (view_desc x.0)) }
    ensures class { IfOk result (λ x. IsClassAt table.new.entries x.1 (chain_of_desc table.old.entries (view_desc x.0))) }
    ensures spent { OnOk result (SpendsOneMore table.old.entries cursor.old table.new.entries cursor.new) }
{
    if steps == 0 {
        return Err(Fault::Lost);
    }
    desc_level(alloc, cursor, table, steps - 1, tag)
}

/// A descriptor with this tag, one level further in.
#[cycle(build)]
#[tactic(auto, unfolding(crate::specs::Building::desc_level_in))]
fn desc_level(
    alloc: Global,
    cursor: &mut Cursor<'_>,
    table: &mut Handles,
    steps: u32,
    tag: u8,
) -> Result<(Desc, u32), Fault>
    requires room { HasRoomForOneMore table.old.entries cursor.old }
    ensures found { Finds (λ x. view_desc x.0) result cursor.new (desc_level_in (desc_in steps) (value_in steps) table.old.entries tag cursor.old) }
    ensures after { IfOk result (λ x. table.new.entries ≡ after_desc table.old.entries (view_desc x.0)) }
    ensures class { IfOk result (λ x. IsClassAt table.new.entries x.1 (chain_of_desc table.old.entries (view_desc x.0))) }
    ensures spent { OnOk result (SpendsOneMore table.old.entries cursor.old table.new.entries cursor.new) }
{
    match tag {
        TC_CLASSDESC => plain(alloc, cursor, table, steps),
        TC_PROXYCLASSDESC => proxy(alloc, cursor, table, steps),
        _ => Err(Fault::Lost),
    }
}

/// A plain descriptor, behind its tag.
#[cycle(build)]
#[tactic(auto, unfolding(crate::specs::Building::plain_in, crate::specs::Building::byte_in), using(jser_value::proofs::KeepLemmas::pending_plain))]
fn plain(
    alloc: Global,
    cursor: &mut Cursor<'_>,
    table: &mut Handles,
    steps: u32,
) -> Result<(Desc, u32), Fault>
    requires room { HasRoomForOneMore table.old.entries cursor.old }
    ensures found { Finds (λ x. view_desc x.0) result cursor.new (plain_in (desc_in steps) (value_in steps) table.old.entries cursor.old) }
    ensures after { IfOk result (λ x. table.new.entries ≡ after_desc table.old.entries (view_desc x.0)) }
    ensures class { IfOk result (λ x. IsClassAt table.new.entries x.1 (chain_of_desc table.old.entries (view_desc x.0))) }
    ensures spent { OnOk result (SpendsOneMore table.old.entries cursor.old table.new.entries cursor.new) }
{
    let name = units(alloc, cursor, false)?;
    let suid = cursor.number_of_eight()?;
    let flags = cursor.byte()?;
    let number = assign(table, Kind::Pending)?;
    let fields = fields(alloc, cursor)?;
    enter_types(table, &fields)?;
    let notes = notes(alloc, cursor, table, steps)?;
    let (parent, above) = superclass(alloc, cursor, table, steps)?;
    let layer = kept(plain_layer(alloc, &name, flags, &fields))?;
    table.close(number, layer, above);
    let desc = Desc::Plain {
        name,
        suid,
        flags,
        fields,
        notes,
        parent,
    };
    Ok((desc, number))
}

/// A proxy descriptor, behind its tag.
#[cycle(build)]
#[tactic(auto, unfolding(crate::specs::Building::proxy_in), using(jser_value::proofs::KeepLemmas::pending_proxy))]
fn proxy(
    alloc: Global,
    cursor: &mut Cursor<'_>,
    table: &mut Handles,
    steps: u32,
) -> Result<(Desc, u32), Fault>
    requires room { HasRoomForOneMore table.old.entries cursor.old }
    ensures found { Finds (λ x. view_desc x.0) result cursor.new (proxy_in (desc_in steps) (value_in steps) table.old.entries cursor.old) }
    ensures after { IfOk result (λ x. table.new.entries ≡ after_desc table.old.entries (view_desc x.0)) }
    ensures class { IfOk result (λ x. IsClassAt table.new.entries x.1 (chain_of_desc table.old.entries (view_desc x.0))) }
    ensures spent { OnOk result (SpendsOneMore table.old.entries cursor.old table.new.entries cursor.new) }
{
    let number = assign(table, Kind::Pending)?;
    let interfaces = interfaces(alloc, cursor)?;
    let notes = notes(alloc, cursor, table, steps)?;
    let (parent, above) = superclass(alloc, cursor, table, steps)?;
    table.close(number, proxy_layer(alloc), above);
    let desc = Desc::Proxy {
        interfaces,
        notes,
        parent,
    };
    Ok((desc, number))
}
