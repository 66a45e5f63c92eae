//! Trees and their bytes: jser_value and jser_trees.

use jser_prim::Sink;
use jser_reader::{Gate, OpenGate, Stop};
use jser_trees::read_all;
use jser_value::laws::{no_prefix, one_reading};
use jser_value::{
    Body, ClassPlace, Content, Contents, Desc, EncodeFault, Field, Prim, Section, Text, TextPlace,
    Value, ValueCause, ValueFault, encode,
};
use std::alloc::Global;

/// The contents of this list, or it again with the cause.
pub fn contents(alloc: Global, list: Vec<Content>) -> Result<Contents, (Vec<Content>, u8)> {
    match Contents::new(alloc, list) {
        Ok(contents) => Ok(contents),
        Err(ValueFault { list, cause }) => Err((
            list,
            match cause {
                ValueCause::TooDeep => 0,
                ValueCause::TooLarge => 1,
                ValueCause::NotRight => 2,
                ValueCause::OutOfMemory => 3,
            },
        )),
    }
}

/// The contents of a stream, which outlive its bytes, under the open gate or another one.
pub fn read<G: Gate>(alloc: Global, bytes: &[u8], gate: Option<&G>) -> Result<Contents, Stop> {
    match gate {
        Some(gate) => read_all::<G>(alloc, bytes, gate),
        None => read_all(alloc, bytes, &OpenGate),
    }
}

/// Writes them, and says how many bytes went out.
pub fn written<W: Sink>(contents: &Contents, sink: &mut W) -> u64 {
    match encode::<W>(contents, sink) {
        Ok(length) => length,
        Err(EncodeFault::Write { written }) => written,
    }
}

/// The laws of the format: a stream has one reading, and none begins another one.
pub fn laws() {
    one_reading();
    no_prefix();
}

/// How many contents there are, and what the first one is.
pub fn first(contents: &Contents) -> (usize, u8) {
    let list: &[Content] = contents.list();
    let what = match list {
        [] => 0,
        [Content::Block { long, bytes }, ..] => { if *long && bytes.is_empty() { 1 } else { 2 } }
        [Content::Reset, ..] => 3,
        [Content::Value(value), ..] => value_kind(value),
    };
    (list.len(), what)
}

fn value_kind(value: &Value) -> u8 {
    match value {
        Value::Null => 10,
        Value::Back(_) => 11,
        Value::Text(Text { long, units }) => { if *long || units.is_empty() { 12 } else { 13 } }
        Value::Desc(desc) => desc_kind(desc),
        Value::ClassObject(class) => class_kind(class),
        Value::Array { descr, body } => match body {
            Body::Prims(prims) if prims.is_empty() => class_kind(descr),
            Body::Prims(prims) => prim_size(prims[0]),
            Body::Values(values) => { if values.is_empty() { 14 } else { 15 } }
        },
        Value::EnumConst { descr, name } => match name {
            TextPlace::New(_) => class_kind(descr),
            TextPlace::Back(_) => 16,
        },
        Value::Object { descr, sections } => match sections.as_slice() {
            [] => class_kind(descr),
            [
                Section {
                    prims,
                    values,
                    notes,
                },
                ..
            ] => {
                if prims.is_empty() && values.is_empty() && notes.is_none() {
                    17
                } else {
                    18
                }
            }
        },
    }
}

fn class_kind(class: &ClassPlace) -> u8 {
    match class {
        ClassPlace::New(_) => 20,
        ClassPlace::Back(_) => 21,
        ClassPlace::Null => 22,
    }
}

fn desc_kind(desc: &Desc) -> u8 {
    match desc {
        Desc::Plain {
            name,
            suid,
            flags,
            fields,
            notes,
            parent,
        } => match fields.as_slice() {
            [Field { code, name, text }, ..] if text.is_none() && name.is_empty() => *code,
            _ if name.is_empty() && *suid == 0 && notes.is_empty() => *flags,
            _ => class_kind(parent),
        },
        Desc::Proxy {
            interfaces,
            notes,
            parent,
        } => {
            if interfaces.is_empty() && notes.is_empty() {
                30
            } else {
                class_kind(parent)
            }
        }
    }
}

fn prim_size(prim: Prim) -> u8 {
    match prim {
        Prim::B(_) | Prim::Z(_) => 1,
        Prim::C(_) | Prim::S(_) => 2,
        Prim::F(_) | Prim::I(_) => 4,
        Prim::D(_) | Prim::J(_) => 8,
    }
}
