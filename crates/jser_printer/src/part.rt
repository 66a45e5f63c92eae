//! The parts of the sections of an object, one after another.
ghost use Rattle.std.specs.Prelude.{◌<◌, ◌-◌, ◌^◌, length};
ghost use Rattle.jser_printer.specs.Tables.{layers_in};
ghost use Rattle.jser_printer.specs.Frames.{IsNextPart, LeadsToFields};

use crate::frame::Stage;
use crate::layer::{Layer, NamedField, field_of, name_of, next_raw, next_value};
use crate::name::Name;
use crate::seen::Tag;
use crate::table::NameTable;

/// A part of the sections of an object.
#[derive(Clone, Copy)]
pub(crate) enum Part<'t> {
    /// The first line of the section of a class with this name; None for a proxy.
    Section(Option<&'t Name>),
    /// The raw value of this field.
    Raw(&'t NamedField),
    /// The value of the field with this name.
    Value(&'t Name),
    /// The annotation of a section.
    Notes,
    /// None: all sections have ended.
    End,
}

/// A part, and where the others begin.
#[derive(Clone, Copy)]
pub(crate) struct NextPart<'t> {
    pub(crate) part: Part<'t>,
    /// The index of a layer in the chain.
    pub(crate) index: usize,
    pub(crate) stage: Stage,
}

/// The first part of the sections of this chain, from a stage of the layer at this index on.
#[inline(always)]
pub(crate) fn next_part(table: &NameTable, chain: u32, index: usize, stage: Stage) -> NextPart<'_>
    requires { chain < length table.now.chains }
    ensures next { IsNextPart (layers_in table.now.chains chain) index stage result }
    ensures fields { LeadsToFields result.part result.stage }
{
    if index >= table.layers(chain) {
        return NextPart {
            part: Part::End,
            index,
            stage,
        };
    }
    match stage {
        Stage::Start => section_part(table, chain, index),
        Stage::Raw(from) => {
            let fields = table.layer(chain, index).fields();
            let Some(place) = next_raw(fields, from) else {
                return value_part(table, chain, index, 0);
            };
            NextPart {
                part: Part::Raw(field_of(fields, place)),
                index,
                stage: Stage::Raw(place + 1),
            }
        }
        Stage::Value(from) => value_part(table, chain, index, from),
    }
}

/// The first part of the sections from the first line of the section at this index on.
#[inline(always)]
fn section_part(table: &NameTable, chain: u32, index: usize) -> NextPart<'_>
    requires { chain < length table.now.chains }
    ensures next { IsNextPart (layers_in table.now.chains chain) index Stage.Start result }
    ensures fields { LeadsToFields result.part result.stage }
{
    if index >= table.layers(chain) {
        return NextPart {
            part: Part::End,
            index,
            stage: Stage::Start,
        };
    }
    NextPart {
        part: Part::Section(table.layer(chain, index).name()),
        index,
        stage: Stage::Raw(0),
    }
}

/// The first part of the sections from the values of the section at this index on.
#[inline(always)]
fn value_part(table: &NameTable, chain: u32, index: usize, from: usize) -> NextPart<'_>
    requires chain_in { chain < length table.now.chains }
    requires index_in { index < length (layers_in table.now.chains chain) }
    requires fits { index < 2 ^ 64 - 1 }
    ensures next { IsNextPart (layers_in table.now.chains chain) index (Stage.Value from) result }
    ensures fields { LeadsToFields result.part result.stage }
{
    let layer = table.layer(chain, index);
    let fields = layer.fields();
    if let Some(place) = next_value(fields, from) {
        return NextPart {
            part: Part::Value(name_of(fields, place)),
            index,
            stage: Stage::Value(place + 1),
        };
    }
    if layer.has_notes() {
        return NextPart {
            part: Part::Notes,
            index: index + 1,
            stage: Stage::Start,
        };
    }
    section_part(table, chain, index + 1)
}
