//! What is open where a printer stands: for one who asks where in a stream a place is.

use crate::draft::Draft;
use crate::frame::{Frame, Sections, Stage, SuperPlace};
use crate::layer::{Layer, NamedField, next_raw, next_value};
use crate::name::Name;
use crate::phase::Phase;
use crate::printer::Printer;
use crate::standing::Standing;
use crate::table::NameTable;
use std::alloc::{AllocError, Global};

/// What has begun and not ended. A class has no name where it is a proxy class.
#[derive(Clone, Copy)]
pub enum Open<'w> {
    /// An object whose values or annotations come.
    Object {
        /// Its class.
        class: Option<&'w Name>,
        /// The class of its chain that has a `writeObject` of its own (flag 01) and whose section came last; where none of
        /// these came yet, the next one.
        writer: Option<&'w Name>,
    },
    /// The value of a field.
    Field {
        /// The name of the field.
        name: &'w Name,
        /// The class that has it.
        class: Option<&'w Name>,
    },
    /// An element of an array.
    Element {
        /// Its index.
        index: u32,
    },
    /// An annotation of an object or of a descriptor.
    Annotation {
        /// The class that wrote it, or that is described.
        class: Option<&'w Name>,
    },
    /// A descriptor whose name was read.
    Descriptor {
        /// The name of its class.
        class: Option<&'w Name>,
    },
}

impl Printer<'_> {
    /// What is open, the outermost first. Where a printer has settled, that is what the next token belongs to, with the
    /// field or element whose value it begins. Of an array of primitives it is the element 0, since all are one token.
    ///
    /// The list takes memory for what is open and for nothing else.
    ///
    /// # Errors
    ///
    /// Where memory runs out.
    pub fn opened(&self, alloc: Global) -> Result<Vec<Open<'_>>, AllocError> {
        let mut opened = Vec::new(alloc);
        let has_begun = !matches!(self.phase, Phase::Frames);
        add_frames(&self.standing, has_begun, &mut opened)?;
        if let Some(descriptor) = descriptor_in(self.phase, &self.draft) {
            opened.push(descriptor)?;
        }
        Ok(opened)
    }
}

/// The descriptor that is going by, once its name was read.
fn descriptor_in(phase: Phase, draft: &Draft) -> Option<Open<'_>> {
    match phase {
        Phase::Suid { .. }
        | Phase::Flags { .. }
        | Phase::FieldCount { .. }
        | Phase::Fields { .. }
        | Phase::FieldName { .. } => Some(Open::Descriptor {
            class: Some(draft.name()),
        }),
        Phase::InterfaceCount { .. } | Phase::Interfaces { .. } => {
            Some(Open::Descriptor { class: None })
        }
        _ => None,
    }
}

/// Adds what the frames hold open. `has_begun` says whether the value that the innermost one waits for has begun.
fn add_frames<'w>(
    standing: &'w Standing<'_>,
    has_begun: bool,
    opened: &mut Vec<Open<'w>>,
) -> Result<(), AllocError> {
    let mut outer: Option<Frame> = None;
    for frame in standing.frames.below() {
        add_frame(&standing.table, outer, *frame, true, opened)?;
        outer = Some(*frame);
    }
    match standing.frames.top() {
        Some(frame) => add_frame(&standing.table, outer, frame, has_begun, opened),
        None => Ok(()),
    }
}

/// Adds what a frame holds open.
fn add_frame<'w>(
    table: &'w NameTable,
    outer: Option<Frame>,
    frame: Frame,
    has_begun: bool,
    opened: &mut Vec<Open<'w>>,
) -> Result<(), AllocError> {
    match frame {
        Frame::Notes { .. } => opened.push(Open::Annotation {
            class: writer_of_notes(table, outer),
        })?,
        // All elements of an array of primitives are one token.
        Frame::Elements(at) if at.elements.is_some() => {}
        Frame::Elements(at) => opened.push(Open::Element {
            index: at.index.saturating_sub(u32::from(has_begun)),
        })?,
        Frame::Sections(at) => {
            opened.push(object_of(table, at.chain, section_at(at)))?;
            if let Some(field) = field_at(table, at, has_begun) {
                opened.push(field)?;
            }
        }
        Frame::External { chain, .. }
        | Frame::ExternalNotes { chain, .. }
        | Frame::ExternalEnd { chain, .. } => opened.push(object_of(table, chain, 0))?,
        Frame::Super(SuperPlace { layer, .. })
        | Frame::SuperHandle(SuperPlace { layer, .. })
        | Frame::Close { layer, .. } => opened.push(Open::Descriptor {
            class: table.layer_at(layer).and_then(Layer::name),
        })?,
        Frame::End { .. } | Frame::Made { .. } => {}
    }
    Ok(())
}

/// An object of the class of this chain, whose section at this index is open or came last.
fn object_of(table: &NameTable, chain: u32, section: usize) -> Open<'_> {
    Open::Object {
        class: table.own_of(chain).and_then(Layer::name),
        writer: writer_near(table, chain, section).and_then(Layer::name),
    }
}

/// The class that has a `writeObject` of its own, the nearest one up from this section, or else the next one behind it.
fn writer_near(table: &NameTable, chain: u32, section: usize) -> Option<&Layer> {
    let mut near = None;
    for index in 0..table.layers_of(chain) {
        if index > section && near.is_some() {
            return near;
        }
        if let Some(layer) = table.layer_of(chain, index)
            && layer.has_notes()
        {
            near = Some(layer);
        }
    }
    near
}

/// The section that is open there, or that came last: at the first line of a section the one before.
fn section_at(at: Sections) -> usize {
    match at.stage {
        Stage::Start => at.index.saturating_sub(1),
        Stage::Raw(_) | Stage::Value(_) => at.index,
    }
}

/// The class whose annotation begins inside this frame.
fn writer_of_notes(table: &NameTable, outer: Option<Frame>) -> Option<&Name> {
    match outer {
        Some(Frame::Sections(at)) => table
            .layer_of(at.chain, section_at(at))
            .and_then(Layer::name),
        Some(Frame::ExternalEnd { chain, .. }) => table.own_of(chain).and_then(Layer::name),
        Some(Frame::Super(at)) => table.layer_at(at.layer).and_then(Layer::name),
        _ => None,
    }
}

/// The field whose value is open there; where it has not begun, the one that comes next.
fn field_at(table: &NameTable, at: Sections, has_begun: bool) -> Option<Open<'_>> {
    let layer = table.layer_of(at.chain, at.index)?;
    let fields = layer.fields();
    let place = match at.stage {
        Stage::Start => return None,
        Stage::Raw(from) => next_raw(fields, from).or(next_value(fields, 0)),
        Stage::Value(from) if has_begun => last_value(fields, from),
        Stage::Value(from) => next_value(fields, from),
    };
    let field = fields.get(place?)?;
    Some(Open::Field {
        name: &field.name,
        class: layer.name(),
    })
}

/// The place of the last field that is of no primitive type, of those before `end`.
fn last_value(fields: &[NamedField], end: usize) -> Option<usize> {
    let mut last = None;
    for place in 0..end {
        last = next_value(fields, place)
            .filter(|found| *found < end)
            .or(last);
    }
    last
}
