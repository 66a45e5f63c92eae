//! Frames: what is open while a token is read, one for each array, object and descriptor.
ghost use Rattle.std.specs.Prelude.{◌≡◌};
ghost use Rattle.jser_reader.specs.Stacks.{GivesValue, GivesRaw};

use jser_table::SectionNumber;

/// What a class place belongs to.
#[derive(Clone, Copy)]
pub(crate) enum Owner {
    /// An object.
    Object,
    /// An array.
    Array,
    /// An enum constant.
    EnumConst,
    /// A class object.
    ClassObject,
}

/// What a descriptor is read as.
#[derive(Clone, Copy)]
pub(crate) enum Role {
    /// A value of its own.
    Value,
    /// The class of this owner.
    ClassOf(Owner),
    /// A superclass of the descriptor round it.
    Superclass {
        /// Whether it must be a proxy or serializable.
        strict: bool,
    },
}

/// What is open, in few bytes.
#[derive(Clone, Copy)]
pub(crate) enum Frame {
    /// An array of values.
    Elements {
        /// How many come after the one that is being read.
        left: u32,
    },
    /// The fields of one section of an object.
    Fields {
        /// The last section of the object.
        last: SectionNumber,
        /// This section.
        section: SectionNumber,
        /// How many raw values have been read, or are being read.
        pos: u16,
        /// How many raw values there are.
        prims: u16,
        /// How many values are still to come.
        values: u16,
    },
    /// The annotation of a section.
    Notes {
        /// The last section of the object.
        last: SectionNumber,
        /// This section.
        section: SectionNumber,
    },
    /// The annotation that is all the data of an externalizable object.
    ExternalNotes,
    /// A descriptor whose fields have begun: its fields, its annotation, its superclass.
    Descriptor {
        /// Its number in the table.
        number: u32,
        /// What it is read as.
        role: Role,
    },
}

/// A raw value of an object: its section, and its place among the raw values there.
#[derive(Clone, Copy)]
pub(crate) struct RawPlace {
    pub(crate) section: SectionNumber,
    pub(crate) pos: u16,
}

impl Frame {
    /// Counts the next value, where the next part is a value.
    #[inline(always)]
    pub(crate) fn next_value(&mut self) -> bool
        ensures { GivesValue result self.old self.new }
    {
        match self {
            Frame::Elements { left } => {
                if *left == 0 {
                    return false;
                }
                *left -= 1;
                true
            }
            Frame::Fields {
                pos,
                prims,
                values,
                ..
            } => {
                if *pos < *prims || *values == 0 {
                    return false;
                }
                *values -= 1;
                true
            }
            Frame::Notes { .. } | Frame::ExternalNotes | Frame::Descriptor { .. } => false,
        }
    }

    /// Counts the next raw value, where the next part is one.
    #[inline(always)]
    pub(crate) fn next_raw(&mut self) -> Option<RawPlace>
        ensures { GivesRaw result self.old self.new }
    {
        match self {
            Frame::Fields {
                section,
                pos,
                prims,
                ..
            } => {
                if *pos >= *prims {
                    return None;
                }
                let raw = RawPlace {
                    section: *section,
                    pos: *pos,
                };
                *pos += 1;
                Some(raw)
            }
            Frame::Elements { .. } | Frame::Notes { .. } => None,
            Frame::ExternalNotes | Frame::Descriptor { .. } => None,
        }
    }
}
