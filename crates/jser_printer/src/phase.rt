//! Phases: what comes before all frames.

use crate::owner::Owner;
use crate::primitive::Primitive;

/// A descriptor that has its handle.
#[derive(Clone, Copy)]
pub(crate) struct Head {
    /// The level of its lines.
    pub(crate) level: u64,
    /// The number of its handle.
    pub(crate) number: usize,
}

/// What comes before the next field of a descriptor.
#[derive(Clone, Copy)]
pub(crate) enum Over {
    /// Nothing.
    Nothing,
    /// The end of a line.
    LineEnd,
    /// The word before a type.
    TypeWord,
    /// The place of a type text.
    Place,
    /// The units of that.
    Text,
    /// Or the handle of a reference there.
    Handle,
}

/// What comes before the frames. The name and the fields of the descriptor are kept beside it.
#[derive(Clone, Copy)]
pub(crate) enum Phase {
    /// Nothing.
    Frames,
    Header,
    /// The handle of a reference.
    Handle,
    /// The units of a string.
    Text,
    BlockLength,
    Block,
    ArrayLength {
        level: u64,
        /// The type of its elements, where it is primitive.
        elements: Option<Primitive>,
    },
    EnumName {
        level: u64,
    },
    Class {
        owner: Owner,
        level: u64,
    },
    ClassHandle {
        owner: Owner,
        level: u64,
    },
    ClassName {
        level: u64,
    },
    Suid {
        level: u64,
    },
    Flags {
        head: Head,
    },
    FieldCount {
        head: Head,
        flags: u8,
    },
    Fields {
        head: Head,
        flags: u8,
        left: u16,
        over: Over,
    },
    FieldName {
        head: Head,
        flags: u8,
        code: u8,
        left: u16,
    },
    InterfaceCount {
        head: Head,
    },
    Interfaces {
        head: Head,
        left: u32,
    },
}
