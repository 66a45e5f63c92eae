//! Items: the tokens of a stream as the reader lends them.

/// A token of the stream, or a part of one (Java Object Serialization Specification, section 6.4.2).
///
/// The bytes of a text and of raw values are lent as slices of the piece that was given, in as many parts as the piece
/// has of them; all other items are whole tokens.
#[derive(Clone, Copy, PartialEq, Eq, Debug)]
pub enum Item<'p> {
    /// The header: `STREAM_MAGIC` and `STREAM_VERSION`.
    Header,
    /// A tag.
    Tag(u8),
    /// The handle of a reference, as it is written: `BASE_WIRE_HANDLE` and the number of the entry.
    Handle(u32),
    /// The length of a text in bytes. The text follows in parts; one of no bytes has none.
    TextLength(u64),
    /// Bytes of a text, in modified UTF-8. A part may end within a character.
    TextPart(&'p [u8]),
    /// The serial version UID of a descriptor.
    Suid(u64),
    /// The flags of a descriptor.
    Flags(u8),
    /// The number of fields of a descriptor.
    FieldCount(u16),
    /// The number of interfaces of a proxy descriptor.
    InterfaceCount(u32),
    /// The type code of a field.
    TypeCode(u8),
    /// The number of elements of an array.
    ArrayLength(u32),
    /// The number of bytes of a block, in either form.
    BlockLength(u32),
    /// Bytes of raw values or of a block.
    RawPart(&'p [u8]),
}

/// What the reader answers where it refuses nothing.
#[derive(Clone, Copy, PartialEq, Eq, Debug)]
pub enum Step<'p> {
    /// An item.
    Item {
        /// The item.
        item: Item<'p>,
        /// How many bytes of the piece were taken. The caller goes on with those after them.
        used: usize,
    },
    /// The whole piece was taken, and more bytes are wanted, or the stream has ended.
    More,
}

/// A value of several tokens, lent at once.
#[derive(Clone, Copy, PartialEq, Eq, Debug)]
pub enum Whole<'p> {
    /// A reference: its tag, and its handle as it is written. They are five bytes.
    Reference(u32),
    /// A string: its tag, its length in two bytes, and these bytes of its text, in modified UTF-8.
    String(&'p [u8]),
    /// The beginning of an object, an array, an enum constant or a class object whose class is a reference: its tag, the
    /// tag of the reference, and the handle of the class as it is written. They are six bytes.
    Owner {
        /// The tag.
        tag: u8,
        /// The handle.
        class: u32,
    },
}

/// A declared field of a descriptor, lent at once: its type code, its name, and its type where that is a reference.
#[derive(Clone, Copy, PartialEq, Eq, Debug)]
pub struct Field<'p> {
    /// Its type code.
    pub code: u8,
    /// The bytes of its name, in modified UTF-8.
    pub name: &'p [u8],
    /// The handle of its type as it is written, where that is a reference. None where the field has no type, and where items
    /// that come later tell it.
    pub type_handle: Option<u32>,
}

/// What a stream holds that was read to its end.
#[derive(Clone, Copy, PartialEq, Eq, Debug)]
pub struct Totals {
    /// How many bytes it has.
    pub bytes: u64,
    /// How many contents: values, blocks and resets at the top.
    pub contents: u64,
    /// How many places: values, and superclass places.
    pub refs: u64,
    /// The greatest depth of a place.
    pub depth: u64,
    /// How many handles were assigned, in all epochs.
    pub handles: u64,
}
