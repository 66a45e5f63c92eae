//! Tokens, as a reader lends them.

/// A token of the stream (Java Object Serialization Specification, section 6.4.2).
#[derive(Clone, Copy)]
pub enum Token<'f> {
    /// The header: `STREAM_MAGIC` and `STREAM_VERSION`.
    Header,
    /// A tag: of a value, of a block, or `TC_ENDBLOCKDATA` or `TC_RESET`.
    Tag(u8),
    /// The handle of a reference, as it is written: `BASE_WIRE_HANDLE` and the number of the entry.
    Handle(u32),
    /// The serial version UID of a descriptor.
    Suid(u64),
    /// The flags of a descriptor.
    Flags(u8),
    /// The number of fields of a descriptor.
    FieldCount(u16),
    /// The number of interfaces of a proxy descriptor.
    InterfaceCount(u32),
    /// The number of elements of an array.
    ArrayLength(u32),
    /// The type code of a field.
    TypeCode(u8),
    /// The number of bytes of a block, in either form.
    BlockLength(u32),
    /// The UTF-16 units of a text, in either form.
    Text(&'f [u16]),
    /// The bytes of raw values or of a block.
    Raw(&'f [u8]),
}
