//! The constants of the stream protocol, by their names in `java.io.ObjectStreamConstants` (Java Object Serialization
//! Specification, section 6.4.2). The flags of a class, `SC_*`, are those of `jser_table`.

/// The first two bytes of a stream.
pub const STREAM_MAGIC: u16 = 0xACED;
/// The two bytes after them.
pub const STREAM_VERSION: u16 = 5;
/// The handle of the first entry of an epoch, as it is written.
pub const BASE_WIRE_HANDLE: u32 = 0x007E_0000;

/// Null.
pub const TC_NULL: u8 = 0x70;
/// A reference: a handle comes next.
pub const TC_REFERENCE: u8 = 0x71;
/// A class descriptor.
pub const TC_CLASSDESC: u8 = 0x72;
/// An object.
pub const TC_OBJECT: u8 = 0x73;
/// A string of at most 65,535 bytes.
pub const TC_STRING: u8 = 0x74;
/// An array.
pub const TC_ARRAY: u8 = 0x75;
/// A class object.
pub const TC_CLASS: u8 = 0x76;
/// Block data of at most 255 bytes.
pub const TC_BLOCKDATA: u8 = 0x77;
/// The end of an annotation.
pub const TC_ENDBLOCKDATA: u8 = 0x78;
/// The table of handles is emptied.
pub const TC_RESET: u8 = 0x79;
/// Block data whose length has four bytes.
pub const TC_BLOCKDATALONG: u8 = 0x7A;
/// A fault of the program that wrote the stream.
pub const TC_EXCEPTION: u8 = 0x7B;
/// A string whose length has eight bytes.
pub const TC_LONGSTRING: u8 = 0x7C;
/// A proxy class descriptor.
pub const TC_PROXYCLASSDESC: u8 = 0x7D;
/// An enum constant.
pub const TC_ENUM: u8 = 0x7E;
