//! Worked streams of the format, each of which is a stream, with their names.

use jser_grammar::wire::TC_NULL;
use std::alloc::{AllocError, Global};

/// The header, and no content.
pub const EMPTY_STREAM: &[u8] = b"\xAC\xED\x00\x05";

/// A string, NULL and a reference to the string.
pub const ABC_NULL_REF: &[u8] = b"\xAC\xED\x00\x05\x74\x00\x03abc\x70\x71\x00\x7E\x00\x00";

/// Two linked objects of the class `List`, and a reference to the second.
pub const LINKED_PAIR: &[u8] =
    b"\xAC\xED\x00\x05\x73\x72\x00\x04List\x69\xC8\x8A\x15\x40\x16\xAE\x68\x02\x00\x02\x49\x00\x05value\x4C\x00\x04next\x74\x00\x06LList;\x78\x70\x00\x00\x00\x11\x73\x71\x00\x7E\x00\x00\x00\x00\x00\x13\x70\x71\x00\x7E\x00\x03";

/// `int[] {1, -1}`.
pub const INT_ARRAY: &[u8] =
    b"\xAC\xED\x00\x05\x75\x72\x00\x02[I\x4D\xBA\x60\x26\x76\xEA\xB2\xA5\x02\x00\x00\x78\x70\x00\x00\x00\x02\x00\x00\x00\x01\xFF\xFF\xFF\xFF";

/// `int[] {}`.
pub const INT_ARRAY_EMPTY: &[u8] =
    b"\xAC\xED\x00\x05\x75\x72\x00\x02[I\x4D\xBA\x60\x26\x76\xEA\xB2\xA5\x02\x00\x00\x78\x70\x00\x00\x00\x00";

/// The constant `A` of the enum `E`.
pub const ENUM_CONSTANT: &[u8] =
    b"\xAC\xED\x00\x05\x7E\x72\x00\x01E\x00\x00\x00\x00\x00\x00\x00\x00\x12\x00\x00\x78\x72\x00\x0Ejava.lang.Enum\x00\x00\x00\x00\x00\x00\x00\x00\x12\x00\x00\x78\x70\x74\x00\x01A";

/// A proxy of the interface `I`, whose handler is NULL.
pub const PROXY: &[u8] =
    b"\xAC\xED\x00\x05\x73\x7D\x00\x00\x00\x01\x00\x01I\x78\x72\x00\x17java.lang.reflect.Proxy\xE1\x27\xDA\x20\xCC\x10\x43\xCB\x02\x00\x01\x4C\x00\x01h\x74\x00\x25Ljava/lang/reflect/InvocationHandler;\x78\x70\x70";

/// Two strings, each in an epoch of its own, and a reference to the second.
pub const RESET_EPOCHS: &[u8] =
    b"\xAC\xED\x00\x05\x74\x00\x01a\x79\x74\x00\x01b\x71\x00\x7E\x00\x00";

/// A class descriptor in whose annotation a reference to it stands.
pub const OWN_SUPERCLASS: &[u8] =
    b"\xAC\xED\x00\x05\x72\x00\x01A\x00\x00\x00\x00\x00\x00\x00\x01\x02\x00\x00\x71\x00\x7E\x00\x00\x78\x70";

/// A class object of an externalizable class that writes no block data.
pub const EXTERNAL_RAW: &[u8] =
    b"\xAC\xED\x00\x05\x76\x72\x00\x01A\x00\x00\x00\x00\x00\x00\x00\x01\x04\x00\x00\x78\x70";

/// An object of an externalizable class over a serializable one.
pub const EXTERNAL_OVER_SERIAL: &[u8] =
    b"\xAC\xED\x00\x05\x73\x72\x00\x01A\x00\x00\x00\x00\x00\x00\x00\x01\x0C\x00\x00\x78\x72\x00\x01B\x00\x00\x00\x00\x00\x00\x00\x02\x02\x00\x01\x49\x00\x01n\x78\x70\x77\x01\x05\x78";

/// A string of one surrogate.
pub const ODD_TEXTS: &[u8] = b"\xAC\xED\x00\x05\x74\x00\x03\xED\xA0\x80";

/// A block of no bytes.
pub const BLOCKS: &[u8] = b"\xAC\xED\x00\x05\x77\x00";

/// An `ArrayList` that holds the string `a`.
pub const ARRAY_LIST: &[u8] =
    b"\xAC\xED\x00\x05\x73\x72\x00\x13java.util.ArrayList\x78\x81\xD2\x1D\x99\xC7\x61\x9D\x03\x00\x01\x49\x00\x04size\x78\x70\x00\x00\x00\x01\x77\x04\x00\x00\x00\x01\x74\x00\x01a\x78";

/// An object whose superclass has a byte and an annotation, and it an int.
pub const SUPERCLASS_FIRST: &[u8] =
    b"\xAC\xED\x00\x05\x73\x72\x00\x01B\x00\x00\x00\x00\x00\x00\x00\x02\x02\x00\x01\x49\x00\x01i\x78\x72\x00\x01A\x00\x00\x00\x00\x00\x00\x00\x01\x03\x00\x01\x42\x00\x01b\x78\x70\x07\x78\x00\x00\x00\x09";

/// A string whose length is written in eight bytes.
pub const LONG_STRING: &[u8] = b"\xAC\xED\x00\x05\x7C\x00\x00\x00\x00\x00\x00\x00\x01a";

/// All of them, by their names.
pub const STREAMS: [(&str, &[u8]); 16] = [
    ("empty-stream", EMPTY_STREAM),
    ("abc-null-ref", ABC_NULL_REF),
    ("linked-pair", LINKED_PAIR),
    ("int-array", INT_ARRAY),
    ("int-array-empty", INT_ARRAY_EMPTY),
    ("enum-constant", ENUM_CONSTANT),
    ("proxy", PROXY),
    ("reset-epochs", RESET_EPOCHS),
    ("own-superclass", OWN_SUPERCLASS),
    ("external-raw", EXTERNAL_RAW),
    ("external-over-serial", EXTERNAL_OVER_SERIAL),
    ("odd-texts", ODD_TEXTS),
    ("blocks", BLOCKS),
    ("array-list", ARRAY_LIST),
    ("superclass-first", SUPERCLASS_FIRST),
    ("long-string", LONG_STRING),
];

/// So many arrays of the class `[LA;`, one inside the other, the innermost holding NULL: the first one with the
/// descriptor of its class, the others with a reference to it.
///
/// # Errors
///
/// Where memory runs out.
pub fn nest(alloc: Global, arrays: usize) -> Result<Vec<u8>, AllocError> {
    let front =
        b"\xAC\xED\x00\x05\x75\x72\x00\x04[LA;\x00\x00\x00\x00\x00\x00\x00\x01\x02\x00\x00\x78\x70\x00\x00\x00\x01";
    let mut bytes = front.to_vec(alloc)?;
    for _ in 1..arrays {
        bytes.extend_from_slice(b"\x75\x71\x00\x7E\x00\x00\x00\x00\x00\x01")?;
    }
    bytes.push(TC_NULL)?;
    Ok(bytes)
}

/// A stream of 93,836 bytes: class descriptors with 300 names of 200 units, as `large_name` has them, and one of 20,000
/// units, and then arrays of the class `[LA;`, 900 deep.
///
/// By the definitions it has 302 contents; two places for each of the 301 descriptors, itself and its superclass, and 902 in
/// the arrays, so 1,504; depth 901; and 301 handles of descriptors and 901 of arrays and their class, so 1,202.
///
/// # Errors
///
/// Where memory runs out.
pub fn large(alloc: Global) -> Result<Vec<u8>, AllocError> {
    let mut bytes = EMPTY_STREAM.to_vec(alloc)?;
    for high in LARGE_NAMES_HIGH {
        for low in LARGE_NAMES_LOW {
            push_large_descriptor(&mut bytes, *high, *low)?;
        }
    }
    bytes.extend_from_slice(b"\x72\x4E\x20")?;
    push_copies(&mut bytes, b'y', 20_000)?;
    bytes.extend_from_slice(DESCRIPTOR_TAIL)?;
    push_nest_of_900(&mut bytes)?;
    Ok(bytes)
}

/// The first letters of the names of `large`.
pub const LARGE_NAMES_HIGH: &[u8] = b"abcdefghijklmno";

/// Their second letters.
pub const LARGE_NAMES_LOW: &[u8] = b"abcdefghijklmnopqrst";

/// The rest of a class descriptor of a serializable class without fields, behind its name.
const DESCRIPTOR_TAIL: &[u8] = b"\x00\x00\x00\x00\x00\x00\x00\x01\x02\x00\x00\x78\x70";

/// Puts a descriptor with a name of 200 units behind the bytes.
fn push_large_descriptor(bytes: &mut Vec<u8>, high: u8, low: u8) -> Result<(), AllocError> {
    bytes.extend_from_slice(b"\x72\x00\xC8")?;
    push_large_name(bytes, high, low)?;
    bytes.extend_from_slice(DESCRIPTOR_TAIL)
}

/// Puts a name of 200 units behind the bytes: these two, and 198 times `x`.
///
/// # Errors
///
/// Where memory runs out.
pub fn push_large_name(bytes: &mut Vec<u8>, high: u8, low: u8) -> Result<(), AllocError> {
    bytes.push(high)?;
    bytes.push(low)?;
    push_copies(bytes, b'x', 198)
}

/// Puts so many copies of one byte behind the bytes.
///
/// # Errors
///
/// Where memory runs out.
pub fn push_copies(bytes: &mut Vec<u8>, byte: u8, count: usize) -> Result<(), AllocError> {
    for _ in 0..count {
        bytes.push(byte)?;
    }
    Ok(())
}

/// Puts arrays behind the bytes, 900 deep, the first with the descriptor of their class, which has the handle 0x7E012D.
fn push_nest_of_900(bytes: &mut Vec<u8>) -> Result<(), AllocError> {
    bytes.extend_from_slice(b"\x75\x72\x00\x04[LA;")?;
    bytes.extend_from_slice(DESCRIPTOR_TAIL)?;
    bytes.extend_from_slice(b"\x00\x00\x00\x01")?;
    for _ in 1..900 {
        bytes.extend_from_slice(b"\x75\x71\x00\x7E\x01\x2D\x00\x00\x00\x01")?;
    }
    bytes.push(TC_NULL)?;
    Ok(())
}
