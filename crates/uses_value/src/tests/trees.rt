//! Worked streams as trees, with their bytes. The bytes are those of the format's worked examples.

use jser_prim::units_of;
use jser_value::{Body, ClassPlace, Content, Desc, Field, Prim, Section, Text, TextPlace, Value};
use std::alloc::{AllocError, Global};

/// What builds a worked stream.
pub type Build = Result<Vec<Content>, AllocError>;

/// A new short string.
pub fn text(alloc: Global, units: &str) -> Result<Text, AllocError> {
    Ok(Text {
        long: false,
        units: units_of(alloc, units)?,
    })
}

/// A field, with its type where it has one.
pub fn field(alloc: Global, code: u8, name: &str, of: Option<&str>) -> Result<Field, AllocError> {
    Ok(Field {
        code,
        name: units_of(alloc, name)?,
        text: match of {
            Some(of) => Some(TextPlace::New(text(alloc, of)?)),
            None => None,
        },
    })
}

/// A plain descriptor with no annotation.
pub fn plain(
    alloc: Global,
    name: &str,
    suid: u64,
    flags: u8,
    fields: Vec<Field>,
    parent: ClassPlace,
) -> Result<ClassPlace, AllocError> {
    let desc = Desc::Plain {
        name: units_of(alloc, name)?,
        suid,
        flags,
        fields,
        notes: Vec::new(alloc),
        parent,
    };
    Ok(ClassPlace::New(Box::new(alloc, desc)?))
}

/// The section of a class that writes no annotation.
pub fn section(prims: Vec<Prim>, values: Vec<Value>) -> Section {
    Section {
        prims,
        values,
        notes: None,
    }
}

/// A list of one value.
fn one(alloc: Global, value: Value) -> Build {
    Ok(vec![in alloc; Content::Value(value)]?)
}

/// A list of one object.
fn one_object(alloc: Global, descr: ClassPlace, sections: Vec<Section>) -> Build {
    one(alloc, Value::Object { descr, sections })
}

/// One field of a primitive type.
fn one_field(alloc: Global, code: u8, name: &str) -> Result<Vec<Field>, AllocError> {
    let field = field(alloc, code, name, None)?;
    Ok(vec![in alloc; field]?)
}

/// A block of these bytes.
fn block(alloc: Global, bytes: &[u8]) -> Result<Content, AllocError> {
    Ok(Content::Block {
        long: false,
        bytes: bytes.to_vec(alloc)?,
    })
}

/// A string, NULL and a reference to the string.
pub fn abc_null_ref(alloc: Global) -> Build {
    Ok(vec![in alloc;
        Content::Value(Value::Text(text(alloc, "abc")?)),
        Content::Value(Value::Null),
        Content::Value(Value::Back(0)),
    ]?)
}

pub const ABC_NULL_REF: &[u8] = b"\xAC\xED\x00\x05\x74\x00\x03abc\x70\x71\x00\x7E\x00\x00";

/// The class `List`.
fn list_class(alloc: Global) -> Result<ClassPlace, AllocError> {
    let value = field(alloc, b'I', "value", None)?;
    let next = field(alloc, b'L', "next", Some("LList;"))?;
    let fields = vec![in alloc; value, next]?;
    plain(
        alloc,
        "List",
        0x69C8_8A15_4016_AE68,
        2,
        fields,
        ClassPlace::Null,
    )
}

/// An object of the class `List`.
fn list_object(
    alloc: Global,
    descr: ClassPlace,
    value: u32,
    next: Value,
) -> Result<Value, AllocError> {
    let values = vec![in alloc; next]?;
    let prims = vec![in alloc; Prim::I(value)]?;
    let sections = vec![in alloc; section(prims, values)]?;
    Ok(Value::Object { descr, sections })
}

/// Two linked objects of one class, and a reference to the second.
pub fn linked_pair(alloc: Global) -> Build {
    let second = list_object(alloc, ClassPlace::Back(0), 0x13, Value::Null)?;
    let first = list_object(alloc, list_class(alloc)?, 0x11, second)?;
    Ok(vec![in alloc; Content::Value(first), Content::Value(Value::Back(3))]?)
}

pub const LINKED_PAIR: &[u8] =
    b"\xAC\xED\x00\x05\x73\x72\x00\x04List\x69\xC8\x8A\x15\x40\x16\xAE\x68\x02\x00\x02\
    I\x00\x05valueL\x00\x04next\x74\x00\x06LList;\x78\x70\x00\x00\x00\x11\x73\x71\x00\x7E\x00\x00\x00\x00\x00\x13\x70\
    \x71\x00\x7E\x00\x03";

/// An array of two ints, 1 and -1.
pub fn int_array(alloc: Global) -> Build {
    let descr = plain(
        alloc,
        "[I",
        0x4DBA_6026_76EA_B2A5,
        2,
        Vec::new(alloc),
        ClassPlace::Null,
    )?;
    let body = Body::Prims(vec![in alloc; Prim::I(1), Prim::I(0xFFFF_FFFF)]?);
    one(alloc, Value::Array { descr, body })
}

pub const INT_ARRAY: &[u8] =
    b"\xAC\xED\x00\x05\x75\x72\x00\x02[I\x4D\xBA\x60\x26\x76\xEA\xB2\xA5\x02\x00\x00\x78\x70\
    \x00\x00\x00\x02\x00\x00\x00\x01\xFF\xFF\xFF\xFF";

/// The constant `A` of the enum `E`.
pub fn enum_constant(alloc: Global) -> Build {
    let parent = plain(
        alloc,
        "java.lang.Enum",
        0,
        0x12,
        Vec::new(alloc),
        ClassPlace::Null,
    )?;
    let descr = plain(alloc, "E", 0, 0x12, Vec::new(alloc), parent)?;
    let name = TextPlace::New(text(alloc, "A")?);
    one(alloc, Value::EnumConst { descr, name })
}

pub const ENUM_CONSTANT: &[u8] =
    b"\xAC\xED\x00\x05\x7E\x72\x00\x01E\x00\x00\x00\x00\x00\x00\x00\x00\x12\x00\x00\x78\
    \x72\x00\x0Ejava.lang.Enum\x00\x00\x00\x00\x00\x00\x00\x00\x12\x00\x00\x78\x70\x74\x00\x01A";

/// The class `java.lang.reflect.Proxy`.
fn proxy_parent(alloc: Global) -> Result<ClassPlace, AllocError> {
    let handler = field(
        alloc,
        b'L',
        "h",
        Some("Ljava/lang/reflect/InvocationHandler;"),
    )?;
    let fields = vec![in alloc; handler]?;
    plain(
        alloc,
        "java.lang.reflect.Proxy",
        0xE127_DA20_CC10_43CB,
        2,
        fields,
        ClassPlace::Null,
    )
}

/// The class of proxies of the interface `I`.
fn proxy_class(alloc: Global) -> Result<ClassPlace, AllocError> {
    let parent = proxy_parent(alloc)?;
    let desc = Desc::Proxy {
        interfaces: vec![in alloc; units_of(alloc, "I")?]?,
        notes: Vec::new(alloc),
        parent,
    };
    Ok(ClassPlace::New(Box::new(alloc, desc)?))
}

/// A dynamic proxy of the interface `I` with no handler.
pub fn proxy(alloc: Global) -> Build {
    let above = section(Vec::new(alloc), vec![in alloc; Value::Null]?);
    let own = section(Vec::new(alloc), Vec::new(alloc));
    let sections = vec![in alloc; above, own]?;
    one_object(alloc, proxy_class(alloc)?, sections)
}

pub const PROXY: &[u8] =
    b"\xAC\xED\x00\x05\x73\x7D\x00\x00\x00\x01\x00\x01I\x78\x72\x00\x17java.lang.reflect.Proxy\
    \xE1\x27\xDA\x20\xCC\x10\x43\xCB\x02\x00\x01L\x00\x01h\x74\x00\x25Ljava/lang/reflect/InvocationHandler;\x78\x70\x70";

/// Two epochs of one string each; the reference names the second.
pub fn reset_epochs(alloc: Global) -> Build {
    Ok(vec![in alloc;
        Content::Value(Value::Text(text(alloc, "a")?)),
        Content::Reset,
        Content::Value(Value::Text(text(alloc, "b")?)),
        Content::Value(Value::Back(0)),
    ]?)
}

pub const RESET_EPOCHS: &[u8] =
    b"\xAC\xED\x00\x05\x74\x00\x01a\x79\x74\x00\x01b\x71\x00\x7E\x00\x00";

/// The externalizable class `A`, whose superclass `B` is serializable.
fn external_class(alloc: Global) -> Result<ClassPlace, AllocError> {
    let n = one_field(alloc, b'I', "n")?;
    let parent = plain(alloc, "B", 2, 2, n, ClassPlace::Null)?;
    plain(alloc, "A", 1, 0x0C, Vec::new(alloc), parent)
}

/// An externalizable class over a serializable one: one section, an annotation.
pub fn external_over_serial(alloc: Global) -> Build {
    let block = block(alloc, &[5])?;
    let written = Section {
        prims: Vec::new(alloc),
        values: Vec::new(alloc),
        notes: Some(vec![in alloc; block]?),
    };
    let sections = vec![in alloc; written]?;
    one_object(alloc, external_class(alloc)?, sections)
}

pub const EXTERNAL_OVER_SERIAL: &[u8] =
    b"\xAC\xED\x00\x05\x73\x72\x00\x01A\x00\x00\x00\x00\x00\x00\x00\x01\x0C\x00\x00\x78\
    \x72\x00\x01B\x00\x00\x00\x00\x00\x00\x00\x02\x02\x00\x01I\x00\x01n\x78\x70\x77\x01\x05\x78";

/// The class `java.util.ArrayList`.
fn array_list_class(alloc: Global) -> Result<ClassPlace, AllocError> {
    let size = one_field(alloc, b'I', "size")?;
    plain(
        alloc,
        "java.util.ArrayList",
        0x7881_D21D_99C7_619D,
        3,
        size,
        ClassPlace::Null,
    )
}

/// The annotation of an `ArrayList` that holds a string.
fn array_list_notes(alloc: Global) -> Build {
    let held = Content::Value(Value::Text(text(alloc, "a")?));
    let capacity = block(alloc, &[0, 0, 0, 1])?;
    Ok(vec![in alloc; capacity, held]?)
}

/// An `ArrayList` that holds a string.
pub fn array_list(alloc: Global) -> Build {
    let notes = array_list_notes(alloc)?;
    let written = Section {
        prims: vec![in alloc; Prim::I(1)]?,
        values: Vec::new(alloc),
        notes: Some(notes),
    };
    let sections = vec![in alloc; written]?;
    one_object(alloc, array_list_class(alloc)?, sections)
}

pub const ARRAY_LIST: &[u8] =
    b"\xAC\xED\x00\x05\x73\x72\x00\x13java.util.ArrayList\x78\x81\xD2\x1D\x99\xC7\x61\x9D\x03\x00\x01\
    I\x00\x04size\x78\x70\x00\x00\x00\x01\x77\x04\x00\x00\x00\x01\x74\x00\x01a\x78";

/// The class `B`, whose superclass is `A`.
fn superclass_first_class(alloc: Global) -> Result<ClassPlace, AllocError> {
    let b = one_field(alloc, b'B', "b")?;
    let parent = plain(alloc, "A", 1, 3, b, ClassPlace::Null)?;
    plain(alloc, "B", 2, 2, one_field(alloc, b'I', "i")?, parent)
}

/// The data of the superclass comes first.
pub fn superclass_first(alloc: Global) -> Build {
    let above = Section {
        prims: vec![in alloc; Prim::B(7)]?,
        values: Vec::new(alloc),
        notes: Some(Vec::new(alloc)),
    };
    let own = section(vec![in alloc; Prim::I(9)]?, Vec::new(alloc));
    let sections = vec![in alloc; above, own]?;
    one_object(alloc, superclass_first_class(alloc)?, sections)
}

pub const SUPERCLASS_FIRST: &[u8] =
    b"\xAC\xED\x00\x05\x73\x72\x00\x01B\x00\x00\x00\x00\x00\x00\x00\x02\x02\x00\x01I\x00\x01i\x78\
    \x72\x00\x01A\x00\x00\x00\x00\x00\x00\x00\x01\x03\x00\x01B\x00\x01b\x78\x70\x07\x78\x00\x00\x00\x09";
