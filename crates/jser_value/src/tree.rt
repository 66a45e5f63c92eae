//! The contents of a stream as a tree, one type for each form of the grammar. A tree may be wrong: a type
//! says what can be written down, and `Contents` says which lists obey the format.
//!
//! To drop, compare and print a tree takes a call for each of its levels. The contents of a `Contents` have at most 1,000; a
//! tree of a million levels may overflow the stack, so build none that is deeper than that.

/// A content of a stream or of an annotation. Dropping, comparing and debug-printing it recurse as deep as it is nested.
#[derive(PartialEq, Eq, Debug, Drop)]
#[cycle(tree)]
pub enum Content {
    /// Block data (TC_BLOCKDATA, or TC_BLOCKDATALONG where `long`).
    Block {
        /// Whether the size is written in 4 bytes, else in 1.
        long: bool,
        /// The bytes.
        bytes: Vec<u8>,
    },
    /// TC_RESET: the handles begin anew. It stands at the top only.
    Reset,
    /// A value.
    Value(Value),
}

/// A value: what may be an object's field, an array's element or a content.
#[derive(PartialEq, Eq, Debug, Drop)]
#[cycle(tree)]
pub enum Value {
    /// TC_NULL.
    Null,
    /// TC_REFERENCE: `Back(n)` is the handle `BASE_WIRE_HANDLE` + n.
    Back(u32),
    /// A string.
    Text(Text),
    /// A class descriptor as a value.
    Desc(Box<Desc>),
    /// TC_CLASS: a class object.
    ClassObject(ClassPlace),
    /// TC_ARRAY.
    Array {
        /// The array's class.
        descr: ClassPlace,
        /// Its elements.
        body: Body,
    },
    /// TC_ENUM.
    EnumConst {
        /// The enum's class.
        descr: ClassPlace,
        /// The constant's name.
        name: TextPlace,
    },
    /// TC_OBJECT.
    Object {
        /// The object's class.
        descr: ClassPlace,
        /// What each class of its chain wrote, the highest superclass first.
        sections: Vec<Section>,
    },
}

/// A string (TC_STRING, or TC_LONGSTRING where `long`).
#[derive(PartialEq, Eq, Debug, Drop)]
pub struct Text {
    /// Whether the length is written in 8 bytes, else in 2.
    pub long: bool,
    /// The UTF-16 units.
    pub units: Vec<u16>,
}

/// What stands where the grammar asks for a string: a field's type, a constant's name.
#[derive(PartialEq, Eq, Debug, Drop)]
pub enum TextPlace {
    /// A new string.
    New(Text),
    /// A reference to an earlier one, by the handle `BASE_WIRE_HANDLE` + n.
    Back(u32),
}

/// What stands where the grammar asks for a class.
#[derive(PartialEq, Eq, Debug, Drop)]
#[cycle(tree)]
pub enum ClassPlace {
    /// A new descriptor.
    New(Box<Desc>),
    /// A reference to an earlier one, by the handle `BASE_WIRE_HANDLE` + n.
    Back(u32),
    /// TC_NULL: no class. It stands for a superclass only.
    Null,
}

/// A class descriptor.
#[derive(PartialEq, Eq, Debug, Drop)]
#[cycle(tree)]
pub enum Desc {
    /// A plain descriptor (TC_CLASSDESC).
    Plain {
        /// The name of the class.
        name: Vec<u16>,
        /// The serialVersionUID.
        suid: u64,
        /// The flags SC_WRITE_METHOD and so on.
        flags: u8,
        /// The serializable fields.
        fields: Vec<Field>,
        /// The annotation that the writer of the class put there.
        notes: Vec<Content>,
        /// The superclass.
        parent: ClassPlace,
    },
    /// A dynamic proxy class (TC_PROXYCLASSDESC).
    Proxy {
        /// The names of the interfaces.
        interfaces: Vec<Vec<u16>>,
        /// The annotation that the writer of the class put there.
        notes: Vec<Content>,
        /// The superclass.
        parent: ClassPlace,
    },
}

/// A field of a plain descriptor.
#[derive(PartialEq, Eq, Debug, Drop)]
pub struct Field {
    /// The type code: a byte of `BCDFIJSZ`, `[` or `L`.
    pub code: u8,
    /// The name of the field.
    pub name: Vec<u16>,
    /// The type, where the code is `[` or `L`.
    pub text: Option<TextPlace>,
}

/// What one class of an object's chain wrote.
#[derive(PartialEq, Eq, Debug, Drop)]
#[cycle(tree)]
pub struct Section {
    /// The values of its primitive fields.
    pub prims: Vec<Raw>,
    /// The values of its object fields.
    pub values: Vec<Value>,
    /// The annotation of its `writeObject` or `writeExternal`, where it has one.
    pub notes: Option<Vec<Content>>,
}

/// The elements of an array.
#[derive(PartialEq, Eq, Debug, Drop)]
#[cycle(tree)]
pub enum Body {
    /// Raw values of a primitive type.
    Prims(Vec<Raw>),
    /// Values.
    Values(Vec<Value>),
}

/// A primitive value as raw bits, by its type code.
#[derive(Clone, Copy, PartialEq, Eq, Debug)]
pub enum Raw {
    /// A byte.
    B(u8),
    /// A char.
    C(u16),
    /// A double.
    D(u64),
    /// A float.
    F(u32),
    /// An int.
    I(u32),
    /// A long.
    J(u64),
    /// A short.
    S(u16),
    /// A boolean: every byte is kept.
    Z(u8),
}
