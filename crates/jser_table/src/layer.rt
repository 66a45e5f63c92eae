//! Layers: what an object's data needs of each class of a chain.
use crate::codes::Codes;

/// What the elements of an array are.
#[derive(Clone, Copy, PartialEq, Eq, Hash, Debug)]
pub enum BodyKind {
    /// Raw values of the primitive with this type code.
    Prim(u8),
    /// Values: references, objects, arrays and the like.
    Values,
}

/// What a layer's class is.
#[derive(Clone, Copy, PartialEq, Eq, Hash, Debug)]
pub enum LayerKind {
    /// A dynamic proxy class.
    Proxy,
    /// A plain descriptor whose name is an array name.
    Array(BodyKind),
    /// Any other plain descriptor.
    Other,
}

/// What a class place names a class for.
#[derive(Clone, Copy, PartialEq, Eq, Hash, Debug)]
pub enum Purpose {
    /// The class of an object.
    Object,
    /// The class of an array.
    Array,
    /// The class of an enum constant.
    EnumConst,
}

/// Whether a class fits a purpose, or the first thing that is wrong with it.
#[derive(Clone, Copy, PartialEq, Eq, Hash, Debug)]
pub enum Fit {
    /// It fits.
    Fits,
    /// An object's class is an array, an array's is none, or an enum constant's is no enum.
    WrongClass,
    /// An externalizable class of an object writes no block data, so its end cannot be told.
    ExternalRaw,
    /// A class in an object's chain is neither a proxy nor serializable.
    NotSerializable,
}

/// One class of a chain, as far as the data of its objects depends on it.
#[derive(Debug, Drop)]
pub struct Layer {
    /// What the class is.
    pub kind: LayerKind,
    /// The flags of its descriptor. A stream says none of a proxy, and a reader gives 0.
    pub flags: u8,
    /// The type codes of its fields, in order. A stream says none of a proxy, and a reader gives none.
    pub codes: Codes,
}
