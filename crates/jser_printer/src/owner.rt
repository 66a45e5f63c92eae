//! The owners of class places: objects, arrays, enum constants and class objects.

/// What a class place belongs to.
#[derive(Clone, Copy, PartialEq, Eq, Hash, Debug)]
pub enum Owner {
    /// An object.
    Object,
    /// An array.
    Array,
    /// An enum constant.
    EnumConst,
    /// A class object.
    ClassObject,
}

/// Which node an owner's tag begins.
#[derive(Clone, Copy, PartialEq, Eq, Hash, Debug)]
pub struct OwnerNode {
    /// The number of its handle in its epoch.
    pub number: u32,
    /// How many elements an array has; 0 for the others.
    pub elements: u32,
}
