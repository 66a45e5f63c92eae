//! What the table keeps of a class whose descriptor has ended, beside what `jser_table` keeps.

use jser_table::ChainNumber;

/// A class.
#[derive(Drop)]
pub(crate) struct KeptClass {
    /// Its number, by which `jser_table` finds its chain.
    pub(crate) chain: ChainNumber,
    /// The number of its own layer.
    pub(crate) own: u32,
    /// How many layers its chain has.
    pub(crate) layers: u32,
    /// How many of its superclasses, from the parent on, have the numbers just before its own: their layers are found at
    /// once.
    pub(crate) straight: u32,
}

/// The parent of a class, by its handle and its number.
#[derive(Clone, Copy)]
pub(crate) struct Parent {
    pub(crate) handle: u32,
    pub(crate) class: u32,
}
