//! Sections: what an object's data holds for one class of its chain (Java Object Serialization
//! Specification, section 6.4.2, `classdata`).
//!
//! Only a layer with fields or an annotation has a section. Sections are numbered in the order in which
//! their classes were closed. Each keeps the number of the one that was closed first just under it, so the
//! sections of most classes are found link by link, from the first down; the others by a walk up from the last.
use std::marker::Model;

/// The number of a section, counted from 0 in each epoch. Contracts see it as a number.
#[derive(Clone, Copy, PartialEq, Eq, Hash, Debug)]
pub struct SectionNumber {
    pub(crate) number: u32,
}

impl Model for SectionNumber {
    ghost use Rattle.std.specs.Prelude.{ℕ};

    ghost Value = { ℕ };

    ghost view = { λ a. a.number };

    ghost inverse = { λ n. record { number = n } };
}

/// What a section holds.
#[derive(Clone, Copy, PartialEq, Eq, Hash, Debug)]
pub struct Section {
    /// How many bytes its raw values have together.
    pub raw_bytes: u32,
    /// How many raw values it begins with: fields of primitive types.
    pub prims: u16,
    /// How many values follow them: fields of the other types.
    pub values: u16,
    /// Whether an annotation follows the fields.
    pub is_annotated: bool,
}

/// The sections of an object's data, by the first and the last of them.
#[derive(Clone, Copy, PartialEq, Eq, Hash, Debug)]
pub struct Sections {
    /// The one that comes first: that of the highest superclass that has one.
    pub first: SectionNumber,
    /// The one that comes last: that of the class itself, or of the lowest superclass that has one.
    pub last: SectionNumber,
}
