//! The type codes of a class's fields (Java Object Serialization Specification, section 6.4.1).
ghost use Rattle.std.specs.Prelude.{◌≡◌, ◌<◌, ◌≤◌, ◌^◌, ◌*◌, length, slice_get, option_map, Some};
ghost use Rattle.jser_table.specs.Chains.{is_empty, has_write_method};
ghost use Rattle.jser_table.specs.Codes.{prim_code_of, size_of, primitive_codes, object_count, raw_size, AreLeading};

use crate::section::Section;
use std::marker::Model;

/// The type codes of a class's fields, in the order of its descriptor: at most 32,767, as the format has it.
#[derive(Debug, Drop)]
pub struct Codes {
    codes: Vec<u8>,
}

impl Model for Codes {
    ghost use Rattle.std.specs.Prelude.{List, ℕ, ◌<◌, ◌^◌, length};

    ghost Value = { List ℕ };

    ghost view = { λ a. a.codes.items };

    ghost invariant = { λ a. length a.codes.items < 2 ^ 15 };
}

impl Codes {
    /// These codes, of which there are at most 32,767: a descriptor has no more fields (specification, section 6.4.2).
    /// Takes no memory.
    pub fn new(codes: Vec<u8>) -> Codes
        requires { length codes.items < 2 ^ 15 }
        ensures { result ≡ codes.items }
    {
        Self { codes }
    }

    /// The codes, in order.
    pub fn as_slice(&self) -> &[u8]
        ensures codes { result.now ≡ self.now }
        ensures few { length result.now < 2 ^ 15 }
    {
        self.codes.as_slice()
    }

    /// Whether there are none.
    pub fn is_empty(&self) -> bool
        ensures { result ≡ is_empty self.now }
    {
        self.as_slice().is_empty()
    }

    /// Gives the vector back. Takes no memory.
    pub fn into_vec(self) -> Vec<u8>
        ensures { result.items ≡ self }
    {
        let Codes { codes } = self;
        codes
    }
}

/// How many codes of each sort a class has.
#[derive(Clone, Copy)]
pub(crate) struct Counts {
    pub(crate) raw_bytes: u32,
    pub(crate) prims: u16,
    pub(crate) values: u16,
}

/// How many of these codes are those of primitive types, how many bytes these have together, and how many
/// are left.
pub(crate) fn counts_of(codes: &[u8]) -> Counts
    requires { length codes.now < 2 ^ 15 }
    ensures prims { result.prims ≡ length (primitive_codes codes.now) }
    ensures values { result.values ≡ object_count codes.now }
    ensures raw_bytes { result.raw_bytes ≡ raw_size (primitive_codes codes.now) }
{
    let mut raw_bytes = 0u32;
    let mut prims = 0u16;
    let mut values = 0u16;
    for code in codes {
        match size_of_code(*code) {
            Some(size) => {
                prims += 1;
                raw_bytes += u32::from(size);
            }
            None => values += 1,
        }
    }
    Counts {
        raw_bytes,
        prims,
        values,
    }
}

/// How many of these codes come before the first that is not a primitive type's.
pub(crate) fn leading_of(codes: &[u8]) -> u16
    requires { length codes.now < 2 ^ 15 }
    ensures { AreLeading codes.now result }
{
    let mut leading = 0u16;
    for code in codes {
        if size_of_code(*code).is_none() {
            return leading;
        }
        leading += 1;
    }
    leading
}

/// The size of the raw value at this place, where only codes of primitive types stand before it.
pub(crate) fn leading_size(codes: &[u8], leading: u16, pos: u16) -> u8
    requires leading { AreLeading codes.now leading }
    requires pos_in { pos < leading }
    ensures { option_map size_of (slice_get (primitive_codes codes.now) pos) ≡ Some result }
{
    match size_of_code(codes[pos as usize]) {
        Some(size) => size,
        None => unreachable!(),
    }
}

/// The size of the raw value at this place among those of these codes.
pub(crate) fn prim_size_in(codes: &[u8], pos: usize) -> u8
    requires { pos < length (primitive_codes codes.now) }
    ensures { option_map size_of (slice_get (primitive_codes codes.now) pos) ≡ Some result }
{
    let mut left = pos;
    for code in codes {
        let Some(size) = size_of_code(*code) else {
            continue;
        };
        if left == 0 {
            return size;
        }
        left -= 1;
    }
    unreachable!()
}

/// How many bytes a raw value of the type with this code has, if it is a primitive type.
pub fn size_of_code(code: u8) -> Option<u8>
    ensures { result ≡ option_map size_of (prim_code_of code) }
{
    match code {
        b'B' | b'Z' => Some(1),
        b'C' | b'S' => Some(2),
        b'F' | b'I' => Some(4),
        b'D' | b'J' => Some(8),
        _ => None,
    }
}
