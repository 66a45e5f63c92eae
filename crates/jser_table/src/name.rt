//! What the name of a class says: whether it is an array's, of which elements, and what it is judged by.
//!
//! A name is a list of 16-bit units. One that begins with `[` is an array's, as `Class.getName` writes it:
//! one or more `[`, and then the code of a primitive type, or `L`, any units and `;`.
ghost use Rattle.std.specs.Prelude.{◌≡◌, [], ◌∷◌};
ghost use Rattle.std.specs.Str.{bytes_eq};
ghost use Rattle.jser_table.specs.Names.{is_primitive_code, is_primitive_name, name_kind, array_kind, element_of, array_element, class_element, view_kind, view_element};

use crate::layer::{BodyKind, LayerKind};

/// What a filter judges a name by.
#[derive(Clone, Copy, PartialEq, Eq, Hash, Debug)]
pub enum Element<'a> {
    /// These units: the name itself, or the class of an array's elements.
    Name(&'a [u16]),
    /// The name is a primitive type, `void` or an array of primitives, and names no class.
    Primitive,
    /// The name begins with `[` and is no array name.
    Malformed,
}

const OPEN: u16 = 0x5B;

const CLASS: u16 = 0x4C;

const END: u16 = 0x3B;

/// What a filter judges this name by. Takes no memory.
pub fn element_of(name: &[u16]) -> Element<'_>
    ensures { view_element result ≡ element_of name.now }
{
    match name {
        [OPEN, rest @ ..] => array_element(rest),
        _ if is_primitive_name(name) => Element::Primitive,
        _ => Element::Name(name),
    }
}

/// The element of the array name that has these units behind its first `[`.
fn array_element(units: &[u16]) -> Element<'_>
    ensures { view_element result ≡ array_element units.now }
{
    let mut rest = units;
    while let [OPEN, after @ ..] = rest {
        rest = after;
    }
    match rest {
        [CLASS, rest @ ..] => class_element(rest),
        [code] if is_primitive_code(*code) => Element::Primitive,
        _ => Element::Malformed,
    }
}

/// The element of the array name that has these units behind its `L`: all before the last, a `;`.
#[tactic(auto, using(crate::proofs::NameLemmas::class_element_ended, crate::proofs::NameLemmas::class_element_open))]
fn class_element(units: &[u16]) -> Element<'_>
    ensures { view_element result ≡ class_element units.now }
{
    let Some((last, class)) = units.split_last() else {
        return Element::Malformed;
    };
    if *last == END {
        Element::Name(class)
    } else {
        Element::Malformed
    }
}

/// Whether the unit is the type code of a primitive.
fn is_primitive_code(unit: u16) -> bool
    ensures { result ≡ is_primitive_code unit }
{
    matches!(unit, 0x42 | 0x43 | 0x44 | 0x46 | 0x49 | 0x4A | 0x53 | 0x5A)
}

/// Whether the name is that of a primitive type, or `void`.
fn is_primitive_name(name: &[u16]) -> bool
    ensures { result ≡ is_primitive_name name.now }
{
    is_text(name, b"boolean")
        || is_text(name, b"byte")
        || is_text(name, b"char")
        || is_text(name, b"double")
        || is_text(name, b"float")
        || is_text(name, b"int")
        || is_text(name, b"long")
        || is_text(name, b"short")
        || is_text(name, b"void")
}

/// Whether the name has the units of this ASCII text. Takes no memory.
pub fn is_text(name: &[u16], text: &[u8]) -> bool
    ensures { result ≡ bytes_eq name.now text.now }
{
    match (name, text) {
        ([], []) => true,
        ([unit, name @ ..], [byte, text @ ..]) => {
            *unit == u16::from(*byte) && is_text(name, text)
        }
        _ => false,
    }
}

/// The kind of the layer that a plain descriptor of this name makes, or `None` for a malformed name.
/// Takes no memory.
pub fn layer_kind_of(name: &[u16]) -> Option<LayerKind>
    ensures { result ≡ view_kind (name_kind name.now) }
{
    match name {
        [OPEN, units @ ..] => array_kind(units),
        _ => Some(LayerKind::Other),
    }
}

/// The kind that the array name makes that has these units behind its first `[`.
#[tactic(auto, using(crate::proofs::NameLemmas::long_malformed, crate::proofs::NameLemmas::long_values))]
fn array_kind(units: &[u16]) -> Option<LayerKind>
    ensures { result ≡ view_kind (array_kind units.now) }
{
    match units {
        [] => None,
        [code] => primitive_array_kind(*code),
        [_, _, ..] => match array_element(units) {
            Element::Malformed => None,
            _ => Some(LayerKind::Array(BodyKind::Values)),
        },
    }
}

/// The kind that the array name makes that has one unit behind its first `[`.
fn primitive_array_kind(code: u16) -> Option<LayerKind>
    ensures { result ≡ view_kind (array_kind (code ∷ [])) }
{
    if is_primitive_code(code) {
        Some(LayerKind::Array(BodyKind::Prim(code as u8)))
    } else {
        None
    }
}
