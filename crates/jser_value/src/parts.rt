//! Tests of the parts of a tree that need no table: texts, names, flags, handles, raw values, blocks and counts.
//! `specs/PartTests.antt` and `specs/Tests.antt` have them as definitions.
ghost use Rattle.std.specs.Prelude.{◌≡◌, ◌<◌, ◌^◌, map, length, true, nat_lt, is_some, option_map, IfOk};
ghost use Rattle.std.specs.List.{list_all};
ghost use Rattle.jser_grammar.specs.Codes.{prim_code_of, is_object_code, letter_of, object_count};
ghost use Rattle.jser_grammar.specs.Parts.{elements_of_kind};
ghost use Rattle.jser_value.specs.PartTests.{obeys_text, obeys_class_name, obeys_class_names, obeys_flags, is_handle, is_prim_of, obeys_prims, obeys_block};
ghost use Rattle.jser_grammar.specs.TableAfter.{codes_of};
ghost use Rattle.jser_value.specs.Tests.{is_bare, obeys_head, obeys_interfaces, obeys_raw_body, obeys_value_count};
ghost use Rattle.jser_value.specs.View.{view_prim, view_field, view_values};

use crate::size::after_units;
use crate::tree::{Field, Raw, Section, Value};
use jser_grammar::wire::BASE_WIRE_HANDLE;
use jser_table::flags::{SC_EXTERNALIZABLE, SC_SERIALIZABLE};
use jser_table::{BodyKind, LayerKind, layer_kind_of};
use std::alloc::{AllocError, Global};

/// Whether the modified UTF-8 of a text has a length of 2 bytes, or of 8 bytes and below 2^63.
pub(crate) fn is_text(long: bool, units: &[u16]) -> bool
    ensures { result ≡ obeys_text long units.now }
{
    let most = if long { 0x7FFF_FFFF_FFFF_FFFF } else { 0xFFFF };
    after_units(most, units).is_some()
}

/// Whether the name is that of a class: none that begins with `[` and is no array name.
pub(crate) fn is_class_name(name: &[u16]) -> bool
    ensures { result ≡ obeys_class_name name.now }
{
    is_text(false, name) && layer_kind_of(name).is_some()
}

/// Whether each of the names is that of a class.
pub(crate) fn are_class_names(names: &[Vec<u16>]) -> bool
    ensures { result ≡ obeys_class_names (map (λ name. name.items) names.now) }
{
    for name in names {
        if !is_class_name(name) {
            return false;
        }
    }
    true
}

/// Whether the flags have no bit of E0, and not SC_SERIALIZABLE together with SC_EXTERNALIZABLE.
#[tactic(auto, using(jser_table::proofs::FlagLemmas::serializable_bit, jser_table::proofs::FlagLemmas::externalizable_bit))]
pub(crate) fn is_flags(flags: u8) -> bool
    ensures { result ≡ obeys_flags flags }
{
    let is_serializable = flags & SC_SERIALIZABLE != 0;
    let is_externalizable = flags & SC_EXTERNALIZABLE != 0;
    flags < 0x20 && !(is_serializable && is_externalizable)
}

/// Whether the handle of this number has four bytes.
pub(crate) fn has_handle(number: u32) -> bool
    ensures { result ≡ is_handle number }
{
    number <= u32::MAX - BASE_WIRE_HANDLE
}

/// Whether the type code is that of a primitive.
pub(crate) fn is_primitive(code: u8) -> bool
    ensures { result ≡ is_some (prim_code_of code) }
{
    matches!(code, b'B' | b'C' | b'D' | b'F' | b'I' | b'J' | b'S' | b'Z')
}

/// Whether the type code is `[` or `L`.
pub(crate) fn is_object(code: u8) -> bool
    ensures { result ≡ is_object_code code }
{
    matches!(code, b'[' | b'L')
}

/// Whether the raw value is of the type with this code.
fn is_prim(code: u8, prim: Raw) -> bool
    ensures { result ≡ is_prim_of code (view_prim prim) }
{
    let own_code = match prim {
        Raw::B(_) => b'B',
        Raw::C(_) => b'C',
        Raw::D(_) => b'D',
        Raw::F(_) => b'F',
        Raw::I(_) => b'I',
        Raw::J(_) => b'J',
        Raw::S(_) => b'S',
        Raw::Z(_) => b'Z',
    };
    code == own_code
}

/// Whether each of the raw values is of the type with this code.
pub(crate) fn are_prims_of(code: u8, prims: &[Raw]) -> bool
    ensures { result ≡ list_all (is_prim_of code) (map view_prim prims.now) }
{
    for prim in prims {
        if !is_prim(code, *prim) {
            return false;
        }
    }
    true
}

/// Whether these are the raw values of a class with these type codes: one for each primitive, in order.
pub(crate) fn are_prims(codes: &[u8], prims: &[Raw]) -> bool
    ensures { result ≡ obeys_prims codes.now (map view_prim prims.now) }
{
    let mut rest = prims;
    for code in codes {
        if is_primitive(*code) {
            match rest {
                [prim, after @ ..] if is_prim(*code, *prim) => rest = after,
                _ => return false,
            }
        }
    }
    rest.is_empty()
}

/// How many of the type codes stand for a value.
pub fn count_values(codes: &[u8]) -> usize
    ensures { result ≡ object_count codes.now }
{
    let mut count = 0usize;
    for code in codes {
        if !is_primitive(*code) {
            count += 1;
        }
    }
    count
}

/// Whether the size of block data has 1 byte, or 4 bytes with the highest bit 0.
pub(crate) fn is_block(long: bool, bytes: &[u8]) -> bool
    ensures { result ≡ obeys_block long bytes.now }
{
    bytes.len() < if long { 0x8000_0000 } else { 0x100 }
}

/// The type code of the elements of an array of this kind, where they are raw values.
pub(crate) fn element_code_of(kind: LayerKind) -> Option<u8>
    ensures { result ≡ option_map letter_of (elements_of_kind kind) }
{
    match kind {
        LayerKind::Array(BodyKind::Prim(code)) if is_primitive(code) => Some(code),
        _ => None,
    }
}

/// The type codes of the fields.
#[tactic(auto, using(crate::proofs::PartLemmas::codes_of_fields))]
pub(crate) fn codes_of(alloc: Global, fields: &[Field]) -> Result<Vec<u8>, AllocError>
    ensures { IfOk result (λ codes. codes.items ≡ codes_of (map view_field fields.now)) }
{
    fields.iter().map(|field| field.code).collect(alloc)
}

/// The most fields that a descriptor has.
const MOST_FIELDS: usize = 0x7FFF;

/// Whether a plain descriptor's own data is right, but for the types of its fields.
pub(crate) fn is_head(name: &[u16], suid: u64, flags: u8, fields: &[Field]) -> bool
    ensures head { result ≡ obeys_head name.now suid flags (map view_field fields.now) }
    ensures few { result ≡ true → length fields.now < 2 ^ 15 }
{
    let _ = suid;
    is_class_name(name) && is_flags(flags) && fields.len() <= MOST_FIELDS
}

/// Whether an array may have so many elements, and a proxy so many interfaces.
fn is_count(count: usize) -> bool
    ensures { result ≡ nat_lt count (2 ^ 31) }
{
    count < 0x8000_0000
}

/// Whether the raw values are the elements of an array of this type code.
pub(crate) fn are_elements(code: Option<u8>, prims: &[Raw]) -> bool
    ensures { result ≡ obeys_raw_body code (map view_prim prims.now) }
{
    match code {
        Some(code) => is_count(prims.len()) && are_prims_of(code, prims),
        None => false,
    }
}

/// Whether an array may have these values as its elements, where `code` is the type code of its raw elements.
#[tactic(auto, using(crate::proofs::CheckLemmas::value_count_of))]
pub(crate) fn are_value_elements(code: Option<u8>, values: &[Value]) -> bool
    ensures { result ≡ obeys_value_count code (view_values values.now) }
{
    code.is_none() && is_count(values.len())
}

/// Whether these are the interfaces of a proxy.
pub(crate) fn are_interfaces(names: &[Vec<u16>]) -> bool
    ensures { result ≡ obeys_interfaces (map (λ name. name.items) names.now) }
{
    is_count(names.len()) && are_class_names(names)
}

/// Whether the section has no raw values and no values.
#[tactic(auto, using(crate::proofs::CheckLemmas::length_prims, crate::proofs::CheckLemmas::value_count_of))]
pub(crate) fn is_bare(section: &Section) -> bool
    ensures { result ≡ is_bare (map view_prim section.now.prims.items) (view_values section.now.values.items) }
{
    section.prims.is_empty() && section.values.is_empty()
}
