//! Texts, references, fields, interfaces, raw values and blocks out of their bytes.
ghost use Rattle.std.specs.Prelude.{ℕ, List, [], ◌∷◌, ◌++◌, ◌+◌, Err, OnOk, ◌≡◌, ◌<◌, ◌≤◌, ◌^◌, IfOk, IfErr, Ok, map, length, vec_len, option_map, is_some, false};
ghost use Rattle.jser_grammar.specs.Codes.{prim_code_of, primitive_codes};
ghost use Rattle.jser_value.specs.View.{view_text_place, view_field, view_prim};
ghost use Rattle.jser_trees.specs.Building.{number_in, units_from, text_in, back_in, text_place_in, new_text_in, type_in, field_in, many_in, fields_in, interfaces_in, prim_at, prims_in, block_head_size, block_in};
ghost use Rattle.jser_reading.specs.TokensFromBytes.{head_size};
ghost use Rattle.jser_trees.specs.Found.{Finds, FindsAll};

use crate::cursor::{Cursor, Fault};
use jser_grammar::wire::{BASE_WIRE_HANDLE, TC_LONGSTRING, TC_REFERENCE, TC_STRING};
use jser_prim::read_units;
use jser_value::{Field, Prim, Text, TextPlace};
use std::alloc::Global;

/// The most fields that a descriptor has.
const MOST_FIELDS: u16 = 0x7FFF;

/// What memory was there for, or that it ran out.
pub(crate) fn kept<T, E: Drop>(outcome: Result<T, E>) -> Result<T, Fault>
    ensures ok { IfOk result (λ value. outcome ≡ Ok value) }
    ensures memory { IfErr result (λ fault. fault ≡ Fault.OutOfMemory) }
{
    match outcome {
        Ok(value) => Ok(value),
        Err(_) => Err(Fault::OutOfMemory),
    }
}

/// The units of a whole text.
#[tactic(auto, using(crate::proofs::TextsBuilt::text_there, crate::proofs::TextsBuilt::text_nowhere))]
fn units_of_bytes(alloc: Global, bytes: &[u8]) -> Result<Vec<u16>, Fault>
    ensures { FindsAll (λ units. units.items) result (units_from bytes.now) }
{
    let mut units = Vec::new(alloc);
    match read_units(bytes, &mut units) {
        Ok(true) => Ok(units),
        Ok(false) => Err(Fault::Lost),
        Err(_) => Err(Fault::OutOfMemory),
    }
}

/// The length of a text.
fn text_length(cursor: &mut Cursor<'_>, long: bool) -> Result<u64, Fault>
    ensures found { Finds (λ length. length) result cursor.new (number_in (head_size long) cursor.old) }
    ensures shorter { OnOk result (length cursor.new < length cursor.old) }
{
    if long {
        cursor.number_of_eight()
    } else {
        Ok(u64::from(cursor.number_of_two()?))
    }
}

/// The units of a text, whose length stands before it.
#[tactic(auto, unfolding(crate::specs::Building::sized_text_in, crate::specs::Building::sized_front_in))]
pub(crate) fn units(alloc: Global, cursor: &mut Cursor<'_>, long: bool) -> Result<Vec<u16>, Fault>
    ensures found { Finds (λ units. units.items) result cursor.new (text_in long cursor.old) }
    ensures shorter { OnOk result (length cursor.new < length cursor.old) }
{
    let length = text_length(cursor, long)?;
    let bytes = cursor.take(length as usize)?;
    units_of_bytes(alloc, bytes)
}

/// The number of the entry that a handle names.
#[tactic(auto, unfolding(crate::specs::Building::back_in))]
pub(crate) fn number_of_handle(cursor: &mut Cursor<'_>) -> Result<u32, Fault>
    ensures found { Finds (λ number. number) result cursor.new (back_in cursor.old) }
    ensures shorter { OnOk result (length cursor.new < length cursor.old) }
{
    let handle = cursor.number_of_four()?;
    if handle < BASE_WIRE_HANDLE {
        return Err(Fault::Lost);
    }
    Ok(handle - BASE_WIRE_HANDLE)
}

/// A new string, behind its tag.
#[tactic(auto, unfolding(crate::specs::Building::new_text_in))]
fn new_text(alloc: Global, cursor: &mut Cursor<'_>, long: bool) -> Result<TextPlace, Fault>
    ensures found { Finds view_text_place result cursor.new (new_text_in long cursor.old) }
    ensures shorter { OnOk result (length cursor.new < length cursor.old) }
{
    let units = units(alloc, cursor, long)?;
    Ok(TextPlace::New(Text { long, units }))
}

/// A text place, with its tag.
#[tactic(auto, unfolding(crate::specs::Building::text_place_in))]
pub(crate) fn text_place(alloc: Global, cursor: &mut Cursor<'_>) -> Result<TextPlace, Fault>
    ensures found { Finds view_text_place result cursor.new (text_place_in cursor.old) }
    ensures shorter { OnOk result (length cursor.new < length cursor.old) }
{
    match cursor.byte()? {
        TC_STRING => new_text(alloc, cursor, false),
        TC_LONGSTRING => new_text(alloc, cursor, true),
        TC_REFERENCE => Ok(TextPlace::Back(number_of_handle(cursor)?)),
        _ => Err(Fault::Lost),
    }
}

/// The type of a field, which stands there where its code is `[` or `L`.
#[tactic(auto, unfolding(crate::specs::Building::type_in))]
fn field_type(alloc: Global, cursor: &mut Cursor<'_>, code: u8) -> Result<Option<TextPlace>, Fault>
    ensures found { Finds (option_map view_text_place) result cursor.new (type_in code cursor.old) }
    ensures shorter { OnOk result (length cursor.new ≤ length cursor.old) }
{
    match code {
        b'[' | b'L' => Ok(Some(text_place(alloc, cursor)?)),
        _ => Ok(None),
    }
}

/// A field of a plain descriptor.
#[tactic(auto, unfolding(crate::specs::Building::field_in, crate::specs::Building::byte_in))]
fn field(alloc: Global, cursor: &mut Cursor<'_>) -> Result<Field, Fault>
    ensures found { Finds view_field result cursor.new (field_in cursor.old) }
    ensures shorter { OnOk result (length cursor.new < length cursor.old) }
{
    let code = cursor.byte()?;
    let name = units(alloc, cursor, false)?;
    let text = field_type(alloc, cursor, code)?;
    Ok(Field { code, name, text })
}

/// So many fields.
#[tactic(auto, using(crate::proofs::Loops::many_begun, crate::proofs::Loops::many_next, crate::proofs::Loops::many_done, crate::proofs::Loops::many_failed))]
fn some_fields(alloc: Global, cursor: &mut Cursor<'_>, count: u16) -> Result<Vec<Field>, Fault>
    ensures found { Finds (λ fields. map view_field fields.items) result cursor.new (many_in field_in count cursor.old) }
    ensures count { IfOk result (λ fields. vec_len fields ≡ count) }
    ensures shorter { IfOk result (λ fields. length cursor.new + vec_len fields ≤ length cursor.old) }
{
    let mut fields = Vec::new(alloc);
    let mut left = count;
    'fields: while left > 0 {
        left -= 1;
        let next = field(alloc, cursor)?;
        kept(fields.push(next))?;
    }
    Ok(fields)
}

/// The fields of a plain descriptor, whose number stands before them.
#[tactic(auto, unfolding(crate::specs::Building::fields_in))]
pub(crate) fn fields(alloc: Global, cursor: &mut Cursor<'_>) -> Result<Vec<Field>, Fault>
    ensures found { Finds (λ fields. map view_field fields.items) result cursor.new (fields_in cursor.old) }
    ensures few { IfOk result (λ fields. length fields.items < 2 ^ 15) }
    ensures shorter { IfOk result (λ fields. length cursor.new + vec_len fields ≤ length cursor.old) }
{
    let count = cursor.number_of_two()?;
    if count > MOST_FIELDS {
        return Err(Fault::Lost);
    }
    some_fields(alloc, cursor, count)
}

/// So many names of interfaces.
#[tactic(auto, using(crate::proofs::Loops::many_begun, crate::proofs::Loops::many_next, crate::proofs::Loops::many_done, crate::proofs::Loops::many_failed))]
fn some_names(alloc: Global, cursor: &mut Cursor<'_>, count: u32) -> Result<Vec<Vec<u16>>, Fault>
    ensures found { Finds (λ names. map (λ name. name.items) names.items) result cursor.new (many_in (text_in false) count cursor.old) }
    ensures shorter { OnOk result (length cursor.new ≤ length cursor.old) }
{
    let mut names = Vec::new(alloc);
    let mut left = count;
    'names: while left > 0 {
        left -= 1;
        let name = units(alloc, cursor, false)?;
        kept(names.push(name))?;
    }
    Ok(names)
}

/// The names of the interfaces of a proxy, whose number stands before them.
#[tactic(auto, unfolding(crate::specs::Building::interfaces_in))]
pub(crate) fn interfaces(alloc: Global, cursor: &mut Cursor<'_>) -> Result<Vec<Vec<u16>>, Fault>
    ensures found { Finds (λ names. map (λ name. name.items) names.items) result cursor.new (interfaces_in cursor.old) }
    ensures shorter { OnOk result (length cursor.new < length cursor.old) }
{
    let count = cursor.number_of_four()?;
    some_names(alloc, cursor, count)
}

/// A raw value of the type with this code.
#[tactic(auto, unfolding(crate::specs::Building::prim_in))]
fn prim(cursor: &mut Cursor<'_>, code: u8) -> Result<Prim, Fault>
    ensures found { Finds view_prim result cursor.new (prim_at (prim_code_of code) cursor.old) }
    ensures shorter { OnOk result (length cursor.new < length cursor.old) }
{
    match code {
        b'B' => Ok(Prim::B(cursor.number_of_one()?)),
        b'C' => Ok(Prim::C(cursor.number_of_two()?)),
        b'D' => Ok(Prim::D(cursor.number_of_eight()?)),
        b'F' => Ok(Prim::F(cursor.number_of_four()?)),
        b'I' => Ok(Prim::I(cursor.number_of_four()?)),
        b'J' => Ok(Prim::J(cursor.number_of_eight()?)),
        b'S' => Ok(Prim::S(cursor.number_of_two()?)),
        b'Z' => Ok(Prim::Z(cursor.number_of_one()?)),
        _ => Err(Fault::Lost),
    }
}

/// So many raw values of the type with this code.
#[tactic(auto, using(crate::proofs::Loops::many_begun, crate::proofs::Loops::many_next, crate::proofs::Loops::many_done, crate::proofs::Loops::many_failed))]
pub(crate) fn prims(
    alloc: Global,
    cursor: &mut Cursor<'_>,
    code: u8,
    count: u32,
) -> Result<Vec<Prim>, Fault>
    ensures found { Finds (λ prims. map view_prim prims.items) result cursor.new (many_in (prim_at (prim_code_of code)) count cursor.old) }
    ensures shorter { OnOk result (length cursor.new ≤ length cursor.old) }
{
    let mut prims = Vec::new(alloc);
    let mut left = count;
    'prims: while left > 0 {
        left -= 1;
        let next = prim(cursor, code)?;
        kept(prims.push(next))?;
    }
    Ok(prims)
}

/// One raw value for each primitive among these codes.
#[tactic(auto, using(crate::proofs::Loops::prims_begun, crate::proofs::Loops::prims_skip, crate::proofs::Loops::prims_next, crate::proofs::Loops::prims_failed, crate::proofs::Loops::prims_done))]
pub(crate) fn prims_of(
    alloc: Global,
    cursor: &mut Cursor<'_>,
    codes: &[u8],
) -> Result<Vec<Prim>, Fault>
    ensures found { Finds (λ prims. map view_prim prims.items) result cursor.new (prims_in (primitive_codes codes.now) cursor.old) }
    ensures shorter { OnOk result (length cursor.new ≤ length cursor.old) }
{
    let mut prims = Vec::new(alloc);
    'codes: for code in codes {
        if is_primitive(*code) {
            let next = prim(cursor, *code)?;
            kept(prims.push(next))?;
        }
    }
    Ok(prims)
}

/// Whether the type code is that of a primitive.
pub(crate) fn is_primitive(code: u8) -> bool
    ensures { result ≡ is_some (prim_code_of code) }
{
    matches!(code, b'B' | b'C' | b'D' | b'F' | b'I' | b'J' | b'S' | b'Z')
}

/// How many bytes a block has.
fn block_length(cursor: &mut Cursor<'_>, long: bool) -> Result<u32, Fault>
    ensures found { Finds (λ length. length) result cursor.new (number_in (block_head_size long) cursor.old) }
    ensures shorter { OnOk result (length cursor.new < length cursor.old) }
{
    if long {
        cursor.number_of_four()
    } else {
        Ok(u32::from(cursor.number_of_one()?))
    }
}

/// The bytes of a block, whose number stands before them.
#[tactic(auto, unfolding(crate::specs::Building::sized_front_in))]
pub(crate) fn block(alloc: Global, cursor: &mut Cursor<'_>, long: bool) -> Result<Vec<u8>, Fault>
    ensures found { Finds (λ bytes. bytes.items) result cursor.new (block_in long cursor.old) }
    ensures shorter { OnOk result (length cursor.new < length cursor.old) }
{
    let length = block_length(cursor, long)?;
    let bytes = cursor.take(length as usize)?;
    kept(bytes.to_vec(alloc))
}
