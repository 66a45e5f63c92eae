//! Texts of the program, as a stream spells them.
ghost use Rattle.std.specs.Prelude.{ℕ, List, ◌≡◌, IfOk, IfSome, Ok, None, true};
ghost use Rattle.std.specs.Str.{bytes_eq};
ghost use Rattle.jser_prim.specs.ModifiedUtf8.{IsUnits, modified_utf8, unit_spelling, utf16_units};

use jser_prim::{read_units, spell_unit, text_bytes, units_of};
use std::alloc::{AllocError, Global};

/// The bytes that spell a text of the program.
///
/// # Errors
///
/// `AllocError` where there was no memory for them.
pub fn spelled(alloc: Global, text: &str) -> Result<Vec<u8>, AllocError>
    ensures { IfOk result (λ bytes. bytes.items ≡ modified_utf8 (utf16_units text.now)) }
{
    let units = units_of(alloc, text)?;
    text_bytes(alloc, &units)
}

/// Whether these bytes spell this unit.
pub fn spells(bytes: &[u8], unit: u16) -> bool
    ensures { result ≡ bytes_eq (unit_spelling unit) bytes.now }
{
    let mut buffer = [0; 3];
    spell_unit(unit, &mut buffer) == bytes
}

/// The bytes spelled once more, where they are a text: they are the same, since a text has one spelling.
///
/// # Errors
///
/// `AllocError` where there was no memory for the text.
pub fn spelled_again(alloc: Global, bytes: &[u8]) -> Result<Option<Vec<u8>>, AllocError>
    ensures same { IfOk result (λ outcome. IfSome outcome (λ again. again.items ≡ bytes.now)) }
    ensures none { result ≡ Ok None → (told : List ℕ) → IsUnits told → modified_utf8 told ≡ bytes.now → ⊥ }
{
    let mut units = Vec::new(alloc);
    if !read_units(bytes, &mut units)? {
        return Ok(None);
    }
    Ok(Some(text_bytes(alloc, &units)?))
}

/// Reads a text for two readers, and tells whether the bytes are one: both have the same units then, whatever they had before.
///
/// # Errors
///
/// `AllocError` where there was no memory for the units.
pub fn read_for_both(
    bytes: &[u8],
    first: &mut Vec<u16>,
    second: &mut Vec<u16>,
) -> Result<bool, AllocError>
    ensures { result ≡ Ok true → first.new.items ≡ second.new.items }
{
    Ok(read_units(bytes, first)? && read_units(bytes, second)?)
}
