//! The spelling of a text in modified UTF-8, and the UTF-16 units that it spells.
ghost use Rattle.std.specs.Prelude.{◌≡◌, ◌++◌, IfOk, OnOk};
ghost use Rattle.std.specs.Char.Escape.{encode_utf16};
ghost use Rattle.jser_prim.specs.ModifiedUtf8.{modified_utf8, unit_spelling, utf16_units};

use std::alloc::{AllocError, Global};

/// The bytes of a text in modified UTF-8: the spellings of its units, one after another.
///
/// # Errors
///
/// `AllocError` where there was no memory for the bytes.
#[tactic(auto, using(crate::proofs::TextLemmas::modified_utf8_more))]
pub fn text_bytes(alloc: Global, units: &[u16]) -> Result<Vec<u8>, AllocError>
    ensures { IfOk result (λ bytes. bytes.items ≡ modified_utf8 units.now) }
{
    let mut bytes = Vec::new(alloc);
    let mut buffer = [0; 3];
    for unit in units {
        bytes.extend_from_slice(spell_unit(*unit, &mut buffer))?;
    }
    Ok(bytes)
}

/// The UTF-16 units of a text.
///
/// # Errors
///
/// `AllocError` where there was no memory for the units.
#[tactic(auto, using(std::proofs::lemmas::List::flat_map_more))]
pub fn units_of(alloc: Global, text: &str) -> Result<Vec<u16>, AllocError>
    ensures { IfOk result (λ units. units.items ≡ utf16_units text.now) }
{
    let mut units = Vec::new(alloc);
    for c in text.chars() {
        push_char(&mut units, c)?;
    }
    Ok(units)
}

/// The bytes of a unit in modified UTF-8, written into a buffer. It allocates nothing.
#[tactic(auto, unfolding(crate::specs::ModifiedUtf8::unit_spelling))]
pub fn spell_unit(unit: u16, buffer: &mut [u8; 3]) -> &[u8]
    ensures { result.now ≡ unit_spelling unit }
{
    match unit {
        0x0001..=0x007F => {
            *buffer = [unit as u8, 0, 0];
            &buffer[..1]
        }
        0x0000..=0x07FF => {
            *buffer = [0xC0 + (unit / 64) as u8, 0x80 + (unit % 64) as u8, 0];
            &buffer[..2]
        }
        _ => {
            *buffer = [
                0xE0 + (unit / 4096) as u8,
                0x80 + (unit / 64 % 64) as u8,
                0x80 + (unit % 64) as u8,
            ];
            &buffer[..]
        }
    }
}

/// Adds the one or two units of a character.
fn push_char(units: &mut Vec<u16>, c: char) -> Result<(), AllocError>
    ensures { OnOk result (units.new.items ≡ units.old.items ++ encode_utf16 c) }
{
    let mut pair = [0; 2];
    units.extend_from_slice(c.encode_utf16(&mut pair))
}
