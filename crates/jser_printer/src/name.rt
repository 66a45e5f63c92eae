//! Names of classes and fields, with what `show` writes for their units.
ghost use Rattle.std.specs.Prelude.{◌≡◌, ◌≤◌, ◌∷◌, [], length, IfOk};
ghost use Rattle.std.specs.List.{flat_map};
ghost use Rattle.hex.specs.Hex.{encode_lower};
ghost use Rattle.jser_prim.specs.Bytes.{big_bytes};
ghost use Rattle.jser_shown.specs.Words.{quoted_unit};
ghost use Rattle.jser_grammar.specs.Codes.{prim_code_of};
ghost use Rattle.jser_shown.specs.Known.{named_elements};
ghost use Rattle.jser_printer.specs.Names.{view_text};
ghost use Rattle.jser_printer.specs.Primitives.{view_elements};

use crate::primitive::{Primitive, primitive_of};
use crate::text::{Text, is_plain};
use arrayvec::ArrayVec;
use byteorder::{BigEndian, ByteOrder};
use std::alloc::{AllocError, Global};
use std::marker::Model;

/// How many bytes a unit has in a quoted text at most.
const LONGEST: usize = 6;

/// The name of a class or of a field. Contracts see its UTF-16 units; what is kept is what these are in a quoted text, since
/// the same name is written for each object.
#[derive(Drop)]
pub struct Name {
    quoted: Vec<u8>,
    /// Whether its units are what is quoted, and no others are kept.
    is_plain: bool,
    units: Vec<u16>,
}

impl Model for Name {
    ghost use Rattle.std.specs.Prelude.{List, ℕ};

    ghost Value = { List ℕ };

    ghost use Rattle.jser_printer.specs.Names.{units_of};

    ghost view = { λ a. units_of a.is_plain a.quoted.items a.units.items };

    ghost use Rattle.std.specs.Prelude.{◌≡◌};
    ghost use Rattle.std.specs.List.{flat_map};
    ghost use Rattle.jser_shown.specs.Words.{quoted_unit};

    ghost invariant = { λ a. a.quoted.items ≡ flat_map quoted_unit (units_of a.is_plain a.quoted.items a.units.items) };
}

impl Name {
    /// A name of no units. Takes no memory.
    pub(crate) fn empty(alloc: Global) -> Name
        ensures { result ≡ [] }
    {
        Name {
            quoted: Vec::new(alloc),
            is_plain: true,
            units: Vec::new(alloc),
        }
    }

    /// The name that is this text.
    ///
    /// # Errors
    ///
    /// Where memory runs out.
    pub(crate) fn new(alloc: Global, text: Text<'_>) -> Result<Name, AllocError>
        ensures { IfOk result (λ name. name ≡ view_text text.entry) }
    {
        match text {
            Text::Plain(plain) => Ok(Name {
                quoted: plain.bytes().to_vec(alloc)?,
                is_plain: true,
                units: Vec::new(alloc),
            }),
            Text::Units(units) => Ok(Name {
                quoted: quoted_units(alloc, units)?,
                is_plain: false,
                units: units.to_vec(alloc)?,
            }),
        }
    }

    /// What its units are in a quoted text, without the quotes.
    #[inline(always)]
    pub fn quoted(&self) -> &[u8]
        ensures { result.now ≡ flat_map quoted_unit self.now }
    {
        self.quoted.as_slice()
    }

    /// The type of the elements of an array class of this name, where it is primitive: the name is `[` and a type code.
    pub(crate) fn elements(&self) -> Option<Primitive>
        ensures { view_elements result ≡ named_elements self.now }
    {
        let quoted = &self.quoted;
        if self.is_plain {
            match quoted.as_slice() {
                [b'[', code] => primitive_of(*code),
                _ => None,
            }
        } else {
            match self.units.as_slice() {
                [0x5B, code] => letter_of(*code),
                _ => None,
            }
        }
    }
}

/// The primitive type with this type code, if it is one.
fn letter_of(code: u16) -> Option<Primitive>
    ensures { view_elements result ≡ prim_code_of code }
{
    if code > 0x7F {
        return None;
    }
    primitive_of(code as u8)
}

/// What these units are in a quoted text, without the quotes.
#[tactic(auto, using(crate::proofs::NameLemmas::quoted_more, crate::proofs::NameLemmas::quoted_all))]
fn quoted_units(alloc: Global, units: &[u16]) -> Result<Vec<u8>, AllocError>
    ensures { IfOk result (λ quoted. quoted.items ≡ flat_map quoted_unit units.now) }
{
    let mut quoted = Vec::new(alloc);
    for unit in units {
        quoted.extend_from_slice(quoted_unit(*unit).as_slice())?;
    }
    Ok(quoted)
}

/// What a unit is in a quoted text: itself, or `\"` or `\\`, and any other unit is `\u` and four digits.
pub(crate) fn quoted_unit(unit: u16) -> ArrayVec<u8, LONGEST>
    ensures { result.items ≡ quoted_unit unit }
{
    if is_plain(unit) {
        return text_of(&[unit as u8]);
    }
    match unit {
        0x22 | 0x5C => text_of(&[b'\\', unit as u8]),
        _ => numbered(unit),
    }
}

/// A unit by its number.
fn numbered(unit: u16) -> ArrayVec<u8, LONGEST>
    ensures { result.items ≡ 0x5C ∷ 0x75 ∷ encode_lower (big_bytes 2 unit) }
{
    let mut bytes = [0; 2];
    BigEndian::write_u16(&mut bytes, unit);
    let mut digits = [0; 4];
    match hex::encode_to_slice(bytes.as_slice(), &mut digits) {
        Ok(()) => {}
        Err(_) => unreachable!(),
    }
    text_of(&[b'\\', b'u', digits[0], digits[1], digits[2], digits[3]])
}

/// These bytes.
fn text_of(bytes: &[u8]) -> ArrayVec<u8, LONGEST>
    requires { length bytes.now ≤ 6 }
    ensures { result.items ≡ bytes.now }
{
    let mut text = ArrayVec::new();
    match text.try_extend_from_slice(bytes) {
        Ok(()) => {}
        Err(_) => unreachable!(),
    }
    text
}
