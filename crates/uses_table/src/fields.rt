//! The type codes of the fields of one class.
ghost use Rattle.std.specs.Prelude.{◌≡◌, ◌<◌, ◌^◌, length, not, slice_get, is_some};
ghost use Rattle.jser_table.specs.Chains.{is_empty};
ghost use Rattle.jser_table.specs.Codes.{prim_code_of};

use jser_table::{Codes, size_of_code};

/// The type code of the first field, if there is one.
pub fn first_code(codes: &Codes) -> Option<u8>
    ensures { result ≡ slice_get codes.now 0 }
{
    codes.as_slice().first().copied()
}

/// These type codes, in the vector in which they came: nothing is copied.
pub fn through_codes(codes: Vec<u8>) -> Vec<u8>
    requires { length codes.items < 2 ^ 15 }
    ensures { result.items ≡ codes.items }
{
    Codes::new(codes).into_vec()
}

/// How many fields a class has, as a stream writes it: in two bytes.
pub fn field_count(codes: &Codes) -> u16
    ensures { result ≡ length codes.now }
{
    codes.as_slice().len() as u16
}

/// Whether a class has fields.
pub fn has_fields(codes: &Codes) -> bool
    ensures { result ≡ not (is_empty codes.now) }
{
    !codes.is_empty()
}

/// Whether a field with this type code holds a raw value.
pub fn is_raw(code: u8) -> bool
    ensures { result ≡ is_some (prim_code_of code) }
{
    size_of_code(code).is_some()
}
