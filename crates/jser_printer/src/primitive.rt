//! Primitive types, whose values a stream has as bytes.
ghost use Rattle.std.specs.Prelude.{◌≡◌};
ghost use Rattle.jser_grammar.specs.Codes.{prim_code_of};
ghost use Rattle.jser_printer.specs.Primitives.{view_elements};

/// A primitive type.
#[derive(Clone, Copy)]
pub(crate) enum Primitive {
    Byte,
    Char,
    Double,
    Float,
    Int,
    Long,
    Short,
    Boolean,
}

/// The primitive type with this type code, if it is one.
#[inline(always)]
pub(crate) fn primitive_of(code: u8) -> Option<Primitive>
    ensures { view_elements result ≡ prim_code_of code }
{
    match code {
        b'B' => Some(Primitive::Byte),
        b'C' => Some(Primitive::Char),
        b'D' => Some(Primitive::Double),
        b'F' => Some(Primitive::Float),
        b'I' => Some(Primitive::Int),
        b'J' => Some(Primitive::Long),
        b'S' => Some(Primitive::Short),
        b'Z' => Some(Primitive::Boolean),
        _ => None,
    }
}
