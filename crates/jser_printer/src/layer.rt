//! The classes of chains, with their names.
ghost use Rattle.std.specs.Prelude.{◌≡◌, ◌<◌, length, is_some, option_map};
ghost use Rattle.jser_grammar.specs.Codes.{prim_code_of, is_object_code};
ghost use Rattle.jser_shown.specs.Known.{fields_in, elements_in, has_notes, is_external_class};
ghost use Rattle.jser_printer.specs.Steps.{layer_name};
ghost use Rattle.jser_printer.specs.Layers.{view_layer, view_field, view_fields, field_at, is_raw_at, NextRaw, NextValue};
ghost use Rattle.jser_printer.specs.Names.{view_name};
ghost use Rattle.jser_printer.specs.Primitives.{view_elements};

use crate::name::Name;
use crate::primitive::Primitive;
use jser_table::flags::{SC_EXTERNALIZABLE, SC_WRITE_METHOD};

/// A field of a class.
#[derive(Drop)]
pub(crate) struct NamedField {
    /// The type code.
    pub(crate) code: u8,
    /// Its name.
    pub(crate) name: Name,
}

/// A class of a chain.
#[derive(Drop)]
pub(crate) enum Layer {
    /// A plain class.
    Class {
        /// Its name.
        name: Name,
        /// The flags of its descriptor.
        flags: u8,
        /// Its fields, in the order of the descriptor.
        fields: Vec<NamedField>,
    },
    /// A proxy class.
    Proxy,
}

impl Layer {
    /// The name; None for a proxy.
    #[inline(always)]
    pub(crate) fn name(&self) -> Option<&Name>
        ensures { view_name result ≡ layer_name (view_layer self.now) }
    {
        match self {
            Layer::Class { name, .. } => Some(name),
            Layer::Proxy => None,
        }
    }

    /// The fields; a proxy has none.
    #[inline(always)]
    pub(crate) fn fields(&self) -> &[NamedField]
        ensures { view_fields result.now ≡ fields_in (view_layer self.now) }
    {
        match self {
            Layer::Class { fields, .. } => fields.as_slice(),
            Layer::Proxy => &[],
        }
    }

    /// The type of the elements of an array of this class, where it is primitive.
    pub(crate) fn elements(&self) -> Option<Primitive>
        ensures { view_elements result ≡ elements_in (view_layer self.now) }
    {
        match self {
            Layer::Class { name, .. } => name.elements(),
            Layer::Proxy => None,
        }
    }

    /// Whether an annotation stands behind the values of its section.
    #[inline(always)]
    pub(crate) fn has_notes(&self) -> bool
        ensures { result ≡ has_notes (view_layer self.now) }
    {
        match self {
            Layer::Class { flags, .. } => flags & SC_WRITE_METHOD != 0,
            Layer::Proxy => false,
        }
    }

    /// Whether it is externalizable.
    #[tactic(auto, using(jser_table::proofs::FlagLemmas::externalizable_bit))]
    #[inline(always)]
    pub(crate) fn is_external(&self) -> bool
        ensures { result ≡ is_external_class (view_layer self.now) }
    {
        match self {
            Layer::Class { flags, .. } => flags & SC_EXTERNALIZABLE != 0,
            Layer::Proxy => false,
        }
    }
}

/// Whether the code is that of a primitive type.
#[inline(always)]
fn is_primitive(code: u8) -> bool
    ensures { result ≡ is_some (prim_code_of code) }
{
    matches!(code, b'B' | b'C' | b'D' | b'F' | b'I' | b'J' | b'S' | b'Z')
}

/// Whether a field with this code has a type text.
pub(crate) fn has_type_text(code: u8) -> bool
    ensures { result ≡ is_object_code code }
{
    code == b'[' || code == b'L'
}

/// Whether the field at this place is of a primitive type.
#[tactic(auto, using(crate::proofs::LayerLemmas::code_at))]
#[inline(always)]
fn is_raw(fields: &[NamedField], place: usize) -> bool
    requires { place < length fields.now }
    ensures { result ≡ is_raw_at (view_fields fields.now) place }
{
    is_primitive(fields[place].code)
}

/// The field at this place.
#[tactic(auto, using(crate::proofs::LayerLemmas::field_there))]
#[inline(always)]
pub(crate) fn field_of(fields: &[NamedField], place: usize) -> &NamedField
    requires { place < length fields.now }
    ensures { view_field result.now ≡ field_at (view_fields fields.now) place }
{
    &fields[place]
}

/// The name of the field at this place.
#[tactic(auto, using(crate::proofs::LayerLemmas::name_at))]
#[inline(always)]
pub(crate) fn name_of(fields: &[NamedField], place: usize) -> &Name
    requires { place < length fields.now }
    ensures { result.now ≡ (field_at (view_fields fields.now) place).name }
{
    &fields[place].name
}

/// The place of the next field of a primitive type, at `from` or after it.
#[tactic(auto, using(crate::proofs::LayerLemmas::raw_found, crate::proofs::LayerLemmas::raw_passed, crate::proofs::LayerLemmas::no_raw))]
#[inline(always)]
pub(crate) fn next_raw(fields: &[NamedField], from: usize) -> Option<usize>
    ensures { NextRaw (view_fields fields.now) from result }
{
    let mut place = from;
    'fields: while place < fields.len() {
        if is_raw(fields, place) {
            return Some(place);
        }
        place += 1;
    }
    None
}

/// The place of the next field of another type, at `from` or after it.
#[tactic(auto, using(crate::proofs::LayerLemmas::value_found, crate::proofs::LayerLemmas::value_passed, crate::proofs::LayerLemmas::no_value))]
#[inline(always)]
pub(crate) fn next_value(fields: &[NamedField], from: usize) -> Option<usize>
    ensures { NextValue (view_fields fields.now) from result }
{
    let mut place = from;
    'fields: while place < fields.len() {
        if !is_raw(fields, place) {
            return Some(place);
        }
        place += 1;
    }
    None
}
