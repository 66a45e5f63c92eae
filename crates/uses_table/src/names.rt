//! What the name of a class says before anything else of its descriptor is read.
ghost use Rattle.std.specs.Prelude.{◌≡◌, ◌≢◌, ◌↔◌, IsTrue, Some, codes};
ghost use Rattle.std.specs.Str.{bytes_eq};
ghost use Rattle.jser_table.specs.Names.{element_of, malformed_element, name_kind, view_kind, layer_kind};

use jser_table::laws::malformed_alike;
use jser_table::{Element, LayerKind, element_of, is_text, layer_kind_of};

/// Whether the name can be that of a class.
pub fn is_name(name: &[u16]) -> bool
    ensures { IsTrue result ↔ (element_of name.now ≢ malformed_element) }
{
    !matches!(element_of(name), Element::Malformed)
}

/// The kind of the class with this name, where a name that no class can have counts as that of no array.
pub fn kind_of(name: &[u16]) -> LayerKind
    ensures { result ≡ layer_kind (name_kind name.now) }
{
    layer_kind_of(name).unwrap_or(LayerKind::Other)
}

/// The kind of the class with this name, which a filter judged before.
pub fn kind_of_judged(name: &[u16]) -> LayerKind
    requires { element_of name.now ≢ malformed_element }
    ensures { view_kind (name_kind name.now) ≡ Some result }
{
    malformed_alike();
    match layer_kind_of(name) {
        Some(kind) => kind,
        None => unreachable!(),
    }
}

/// Whether the class is that of strings.
pub fn is_string(name: &[u16]) -> bool
    ensures { result ≡ bytes_eq name.now (codes "java.lang.String") }
{
    is_text(name, b"java.lang.String")
}
