//! Layers as a table keeps them, and classes that are closed with no vector of their own for their type codes.
ghost use Rattle.std.specs.Prelude.{◌≡◌, ◌<◌, ◌^◌, ◌&&◌, [], ◌∷◌, ◌++◌, not, vec_len, slice_get, IsTrue};
ghost use Rattle.jser_table.specs.Chains.{has_write_method, is_serializable, is_externalizable, has_block_data, is_enum, is_filled, is_serial, is_empty};
ghost use Rattle.jser_table.specs.Entries.{is_pending};

use jser_table::{KeptLayer, Layer, LayerKind, Table};
use std::alloc::Global;

/// The layer of a proxy class.
pub fn proxy_layer() -> KeptLayer
    ensures { result ≡ record { kind = LayerKind.Proxy; flags = 0; codes = [] } }
{
    KeptLayer::bare(LayerKind::Proxy, 0)
}

/// This layer, with these flags, as a table keeps it.
pub fn kept_with_flags(layer: Layer, flags: u8) -> KeptLayer
    ensures { result ≡ record { kind = layer.kind; flags = flags; codes = layer.codes } }
{
    let mut kept = KeptLayer::new(layer);
    kept.set_flags(flags);
    kept
}

/// Closes a class with no superclass, which has these type codes. The vector may be used for the next class.
pub fn close_class(alloc: Global, table: &mut Table, number: u32, flags: u8, codes: &mut Vec<u8>)
    requires pending { IsTrue (is_pending (slice_get table.old.entries number)) }
    requires few { vec_len codes.old < 2 ^ 15 }
    ensures chains { table.new.chains ≡ table.old.chains ++ (record { kind = LayerKind.Other; flags = flags; codes = codes.old.items } ∷ []) ∷ [] }
    ensures taken { codes.new.items ≡ [] }
{
    let layer = KeptLayer::taking(alloc, LayerKind::Other, flags, codes);
    table.close_kept(number, layer, None);
}

/// What the class is, and the type code of its first field, if it has one.
pub fn kind_and_first(layer: &KeptLayer) -> (LayerKind, Option<u8>)
    ensures kind { result.0 ≡ layer.now.kind }
    ensures first { result.1 ≡ slice_get layer.now.codes 0 }
{
    (layer.kind(), layer.codes().first().copied())
}

/// Whether the class writes its objects by itself, in blocks whose end can be told.
pub fn writes_blocks(layer: &KeptLayer) -> bool
    ensures { result ≡ is_externalizable layer.now.flags && has_block_data layer.now.flags }
{
    layer.is_externalizable() && layer.has_block_data()
}

/// Whether the class is an enum of which constants can be written.
pub fn is_serial_enum(layer: &KeptLayer) -> bool
    ensures { result ≡ is_enum layer.now.flags && is_serializable layer.now.flags }
{
    layer.is_enum() && layer.is_serializable()
}

/// Whether an object's data hold fields of this class and no annotation.
pub fn holds_fields_alone(layer: &KeptLayer) -> bool
    ensures { result ≡ is_filled layer.now && not (has_write_method layer.now.flags) }
{
    layer.is_filled() && !layer.has_write_method()
}

/// Whether a class that may not stand in a chain has fields none the less.
pub fn loses_fields(layer: &KeptLayer) -> bool
    ensures { result ≡ not (is_serial layer.now) && not (is_empty layer.now.codes) }
{
    !layer.is_serial() && !layer.codes().is_empty()
}
