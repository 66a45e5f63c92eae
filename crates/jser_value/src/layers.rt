//! Layers of the classes that trees describe, and what a table of handles tells of a class: for the check of trees, and for those who build
//! trees from bytes.
ghost use Rattle.std.specs.Prelude.{◌≡◌, ◌<◌, ◌^◌, map, length, IfOk, slice_get, IsTrue};
ghost use Rattle.std.specs.Option.{option_copied};
ghost use Rattle.jser_table.specs.Chains.{own_layer};
ghost use Rattle.jser_table.specs.Entries.{is_closed, chain_at};
ghost use Rattle.jser_grammar.specs.Parts.{is_external};
ghost use Rattle.jser_grammar.specs.TableAfter.{plain_layer, proxy_layer};
ghost use Rattle.jser_value.specs.Tests.{element_code};
ghost use Rattle.jser_value.specs.View.{view_field};

pub use crate::parts::count_values;
use crate::parts::{codes_of, element_code_of};
use crate::tree::Field;
use jser_table::{Codes, KeptLayer, Layer, LayerKind, Table, layer_kind_of};
use std::alloc::{AllocError, Global};

/// The layer of a plain descriptor. Takes memory for the type codes of its fields.
///
/// # Errors
///
/// `AllocError` where there was no memory for them.
#[tactic(auto, using(crate::proofs::PartLemmas::length_codes_of))]
pub fn plain_layer(
    alloc: Global,
    name: &[u16],
    flags: u8,
    fields: &[Field],
) -> Result<Layer, AllocError>
    requires { length fields.now < 2 ^ 15 }
    ensures { IfOk result (λ layer. layer ≡ plain_layer name.now flags (map view_field fields.now)) }
{
    let codes = codes_of(alloc, fields)?;
    Ok(Layer {
        kind: layer_kind_of(name).unwrap_or(LayerKind::Other),
        flags,
        codes: Codes::new(codes),
    })
}

/// The layer of a proxy descriptor. Takes no memory.
pub fn proxy_layer(alloc: Global) -> Layer
    ensures { result ≡ proxy_layer }
{
    Layer {
        kind: LayerKind::Proxy,
        flags: 0,
        codes: Codes::new(Vec::new(alloc)),
    }
}

/// The class's own layer, the last of its chain.
#[tactic(auto, using(crate::proofs::CheckLemmas::own_layer_last, crate::proofs::CheckLemmas::own_layer_none))]
fn own_layer(table: &Table, number: u32) -> Option<&KeptLayer>
    requires { IsTrue (is_closed (slice_get table.now.entries number)) }
    ensures { option_copied result ≡ own_layer (chain_at table.now.entries number) }
{
    match table.layers(number).checked_sub(1) {
        Some(last) => Some(table.layer(number, last)),
        None => None,
    }
}

/// The type code of the elements of an array of this class, where they are raw values.
pub fn element_code(table: &Table, number: u32) -> Option<u8>
    requires { IsTrue (is_closed (slice_get table.now.entries number)) }
    ensures { result ≡ element_code (chain_at table.now.entries number) }
{
    match own_layer(table, number) {
        Some(layer) => element_code_of(layer.kind()),
        None => None,
    }
}

/// Whether the class itself is externalizable.
pub fn is_external(table: &Table, number: u32) -> bool
    requires { IsTrue (is_closed (slice_get table.now.entries number)) }
    ensures { result ≡ is_external (chain_at table.now.entries number) }
{
    match own_layer(table, number) {
        Some(layer) => layer.is_externalizable(),
        None => false,
    }
}
