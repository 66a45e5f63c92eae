//! What an object's data hold for a layer of its class.
ghost use Rattle.std.specs.Prelude.{◌≡◌, ◌<◌, map, length, slice_get, IsTrue};
ghost use Rattle.jser_table.specs.Entries.{is_closed, chain_at};
ghost use Rattle.jser_value.specs.Tests.{obeys_layer, obeys_frame};
ghost use Rattle.jser_value.specs.View.{view_prim, view_values, view_section};

use crate::parts::{are_prims, count_values};
use crate::tree::Section;
use jser_table::{KeptLayer, Table};

/// Whether the section's raw values are those of the layer's class, and its values as many.
#[tactic(auto, using(crate::proofs::CheckLemmas::value_count_of))]
fn is_section_of(layer: &KeptLayer, section: &Section) -> bool
    ensures { result ≡ obeys_layer layer.now (map view_prim section.now.prims.items) (view_values section.now.values.items) }
{
    let codes = layer.codes();
    are_prims(codes, &section.prims) && section.values.len() == count_values(codes)
}

/// Whether the section is one of the layer at this index of the class's chain, but for its values and for what its
/// annotation holds.
pub(crate) fn is_section_at(table: &Table, number: u32, index: usize, section: &Section) -> bool
    requires closed { IsTrue (is_closed (slice_get table.now.entries number)) }
    requires index { index < length (chain_at table.now.entries number) }
    ensures { result ≡ obeys_frame (slice_get (chain_at table.now.entries number) index) (view_section section.now) }
{
    let layer = table.layer(number, index);
    is_section_of(layer, section) && layer.has_write_method() == section.notes.is_some()
}
