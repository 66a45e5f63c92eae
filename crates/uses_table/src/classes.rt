//! A class that has been read, with its superclasses.
ghost use Rattle.std.specs.Prelude.{◌≡◌, ◌-◌, ◌<◌, length, slice_get, option_map, is_some, not, IsTrue};
ghost use Rattle.jser_table.specs.Chains.{all_serial, is_external, elements_of, next_filled, chain_in};
ghost use Rattle.jser_table.specs.Codes.{size_of};
ghost use Rattle.jser_table.specs.Entries.{is_closed, chain_at};
ghost use Rattle.jser_table.specs.Fits.{fits};
ghost use Rattle.uses_table.specs.Layouts.{layout_by};

use jser_table::{ChainNumber, Fit, KeptLayer, Purpose, Table};

/// Whether an object of this class can be read.
pub fn can_be_read(table: &Table, number: u32) -> bool
    requires { IsTrue (is_closed (slice_get table.now.entries number)) }
    ensures { result ≡ fits Purpose.Object (chain_at table.now.entries number) }
{
    table.fit(number, Purpose::Object) == Fit::Fits
}

/// Whether each class of the chain is a proxy or serializable.
pub fn is_serial(table: &Table, number: u32) -> bool
    requires { IsTrue (is_closed (slice_get table.now.entries number)) }
    ensures { result ≡ all_serial (chain_at table.now.entries number) }
{
    table.all_serial(number)
}

/// The layer of the class itself, which stands behind those of its superclasses.
pub fn own_layer(table: &Table, number: u32) -> Option<&KeptLayer>
    requires { IsTrue (is_closed (slice_get table.now.entries number)) }
    ensures { option_map (λ layer. layer.now) result ≡ slice_get (chain_at table.now.entries number) (length (chain_at table.now.entries number) - 1) }
{
    let layers = table.layers(number);
    if layers == 0 {
        return None;
    }
    Some(table.layer(number, layers - 1))
}

/// Whether an object of this class holds nothing to read.
pub fn holds_nothing(table: &Table, number: u32) -> bool
    requires { IsTrue (is_closed (slice_get table.now.entries number)) }
    ensures { result ≡ not (is_some (next_filled (chain_at table.now.entries number) 0)) }
{
    table.next_filled(number, 0).is_none()
}

/// What stands behind a class in a stream.
#[derive(Clone, Copy, PartialEq, Eq, Hash, Debug)]
pub enum Layout {
    /// What the class writes by itself, in blocks.
    Blocks,
    /// Elements of so many bytes each.
    RawElements(u8),
    /// Values.
    Values,
}

/// What stands behind a class in a stream, where it is a class of objects that can be read, or of arrays.
pub fn layout_of(table: &Table, chain: ChainNumber) -> Layout
    requires { chain < length table.now.chains }
    ensures { result ≡ layout_by (is_external (chain_in table.now.chains chain)) (option_map size_of (elements_of (chain_in table.now.chains chain))) }
{
    if table.is_external(chain) {
        return Layout::Blocks;
    }
    match table.element_size(chain) {
        Some(size) => Layout::RawElements(size),
        None => Layout::Values,
    }
}
