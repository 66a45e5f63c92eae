//! What a reference of a stream names.
ghost use Rattle.std.specs.Prelude.{◌≡◌, List, Some, None, slice_get, is_some, false};
ghost use Rattle.jser_table.specs.declared.layer.Layer.{Layer as LayerView};
ghost use Rattle.jser_table.specs.Entries.{is_text, is_pending, is_closed, closed_entry};
ghost use Rattle.jser_table.specs.Fits.{fit_of};

use jser_table::{Class, Entry, Fit, Purpose, Table};

/// Whether the handle of this number has been assigned.
pub fn is_assigned(table: &Table, number: u32) -> bool
    ensures { result ≡ is_some (slice_get table.now.entries number) }
{
    table.get(number).is_some()
}

/// Whether it names a string.
pub fn names_text(table: &Table, number: u32) -> bool
    ensures { result ≡ is_text (slice_get table.now.entries number) }
{
    matches!(table.get(number), Some(Entry::Text))
}

/// Whether it names a class whose superclass has not been read.
pub fn names_open_class(table: &Table, number: u32) -> bool
    ensures { result ≡ is_pending (slice_get table.now.entries number) }
{
    matches!(table.get(number), Some(Entry::Pending))
}

/// Whether it names a class that has been read.
pub fn names_class(table: &Table, number: u32) -> bool
    ensures { result ≡ is_closed (slice_get table.now.entries number) }
{
    matches!(table.get(number), Some(Entry::Closed(_)))
}

/// What is wrong with the class that a reference names, if it names one that has been read.
pub fn class_fit(table: &Table, number: u32, purpose: Purpose) -> Option<Fit>
    ensures fit { (chain : List LayerView) → slice_get table.now.entries number ≡ Some (closed_entry chain)
        → result ≡ Some (fit_of purpose chain) }
    ensures no_class { is_closed (slice_get table.now.entries number) ≡ false → result ≡ None }
{
    match table.class_at(number) {
        Class::Closed(chain) => Some(table.chain_fit(chain, purpose)),
        _ => None,
    }
}
