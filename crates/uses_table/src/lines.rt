//! What is kept of each class beside the table, in the order in which classes are closed: here their names.
ghost use Rattle.std.specs.Prelude.{◌≡◌, ◌<◌, ◌==◌, ◌∷◌, [], ◌++◌, ℕ, length, slice_get, slice_set, IsTrue, IfOk, Some, None};
ghost use Rattle.std.specs.Option.{ForSome};
ghost use Rattle.jser_table.specs.Chains.{own_layer, chain_in};
ghost use Rattle.jser_table.specs.Entries.{is_pending, is_closed};
ghost use Rattle.jser_table.specs.Lines.{line_in, next_line, parent_number, answered_number};

use jser_table::{ChainNumber, Class, KeptLayer, Kind, Layer, Table, TableFault};
use std::alloc::Global;

/// Closes a class, and gives the number that it has from now on.
pub fn close_next(table: &mut Table, number: u32, layer: KeptLayer, parent: Option<u32>) -> Class
    requires pending { IsTrue (is_pending (slice_get table.old.entries number)) }
    requires parent { ForSome parent (λ p. IsTrue (is_closed (slice_get table.old.entries p))) }
    ensures number { answered_number result ≡ Some (length table.old.chains) }
    ensures numbers { table.new.numbers ≡ slice_set table.old.numbers number (Some (length table.old.chains)) }
    ensures lines { table.new.lines ≡ table.old.lines ++ next_line table.old.lines (parent_number table.old.numbers parent) ∷ [] }
{
    table.close_kept(number, layer, parent);
    table.class_at(number)
}

/// Closes a class with a layer that is not in the form in which it is kept, and gives the number that it has from now on.
pub fn close_layer(table: &mut Table, number: u32, layer: Layer, parent: Option<u32>) -> Class
    requires pending { IsTrue (is_pending (slice_get table.old.entries number)) }
    requires parent { ForSome parent (λ p. IsTrue (is_closed (slice_get table.old.entries p))) }
    ensures number { answered_number result ≡ Some (length table.old.chains) }
    ensures numbers { table.new.numbers ≡ slice_set table.old.numbers number (Some (length table.old.chains)) }
    ensures lines { table.new.lines ≡ table.old.lines ++ next_line table.old.lines (parent_number table.old.numbers parent) ∷ [] }
{
    table.close(number, layer, parent);
    table.class_at(number)
}

/// An epoch in which nothing is closed yet: a handle is assigned, and no class has a number.
///
/// # Errors
///
/// The fault of the table.
pub fn first_handle(alloc: Global, max: u32, kind: Kind) -> Result<Table, TableFault>
    ensures numbers { IfOk result (λ table. table.numbers ≡ None ∷ []) }
    ensures lines { IfOk result (λ table. table.lines ≡ []) }
{
    let mut table = Table::new(alloc, max);
    table.assign(kind)?;
    Ok(table)
}

/// Ends the epoch: no class has a number, and the next one has number 0.
pub fn forget_classes(table: &mut Table) -> u32
    ensures next { result ≡ 0 }
    ensures numbers { table.new.numbers ≡ [] }
    ensures lines { table.new.lines ≡ [] }
{
    table.reset();
    table.classes()
}

/// Ends a stream, for a table that is taken again for the next one: no class has a number, and the next one has number 0.
pub fn forget_stream(table: &mut Table, max: u32) -> u32
    ensures next { result ≡ 0 }
    ensures numbers { table.new.numbers ≡ [] }
    ensures lines { table.new.lines ≡ [] }
{
    table.restart(max);
    table.classes()
}

/// Whether something is kept of each class, where it was pushed as each was closed.
pub fn is_kept_of_each(table: &Table, kept: usize) -> bool
    ensures chains { result ≡ (kept == length table.now.chains) }
    ensures lines { result ≡ (kept == length table.now.lines) }
{
    table.classes() as usize == kept
}

/// The number of the highest class of a chain.
pub fn highest_class(table: &Table, class: ChainNumber) -> ChainNumber
    requires class { class < length table.now.chains }
    requires some { 0 < length (chain_in table.now.chains class) }
    ensures number { slice_get (line_in table.now.lines class) 0 ≡ Some result }
    ensures inside { result < length table.now.chains }
    ensures layer { own_layer (chain_in table.now.chains result) ≡ slice_get (chain_in table.now.chains class) 0 }
{
    table.class_of_layer(class, 0)
}

/// What is kept of the class whose layer is the one at this index of a chain.
pub fn kept_of_layer<'a>(
    table: &Table,
    class: ChainNumber,
    index: usize,
    names: &'a [&'a str],
) -> Option<&'a str>
    requires class { class < length table.now.chains }
    requires index { index < length (chain_in table.now.chains class) }
    requires names { length names.now ≡ length table.now.chains }
    ensures { (number : ℕ) → slice_get (line_in table.now.lines class) index ≡ Some number → result ≡ slice_get names.now number }
{
    names
        .get(table.class_of_layer(class, index).index())
        .copied()
}
