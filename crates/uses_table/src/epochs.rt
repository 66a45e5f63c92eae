//! The handles of an epoch, from its beginning to its end.
ghost use Rattle.std.specs.Prelude.{◌≡◌, ◌<◌, ◌↔◌, [], ◌∷◌, ◌++◌, ℕ, length, string_bytes, IsTrue, IfOk, OnErr};
ghost use Rattle.jser_table.specs.Entries.{closed_entry};
ghost use Rattle.jser_table.specs.Tables.{new_entry, text_of};

use jser_table::{Kind, Layer, Table, TableFault};
use std::alloc::{AllocError, Global};

/// A table that holds one class with no superclass.
///
/// # Errors
///
/// The fault of the table: it may have no entries, or memory ran out.
pub fn with_class(alloc: Global, max: u32, layer: Layer) -> Result<Table, TableFault>
    ensures entries { IfOk result (λ table. table.entries ≡ closed_entry (layer ∷ []) ∷ []) }
    ensures chains { IfOk result (λ table. table.chains ≡ (layer ∷ []) ∷ []) }
    ensures max { IfOk result (λ table. table.max ≡ max) }
{
    let mut table = Table::new(alloc, max);
    let number = table.assign(Kind::Pending)?;
    table.close(number, layer, None);
    Ok(table)
}

/// Assigns a handle, and tries once more where memory ran out.
///
/// # Errors
///
/// The fault of the table, which is then as it was.
pub fn assign_again(table: &mut Table, kind: Kind) -> Result<u32, TableFault>
    ensures number { IfOk result (λ number. number ≡ length table.old.entries) }
    ensures added { IfOk result (λ _. table.new.entries ≡ table.old.entries ++ new_entry kind ∷ []) }
    ensures unchanged { OnErr result (table.new ≡ table.old) }
{
    match table.assign(kind) {
        Err(TableFault::OutOfMemory) => table.assign(kind),
        first => first,
    }
}

/// What a reader does next.
#[derive(Clone, Copy, PartialEq, Eq, Hash, Debug)]
pub enum Advice {
    /// Goes on with this handle.
    GoOn(u32),
    /// Refuses the stream: it has more handles than it may have.
    Refuse,
    /// Tries again: memory ran out, and the handle is one that the stream may have.
    TryLater,
}

/// Assigns a handle, and says what to do next.
pub fn assign_or_advise(table: &mut Table, kind: Kind) -> Advice
    ensures go_on { (number : ℕ) → result ≡ Advice.GoOn number → number < table.old.max }
    ensures refuse { (result ≡ Advice.Refuse) ↔ (length table.old.entries ≡ table.old.max) }
    ensures try_later { result ≡ Advice.TryLater → length table.old.entries < table.old.max }
{
    match table.assign(kind) {
        Ok(number) => Advice::GoOn(number),
        Err(TableFault::Full) => Advice::Refuse,
        Err(TableFault::OutOfMemory) => Advice::TryLater,
    }
}

/// Begins the next epoch, at a reset in the stream, and gives its first handle, which is number 0 again.
///
/// # Errors
///
/// The fault of the table, which has then no entries.
pub fn next_epoch(table: &mut Table, kind: Kind) -> Result<u32, TableFault>
    ensures number { IfOk result (λ number. number ≡ 0) }
    ensures entries { IfOk result (λ _. table.new.entries ≡ new_entry kind ∷ []) }
    ensures chains { table.new.chains ≡ [] }
    ensures max { table.new.max ≡ table.old.max }
{
    table.reset();
    table.assign(kind)
}

/// Takes the table again for the next stream, which may have up to `max` handles in an epoch, and gives the first of
/// them.
///
/// # Errors
///
/// The fault of the table, which has then no entries.
pub fn next_stream(table: &mut Table, max: u32, kind: Kind) -> Result<u32, TableFault>
    ensures number { IfOk result (λ number. number ≡ 0) }
    ensures entries { IfOk result (λ _. table.new.entries ≡ new_entry kind ∷ []) }
    ensures chains { table.new.chains ≡ [] }
    ensures max { table.new.max ≡ max }
    ensures refuse { (result ≡ Err TableFault.Full) ↔ (max ≡ 0) }
{
    table.restart(max);
    table.assign(kind)
}

/// Whether no handle of the epoch has been assigned.
pub fn is_new(table: &Table) -> bool
    ensures { IsTrue result ↔ (table.now.entries ≡ []) }
{
    table.count() == 0
}

/// The line of a log that tells why a handle was not assigned.
///
/// # Errors
///
/// `AllocError` where there was no memory for the line.
pub fn log_line(alloc: Global, fault: TableFault) -> Result<String, AllocError>
    ensures { IfOk result (λ line. string_bytes line ≡ text_of fault) }
{
    fault.to_string(alloc)
}
