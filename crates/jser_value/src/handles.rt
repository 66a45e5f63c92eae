//! The table of handles of a tree that is no longer than trees may be.
ghost use Rattle.std.specs.Prelude.{◌≡◌, ◌<◌, ◌≤◌, ◌+◌, [], IfOk, OnOk, IsTrue, length, slice_get, slice_set};
ghost use Rattle.std.specs.Option.{ForSome};
ghost use Rattle.jser_table.specs.Entries.{is_closed, is_pending};
ghost use Rattle.jser_table.specs.Tables.{new_entry, closed_under};
ghost use Rattle.jser_grammar.specs.TableAfter.{add};

use jser_table::{Kind, Layer, Table, TableFault};
use std::alloc::{AllocError, Global};
use std::marker::Model;

/// A table of handles that takes more of them than a tree has bytes, and so is never full.
#[doc(hidden)]
#[derive(Drop)]
pub struct Handles {
    table: Table,
}

impl Model for Handles {
    ghost use Rattle.std.specs.Prelude.{◌≡◌};
    ghost use Rattle.jser_table.specs.Tables.{TableView};

    ghost Value = { TableView };

    ghost view = { λ a. a.table };

    ghost invariant = { λ a. a.table.max ≡ 4294967295 };
}

impl Handles {
    /// No handles. Takes no memory.
    pub fn new(alloc: Global) -> Handles
        ensures { result.entries ≡ [] }
    {
        Handles {
            table: Table::new(alloc, u32::MAX),
        }
    }

    /// Adds a handle, and returns its number.
    ///
    /// # Errors
    ///
    /// Where memory ran out: the table is not full, since a tree has no more handles than bytes.
    pub fn assign(&mut self, kind: Kind) -> Result<u32, AllocError>
        requires { length self.old.entries < 2147483648 }
        ensures added { OnOk result (self.new.entries ≡ add self.old.entries (new_entry kind)) }
        ensures number { IfOk result (λ number. number ≡ length self.old.entries) }
        ensures spent { OnOk result (length self.new.entries ≤ length self.old.entries + 1) }
    {
        match self.table.assign(kind) {
            Ok(number) => Ok(number),
            Err(TableFault::OutOfMemory) => Err(AllocError),
            Err(TableFault::Full) => unreachable!(),
        }
    }

    /// Closes a pending entry, as `Table::close`.
    pub fn close(&mut self, number: u32, layer: Layer, parent: Option<u32>)
        requires pending { IsTrue (is_pending (slice_get self.old.entries number)) }
        requires parent { ForSome parent (λ p. IsTrue (is_closed (slice_get self.old.entries p))) }
        ensures closed { self.new.entries ≡ slice_set self.old.entries number (closed_under self.old.entries parent layer) }
        ensures spent { length self.new.entries ≤ length self.old.entries }
    {
        self.table.close(number, layer, parent);
    }

    /// Forgets all handles.
    pub fn reset(&mut self)
        ensures { self.new.entries ≡ [] }
    {
        self.table.reset();
    }

    /// The entries.
    pub fn table(&self) -> &Table
        ensures { result.now ≡ self.now }
    {
        &self.table
    }
}
