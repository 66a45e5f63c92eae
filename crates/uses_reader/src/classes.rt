//! What a caller knows of the classes that were closed.
ghost use Rattle.std.specs.Prelude.{◌≡◌};
ghost use Rattle.jser_table.specs.Lines.{number_at, answered_number};

use jser_reader::{Gate, Reader};
use jser_table::Class;

/// Which class the entry of this number is, by the order in which classes were closed.
pub fn class_of_entry<G: Gate>(reader: &Reader<G>, number: u32) -> Class
    ensures { answered_number result ≡ number_at reader.now.machine.table.numbers number }
{
    reader.table().class_at(number)
}
