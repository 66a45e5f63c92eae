//! The table of handles of jser_table.

ghost use Rattle.std.specs.Prelude.{◌<◌, ◌^◌, length};

use jser_table::{
    BodyKind, Codes, Element, Entry, Fit, Kind, Layer, LayerKind, Purpose, Table, TableFault,
    element_of,
};
use std::alloc::Global;

/// The class that an array name or another one names.
pub fn element(name: &[u16]) -> Option<&[u16]> {
    match element_of(name) {
        Element::Name(inner) => Some(inner),
        Element::Primitive => None,
        Element::Malformed => None,
    }
}

/// A table with a class, and whether the class fits an object.
pub fn closed(alloc: Global, codes: Vec<u8>) -> Result<(Table, bool), TableFault>
    requires { length codes.items < 2 ^ 15 }
{
    let mut table: Table = Table::new(alloc, 10);
    let number: u32 = table.assign(Kind::Pending)?;
    let codes: Codes = Codes::new(codes);
    let layer = Layer {
        kind: LayerKind::Other,
        flags: 2,
        codes,
    };
    table.close(number, layer, None);
    let fits = match table.fit(number, Purpose::Object) {
        Fit::Fits => true,
        Fit::WrongClass => false,
        Fit::ExternalRaw => false,
        Fit::NotSerializable => false,
    };
    let is_serial: bool = table.all_serial(number);
    let layers: usize = table.layers(number);
    Ok((table, fits && is_serial && layers == 1))
}

/// What an entry is, of a table that is then empty.
pub fn entry(table: &mut Table, number: u32) -> u8 {
    let what = match table.get(number) {
        Some(Entry::Text) => 1,
        Some(Entry::Other) => 2,
        Some(Entry::Pending) => 3,
        Some(Entry::Closed(_)) => 4,
        None => 0,
    };
    table.reset();
    if table.count() == 0 { what } else { 5 }
}

/// The ways in which an entry is not added.
pub fn added(table: &mut Table) -> u8 {
    match table.assign(Kind::Text) {
        Ok(_) => 0,
        Err(TableFault::Full) => 1,
        Err(TableFault::OutOfMemory) => 2,
    }
}

/// What a class is.
pub fn kind(kind: LayerKind) -> u8 {
    match kind {
        LayerKind::Proxy => 0,
        LayerKind::Array(BodyKind::Prim(code)) => code,
        LayerKind::Array(BodyKind::Values) => 1,
        LayerKind::Other => 2,
    }
}
