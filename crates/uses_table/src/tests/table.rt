//! Worked examples from the format, and long random runs against a plain list of chains.
ghost use Rattle.std.specs.Prelude.{◌≡◌, ◌<◌, ◌^◌, length, slice_get};
ghost use Rattle.jser_table.specs.Entries.{is_pending, is_closed};

use jser_table::{
    BodyKind, Codes, Element, Entry, Fit, KeptLayer, Kind, Layer, LayerKind, Purpose, Table,
    TableFault, element_of, layer_kind_of,
};
use std::alloc::{AllocError, AllocGlobal, Global};
use std::process::Abort;
use std::test::Fail;

mod lines;
mod random;
mod sections;

const INT: u8 = b'I';

fn make_layer(alloc: Global, kind: LayerKind, flags: u8, codes: &[u8]) -> Result<Layer, AllocError>
    requires { length codes.now < 2 ^ 15 }
{
    Ok(Layer {
        kind,
        flags,
        codes: Codes::new(codes.to_vec(alloc)?),
    })
}

fn is_pending(table: &Table, number: u32) -> bool
    ensures { result ≡ is_pending (slice_get table.now.entries number) }
{
    matches!(table.get(number), Some(Entry::Pending))
}

pub(super) fn is_closed(table: &Table, number: u32) -> bool
    ensures { result ≡ is_closed (slice_get table.now.entries number) }
{
    matches!(table.get(number), Some(Entry::Closed(_)))
}

/// The flags of a layer, and how many fields it has.
pub(super) fn flags_and_fields(layer: &KeptLayer) -> (u8, usize) {
    (layer.flags(), layer.codes().len())
}

/// Closes an entry, where it is pending and its parent closed.
fn try_close(table: &mut Table, number: u32, layer: Layer, parent: Option<u32>) -> bool {
    if !is_pending(table, number) {
        return false;
    }
    if let Some(parent) = parent {
        if !is_closed(table, parent) {
            return false;
        }
    }
    table.close(number, layer, parent);
    true
}

/// Adds a class with fields of these type codes, and gives its number.
pub(super) fn add_with_fields(
    rt: &(impl Abort + AllocGlobal),
    table: &mut Table,
    flags: u8,
    codes: &[u8],
    parent: Option<u32>,
) -> Result<u32, Fail>
    requires { length codes.now < 2 ^ 15 }
{
    let layer = make_layer(rt.alloc(), LayerKind::Other, flags, codes)?;
    add_layer(rt, table, layer, parent)
}

/// Adds a class with no fields, and gives its number.
fn add_class(
    rt: &(impl Abort + AllocGlobal),
    table: &mut Table,
    kind: LayerKind,
    flags: u8,
    parent: Option<u32>,
) -> Result<u32, Fail> {
    let layer = make_layer(rt.alloc(), kind, flags, &[])?;
    add_layer(rt, table, layer, parent)
}

/// Adds a class with this layer, and gives its number.
fn add_layer(
    rt: &impl Abort,
    table: &mut Table,
    layer: Layer,
    parent: Option<u32>,
) -> Result<u32, Fail> {
    let number = table.assign(Kind::Pending)?;
    holds!(rt; try_close(table, number, layer, parent));
    Ok(number)
}

/// The number of an entry by its place in a list, if there is one.
fn number_of(place: Option<usize>) -> Result<Option<u32>, Fail> {
    match place {
        None => Ok(None),
        Some(place) => Ok(Some(u32::try_from(place)?)),
    }
}

/// Whether the class fits, where the entry is closed.
fn fit_at(table: &Table, number: u32, purpose: Purpose) -> Option<Fit> {
    if is_closed(table, number) {
        Some(table.fit(number, purpose))
    } else {
        None
    }
}

fn all_serial_at(table: &Table, number: u32) -> Option<bool> {
    if is_closed(table, number) {
        Some(table.all_serial(number))
    } else {
        None
    }
}

fn layers_at(table: &Table, number: u32) -> Option<usize> {
    if is_closed(table, number) {
        Some(table.layers(number))
    } else {
        None
    }
}

/// A table that is full: it has a text and a class whose superclass has not been read.
fn full_table(rt: &(impl Abort + AllocGlobal)) -> Table {
    let mut table = Table::new(rt.alloc(), 2);
    for (kind, answer) in [
        (Kind::Text, Ok(0)),
        (Kind::Pending, Ok(1)),
        (Kind::Other, Err(TableFault::Full)),
    ] {
        same!(rt; table.assign(kind), answer, format_args!("{kind:?}"));
    }
    table
}

#[test]
fn table_full(rt: HostRuntime) {
    let table = full_table(&rt);
    same!(rt; table.count(), 2);
    holds!(rt; matches!(table.get(0), Some(Entry::Text)));
    holds!(rt; matches!(table.get(1), Some(Entry::Pending)));
}

/// Closes the class of a full table.
fn close_in_full(rt: &impl Abort, table: &mut Table, layer: Layer) {
    holds!(rt; try_close(table, 1, layer, None));
    same!(rt; layers_at(table, 1), Some(1));
    holds!(rt; matches!(table.get(1), Some(Entry::Closed(_))));
    holds!(rt; table.get(2).is_none());
}

#[test]
fn table_full_and_close(rt: HostRuntime) -> Result<(), Fail> {
    let layer = make_layer(rt.alloc(), LayerKind::Other, 0x02, &[INT])?;
    let mut table = full_table(&rt);
    close_in_full(&rt, &mut table, layer);
    is_new_when_reset(&rt, &mut table);
    Ok(())
}

/// A reset leaves no entry, and the next handle is number 0 again. A table that begins anew has as many as it is told.
fn is_new_when_reset(rt: &impl Abort, table: &mut Table) {
    table.reset();
    same!(rt; table.count(), 0);
    same!(rt; table.assign(Kind::Other), Ok(0));
    holds!(rt; matches!(table.get(0), Some(Entry::Other)));
    table.restart(1);
    same!(rt; table.assign(Kind::Text), Ok(0));
    same!(rt; table.assign(Kind::Text), Err(TableFault::Full));
}

/// An entry whose class is open is no parent of its own.
fn pending_is_no_parent(rt: &impl Abort, table: &mut Table, layer: Layer) -> Result<(), Fail> {
    let number = table.assign(Kind::Pending)?;
    holds!(rt; !try_close(table, number, layer, Some(number)));
    Ok(())
}

#[test]
fn a_pending_entry_is_no_parent(rt: HostRuntime) -> Result<(), Fail> {
    let layer = make_layer(rt.alloc(), LayerKind::Other, 0x02, &[])?;
    let mut table = Table::new(rt.alloc(), 9);
    pending_is_no_parent(&rt, &mut table, layer)
}

const INTS: LayerKind = LayerKind::Array(BodyKind::Prim(INT));

/// Classes with no superclass: the kind, the flags, a purpose, and how the class fits it.
const FITS: [(LayerKind, u8, Purpose, Fit); 12] = [
    (LayerKind::Other, 0x02, Purpose::Object, Fit::Fits),
    (
        LayerKind::Other,
        0x00,
        Purpose::Object,
        Fit::NotSerializable,
    ),
    (LayerKind::Other, 0x04, Purpose::Object, Fit::ExternalRaw),
    (LayerKind::Other, 0x0C, Purpose::Object, Fit::Fits),
    (LayerKind::Proxy, 0x00, Purpose::Object, Fit::Fits),
    (INTS, 0x04, Purpose::Object, Fit::WrongClass),
    (LayerKind::Other, 0x02, Purpose::Array, Fit::WrongClass),
    (LayerKind::Other, 0x02, Purpose::EnumConst, Fit::WrongClass),
    (LayerKind::Proxy, 0x00, Purpose::Array, Fit::WrongClass),
    (LayerKind::Proxy, 0x10, Purpose::EnumConst, Fit::WrongClass),
    (INTS, 0x02, Purpose::Array, Fit::Fits),
    (LayerKind::Other, 0x12, Purpose::EnumConst, Fit::Fits),
];

/// Adds each class to the table, and compares how it fits.
fn compare_fits(rt: &(impl Abort + AllocGlobal), table: &mut Table) -> Result<(), Fail> {
    for (kind, flags, purpose, fit) in &FITS {
        let number = add_class(rt, table, *kind, *flags, None)?;
        same!(rt;
            fit_at(table, number, *purpose),
            Some(*fit),
            format_args!("{kind:?} with flags {flags} as {purpose:?}")
        );
    }
    Ok(())
}

#[test]
fn fit_of_one_class(rt: HostRuntime) -> Result<(), Fail> {
    let mut table = Table::new(rt.alloc(), 12);
    compare_fits(&rt, &mut table)
}

/// A serializable class over one that is not.
fn add_over_external(rt: &(impl Abort + AllocGlobal), table: &mut Table) -> Result<u32, Fail> {
    let parent = add_class(rt, table, LayerKind::Other, 0x0C, None)?;
    add_class(rt, table, LayerKind::Other, 0x02, Some(parent))
}

#[test]
fn fit_parent_not_serial(rt: HostRuntime) -> Result<(), Fail> {
    let mut table = Table::new(rt.alloc(), 9);
    let number = add_over_external(&rt, &mut table)?;
    compare_not_serial(&rt, &table, number);
    Ok(())
}

/// What the table tells of a class with one superclass, which is not serializable.
fn compare_not_serial(rt: &impl Abort, table: &Table, number: u32) {
    same!(rt; fit_at(table, number, Purpose::Object), Some(Fit::NotSerializable));
    same!(rt; all_serial_at(table, number), Some(false));
    same!(rt; layers_at(table, number), Some(2));
}

/// The units of an ASCII text.
fn units(alloc: Global, text: &str) -> Result<Vec<u16>, AllocError> {
    let mut units = Vec::new(alloc);
    for byte in text.as_bytes() {
        units.push(u16::from(*byte))?;
    }
    Ok(units)
}

/// Names, each with that of its element.
const ELEMENTS: [(&str, &str); 7] = [
    ("[[Lx.Y;", "x.Y"),
    ("[L;", ""),
    ("I", "I"),
    ("[Lint;", "int"),
    ("[L[I;;", "[I;"),
    ("", ""),
    ("integer", "integer"),
];

#[test]
fn element_names(rt: HostRuntime) -> Result<(), Fail> {
    for (name, element) in &ELEMENTS {
        let units_of_name = units(rt.alloc(), name)?;
        let wanted = units(rt.alloc(), element)?;
        same!(rt;
            element_of(&units_of_name),
            Element::Name(&wanted),
            name
        );
    }
    Ok(())
}

/// Names whose element is no class.
const PRIMITIVES: [&str; 11] = [
    "boolean", "byte", "char", "double", "float", "int", "long", "short", "void", "[I", "[[Z",
];

#[test]
fn primitive_elements(rt: HostRuntime) -> Result<(), Fail> {
    for name in &PRIMITIVES {
        let element = units(rt.alloc(), name)?;
        same!(rt; element_of(&element), Element::Primitive, name);
    }
    Ok(())
}

/// Names that no class can have.
const MALFORMED: [&str; 6] = ["[", "[V", "[II", "[Lx", "[x;", "[["];

#[test]
fn malformed_names(rt: HostRuntime) -> Result<(), Fail> {
    for name in &MALFORMED {
        let malformed = units(rt.alloc(), name)?;
        compare_malformed(&rt, &malformed, name);
    }
    Ok(())
}

/// No class has this name.
fn compare_malformed(rt: &impl Abort, malformed: &[u16], name: &str) {
    same!(rt; element_of(malformed), Element::Malformed, name);
    same!(rt; layer_kind_of(malformed), None, name);
}

/// Names, each with the kind of the class that has it.
const KINDS: [(&str, LayerKind); 7] = [
    ("[I", INTS),
    ("[[I", LayerKind::Array(BodyKind::Values)),
    ("[Lx;", LayerKind::Array(BodyKind::Values)),
    ("[[Lx;", LayerKind::Array(BodyKind::Values)),
    ("int", LayerKind::Other),
    ("x.Y", LayerKind::Other),
    ("", LayerKind::Other),
];

#[test]
fn layer_kinds(rt: HostRuntime) -> Result<(), Fail> {
    for (name, kind) in &KINDS {
        let units_of_name = units(rt.alloc(), name)?;
        same!(rt; layer_kind_of(&units_of_name), Some(*kind), name);
    }
    Ok(())
}

/// The kind of the entry with this number, for the test below.
fn kind_of(number: u32) -> Kind {
    match number % 3 {
        0 => Kind::Text,
        1 => Kind::Pending,
        _ => Kind::Other,
    }
}

/// Assigns the handle with this number; where its growth is refused the table is as it was, and it is assigned again.
fn assign_again(rt: &impl Abort, table: &mut Table, number: u32) {
    let mut answer = table.assign(kind_of(number));
    if answer == Err(TableFault::OutOfMemory) {
        same!(rt; table.count(), number);
        answer = table.assign(kind_of(number));
    }
    same!(rt; answer, Ok(number));
}

/// Run with each allocation refused in turn: a refused growth leaves the table as it was, and the next
/// call succeeds.
#[test]
fn a_refused_growth_changes_nothing(rt: HostRuntime) {
    let mut table = Table::new(rt.alloc(), 200);
    for number in 0..200u32 {
        assign_again(&rt, &mut table, number);
    }
    for number in 0..200u32 {
        let wanted = kind_of(number) == Kind::Pending;
        holds!(rt; is_pending(&table, number) == wanted, number);
    }
    same!(rt; table.assign(Kind::Text), Err(TableFault::Full));
}
