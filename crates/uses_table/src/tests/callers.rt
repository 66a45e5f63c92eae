//! Each caller on a worked case.
ghost use Rattle.std.specs.Prelude.{◌<◌, ◌^◌, vec_len, slice_get, IsTrue, IfOk};
ghost use Rattle.jser_table.specs.Entries.{is_closed};

use super::table::{add_with_fields, flags_and_fields, is_closed};
use crate::classes::{Layout, can_be_read, holds_nothing, is_serial, layout_of, own_layer};
use crate::data::{first_size, has_annotation};
use crate::epochs::{
    Advice, assign_again, assign_or_advise, is_new, log_line, next_epoch, with_class,
};
use crate::fields::{first_code, is_raw, through_codes};
use crate::kept::{
    close_class, holds_fields_alone, is_serial_enum, kept_with_flags, kind_and_first, loses_fields,
    proxy_layer, writes_blocks,
};
use crate::names::{is_name, is_string, kind_of, kind_of_judged};
use crate::references::{class_fit, is_assigned, names_class, names_open_class, names_text};
use jser_table::{
    BodyKind, Class, Codes, Fit, KeptLayer, Kind, Layer, LayerKind, Purpose, Sections, Table,
    TableFault,
};
use std::alloc::{AllocError, AllocGlobal, Global};
use std::process::Abort;
use std::test::Fail;

/// A class with an int and a reference.
fn order(alloc: Global, flags: u8) -> Result<Layer, AllocError> {
    Ok(Layer {
        kind: LayerKind::Other,
        flags,
        codes: Codes::new(vec![in alloc; b'I', b'L']?),
    })
}

/// A table that holds one class, whose objects have an annotation.
fn orders(alloc: Global) -> Result<Table, Fail>
    ensures { IfOk result (λ table. IsTrue (is_closed (slice_get table.entries 0))) }
{
    let layer = order(alloc, 0x03)?;
    Ok(with_class(alloc, 1, layer)?)
}

/// The handles of an epoch, in a table that has room for two.
fn assign_two(rt: &impl Abort, table: &mut Table) {
    holds!(rt; is_new(table));
    same!(rt; assign_again(table, Kind::Text), Ok(0));
    same!(rt; assign_or_advise(table, Kind::Pending), Advice::GoOn(1));
    same!(rt; assign_or_advise(table, Kind::Other), Advice::Refuse);
}

/// What those two name, and that there is no third.
fn compare_two(rt: &impl Abort, table: &Table) {
    holds!(rt; names_text(table, 0) && names_open_class(table, 1) && !is_assigned(table, 2));
}

/// The first handle of the next epoch.
fn begin_again(rt: &impl Abort, table: &mut Table) {
    same!(rt; next_epoch(table, Kind::Other), Ok(0));
    holds!(rt; !is_new(table));
}

#[test]
fn handles(rt: HostRuntime) {
    let mut table = Table::new(rt.alloc(), 2);
    assign_two(&rt, &mut table);
    compare_two(&rt, &table);
    begin_again(&rt, &mut table);
}

#[test]
fn a_log_line(rt: HostRuntime) -> Result<(), Fail> {
    let line = log_line(rt.alloc(), TableFault::Full)?;
    same!(rt; line.as_str(), "the table of handles is full");
    Ok(())
}

/// What the callers say of the class that `orders` closes.
fn compare_class(rt: &impl Abort, table: &Table)
    requires { IsTrue (is_closed (slice_get table.now.entries 0)) }
{
    holds!(rt; names_class(table, 0));
    holds!(rt; can_be_read(table, 0) && is_serial(table, 0));
    holds!(rt; !holds_nothing(table, 0) && own_layer(table, 0).is_some());
}

/// For what that class fits, and another number.
fn compare_fits(rt: &impl Abort, table: &Table) {
    for (number, purpose, fit) in [
        (0, Purpose::Object, Some(Fit::Fits)),
        (0, Purpose::Array, Some(Fit::WrongClass)),
        (1, Purpose::Object, None),
    ] {
        same!(rt; class_fit(table, number, purpose), fit, number);
    }
}

#[test]
fn a_class(rt: HostRuntime) -> Result<(), Fail> {
    let table = orders(rt.alloc())?;
    compare_class(&rt, &table);
    compare_fits(&rt, &table);
    Ok(())
}

/// What stands behind that class in a stream.
fn compare_data(rt: &impl Abort, table: &Table) {
    let Class::Closed(chain) = table.class_at(0) else {
        return;
    };
    same!(rt; layout_of(table, chain), Layout::Values);
    holds!(rt; has_annotation(table, chain));
    let sections = table.sections(chain);
    holds!(rt; sections.is_some());
    if let Some(Sections { first, last: _ }) = sections {
        same!(rt; first_size(table, first), Some(4));
    }
}

#[test]
fn its_data(rt: HostRuntime) -> Result<(), Fail> {
    let table = orders(rt.alloc())?;
    compare_data(&rt, &table);
    Ok(())
}

/// Whether a layer is that of an enum, holds fields alone, writes blocks, and loses fields.
fn compare_flags(rt: &impl Abort, layer: &KeptLayer, wanted: [bool; 4]) {
    let found = [
        is_serial_enum(layer),
        holds_fields_alone(layer),
        writes_blocks(layer),
        loses_fields(layer),
    ];
    same!(rt; found, wanted);
}

#[test]
fn a_layer(rt: HostRuntime) -> Result<(), Fail> {
    for (flags, wanted) in [
        (0x12, [true, true, false, false]),
        (0x00, [false, true, false, true]),
        (0x0C, [false, true, true, true]),
    ] {
        let layer = KeptLayer::new(order(rt.alloc(), flags)?);
        compare_flags(&rt, &layer, wanted);
    }
    Ok(())
}

#[test]
fn its_codes(rt: HostRuntime) -> Result<(), Fail> {
    let layer = order(rt.alloc(), 0x12)?;
    same!(rt; first_code(&layer.codes), Some(b'I'));
    holds!(rt; is_raw(b'J') && !is_raw(b'['));
    Ok(())
}

#[test]
fn codes_given_back(rt: HostRuntime) -> Result<(), Fail> {
    let codes = through_codes(vec![in rt.alloc(); b'J', b'[']?);
    holds!(rt; codes.as_slice() == [b'J', b'['].as_slice());
    Ok(())
}

/// The data of three classes, each with an int, under each other: three sections of four bytes.
fn compare_raws(rt: &impl Abort, table: &Table) {
    let Class::Closed(chain) = table.class_at(2) else {
        panic!(rt; "the class is closed");
    };
    let Some(Sections { first, last }) = table.sections(chain) else {
        panic!(rt; "the class has sections");
    };
    same!(rt; table.section(first).raw_bytes, 4);
    let Some(second) = table.next_section(last, first) else {
        panic!(rt; "there is a second section");
    };
    same!(rt; table.section(second).raw_bytes, 4);
    let Some(third) = table.next_section(last, second) else {
        panic!(rt; "there is a third section");
    };
    same!(rt; table.section(third).raw_bytes, 4);
    holds!(rt; table.next_section(last, third).is_none());
}

/// Closes three classes, each with an int, under each other.
fn close_three(rt: &(impl Abort + AllocGlobal), table: &mut Table) -> Result<(), Fail> {
    let mut parent = None;
    for _ in 0..3u8 {
        parent = Some(add_with_fields(rt, table, 0x02, b"I", parent)?);
    }
    Ok(())
}

#[test]
fn data_of_three(rt: HostRuntime) -> Result<(), Fail> {
    let mut table = Table::new(rt.alloc(), 3);
    close_three(&rt, &mut table)?;
    compare_raws(&rt, &table);
    Ok(())
}

/// A class with these type codes is closed, and the table tells how many they are.
fn compare_closed(
    rt: &impl Abort,
    alloc: Global,
    table: &mut Table,
    codes: &mut Vec<u8>,
) -> Result<(), TableFault>
    requires { vec_len codes.old < 2 ^ 15 }
{
    let fields = codes.len();
    let number = table.assign(Kind::Pending)?;
    close_class(alloc, table, number, 0x02, codes);
    holds!(rt; codes.is_empty());
    compare_first_layer(rt, table, number, fields);
    Ok(())
}

/// The table tells of so many fields in the first layer of this class.
fn compare_first_layer(rt: &impl Abort, table: &Table, number: u32, fields: usize) {
    holds!(rt; is_closed(table, number));
    holds!(rt; table.layers(number) > 0);
    same!(rt; flags_and_fields(table.layer(number, 0)), (0x02, fields));
}

/// The table tells of so many fields of a byte in the first layer of a class.
fn compare_bytes(rt: &impl Abort, alloc: Global, fields: u8) -> Result<(), Fail> {
    let mut table = Table::new(alloc, 1);
    let mut codes = vec![in alloc; b'B'; usize::from(fields)]?;
    compare_closed(rt, alloc, &mut table, &mut codes)?;
    Ok(())
}

/// Classes whose type codes lie in place, and some with too many for that.
#[test]
fn closed_classes(rt: HostRuntime) -> Result<(), Fail> {
    for fields in &[0u8, 1, 25, 26, 27, 100] {
        compare_bytes(&rt, rt.alloc(), *fields)?;
    }
    Ok(())
}

#[test]
fn kept_layers(rt: HostRuntime) -> Result<(), Fail> {
    let kept = kept_with_flags(order(rt.alloc(), 0x12)?, 0x02);
    same!(rt; kept.flags(), 0x02);
    same!(rt; kind_and_first(&kept), (LayerKind::Other, Some(b'I')));
    same!(rt; kind_and_first(&proxy_layer()), (LayerKind::Proxy, None));
    Ok(())
}

#[test]
fn class_names(rt: HostRuntime) {
    for (name, is, kind) in [
        ([0x5B, 0x49], true, LayerKind::Array(BodyKind::Prim(b'I'))),
        ([0x5B, 0x56], false, LayerKind::Other),
    ] {
        holds!(rt; is_name(&name) == is);
        same!(rt; kind_of(&name), kind);
    }
    same!(rt; kind_of_judged(&[0x41]), LayerKind::Other);
    holds!(rt; !is_string(&[0x41]));
}
