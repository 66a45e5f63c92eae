//! Numbers of classes: they count closings and not handles, and tell apart classes that are alike.

use super::{add_with_fields, make_layer, try_close};
use crate::lines::{is_kept_of_each, kept_of_layer};
use jser_table::{Class, Kind, LayerKind, Table};
use std::alloc::AllocGlobal;
use std::process::Abort;
use std::test::Fail;

/// A class, handle 0, whose superclass, handle 1, is read inside it; and then a class that is like that superclass, handle 2.
fn three_classes(rt: &(impl Abort + AllocGlobal)) -> Result<Table, Fail> {
    let mut table = Table::new(rt.alloc(), 3);
    let outer = table.assign(Kind::Pending)?;
    let base = add_with_fields(rt, &mut table, 0x02, b"I", None)?;
    let layer = make_layer(rt.alloc(), LayerKind::Other, 0x02, b"L")?;
    holds!(rt; try_close(&mut table, outer, layer, Some(base)));
    add_with_fields(rt, &mut table, 0x02, b"I", None)?;
    Ok(table)
}

/// The number of the class at this index of the chain of a handle, if there is one.
fn class_in_chain(table: &Table, handle: u32, index: usize) -> Option<usize> {
    let Class::Closed(class) = table.class_at(handle) else {
        return None;
    };
    if index >= table.layers(handle) {
        return None;
    }
    Some(table.class_of_layer(class, index).index())
}

/// Handle, index in its chain, number of the class there.
const CLASSES: [(u32, usize, Option<usize>); 6] = [
    (0, 0, Some(0)),
    (0, 1, Some(1)),
    (0, 2, None),
    (1, 0, Some(0)),
    (2, 0, Some(2)),
    (3, 0, None),
];

#[test]
fn classes_are_numbered_as_they_close(rt: HostRuntime) -> Result<(), Fail> {
    let table = three_classes(&rt)?;
    for (handle, index, class) in &CLASSES {
        same!(rt; class_in_chain(&table, *handle, *index), *class, format_args!("{handle}, {index}"));
    }
    Ok(())
}

/// The name of the class at this index of the chain of a handle, by what is kept of each class.
fn name_in_chain<'a>(
    table: &Table,
    handle: u32,
    index: usize,
    names: &'a [&'a str],
) -> Option<&'a str> {
    let Class::Closed(class) = table.class_at(handle) else {
        return None;
    };
    if index >= table.layers(handle) || !is_kept_of_each(table, names.len()) {
        return None;
    }
    kept_of_layer(table, class, index, names)
}

#[test]
fn what_is_kept_of_a_class_is_found_by_its_number(rt: HostRuntime) -> Result<(), Fail> {
    let table = three_classes(&rt)?;
    let names = ["Base", "Order", "Copy"];
    same!(rt; name_in_chain(&table, 0, 0, &names), Some("Base"));
    same!(rt; name_in_chain(&table, 0, 1, &names), Some("Order"));
    same!(rt; name_in_chain(&table, 2, 0, &names), Some("Copy"));
    Ok(())
}
