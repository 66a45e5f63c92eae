//! The examples of the README of `jser_table`.

use jser_table::{Class, Codes, Fit, Kind, Layer, LayerKind, Purpose, Section, Sections, Table};
use std::process::Abort;
use std::test::Fail;

#[test]
fn a_class_and_its_data(rt: HostRuntime) -> Result<(), Fail> {
    let alloc = rt.alloc();
    // README: jser_table
    let mut table = Table::new(alloc, 1000);
    // A class descriptor begins; it has one field, an int.
    let number = table.assign(Kind::Pending)?;
    let layer = Layer {
        kind: LayerKind::Other,
        flags: 0x02,
        codes: Codes::new(vec![in alloc; b'I']?),
    };
    // It has no superclass.
    table.close(number, layer, None);
    assert_eq!(rt; table.fit(number, Purpose::Object), Fit::Fits);
    // end
    compare_data(&rt, &table, number);
    Ok(())
}

// README: jser_table
/// What the first section of an object's data holds, and whether another section comes after it.
fn first_section(table: &Table, number: u32) -> Option<(Section, bool)> {
    let Class::Closed(chain) = table.class_at(number) else {
        return None;
    };
    let Sections { first, last } = table.sections(chain)?;
    // None after the last.
    let next = table.next_section(last, first);
    Some((table.section(first), next.is_some()))
}
// end

/// What the table tells of the data of an object of that class: one raw value, no other value, and no annotation.
fn compare_data(rt: &impl Abort, table: &Table, number: u32) {
    let Some((section, comes_another)) = first_section(table, number) else {
        panic!(rt; "the class has no sections");
    };
    same!(rt; (section.prims, section.values), (1, 0));
    holds!(rt; !section.is_annotated);
    holds!(rt; !comes_another);
}
