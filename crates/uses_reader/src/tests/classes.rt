//! Which class each entry of a stream is.

use crate::classes::class_of_entry;
use crate::tests::asserted::same;
use crate::tests::{skip, with_reader};
use jser_reader::{OpenGate, Reader};
use jser_table::Class;
use std::process::Abort;
use test_support::streams::LINKED_PAIR;

/// Which class each entry of `linked-pair` is: the class `List` is the first, and the others are none.
fn compare_classes(rt: &impl Abort, reader: &mut Reader<OpenGate>) {
    let _ = skip(reader, LINKED_PAIR);
    let Class::Closed(class) = class_of_entry(reader, 0) else {
        panic!(rt; "the class is closed");
    };
    same!(rt; class.index(), 0);
    for entry in 1..4 {
        same!(rt; class_of_entry(reader, entry), Class::NoClass, entry);
    }
    same!(rt; class_of_entry(reader, 4), Class::NotThere);
}

#[test]
fn classes_of_entries(rt: HostRuntime) {
    with_reader(&rt, |rt, reader| compare_classes(rt, reader));
}
