//! The worked streams under filters, tables of modules and limits.

use crate::tests::asserted::same;
use crate::tests::{
    ARRAY_LIST, ENUM_CONSTANT, INT_ARRAY, LAX, LINKED_PAIR, PROXY, STRICT, Wanted, assert_row,
    with_filter,
};
use jser_check::{FilterGate, Options, Reason};
use jser_filter::{Filter, Modules};
use jser_reader::{Answer, Gate};
use std::alloc::{AllocGlobal, Global};
use std::process::Abort;
use std::test::Fail;

/// An array of arrays of the class `x.Y`, up to the name of its class.
const ARRAYS_OF_ARRAYS: &str = "ACED0005 75 72 0007 \"[[Lx.Y;\"";

/// A descriptor of the class `A`.
const CLASS_A: &str = "ACED0005 72 0001 \"A\" 0000000000000001 02 0000 78 70";

const REJECTED: Wanted = Err((Reason::ClassRejected, 6, 27));

/// The name of a row, the text of the filter, the stream, whether the check is strict, and what is wanted.
type Row = (&'static str, &'static str, &'static str, Options, Wanted);

/// Names under patterns.
const NAMES: [Row; 7] = [
    (
        "array-list, allowed",
        "java.util.*;!*",
        ARRAY_LIST,
        LAX,
        Ok([62, 1, 3, 2, 3]),
    ),
    (
        "array-list, rejected",
        "!java.**",
        ARRAY_LIST,
        LAX,
        REJECTED,
    ),
    (
        "enum-constant, rejected",
        "java.lang.Enum;!*",
        ENUM_CONSTANT,
        LAX,
        Err((Reason::ClassRejected, 6, 9)),
    ),
    (
        "proxy, rejected",
        "!I",
        PROXY,
        LAX,
        Err((Reason::ClassRejected, 10, 13)),
    ),
    ("undecided-name", "B", CLASS_A, LAX, Ok([21, 1, 2, 2, 1])),
    (
        "undecided-name, the same name",
        "A",
        CLASS_A,
        STRICT,
        Ok([21, 1, 2, 2, 1]),
    ),
    (
        "undecided-name, strict",
        "B",
        CLASS_A,
        STRICT,
        Err((Reason::ClassUnmatched, 5, 8)),
    ),
];

/// An array is judged by its elements, and an array of primitives by no pattern, strict or not.
const ELEMENTS: [Row; 4] = [
    (
        "elements, rejected",
        "!x.*;*",
        ARRAYS_OF_ARRAYS,
        LAX,
        Err((Reason::ClassRejected, 6, 15)),
    ),
    (
        "elements, allowed",
        "x.*;!*",
        ARRAYS_OF_ARRAYS,
        STRICT,
        Err((Reason::Truncated, 15, 15)),
    ),
    (
        "int-array, no class",
        "!*",
        INT_ARRAY,
        LAX,
        Ok([35, 1, 2, 2, 2]),
    ),
    (
        "int-array, no class, strict",
        "!*",
        INT_ARRAY,
        STRICT,
        Ok([35, 1, 2, 2, 2]),
    ),
];

const LIMITS: [Row; 5] = [
    (
        "linked-pair, maxdepth",
        "maxdepth=2",
        LINKED_PAIR,
        LAX,
        Err((Reason::DepthExceeded, 63, 64)),
    ),
    (
        "linked-pair, maxrefs",
        "maxrefs=4",
        LINKED_PAIR,
        LAX,
        Err((Reason::RefsExceeded, 64, 65)),
    ),
    (
        "linked-pair-tail, maxbytes",
        "maxbytes=68",
        LINKED_PAIR,
        LAX,
        Err((Reason::BytesExceeded, 65, 69)),
    ),
    (
        "int-array, maxarray",
        "maxarray=1",
        INT_ARRAY,
        LAX,
        Err((Reason::ArrayExceeded, 23, 27)),
    ),
    (
        "linked-pair, the greatest limits",
        "maxdepth=3;maxrefs=5;maxbytes=69;maxarray=0",
        LINKED_PAIR,
        LAX,
        Ok([69, 2, 5, 3, 4]),
    ),
];

/// With no table of modules, a pattern of a module matches nothing.
const WITHOUT_MODULES: [Row; 1] = [(
    "module-without-table",
    "java.base/java.util.*;!*",
    ARRAY_LIST,
    LAX,
    REJECTED,
)];

/// With the table of modules below.
const WITH_MODULES: [Row; 4] = [
    (
        "module-allows",
        "java.base/java.util.*;!*",
        ARRAY_LIST,
        LAX,
        Ok([62, 1, 3, 2, 3]),
    ),
    (
        "module-rejects",
        "!java.base/*;*",
        ARRAY_LIST,
        LAX,
        REJECTED,
    ),
    (
        "module-no-package",
        "java.base/*;!*",
        ENUM_CONSTANT,
        LAX,
        Err((Reason::ClassRejected, 6, 9)),
    ),
    (
        "module-rejects, another package",
        "!java.base/*;*",
        LINKED_PAIR,
        LAX,
        Ok([69, 2, 5, 3, 4]),
    ),
];

/// The filter of a text, with a table of modules if there is one.
fn filter_with(alloc: Global, text: &str, modules: Option<&str>) -> Result<Filter, Fail> {
    match modules {
        Some(modules) => filter_with_modules(alloc, text, modules),
        None => Ok(Filter::parse(alloc, text)?),
    }
}

/// The filter of a text, with this table of modules.
fn filter_with_modules(alloc: Global, text: &str, modules: &str) -> Result<Filter, Fail> {
    let modules = Modules::parse(alloc, modules)?;
    Ok(Filter::parse(alloc, text)?.with_modules(modules))
}

/// Both checks answer to this row what it wants, with the table of modules of this text, if there is one.
fn assert_row_with(
    rt: &(impl Abort + AllocGlobal),
    modules: Option<&str>,
    (name, text, stream, options, wanted): &Row,
) -> Result<(), Fail> {
    let filter = filter_with(rt.alloc(), text, modules)?;
    assert_row(rt, name, stream, &filter, *options, *wanted)
}

/// Both checks answer to each row what it wants, with the table of modules of this text, if there is one.
fn assert_rows(
    rt: &(impl Abort + AllocGlobal),
    modules: Option<&str>,
    rows: &[Row],
) -> Result<(), Fail> {
    for row in rows {
        assert_row_with(rt, modules, row)?;
    }
    Ok(())
}

#[test]
fn rows_under_filters(rt: HostRuntime) -> Result<(), Fail> {
    assert_rows(&rt, None, &NAMES)?;
    assert_rows(&rt, None, &ELEMENTS)?;
    assert_rows(&rt, None, &LIMITS)?;
    assert_rows(&rt, None, &WITHOUT_MODULES)?;
    assert_rows(&rt, Some("java.util=java.base\napp=shop"), &WITH_MODULES)
}

/// The limits of the gate of a filter: on bytes, depth, places and elements.
fn assert_limits(
    rt: &(impl Abort + AllocGlobal),
    text: &str,
    limits: [u64; 4],
) -> Result<(), Fail> {
    with_filter(rt, text, |rt, filter| {
        assert_limits_under(rt, text, filter, limits);
        Ok(())
    })
}

/// The limits of the gate of the filter that this text is.
fn assert_limits_under(rt: &impl Abort, text: &str, filter: &Filter, limits: [u64; 4]) {
    let gate = FilterGate::new(filter, LAX);
    let found = [
        gate.max_bytes(),
        u64::from(gate.max_depth()),
        gate.max_refs(),
        u64::from(gate.max_array()),
    ];
    same(rt, &found, &limits, text);
    same(rt, &gate.max_handles(), &2_139_226_112, text);
}

/// A filter, and its limits as a gate.
const GATES: [(&str, [u64; 4]); 2] = [
    ("", [1 << 40, 65_535, (1 << 63) - 1, 0x7FFF_FFFF]),
    (
        "a;!b;maxdepth=70000;maxbytes=3;maxrefs=4;maxarray=5",
        [3, 65_535, 4, 5],
    ),
];

#[test]
fn gate_limits(rt: HostRuntime) -> Result<(), Fail> {
    for (text, limits) in GATES {
        assert_limits(&rt, text, limits)?;
    }
    Ok(())
}

/// What the gate of this filter answers to names of one unit.
fn assert_names(rt: &impl Abort, filter: &Filter) {
    for (unit, options, answer) in [
        (0x61, STRICT, Answer::Pass),
        (0x62, STRICT, Answer::Rejected),
        (0x63, STRICT, Answer::Unmatched),
        (0x63, LAX, Answer::Pass),
    ] {
        let gate = FilterGate::new(filter, options);
        same(rt, &gate.name(&[unit]), &answer, unit);
    }
}

#[test]
fn gate_names(rt: HostRuntime) -> Result<(), Fail> {
    let text = "a;!b;maxdepth=70000;maxbytes=3;maxrefs=4;maxarray=5";
    with_filter(&rt, text, |rt, filter| {
        assert_names(rt, filter);
        Ok(())
    })
}
