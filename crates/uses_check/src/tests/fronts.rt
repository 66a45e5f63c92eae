//! How many bytes are whole contents: of streams with other bytes behind them, one after another, cut, and refused.

use crate::tests::asserted::same;
use crate::tests::{LAX, with_filter, with_stream};
use jser_check::{Checker, judge_bytes};
use jser_filter::Filter;
use std::alloc::AllocGlobal;
use std::process::Abort;
use std::test::Fail;

/// A stream that is written down, and how many of its bytes are whole contents under the filter `!L`, which refuses one class.
const FRONTS: [(&str, &str, u64); 12] = [
    ("nothing", "", 0),
    ("the header cut", "ACED00", 0),
    ("another header", "ACED0006 70", 0),
    ("the header alone", "ACED0005", 4),
    ("the header, and a byte that is no tag", "ACED0005 00 70", 4),
    ("NULL, and other bytes", "ACED0005 70 00FF70", 5),
    ("two streams", "ACED0005 74 0001 \"a\" ACED0005 70", 8),
    (
        "many contents, and a byte that is no tag",
        "ACED0005 70 70 70 70 70 70 70 70 70 70 70 70 7702AAAA 70 70 70 70 70 70 00",
        26,
    ),
    (
        "a block cut",
        "ACED0005 70 70 70 70 70 70 70 70 70 70 70 70 7702AA",
        16,
    ),
    ("a string cut", "ACED0005 70 74 0003 \"ab\"", 5),
    (
        "a class refused in the third content",
        "ACED0005 70 70 73 72 0001 \"L\" 0000000000000001 02 0000 78 70 70",
        6,
    ),
    ("a reference to no handle", "ACED0005 71007E0000 70", 4),
];

/// What both checks say of the bytes: of all at once, and of one byte after another.
fn assert_whole(
    rt: &(impl Abort + AllocGlobal),
    name: &str,
    bytes: &[u8],
    filter: &Filter,
    checker: &mut Checker,
    wanted: u64,
) {
    let judged = judge_bytes(rt.alloc(), bytes, filter, LAX);
    same(rt, &judged.whole, &wanted, name);
    checker.restart();
    for byte in bytes {
        let _ = checker.feed(&[*byte]);
    }
    same(
        rt,
        &checker.whole(),
        &wanted,
        format_args!("{name}, byte by byte"),
    );
    let _ = checker.finish();
    same(
        rt,
        &checker.whole(),
        &wanted,
        format_args!("{name}, at the end"),
    );
}

/// Each row is judged so.
fn assert_rows(
    rt: &(impl Abort + AllocGlobal),
    filter: &Filter,
    checker: &mut Checker,
) -> Result<(), Fail> {
    for (name, text, wanted) in FRONTS {
        with_stream(rt, text, |rt, bytes| {
            assert_whole(rt, name, bytes, filter, checker, wanted);
            Ok(())
        })?;
    }
    Ok(())
}

#[test]
fn whole_contents(rt: HostRuntime) -> Result<(), Fail> {
    let mut checker = Checker::new(rt.alloc(), Filter::parse(rt.alloc(), "!L")?, LAX);
    with_filter(
        &rt,
        "!L",
        |rt, filter| assert_rows(rt, filter, &mut checker),
    )
}
