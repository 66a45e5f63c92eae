//! Filters and tables of modules, as the program makes them: what is told of one that is at fault, and the status.

use crate::tests::asserted::{holds, same};
use crate::tests::{does, filter, has, page};
use jser_commands::Job;
use jser_filter::Modules;
use jser_settings::{filter_in, filter_of, limit_of, modules_of};
use std::alloc::{AllocGlobal, Global};
use std::process::Abort;
use test_support::Pieces;
use test_support::streams::ARRAY_LIST;

const TABLE: &[u8] = b"java.util=java.base\napp=shop";

/// The table of these lines, which have no fault.
fn table(rt: &(impl Abort + AllocGlobal), lines: &[u8]) -> Modules {
    match modules_of(rt.alloc(), &mut Pieces::new(lines, 7), &mut page(rt)) {
        Ok(table) => table,
        Err(_) => rt.panic("this is a table, and there is memory"),
    }
}

#[test]
fn a_faulty_filter_is_told(rt: HostRuntime) {
    let rows: [(&str, &[u8]); 3] = [
        ("max=1", b"filter pattern 0: UnknownLimit\n"),
        ("a;maxdepth=x", b"filter pattern 1: BadLimit\n"),
        ("a;b;c/", b"filter pattern 2: NameMissing\n"),
    ];
    for (text, line) in rows {
        let mut faults = page(&rt);
        let status = filter_of(rt.alloc(), text, &mut faults).err();
        same(&rt, &status, &Some(2), text);
        has(&rt, &faults, line, text);
    }
}

#[test]
fn a_filter_without_fault(rt: HostRuntime) {
    let mut faults = page(&rt);
    match filter_of(rt.alloc(), "a.*;maxdepth=3;!*", &mut faults) {
        Ok(filter) => {
            let limits = filter.limits();
            holds(
                &rt,
                limits.depth == Some(3) && limits.bytes.is_none(),
                "its limits",
            );
        }
        Err(_) => rt.panic("this is a filter, and there is memory"),
    }
    has(&rt, &faults, b"", "nothing is told");
}

#[test]
fn a_filter_in_a_file(rt: HostRuntime) {
    let mut faults = page(&rt);
    let lines = b"# good ones\njava.util.*\n\n!*\n";
    match filter_in(rt.alloc(), &mut Pieces::new(lines, 7), &mut faults) {
        Ok(filter) => {
            let job = Job::Check {
                filter,
                strict: false,
            };
            does(
                &rt,
                &job,
                ARRAY_LIST,
                b"yes 62 bytes, 1 contents, 3 refs, depth 2\n",
                0,
            );
        }
        Err(_) => rt.panic("this is a filter, and there is memory"),
    }
    has(&rt, &faults, b"", "what is told");
}

#[test]
fn a_faulty_table_is_told(rt: HostRuntime) {
    let rows: [(&[u8], &[u8]); 4] = [
        (b"a", b"modules line 0: BadLine\n"),
        (b"a=b=c", b"modules line 0: BadLine\n"),
        (b"a=b\n\na=c", b"modules line 2: PackageTwice\n"),
        (b"\n=b", b"modules line 1: BadLine\n"),
    ];
    for (lines, line) in rows {
        let mut faults = page(&rt);
        let status = modules_of(rt.alloc(), &mut Pieces::new(lines, 1), &mut faults).err();
        same(&rt, &status, &Some(2), "the status");
        has(&rt, &faults, line, "what is told");
    }
}

#[test]
fn files_that_are_not_read(rt: HostRuntime) {
    for count in 0..=TABLE.len() {
        let (front, _) = TABLE.split_at(count);
        let mut faults = page(&rt);
        let status = modules_of(rt.alloc(), &mut Pieces::failing(front, 7), &mut faults).err();
        same(&rt, &status, &Some(3), "the status");
        has(&rt, &faults, b"read failed\n", "what is told");
        let mut others = page(&rt);
        let status = filter_in(rt.alloc(), &mut Pieces::failing(front, 7), &mut others).err();
        same(&rt, &status, &Some(3), "the status");
        has(&rt, &others, b"read failed\n", "what is told");
    }
}

#[test]
fn a_list_asks_the_modules(rt: HostRuntime) {
    let filter = filter(&rt, "!java.base/*;*").with_modules(table(&rt, TABLE));
    let lines = b"1 rejected:0 \"java.util.ArrayList\"\n";
    does(&rt, &Job::List { filter }, ARRAY_LIST, lines, 0);
}

#[test]
fn limits(rt: HostRuntime) {
    let rows = [
        ("0", Ok(0)),
        ("18446744073709551615", Ok(u64::MAX)),
        ("18446744073709551616", Err(2)),
        ("", Err(2)),
        ("-1", Err(2)),
        ("9k", Err(2)),
    ];
    for (text, wanted) in rows {
        let mut faults = page(&rt);
        same(&rt, &limit_of(text, &mut faults), &wanted, text);
        holds(&rt, faults.bytes.is_empty() == wanted.is_ok(), text);
    }
}
