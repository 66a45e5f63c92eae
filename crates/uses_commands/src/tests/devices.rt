//! Devices that fail: the status is 3, and the reason is told.

use crate::tests::{check, fails, list};
use jser_commands::Job;
use std::alloc::{AllocGlobal, Global};
use std::process::Abort;
use test_support::Pieces;
use test_support::streams::{ABC_NULL_REF, ENUM_CONSTANT, LINKED_PAIR};

#[test]
fn a_write_that_fails_at_once(rt: HostRuntime) {
    let source = Pieces::new(ABC_NULL_REF, 7);
    fails(&rt, &check(&rt, ""), source, 0, b"", b"write failed\n");
}

#[test]
fn a_write_that_fails_in_a_text(rt: HostRuntime) {
    let line = b"write failed\n";
    let shown = Pieces::new(LINKED_PAIR, 7);
    fails(
        &rt,
        &Job::Show { values: false },
        shown,
        17,
        b"stream version 5\n",
        line,
    );
    let listed = Pieces::new(ENUM_CONSTANT, 7);
    fails(&rt, &list(&rt, ""), listed, 4, b"1 un", line);
}

#[test]
fn a_read_that_fails_anywhere(rt: HostRuntime) {
    let jobs = [
        check(&rt, ""),
        Job::Show { values: false },
        Job::ShowLimited {
            values: false,
            limit: 9,
        },
        list(&rt, ""),
    ];
    for job in &jobs {
        for count in 0..=LINKED_PAIR.len() {
            let (front, _) = LINKED_PAIR.split_at(count);
            fails(
                &rt,
                job,
                Pieces::failing(front, 7),
                99,
                b"",
                b"read failed\n",
            );
        }
    }
}
