//! Each job on worked streams.

use crate::tests::{check, does, list, list_anywhere};
use jser_commands::Job;
use std::alloc::{AllocGlobal, Global};
use std::process::Abort;
use std::test::Fail;
use test_support::streams::{
    ABC_NULL_REF, ARRAY_LIST, EMPTY_STREAM, ENUM_CONSTANT, INT_ARRAY, LINKED_PAIR, RESET_EPOCHS,
    large, nest,
};

const RESET_EPOCHS_TEXT: &[u8] = b"stream version 5
text #0.7e0000 \"a\"
reset
text #1.7e0000 \"b\"
ref #1.7e0000
";

#[test]
fn checks_say_yes(rt: HostRuntime) {
    let rows: [(&[u8], &[u8]); 6] = [
        (EMPTY_STREAM, b"yes 4 bytes, 0 contents, 0 refs, depth 0\n"),
        (ABC_NULL_REF, b"yes 16 bytes, 3 contents, 3 refs, depth 1\n"),
        (LINKED_PAIR, b"yes 69 bytes, 2 contents, 5 refs, depth 3\n"),
        (INT_ARRAY, b"yes 35 bytes, 1 contents, 2 refs, depth 2\n"),
        (RESET_EPOCHS, b"yes 18 bytes, 4 contents, 3 refs, depth 1\n"),
        (ARRAY_LIST, b"yes 62 bytes, 1 contents, 3 refs, depth 2\n"),
    ];
    let job = check(&rt, "");
    for (bytes, text) in rows {
        does(&rt, &job, bytes, text, 0);
    }
}

#[test]
fn checks_say_no(rt: HostRuntime) {
    let rows: [(&str, &[u8], &[u8]); 5] = [
        ("!java.**", ARRAY_LIST, b"no at 6 to 27: ClassRejected\n"),
        ("", b"\x00", b"no at 0 to 1: BadHeader\n"),
        ("", b"", b"no at 0 to 0: Truncated\n"),
        (
            "",
            b"\xAC\xED\x00\x05\x73\x70",
            b"no at 5 to 6: NullClass\n",
        ),
        ("", b"\xAC\xED\x00\x05\x73", b"no at 5 to 5: Truncated\n"),
    ];
    for (text, bytes, line) in rows {
        does(&rt, &check(&rt, text), bytes, line, 1);
    }
}

#[test]
fn show_prints_the_text(rt: HostRuntime) {
    does(
        &rt,
        &Job::Show { values: false },
        RESET_EPOCHS,
        RESET_EPOCHS_TEXT,
        0,
    );
    let refusal = b"no at 5 to 6: NullClass\n";
    does(
        &rt,
        &Job::Show { values: false },
        b"\xAC\xED\x00\x05\x73\x70",
        refusal,
        1,
    );
}

#[test]
fn a_limit_cuts_between_lines(rt: HostRuntime) {
    // The text has 75 bytes, its first line 17, and the second 19.
    let job = Job::ShowLimited {
        values: false,
        limit: 75,
    };
    does(&rt, &job, RESET_EPOCHS, RESET_EPOCHS_TEXT, 0);
    let rows: [(u64, &[u8]); 4] = [
        (
            36,
            b"stream version 5\ntext #0.7e0000 \"a\"\ncut at 36 bytes\n",
        ),
        (35, b"stream version 5\ncut at 35 bytes\n"),
        (17, b"stream version 5\ncut at 17 bytes\n"),
        (16, b"cut at 16 bytes\n"),
    ];
    for (limit, text) in rows {
        does(
            &rt,
            &Job::ShowLimited {
                values: false,
                limit,
            },
            RESET_EPOCHS,
            text,
            4,
        );
    }
}

#[test]
fn lists_count_and_judge(rt: HostRuntime) {
    let rows: [(&str, &[u8], &[u8]); 5] = [
        ("", ABC_NULL_REF, b""),
        (
            "java.lang.Enum;!*",
            ENUM_CONSTANT,
            b"1 rejected:1 \"E\"\n1 allowed:0 \"java.lang.Enum\"\n",
        ),
        ("!*", INT_ARRAY, b"1 noclass \"[I\"\n"),
        ("B", LINKED_PAIR, b"1 undecided \"List\"\n"),
        (
            "!java.util.*",
            ARRAY_LIST,
            b"1 rejected:0 \"java.util.ArrayList\"\n",
        ),
    ];
    for (text, bytes, lines) in rows {
        does(&rt, &list(&rt, text), bytes, lines, 0);
    }
}

#[test]
fn hidden_names_follow_the_checked_ones(rt: HostRuntime) {
    let rows: [(&str, &[u8], &[u8]); 6] = [
        // A block with the name of no class of the stream, and one with two of them.
        (
            "a.*",
            b"\xAC\xED\x00\x05\x77\x06\x72\x00\x03a.b",
            b"1 hidden allowed:0 \"a.b\"\n",
        ),
        (
            "A;!*",
            b"\xAC\xED\x00\x05\x77\x08\x72\x00\x01B\x72\x00\x01A",
            b"1 hidden rejected:1 \"B\"\n1 hidden allowed:0 \"A\"\n",
        ),
        // The same name twice.
        (
            "",
            b"\xAC\xED\x00\x05\x77\x08\x72\x00\x01A\x72\x00\x01A",
            b"2 hidden undecided \"A\"\n",
        ),
        // A row of two names: the text of the second is also that of a descriptor, which begins with the first.
        (
            "",
            b"\xAC\xED\x00\x05\x77\x0B\x7D\x00\x00\x00\x02\x00\x01r\x00\x01B",
            b"1 hidden undecided \"r\"\n1 hidden undecided \"B\"\n",
        ),
        // A block with the name of its class.
        (
            "",
            b"\xAC\xED\x00\x05\x72\x00\x01A\x00\x00\x00\x00\x00\x00\x00\x00\x02\x00\x00\x77\x04\x72\x00\x01A\x78\x70",
            b"1 undecided \"A\"\n",
        ),
        // An array of ints.
        ("", b"\xAC\xED\x00\x05\x77\x05\x72\x00\x02[I", b""),
    ];
    for (text, bytes, lines) in rows {
        does(&rt, &list_anywhere(&rt, text), bytes, lines, 0);
    }
}

#[test]
fn a_stream_that_is_refused_has_no_hidden_names(rt: HostRuntime) {
    let bytes = b"\xAC\xED\x00\x05\x77\x04\x72\x00\x01A\x73\x70";
    let refusal = b"no at 11 to 12: NullClass\n";
    does(&rt, &list_anywhere(&rt, ""), bytes, refusal, 1);
}

#[test]
fn nests(rt: HostRuntime) -> Result<(), Fail> {
    let bytes = nest(rt.alloc(), 999)?;
    let counts = b"yes 10010 bytes, 1 contents, 1001 refs, depth 1000\n";
    does(&rt, &check(&rt, ""), &bytes, counts, 0);
    does(&rt, &list(&rt, ""), &bytes, b"1 undecided \"[LA;\"\n", 0);
    Ok(())
}

#[test]
fn a_large_stream(rt: HostRuntime) -> Result<(), Fail> {
    let bytes = large(rt.alloc())?;
    let counts = b"yes 93836 bytes, 302 contents, 1504 refs, depth 901\n";
    does(&rt, &check(&rt, ""), &bytes, counts, 0);
    Ok(())
}
