//! Worked streams and the filters that are suggested for them.

use crate::tests::asserted::same;
use crate::tests::text_of;
use test_support::streams::{
    ARRAY_LIST, EMPTY_STREAM, ENUM_CONSTANT, INT_ARRAY, INT_ARRAY_EMPTY, LINKED_PAIR, PROXY,
};

#[test]
fn no_streams(rt: HostRuntime) {
    let text = text_of(&rt, &[]);
    same(
        &rt,
        &text.as_str(),
        &"maxbytes=0;maxrefs=0;maxdepth=0;maxarray=0;!*",
        "of no streams",
    );
}

#[test]
fn one_stream(rt: HostRuntime) {
    let rows: [(&str, &[u8], &str); 7] = [
        (
            "empty-stream",
            EMPTY_STREAM,
            "maxbytes=4;maxrefs=0;maxdepth=0;maxarray=0;!*",
        ),
        (
            "linked-pair",
            LINKED_PAIR,
            "maxbytes=69;maxrefs=5;maxdepth=3;maxarray=0;List;!*",
        ),
        (
            "int-array",
            INT_ARRAY,
            "maxbytes=35;maxrefs=2;maxdepth=2;maxarray=2;!*",
        ),
        (
            "int-array-empty",
            INT_ARRAY_EMPTY,
            "maxbytes=27;maxrefs=2;maxdepth=2;maxarray=0;!*",
        ),
        (
            "enum-constant",
            ENUM_CONSTANT,
            "maxbytes=55;maxrefs=3;maxdepth=3;maxarray=0;E;java.lang.Enum;!*",
        ),
        (
            "proxy",
            PROXY,
            "maxbytes=98;maxrefs=4;maxdepth=3;maxarray=0;I;java.lang.reflect.Proxy;!*",
        ),
        (
            "array-list",
            ARRAY_LIST,
            "maxbytes=62;maxrefs=3;maxdepth=2;maxarray=0;java.util.ArrayList;!*",
        ),
    ];
    for (name, bytes, wanted) in rows {
        let text = text_of(&rt, &[bytes]);
        same(&rt, &text.as_str(), &wanted, name);
    }
}

#[test]
fn several_streams(rt: HostRuntime) {
    let text = text_of(&rt, &[ARRAY_LIST, LINKED_PAIR, INT_ARRAY, LINKED_PAIR]);
    let wanted = "maxbytes=69;maxrefs=5;maxdepth=3;maxarray=2;List;java.util.ArrayList;!*";
    same(
        &rt,
        &text.as_str(),
        &wanted,
        "the greatest counts, and each name once, in order",
    );
}

#[test]
fn an_array_counts_by_its_element(rt: HostRuntime) {
    // An array of no objects of the class `B`: `[LB;`, with the suid 1.
    let array =
        b"\xAC\xED\x00\x05\x75\x72\x00\x04[LB;\x00\x00\x00\x00\x00\x00\x00\x01\x02\x00\x00\x78\x70\x00\x00\x00\x00";
    let text = text_of(&rt, &[array]);
    same(
        &rt,
        &text.as_str(),
        &"maxbytes=29;maxrefs=2;maxdepth=2;maxarray=0;B;!*",
        "of an array of a class",
    );
}
