//! Verdicts of many texts and names, each made from the rules by hand.
use super::{Row, compare};
use jser_filter::Verdict::{Allowed, NoClass, Rejected, Undecided};
use std::test::Fail;

const NAME_PATTERNS: [Row; 42] = [
    // `P.**` begins with `P.`
    ("a.**", "a.B", Allowed(0)),
    ("a.**", "a.b.C", Allowed(0)),
    ("a.**", "a.", Allowed(0)),
    ("a.**", "a", Undecided),
    ("a.**", "ab.C", Undecided),
    ("a.**", "b.a.C", Undecided),
    ("a.b.**", "a.B", Undecided),
    ("a.b.**", "a.b.C", Allowed(0)),
    // `P.*` begins with `P.` and has no `.` after it
    ("a.*", "a.B", Allowed(0)),
    ("a.*", "a.b.C", Undecided),
    ("a.*", "a.", Allowed(0)),
    ("a.*", "a", Undecided),
    ("a.*", "A.B", Undecided),
    ("a.b.*", "a.b.C", Allowed(0)),
    ("a.b.*", "a.b.c.D", Undecided),
    ("a.*", "a.B$C", Allowed(0)),
    // `X*` begins with X
    ("*", "a.B", Allowed(0)),
    ("*", "", Allowed(0)),
    ("a*", "a", Allowed(0)),
    ("a*", "ab.c.D", Allowed(0)),
    ("a*", "b", Undecided),
    ("a.b*", "a.bc.D", Allowed(0)),
    ("a.b*", "a.c", Undecided),
    ("**", "*x", Allowed(0)),
    ("**", "x", Undecided),
    ("x**", "x*y", Allowed(0)),
    ("x**", "xy", Undecided),
    ("a.***", "a.**b", Allowed(0)),
    ("a.***", "a.B", Undecided),
    // any other is equal
    ("a.B", "a.B", Allowed(0)),
    ("a.B", "a.Bc", Undecided),
    ("a.B", "a", Undecided),
    ("a.B", "a.b", Undecided),
    ("a.*.B", "a.*.B", Allowed(0)),
    ("a.*.B", "a.x.B", Undecided),
    ("*a", "*a", Allowed(0)),
    ("*a", "ba", Undecided),
    ("a.", "a.", Allowed(0)),
    ("..*", "..a", Allowed(0)),
    ("..*", ".a", Undecided),
    (" a", "a", Undecided),
    ("a ", "a ", Allowed(0)),
];

#[test]
fn name_patterns(rt: HostRuntime) -> Result<(), Fail> {
    compare(&rt, &NAME_PATTERNS)
}

const FIRST_MATCHES: [Row; 21] = [
    ("*;!a", "a", Allowed(0)),
    ("!a;*", "a", Rejected(0)),
    ("!a;*", "b", Allowed(1)),
    ("a;!a;a", "a", Allowed(0)),
    ("!a;a", "a", Rejected(0)),
    ("b;a", "a", Allowed(1)),
    (";;a", "a", Allowed(2)),
    ("maxdepth=1;a", "a", Allowed(1)),
    ("a;maxdepth=1;!*", "b", Rejected(2)),
    ("a.*;!a.**", "a.b.C", Rejected(1)),
    ("!a.b.*;a.**", "a.b.C", Rejected(0)),
    ("!a.b.*;a.**", "a.b.c.D", Allowed(1)),
    ("!!a", "!a", Rejected(0)),
    ("!!a", "a", Undecided),
    ("!*", "x.Y", Rejected(0)),
    (";", "", Undecided),
    ("", "", Undecided),
    ("a;", "a", Allowed(0)),
    ("m/a;a", "a", Allowed(1)),
    ("m/a.B;!a.B", "a.B", Rejected(1)),
    ("m//x", "/x", Undecided),
];

#[test]
fn first_match_decides(rt: HostRuntime) -> Result<(), Fail> {
    compare(&rt, &FIRST_MATCHES)
}

const ELEMENTS: [Row; 19] = [
    ("!x.*;*", "[[Lx.Y;", Rejected(0)),
    ("!x.*;*", "x.y.Z", Allowed(1)),
    ("!x.*;*", "[I", NoClass),
    ("!x.*;*", "int", NoClass),
    ("!x.*;*", "I", Allowed(1)),
    ("!*", "void", NoClass),
    ("!*", "[[Z", NoClass),
    ("!*", "boolean", NoClass),
    ("!*", "Boolean", Rejected(0)),
    ("!*", "[Lint;", Rejected(0)),
    ("int", "[Lint;", Allowed(0)),
    ("[Lx;", "[Lx;", Undecided),
    ("x", "[Lx;", Allowed(0)),
    ("[I", "[L[I;;", Undecided),
    ("[I", "[L[I;", Allowed(0)),
    ("x.**", "[[[Lx.y.Z;", Allowed(0)),
    ("*", "[L;", Allowed(0)),
    ("a.B", "[La.B;", Allowed(0)),
    ("a.B", "[La.B$C;", Undecided),
];

#[test]
fn names_are_judged_by_elements(rt: HostRuntime) -> Result<(), Fail> {
    compare(&rt, &ELEMENTS)
}

const BEYOND_ASCII: [Row; 6] = [
    ("é.*", "é.B", Allowed(0)),
    ("é.*", "e.B", Undecided),
    ("😀*", "😀x", Allowed(0)),
    ("😀*", "😁x", Undecided),
    ("x.日本", "x.日本", Allowed(0)),
    ("!x.日*;*", "x.日本", Rejected(0)),
];

#[test]
fn names_beyond_ascii(rt: HostRuntime) -> Result<(), Fail> {
    compare(&rt, &BEYOND_ASCII)
}
