//! The worked streams under the empty filter.

use crate::tests::{
    ABC_NULL_REF, ARRAY_LIST, ENUM_CONSTANT, INT_ARRAY, LAX, LINKED_PAIR, LINKED_PAIR_TAIL, PROXY,
    RESET_EPOCHS, Wanted, assert_answer, assert_row, push_copies, report, stream, with_filter,
};
use jser_check::Reason;
use jser_filter::Filter;
use std::alloc::AllocGlobal;
use std::process::Abort;
use std::test::Fail;

/// The name of a row, its stream, and what is wanted.
pub(crate) type Row = (&'static str, &'static str, Wanted);

/// Streams that are accepted.
pub(crate) const ACCEPTED: [Row; 16] = [
    ("empty-stream", "ACED0005", Ok([4, 0, 0, 0, 0])),
    ("abc-null-ref", ABC_NULL_REF, Ok([16, 3, 3, 1, 1])),
    ("linked-pair", LINKED_PAIR, Ok([69, 2, 5, 3, 4])),
    ("int-array", INT_ARRAY, Ok([35, 1, 2, 2, 2])),
    (
        "int-array, no elements",
        "ACED0005 75 72 0002 \"[I\" 4DBA602676EAB2A5 02 0000 78 70 00000000",
        Ok([27, 1, 2, 2, 2]),
    ),
    ("enum-constant", ENUM_CONSTANT, Ok([55, 1, 3, 3, 4])),
    ("proxy", PROXY, Ok([98, 1, 4, 3, 4])),
    ("reset-epochs", RESET_EPOCHS, Ok([18, 4, 3, 1, 2])),
    ("array-list", ARRAY_LIST, Ok([62, 1, 3, 2, 3])),
    (
        "own-superclass, in its annotation",
        "ACED0005 72 0001 \"A\" 0000000000000001 02 0000 71007E0000 78 70",
        Ok([26, 1, 3, 2, 1]),
    ),
    (
        "external-raw, a class object",
        "ACED0005 76 72 0001 \"A\" 0000000000000001 04 0000 78 70",
        Ok([22, 1, 2, 2, 2]),
    ),
    (
        "external-over-serial",
        "ACED0005 73 72 0001 \"A\" 0000000000000001 0C 0000 78
        72 0001 \"B\" 0000000000000002 02 0001 49 0001 \"n\" 78 70 770105 78",
        Ok([46, 1, 3, 3, 3]),
    ),
    (
        "odd-texts, a surrogate",
        "ACED0005 74 0003 EDA080",
        Ok([10, 1, 1, 1, 1]),
    ),
    ("blocks, no bytes", "ACED0005 7700", Ok([6, 1, 0, 0, 0])),
    (
        "superclass-first",
        "ACED0005 73 72 0001 \"B\" 0000000000000002 02 0001 49 0001 \"i\" 78
        72 0001 \"A\" 0000000000000001 03 0001 42 0001 \"b\" 78 70 07 78 00000009",
        Ok([52, 1, 3, 3, 3]),
    ),
    (
        "long-string",
        "ACED0005 7C 0000000000000001 \"a\"",
        Ok([14, 1, 1, 1, 1]),
    ),
];

/// Bytes whose refusal is by the header, by a tag, by a handle or by a length.
pub(crate) const REFUSED: [Row; 18] = [
    ("empty-stream, no bytes", "", Err((Reason::Truncated, 0, 0))),
    (
        "empty-stream, one byte",
        "AC",
        Err((Reason::Truncated, 0, 1)),
    ),
    (
        "empty-stream, another byte",
        "00",
        Err((Reason::BadHeader, 0, 1)),
    ),
    (
        "empty-stream, version 6",
        "ACED0006",
        Err((Reason::BadHeader, 0, 4)),
    ),
    (
        "linked-pair-tail",
        LINKED_PAIR_TAIL,
        Err((Reason::BadTag, 69, 70)),
    ),
    (
        "int-array-huge-cut",
        "ACED0005 75 72 0002 \"[I\" 4DBA602676EAB2A5 02 0000 78 70 7FFFFFFF",
        Err((Reason::Truncated, 27, 27)),
    ),
    (
        "reset-epochs, a handle of the first",
        "ACED0005 74 0001 \"a\" 79 74 0001 \"b\" 71007E0001",
        Err((Reason::NoSuchHandle, 14, 18)),
    ),
    (
        "no-handle-yet",
        "ACED0005 71007E0000",
        Err((Reason::NoSuchHandle, 5, 9)),
    ),
    (
        "no-handle-yet, the greatest",
        "ACED0005 71FFFFFFFF",
        Err((Reason::NoSuchHandle, 5, 9)),
    ),
    (
        "exception-and-inner-reset, an exception",
        "ACED0005 7B",
        Err((Reason::ExceptionTag, 4, 5)),
    ),
    (
        "exception-and-inner-reset, a reset",
        "ACED0005 72 0001 \"A\" 0000000000000001 02 0000 79",
        Err((Reason::ResetInside, 19, 20)),
    ),
    (
        "odd-texts, an unused form",
        "ACED0005 72 0002 C181",
        Err((Reason::BadText, 5, 8)),
    ),
    (
        "blocks, a negative length",
        "ACED0005 7AFFFFFFFF",
        Err((Reason::NegativeLength, 5, 9)),
    ),
    (
        "long-block-cut",
        "ACED0005 7A7FFFFFFF",
        Err((Reason::Truncated, 9, 9)),
    ),
    (
        "long-string, a negative length",
        "ACED0005 7C FFFFFFFFFFFFFFFF",
        Err((Reason::NegativeLength, 5, 13)),
    ),
    (
        "long-string-cut",
        "ACED0005 7C 7FFFFFFFFFFFFFFF",
        Err((Reason::Truncated, 5, 13)),
    ),
    (
        "tag-tie",
        "ACED0005 75 72 0002 \"[V\"",
        Err((Reason::BadArrayName, 6, 10)),
    ),
    (
        "object-tag-alone",
        "ACED0005 73",
        Err((Reason::Truncated, 5, 5)),
    ),
];

/// Bytes whose refusal is by a class.
const REFUSED_CLASSES: [Row; 14] = [
    (
        "own-superclass",
        "ACED0005 72 0001 \"A\" 0000000000000001 02 0000 78 71007E0000",
        Err((Reason::OpenDescriptor, 21, 25)),
    ),
    (
        "external-raw",
        "ACED0005 73 72 0001 \"A\" 0000000000000001 04 0000 78 70",
        Err((Reason::ExternalRaw, 17, 18)),
    ),
    (
        "external-raw, no flags",
        "ACED0005 73 72 0001 \"A\" 0000000000000001 00 0000 78 70",
        Err((Reason::NotSerializable, 17, 18)),
    ),
    (
        "wrong-kinds, null",
        "ACED0005 73 70",
        Err((Reason::NullClass, 5, 6)),
    ),
    (
        "wrong-kinds, a class for an array",
        "ACED0005 75 72 0001 \"A\"",
        Err((Reason::WrongClass, 6, 9)),
    ),
    (
        "wrong-kinds, a proxy for an array",
        "ACED0005 75 7D",
        Err((Reason::WrongClass, 5, 6)),
    ),
    (
        "wrong-kinds, an array of void",
        "ACED0005 72 0002 \"[V\"",
        Err((Reason::BadArrayName, 5, 9)),
    ),
    (
        "wrong-kinds, a string for a class",
        "ACED0005 74 0001 \"a\" 73 71007E0000",
        Err((Reason::WrongKind, 10, 14)),
    ),
    (
        "descriptor-faults, flags",
        "ACED0005 72 0001 \"A\" 0000000000000001 06",
        Err((Reason::BadFlags, 16, 17)),
    ),
    (
        "descriptor-faults, a type code",
        "ACED0005 72 0001 \"A\" 0000000000000001 02 0001 56",
        Err((Reason::BadTypeCode, 19, 20)),
    ),
    (
        "descriptor-faults, the order",
        "ACED0005 72 0001 \"A\" 0000000000000001 02 0002 4C 0001 \"a\" 74 0001 \"L\" 49",
        Err((Reason::FieldOrder, 27, 28)),
    ),
    (
        "descriptor-faults, a negative length",
        "ACED0005 72 0001 \"A\" 0000000000000001 02 FFFF",
        Err((Reason::NegativeLength, 17, 19)),
    ),
    (
        "superclass-not-serial",
        "ACED0005 73 72 0001 \"A\" 0000000000000001 02 0000 78 72 0001 \"B\" 0000000000000002 00",
        Err((Reason::NotSerializable, 33, 34)),
    ),
    (
        "superclass-ref-not-serial",
        "ACED0005 72 0001 \"B\" 0000000000000001 0C 0000 78 70
        73 72 0001 \"A\" 0000000000000001 02 0000 78 71007E0000",
        Err((Reason::NotSerializable, 39, 43)),
    ),
];

/// Both checks answer to each row what it wants.
fn assert_rows(rt: &(impl Abort + AllocGlobal), rows: &[Row]) -> Result<(), Fail> {
    with_filter(rt, "", |rt, filter| assert_rows_under(rt, filter, rows))
}

/// Both checks answer to each row under this filter what it wants.
fn assert_rows_under(
    rt: &(impl Abort + AllocGlobal),
    filter: &Filter,
    rows: &[Row],
) -> Result<(), Fail> {
    for (name, text, wanted) in rows {
        assert_row(rt, name, text, filter, LAX, *wanted)?;
    }
    Ok(())
}

#[test]
fn accepted_streams(rt: HostRuntime) -> Result<(), Fail> {
    assert_rows(&rt, &ACCEPTED)
}

#[test]
fn refused_streams(rt: HostRuntime) -> Result<(), Fail> {
    assert_rows(&rt, &REFUSED)?;
    assert_rows(&rt, &REFUSED_CLASSES)
}

/// The head of a block, how many bytes are in it, and how many bytes there are in all.
type Block = (&'static str, usize, u64);

const BLOCKS: [Block; 2] = [
    ("ACED0005 77FF", 255, 261),
    ("ACED0005 7A00000100", 256, 265),
];

/// The block is accepted, with so many bytes in all.
fn assert_block(
    rt: &(impl Abort + AllocGlobal),
    filter: &Filter,
    (head, size, all): Block,
) -> Result<(), Fail> {
    let mut bytes = stream(rt.alloc(), head)?;
    push_copies(&mut bytes, 0x2A, size)?;
    let counts = Ok(report(all, 1, 0, 0, 0));
    assert_answer(rt, head, &bytes, filter, LAX, counts);
    Ok(())
}

/// Each of the blocks is accepted.
fn assert_blocks(rt: &(impl Abort + AllocGlobal), filter: &Filter) -> Result<(), Fail> {
    for block in BLOCKS {
        assert_block(rt, filter, block)?;
    }
    Ok(())
}

#[test]
fn blocks(rt: HostRuntime) -> Result<(), Fail> {
    with_filter(&rt, "", |rt, filter| assert_blocks(rt, filter))
}
