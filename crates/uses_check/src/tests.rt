//! The worked streams through both checks, and sources that fail or return few bytes a call.
//!
//! A stream is written as hexadecimal digits, ASCII text between quotes, and spaces for reading; `stream` makes its
//! bytes.
ghost use Rattle.std.specs.Prelude.{true};

use crate::tests::asserted::same;
use jser_check::{CheckFault, Options, Reason, Refusal, Report, Stop, check_bytes, check_reader};
use jser_filter::Filter;
use jser_prim::{Failed, FromRead, Source};
use std::alloc::{AllocError, AllocGlobal, Global};
use std::process::Abort;
use std::test::Fail;
use test_support::Pieces;

mod asserted;
mod cuts;
mod devices;
mod example;
mod filters;
mod fronts;
mod large;
mod memory;
mod nests;
mod rows;

const LAX: Options = Options { strict: false };

const STRICT: Options = Options { strict: true };

/// Two linked objects of the class `List`.
const LINKED_PAIR: &str = "ACED0005 73 72 0004 \"List\" 69C88A154016AE68 02 0002 49 0005 \"value\"
    4C 0004 \"next\" 74 0006 \"LList;\" 78 70 00000011 73 71007E0000 00000013 70 71007E0003";

/// `LINKED_PAIR`, and a byte that is no tag.
const LINKED_PAIR_TAIL: &str =
    "ACED0005 73 72 0004 \"List\" 69C88A154016AE68 02 0002 49 0005 \"value\"
    4C 0004 \"next\" 74 0006 \"LList;\" 78 70 00000011 73 71007E0000 00000013 70 71007E0003 78";

/// A string, NULL and a reference to the string.
const ABC_NULL_REF: &str = "ACED0005 74 0003 \"abc\" 70 71007E0000";

/// `int[] {1, -1}`.
const INT_ARRAY: &str =
    "ACED0005 75 72 0002 \"[I\" 4DBA602676EAB2A5 02 0000 78 70 00000002 00000001 FFFFFFFF";

/// The constant `A` of the enum `E`.
const ENUM_CONSTANT: &str = "ACED0005 7E 72 0001 \"E\" 0000000000000000 12 0000 78
    72 000E \"java.lang.Enum\" 0000000000000000 12 0000 78 70 74 0001 \"A\"";

/// A proxy of the interface `I`, whose handler is NULL.
const PROXY: &str = "ACED0005 73 7D 00000001 0001 \"I\" 78 72 0017 \"java.lang.reflect.Proxy\"
    E127DA20CC1043CB 02 0001 4C 0001 \"h\" 74 0025 \"Ljava/lang/reflect/InvocationHandler;\" 78 70 70";

/// Two strings, each in an epoch of its own.
const RESET_EPOCHS: &str = "ACED0005 74 0001 \"a\" 79 74 0001 \"b\" 71007E0000";

/// An `ArrayList` that holds the string `a`.
const ARRAY_LIST: &str = "ACED0005 73 72 0013 \"java.util.ArrayList\" 7881D21D99C7619D 03 0001
    49 0004 \"size\" 78 70 00000001 77 04 00000001 74 0001 \"a\" 78";

/// What a row wants of both checks: the counts of a stream (bytes, contents, places, depth and handles), or why bytes are
/// refused, and the two places.
type Wanted = Result<[u64; 5], (Reason, u64, u64)>;

/// The answer that a row wants.
fn wanted_answer(wanted: Wanted) -> Result<Report, Stop> {
    match wanted {
        Ok(counts) => Ok(counted(counts)),
        Err(fault) => Err(refused_at(fault)),
    }
}

fn counted([bytes, contents, refs, depth, handles]: [u64; 5]) -> Report {
    report(bytes, contents, refs, depth, handles)
}

fn refused_at((reason, from_byte, to_byte): (Reason, u64, u64)) -> Stop {
    refused(reason, from_byte, to_byte)
}

/// The value of a hexadecimal digit.
fn digit_of(byte: u8) -> Option<u8> {
    match byte {
        b'0'..=b'9' => byte.checked_sub(b'0'),
        b'A'..=b'F' => byte.checked_sub(b'A' - 10),
        _ => None,
    }
}

/// The bytes of a stream that is written down.
fn stream(alloc: Global, text: &str) -> Result<Vec<u8>, AllocError> {
    let mut bytes = Vec::new(alloc);
    push_written(&mut bytes, text)?;
    Ok(bytes)
}

/// Hands the bytes of a stream that is written down to what tests them, so that making and dropping them is proved once and
/// not in each test.
fn with_stream<R: Abort + AllocGlobal, F: FnOnce(&R, &[u8]) -> Result<(), Fail>>(
    rt: &R,
    text: &str,
    test: F,
) -> Result<(), Fail>
    requires { F.IsAlwaysCallable test }
{
    let bytes = stream(rt.alloc(), text)?;
    test(rt, &bytes)
}

/// Hands the filter of a text to what tests it.
fn with_filter<R: Abort + AllocGlobal, F: FnOnce(&R, &Filter) -> Result<(), Fail>>(
    rt: &R,
    text: &str,
    test: F,
) -> Result<(), Fail>
    requires { F.IsAlwaysCallable test }
{
    let filter = Filter::parse(rt.alloc(), text)?;
    test(rt, &filter)
}

/// Puts what is written down behind the bytes.
fn push_written(bytes: &mut Vec<u8>, text: &str) -> Result<(), AllocError> {
    let mut quoted = false;
    let mut high = None;
    for byte in text.bytes() {
        if byte == b'"' {
            quoted = !quoted;
        } else if quoted {
            bytes.push(byte)?;
        } else if let Some(digit) = digit_of(byte) {
            high = match high {
                None => Some(digit << 4),
                Some(high) => {
                    bytes.push(high | digit)?;
                    None
                }
            };
        }
    }
    Ok(())
}

/// Puts so many copies of one byte behind the bytes.
fn push_copies(bytes: &mut Vec<u8>, byte: u8, count: usize) -> Result<(), AllocError> {
    for _ in 0..count {
        bytes.push(byte)?;
    }
    Ok(())
}

fn report(bytes: u64, contents: u64, refs: u64, depth: u64, handles: u64) -> Report {
    Report {
        bytes,
        contents,
        refs,
        depth,
        handles,
    }
}

fn refused(reason: Reason, from_byte: u64, to_byte: u64) -> Stop {
    Stop::Refused(Refusal {
        from_byte,
        to_byte,
        reason,
    })
}

/// What `check_reader` answers to the bytes, so many a call.
fn answer_in_pieces(
    alloc: Global,
    bytes: &[u8],
    most: usize,
    filter: &Filter,
    options: Options,
) -> Result<Report, CheckFault> {
    let mut pieces = Pieces::new(bytes, most);
    check_reader(alloc, &mut pieces, filter, options)
}

/// Both checks answer this: of a slice, and of a source that returns all at once, one byte and three bytes a call.
fn assert_answer(
    rt: &(impl Abort + AllocGlobal),
    name: &str,
    bytes: &[u8],
    filter: &Filter,
    options: Options,
    answer: Result<Report, Stop>,
) {
    let found = check_bytes(rt.alloc(), bytes, filter, options);
    same(rt, &found, &answer, name);
    let answer = answer.map_err(CheckFault::Stop);
    let whole = check_reader(rt.alloc(), &mut FromRead::new(bytes), filter, options);
    same(rt, &whole, &answer, name);
    for most in [1, 3] {
        let pieced = answer_in_pieces(rt.alloc(), bytes, most, filter, options);
        let text = format_args!("{name}: {most} bytes a call");
        same(rt, &pieced, &answer, text);
    }
}

/// Both checks of the written stream under this filter answer what the row wants.
fn assert_row(
    rt: &(impl Abort + AllocGlobal),
    name: &str,
    text: &str,
    filter: &Filter,
    options: Options,
    wanted: Wanted,
) -> Result<(), Fail> {
    with_stream(rt, text, |rt, bytes| {
        assert_answer(rt, name, bytes, filter, options, wanted_answer(wanted));
        Ok(())
    })
}
