//! Single words, with the numbers and units at their edges.

use super::assert_said;
use jser_prim::{Outbox, Sink};
use jser_printer::{OwnerNode, Printer, Token, write, write_decimal, write_quoted};
use std::alloc::{AllocError, AllocGlobal};
use std::process::Abort;
use std::test::Fail;
use test_support::Page;

/// An externalizable object of a class whose name has units that do not stand for themselves.
const EXTERNAL: [Token<'static>; 10] = [
    Token::Header,
    Token::Tag(0x73),
    Token::Tag(0x72),
    Token::Text(&[0x22, 0x41, 0x5C, 0xE9]),
    Token::Suid(1),
    Token::Flags(0x0C),
    Token::FieldCount(0),
    Token::Tag(0x78),
    Token::Tag(0x70),
    Token::Tag(0x78),
];

#[test]
fn name_of_a_section(rt: HostRuntime) -> Result<(), Fail> {
    let owners = [OwnerNode {
        number: 1,
        elements: 0,
    }];
    let want = b"stream version 5
object #0.7e0001
  class desc #0.7e0000 \"\\\"A\\\\\\u00e9\" suid 0000000000000001 flags 0c
    super null
  external \"\\\"A\\\\\\u00e9\"
";
    assert_said(&rt, &owners, &EXTERNAL, want)
}

/// How an array of one element begins, whose class was named before.
const ARRAY: [Token<'static>; 4] = [
    Token::Tag(0x75),
    Token::Tag(0x71),
    Token::Handle(0x7E0000),
    Token::ArrayLength(1),
];

/// Writes a null inside so many arrays, in one that is the content of the stream.
fn write_nested<W: Sink>(
    outbox: &mut Outbox,
    sink: &mut W,
    printer: &mut Printer<'_>,
    levels: u32,
) -> Result<(), AllocError> {
    write_each(outbox, sink, printer, &[Token::Header])?;
    for _ in 0..levels {
        write_each(outbox, sink, printer, &ARRAY)?;
    }
    write_each(outbox, sink, printer, &[Token::Tag(0x70)])
}

/// How many spaces the last line begins with.
fn spaces_of_last(text: &[u8]) -> Option<usize> {
    text.split(|byte| *byte == b'\n')
        .filter(|line| !line.is_empty())
        .last()
        .and_then(|line| line.iter().position(|byte| *byte != b' '))
}

/// How many spaces a line of this level begins with, up to its first word.
fn spaces_at(rt: &impl AllocGlobal, levels: u32) -> Result<Option<usize>, AllocError> {
    let mut page = Page::new(rt.alloc(), 512, 100000);
    let mut outbox = Outbox::new();
    let mut printer = Printer::new(rt.alloc(), false, &[]);
    write_nested(&mut outbox, &mut page, &mut printer, levels)?;
    outbox.flush(&mut page);
    Ok(spaces_of_last(page.bytes.as_slice()))
}

#[test]
fn lines_begin_with_two_spaces_a_level(rt: HostRuntime) -> Result<(), Fail> {
    for (level, count) in [
        (0u32, 0usize),
        (1, 2),
        (2, 4),
        (3, 6),
        (4, 8),
        (32, 64),
        (33, 66),
        (100, 200),
    ] {
        assert_eq!(rt; spaces_at(&rt, level)?, Some(count), "at {level}");
    }
    Ok(())
}

/// Of a token that is not wanted nothing is written.
#[test]
fn token_that_is_not_wanted(rt: HostRuntime) -> Result<(), Fail> {
    let mut page = Page::new(rt.alloc(), 1, 1000);
    let mut outbox = Outbox::new();
    let mut printer = Printer::new(rt.alloc(), false, &[]);
    printer.write_next(&mut outbox, &mut page, Token::Flags(3))?;
    outbox.flush(&mut page);
    assert!(rt; page.bytes.is_empty());
    Ok(())
}

#[test]
fn decimals(rt: HostRuntime) {
    let mut page = Page::new(rt.alloc(), 1, 1000);
    let mut outbox = Outbox::new();
    for number in [0, 1, 18446744073709551615] {
        write_decimal(&mut outbox, &mut page, number);
        write(&mut outbox, &mut page, b" ");
    }
    outbox.flush(&mut page);
    let want = b"0 1 18446744073709551615 ";
    assert!(rt; page.bytes.as_slice() == want.as_slice());
}

#[test]
fn quoted_texts(rt: HostRuntime) {
    let mut page = Page::new(rt.alloc(), 1, 1000);
    let mut outbox = Outbox::new();
    let units = [0x20, 0x7E, 0x22, 0x5C, 0x1F, 0x7F, 0, 0xE9, 0xD83D, 0xFFFF];
    write_quoted(&mut outbox, &mut page, &units);
    write_quoted(&mut outbox, &mut page, &[]);
    outbox.flush(&mut page);
    let want = b"\" ~\\\"\\\\\\u001f\\u007f\\u0000\\u00e9\\ud83d\\uffff\"\"\"";
    assert!(rt; page.bytes.as_slice() == want.as_slice());
}

/// A block of 200 bytes.
const BLOCK: [Token<'static>; 4] = [
    Token::Header,
    Token::Tag(0x77),
    Token::BlockLength(200),
    Token::Raw(&[0xAF; 200]),
];

/// Writes these tokens, one after the other.
fn write_each<W: Sink>(
    outbox: &mut Outbox,
    sink: &mut W,
    printer: &mut Printer<'_>,
    tokens: &[Token<'_>],
) -> Result<(), AllocError> {
    for token in tokens {
        printer.write_next(outbox, sink, *token)?;
    }
    Ok(())
}

/// Behind the line of the version and the head of the block stand the digits of 200 bytes.
fn has_200_bytes(rt: &impl Abort, text: &[u8]) {
    let (_, digits) = text.split_at(text.len().min(28));
    let count = digits
        .chunks(2)
        .filter(|pair| *pair == b"af".as_slice())
        .count();
    assert_eq!(rt; count, 200);
}

#[test]
fn many_bytes_in_hexadecimal(rt: HostRuntime) -> Result<(), Fail> {
    let mut page = Page::new(rt.alloc(), 1, 1000);
    let mut outbox = Outbox::new();
    let mut printer = Printer::new(rt.alloc(), false, &[]);
    write_each(&mut outbox, &mut page, &mut printer, &BLOCK)?;
    outbox.flush(&mut page);
    has_200_bytes(&rt, &page.bytes);
    Ok(())
}

#[test]
fn after_a_failure_nothing_more_goes_out(rt: HostRuntime) {
    let mut page = Page::new(rt.alloc(), 1, 3);
    let mut outbox = Outbox::new();
    for number in [12345, 6] {
        write_decimal(&mut outbox, &mut page, number);
        outbox.flush(&mut page);
    }
    assert!(rt; outbox.has_failed());
    assert_eq!(rt; outbox.written(), 3);
    assert!(rt; page.bytes.as_slice() == b"123".as_slice());
}
