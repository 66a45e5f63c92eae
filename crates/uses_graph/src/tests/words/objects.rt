//! Objects with raw values and values, and texts that are given by their bytes.

use super::{assert_said, write_tokens};
use jser_prim::Outbox;
use jser_printer::{OwnerNode, Plain, Printer, Token};
use std::alloc::{AllocError, AllocGlobal};
use std::process::Abort;
use std::test::Fail;
use test_support::Page;

/// An object of two raw values and a reference to itself, and a second one.
const TOKENS: [Token<'static>; 28] = [
    Token::Header,
    Token::Tag(0x73),
    Token::Tag(0x72),
    Token::Text(&[0x41]),
    Token::Suid(1),
    Token::Flags(2),
    Token::FieldCount(3),
    Token::TypeCode(b'I'),
    Token::Text(&[0x6D]),
    Token::TypeCode(b'J'),
    Token::Text(&[0x6E]),
    Token::TypeCode(b'L'),
    Token::Text(&[0x6F]),
    Token::Tag(0x74),
    Token::Text(&[0x4C, 0x41, 0x3B]),
    Token::Tag(0x78),
    Token::Tag(0x70),
    Token::Raw(&[0, 0, 0, 5]),
    Token::Raw(&[0, 0, 0, 0, 0, 0, 0, 7]),
    Token::Tag(0x71),
    Token::Handle(0x7E0002),
    Token::Tag(0x73),
    Token::Tag(0x71),
    Token::Handle(0x7E0000),
    Token::Raw(&[0, 0, 0, 6]),
    Token::Raw(&[0, 0, 0, 0, 0, 0, 0, 8]),
    Token::Tag(0x74),
    Token::Text(&[0x79, 0x65, 0x73]),
];

/// What is written of them.
const WANT: &[u8] = b"stream version 5
object #0.7e0002
  class desc #0.7e0000 \"A\" suid 0000000000000001 flags 02
    field I \"m\"
    field J \"n\"
    field L \"o\" type text #0.7e0001 \"LA;\"
    super null
  data \"A\"
    \"m\" = 00000005
    \"n\" = 0000000000000007
    \"o\" = ref #0.7e0002
object #0.7e0003
  class ref #0.7e0000
  data \"A\"
    \"m\" = 00000006
    \"n\" = 0000000000000008
    \"o\" = text #0.7e0004 \"yes\"
";

const OWNERS: [OwnerNode; 2] = [
    OwnerNode {
        number: 2,
        elements: 0,
    },
    OwnerNode {
        number: 3,
        elements: 0,
    },
];

#[test]
fn two_objects(rt: HostRuntime) -> Result<(), Fail> {
    assert_said(&rt, &OWNERS, &TOKENS, WANT)
}

/// A string that is given by its bytes.
fn write_plain(
    rt: &(impl Abort + AllocGlobal),
    page: &mut Page,
    bytes: &[u8],
) -> Result<bool, AllocError> {
    let Some(plain) = Plain::of(bytes) else {
        return Ok(false);
    };
    let mut outbox = Outbox::new();
    let mut printer = Printer::new(rt.alloc(), false, &[]);
    write_tokens(
        &mut outbox,
        page,
        &mut printer,
        &[Token::Header, Token::Tag(0x74)],
    )?;
    printer.write_plain(&mut outbox, page, plain)?;
    outbox.flush(page);
    Ok(true)
}

#[test]
fn a_text_by_its_bytes(rt: HostRuntime) -> Result<(), Fail> {
    let mut page = Page::new(rt.alloc(), 1, 100);
    assert!(rt; write_plain(&rt, &mut page, b"yes ~")?);
    let want = b"stream version 5\ntext #0.7e0000 \"yes ~\"\n";
    assert!(rt; page.bytes.as_slice() == want.as_slice());
    Ok(())
}

/// Quotes, backslashes and all outside 20 to 7E do not stand for themselves.
#[test]
fn bytes_that_are_not_plain(rt: HostRuntime) {
    for bytes in [
        b"a\"".as_slice(),
        b"\\".as_slice(),
        b"\x1F".as_slice(),
        b"\x7F".as_slice(),
    ] {
        assert!(rt; Plain::of(bytes).is_none());
    }
    assert!(rt; Plain::of(b"").is_some());
}
