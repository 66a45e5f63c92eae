//! The words of `jser_printer`, and the example of its README.

// README: jser_printer
use jser_prim::{Outbox, Sink};
use jser_printer::{Printer, Token};
use std::alloc::AllocError;

/// Writes these tokens, and what is due after the last one.
fn write_tokens<W: Sink>(
    outbox: &mut Outbox,
    sink: &mut W,
    printer: &mut Printer<'_>,
    tokens: &[Token<'_>],
) -> Result<(), AllocError> {
    for token in tokens {
        printer.write_next(outbox, sink, *token)?;
    }
    printer.write_all_due(outbox, sink)
}
// end

mod objects;
mod single;
mod streams;
mod tokens;

use jser_printer::OwnerNode;
use std::alloc::AllocGlobal;
use std::process::Abort;
use std::test::Fail;
use test_support::Page;

/// The tokens are written as this text, with these owners, to a sink that takes a byte a call.
fn assert_said(
    rt: &(impl Abort + AllocGlobal),
    owners: &[OwnerNode],
    tokens: &[Token<'_>],
    text: &[u8],
) -> Result<(), Fail> {
    let mut page = Page::new(rt.alloc(), 1, 4096);
    let mut outbox = Outbox::new();
    let mut printer = Printer::new(rt.alloc(), false, owners);
    write_tokens(&mut outbox, &mut page, &mut printer, tokens)?;
    outbox.flush(&mut page);
    assert!(rt; page.bytes.as_slice() == text);
    Ok(())
}

#[test]
fn null_in_words(rt: HostRuntime) -> Result<(), Fail> {
    let tokens = [Token::Header, Token::Tag(0x70)];
    assert_said(&rt, &[], &tokens, b"stream version 5\nnull\n")
}
