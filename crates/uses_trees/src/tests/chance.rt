//! Trees made by chance: each is written, read again and compared; and with one byte of it changed, what is still read is
//! written as the same bytes.

use crate::tests::asserted::holds;
use crate::tests::maker::Maker;
use crate::tests::{contents_of, put, writes_what_it_reads};
use jser_trees::Contents;
use jser_value::encode;
use std::alloc::AllocGlobal;
use std::process::Abort;
use std::test::Fail;
use test_support::Page;

/// How many lists are made.
const LISTS: u64 = 60;

/// How many bytes of each are changed, one at a time.
const CHANGES: u32 = 40;

#[test]
fn made_by_chance(rt: HostRuntime) -> Result<(), Fail> {
    for seed in 0..LISTS {
        comes_back(&rt, seed)?;
    }
    Ok(())
}

/// The list of this seed is read again as it was written.
fn comes_back(rt: &(impl Abort + AllocGlobal), seed: u64) -> Result<(), Fail> {
    let mut maker = Maker::new(rt.alloc(), seed);
    let contents = made(rt, &mut maker, seed)?;
    is_written_and_read(rt, &mut maker, &contents, seed)
}

/// The list that the maker of this seed makes, which obeys the format.
fn made(rt: &(impl Abort + AllocGlobal), maker: &mut Maker, seed: u64) -> Result<Contents, Fail> {
    match Contents::new(rt.alloc(), maker.contents()?) {
        Ok(contents) => Ok(contents),
        Err(_) => panic!(rt; "list {seed} does not obey the format"),
    }
}

/// The list is written, read again, and changed.
fn is_written_and_read(
    rt: &(impl Abort + AllocGlobal),
    maker: &mut Maker,
    contents: &Contents,
    seed: u64,
) -> Result<(), Fail> {
    let mut page = Page::new(rt.alloc(), usize::MAX, usize::MAX);
    let _ = encode(contents, &mut page)?;
    is_read_as(rt, &page.bytes, contents, seed);
    change_often(rt, maker, &mut page.bytes)
}

/// The bytes are read as these contents.
fn is_read_as(rt: &(impl Abort + AllocGlobal), bytes: &[u8], contents: &Contents, seed: u64) {
    let again = contents_of(rt, bytes);
    let text = format_args!("list {seed} comes back");
    holds(rt, again.list() == contents.list(), text);
}

/// Bytes are changed, one at a time.
fn change_often(
    rt: &(impl Abort + AllocGlobal),
    maker: &mut Maker,
    bytes: &mut [u8],
) -> Result<(), Fail> {
    for _ in 0..CHANGES {
        change(rt, maker, bytes)?;
    }
    Ok(())
}

/// One byte is another one, and then again its own.
fn change(
    rt: &(impl Abort + AllocGlobal),
    maker: &mut Maker,
    bytes: &mut [u8],
) -> Result<(), Fail> {
    let place = maker.place(bytes.len());
    let other = maker.byte();
    let Some(own) = bytes.get(place).copied() else {
        return Ok(());
    };
    put(bytes, place, other);
    writes_what_it_reads(rt, bytes)?;
    put(bytes, place, own);
    Ok(())
}
