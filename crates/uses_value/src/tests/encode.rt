//! What goes out of worked streams, to sinks that take all, take little, fail and take nothing.
ghost use Rattle.std.specs.Prelude.{true};

use super::asserted::{holds, same};
use super::contents::nest;
use super::trees::{self, Build};
use jser_prim::{Failed, Sink, ToWrite};
use jser_value::{Content, Contents, EncodeFault, Value, encode};
use std::alloc::Global;
use std::io::{self, Write};
use std::process::Abort;
use std::test::Fail;
use test_support::Page;

/// Takes so many bytes, and then none.
#[derive(Drop)]
struct Stuck {
    room: usize,
}

impl Write for Stuck {
    fn write(&mut self, bytes: &[u8]) -> io::Result<usize> {
        let count = self.room.min(bytes.len());
        self.room -= count;
        Ok(count)
    }

    fn flush(&mut self) -> io::Result<()> {
        Ok(())
    }
}

/// The contents of a worked stream.
fn contents_of(alloc: Global, list: Build) -> Result<Contents, Fail> {
    match Contents::new(alloc, list?) {
        Ok(contents) => Ok(contents),
        Err(fault) => Err(Fail::from(fault.cause)),
    }
}

/// The stream of these contents is these bytes, however the sink takes them.
fn writes(rt: &(impl Abort + AllocGlobal), list: Build, bytes: &[u8]) -> Result<(), Fail> {
    let contents = contents_of(rt.alloc(), list)?;
    writes_by(rt, &contents, bytes, 1)?;
    writes_by(rt, &contents, bytes, 1000)
}

/// The stream of these contents is these bytes, where the sink takes at most so many a call.
fn writes_by(
    rt: &(impl Abort + AllocGlobal),
    contents: &Contents,
    bytes: &[u8],
    most: usize,
) -> Result<(), Fail> {
    let mut page = Page::new(rt.alloc(), most, 10_000);
    let count = encode(contents, &mut page)?;
    let text = format_args!("{most} bytes a call");
    same(rt, &page.bytes.as_slice(), &bytes, &text);
    same(rt, &count, &(bytes.len() as u64), &text);
    Ok(())
}

#[test]
fn worked_streams(rt: HostRuntime) -> Result<(), Fail> {
    let alloc = rt.alloc();
    writes(&rt, Ok(Vec::new(alloc)), b"\xAC\xED\x00\x05")?;
    writes(&rt, trees::abc_null_ref(alloc), trees::ABC_NULL_REF)?;
    writes(&rt, trees::linked_pair(alloc), trees::LINKED_PAIR)?;
    writes(&rt, trees::int_array(alloc), trees::INT_ARRAY)?;
    writes(&rt, trees::enum_constant(alloc), trees::ENUM_CONSTANT)?;
    writes(&rt, trees::proxy(alloc), trees::PROXY)?;
    writes(&rt, trees::reset_epochs(alloc), trees::RESET_EPOCHS)?;
    writes(
        &rt,
        trees::external_over_serial(alloc),
        trees::EXTERNAL_OVER_SERIAL,
    )?;
    writes(&rt, trees::array_list(alloc), trees::ARRAY_LIST)?;
    writes(&rt, trees::superclass_first(alloc), trees::SUPERCLASS_FIRST)
}

/// Arrays within arrays, as deep as trees may be.
#[test]
fn tree_nest_999(rt: HostRuntime) -> Result<(), Fail> {
    let contents = contents_of(rt.alloc(), nest(rt.alloc(), 999, Value::Null))?;
    has_length(&rt, &contents, 10_010)
}

/// The stream of these contents has so many bytes.
fn has_length(
    rt: &(impl Abort + AllocGlobal),
    contents: &Contents,
    length: usize,
) -> Result<(), Fail> {
    let mut page = Page::new(rt.alloc(), 4096, 20_000);
    let count = encode(contents, &mut page)?;
    same(rt, &count, &(length as u64), "how many bytes are told");
    same(rt, &page.bytes.len(), &length, "how many bytes came");
    Ok(())
}

/// A writer that fails, or takes no more, behind any number of bytes: just these went out.
#[test]
fn write_fails_anywhere(rt: HostRuntime) -> Result<(), Fail> {
    let contents = contents_of(rt.alloc(), trees::linked_pair(rt.alloc()))?;
    for written in 0..69 {
        fails_behind(&rt, &contents, written);
    }
    Ok(())
}

/// Of the linked pair just so many bytes go out to a writer that takes no more.
fn fails_behind(rt: &(impl Abort + AllocGlobal), contents: &Contents, written: usize) {
    let fault = Err(EncodeFault::Write {
        written: written as u64,
    });
    let text = format_args!("after {written}");
    let mut page = Page::new(rt.alloc(), 7, written);
    same(rt, &encode(contents, &mut page), &fault, &text);
    let (front, _) = trees::LINKED_PAIR.split_at(written.min(trees::LINKED_PAIR.len()));
    same(rt, &page.bytes.as_slice(), &front, &text);
    let mut stuck = ToWrite::new(Stuck { room: written });
    same(rt, &encode(contents, &mut stuck), &fault, &text);
}

/// The contents go out as so many bytes, in so many calls.
fn goes_out_in(
    rt: &(impl Abort + AllocGlobal),
    contents: &Contents,
    bytes: u64,
    calls: usize,
) -> Result<(), Fail> {
    let mut page = Page::new(rt.alloc(), 10_000, 10_000);
    let count = encode(contents, &mut page)?;
    same(rt, &count, &bytes, "how many bytes");
    same(rt, &page.calls, &calls, "how many calls");
    Ok(())
}

/// A block of 5,000 bytes.
fn long_block(alloc: Global) -> Build {
    let bytes = vec![in alloc; 7u8; 5000]?;
    Ok(vec![in alloc; Content::Block { long: true, bytes }]?)
}

/// Small parts go out together.
#[test]
fn sensible_pieces(rt: HostRuntime) -> Result<(), Fail> {
    let contents = contents_of(rt.alloc(), trees::linked_pair(rt.alloc()))?;
    goes_out_in(&rt, &contents, 69, 1)
}

/// A long block goes out as it is.
#[test]
fn long_block_as_it_is(rt: HostRuntime) -> Result<(), Fail> {
    let contents = contents_of(rt.alloc(), long_block(rt.alloc()))?;
    goes_out_in(&rt, &contents, 5009, 2)
}
