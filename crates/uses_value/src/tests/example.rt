//! The example of the README of `jser_value`.

// README: jser_value
use jser_prim::Sink;
use jser_value::{Content, Contents, EncodeFault, ValueFault, encode};
use std::alloc::Global;

/// Writes a list to a sink, or hands it back with the cause against it.
fn write_list<W: Sink>(
    alloc: Global,
    list: Vec<Content>,
    sink: &mut W,
) -> Result<Result<u64, EncodeFault>, ValueFault> {
    let contents = Contents::new(alloc, list)?;
    Ok(encode(&contents, sink))
}
// end

use jser_prim::ToWrite;
use jser_value::Value;
use std::test::Fail;

#[test]
fn a_list_of_null(rt: HostRuntime) -> Result<(), Fail> {
    let alloc = rt.alloc();
    let mut page = [0u8; 5];
    let list = vec![in alloc; Content::Value(Value::Null)]?;
    let written = write_list(alloc, list, &mut ToWrite::new(&mut page[..]));
    holds!(rt; matches!(written, Ok(Ok(5))));
    same!(rt; page, *b"\xAC\xED\x00\x05\x70");
    Ok(())
}
