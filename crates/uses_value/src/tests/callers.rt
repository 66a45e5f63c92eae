//! Each caller on a worked case.
use crate::admission::{Advice, advice_on, is_stream, take_again};
use crate::sameness::{count, entries, one_end, same_by_bytes};
use crate::tests::asserted::{holds, same};
use crate::writing::{WriteFault, goes_on, measured, write};
use jser_prim::ToWrite;
use jser_value::{Body, ClassPlace, Content, Contents, Prim, Text, Value};
use std::alloc::{AllocError, AllocGlobal, Global};
use std::process::Abort;
use std::test::Fail;

/// The string `abc`, NULL, and a reference to the string.
fn abc_null_ref(alloc: Global) -> Result<Vec<Content>, AllocError> {
    let text = Text {
        long: false,
        units: vec![in alloc; 0x61, 0x62, 0x63]?,
    };
    Ok(vec![in alloc;
        Content::Value(Value::Text(text)),
        Content::Value(Value::Null),
        Content::Value(Value::Back(0)),
    ]?)
}

/// An array of ints whose class does not stand before it.
fn lost_array(alloc: Global) -> Result<Vec<Content>, AllocError> {
    let array = Value::Array {
        descr: ClassPlace::Back(0),
        body: Body::Prims(vec![in alloc; Prim::I(16), Prim::I(17)]?),
    };
    Ok(vec![in alloc; Content::Value(array)]?)
}

#[test]
fn admitted_lists(rt: HostRuntime) -> Result<(), Fail> {
    let alloc = rt.alloc();
    holds!(rt; is_stream(alloc, abc_null_ref(alloc)?));
    holds!(rt; !is_stream(alloc, lost_array(alloc)?));
    same!(rt; advice_on(alloc, abc_null_ref(alloc)?), Advice::Kept);
    same!(rt; advice_on(alloc, lost_array(alloc)?), Advice::Mend);
    Ok(())
}

/// What the callers answer of the three contents.
fn assert_kept(rt: &impl Abort, contents: &Contents) {
    same_by_bytes(contents, contents);
    one_end();
    same(rt, &count(contents), &3, "how many contents");
    same(rt, &entries(contents).len(), &3, "how many entries");
    same(rt, &measured(contents), &16, "how many bytes");
    let mut page = [0u8; 32];
    let mut sink = ToWrite::new(&mut page[..]);
    holds(rt, goes_on(contents, &mut sink), "they fit once");
    holds(rt, goes_on(contents, &mut sink), "they fit twice");
    holds(rt, !goes_on(contents, &mut sink), "they do not fit again");
}

#[test]
fn kept_contents(rt: HostRuntime) -> Result<(), Fail> {
    let alloc = rt.alloc();
    if let Ok(contents) = take_again(alloc, abc_null_ref(alloc)?) {
        assert_kept(&rt, &contents);
    }
    Ok(())
}

/// The string, NULL and the reference fill a page of their size.
fn assert_written(rt: &(impl Abort + AllocGlobal)) -> Result<(), Fail> {
    let list = abc_null_ref(rt.alloc())?;
    let mut page = [0u8; 16];
    let written = write(rt.alloc(), list, &mut ToWrite::new(&mut page[..]));
    holds(rt, matches!(written, Ok(16)), "16 bytes are written");
    let wanted = *b"\xAC\xED\x00\x05\x74\x00\x03abc\x70\x71\x00\x7E\x00\x00";
    same(rt, &page, &wanted, "the page");
    Ok(())
}

/// The array whose class is lost is refused.
fn assert_refused(rt: &(impl Abort + AllocGlobal)) -> Result<(), Fail> {
    let list = lost_array(rt.alloc())?;
    let mut page = [0u8; 16];
    let written = write(rt.alloc(), list, &mut ToWrite::new(&mut page[..]));
    let refused = matches!(written, Err(WriteFault::Refused(_)));
    holds(rt, refused, "a lost class is refused");
    Ok(())
}

/// A page that is too small is told.
fn assert_sink_fails(rt: &(impl Abort + AllocGlobal)) -> Result<(), Fail> {
    let list = abc_null_ref(rt.alloc())?;
    let mut page = [0u8; 9];
    let written = write(rt.alloc(), list, &mut ToWrite::new(&mut page[..]));
    let told = matches!(written, Err(WriteFault::Sink(_)));
    holds(rt, told, "a small page fails");
    Ok(())
}

#[test]
fn written_streams(rt: HostRuntime) -> Result<(), Fail> {
    assert_written(&rt)?;
    assert_refused(&rt)?;
    assert_sink_fails(&rt)
}
