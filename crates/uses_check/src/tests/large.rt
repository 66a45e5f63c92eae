//! A stream of 93,836 bytes with long names, many names and great depth, with ample memory: a call that gives up for want of
//! memory where there is some is found here.

use crate::tests::{LAX, assert_answer, report, with_filter};
use std::test::Fail;
use test_support::streams::large;

#[test]
fn large_stream(rt: HostRuntime) -> Result<(), Fail> {
    let bytes = large(rt.alloc())?;
    with_filter(&rt, "", |rt, filter| {
        let counts = report(93_836, 302, 1_504, 901, 1_202);
        assert_answer(rt, "large", &bytes, filter, LAX, Ok(counts));
        Ok(())
    })
}
