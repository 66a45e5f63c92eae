//! To be run with each allocation refused in turn: the answer is out of memory, or the right one.

use crate::tests::asserted::same;
use jser_reader::Stop;
use jser_suggest::{SampleFault, Samples};
use std::alloc::{AllocError, AllocGlobal, Global};
use test_support::streams::LINKED_PAIR;

/// The filter's text, where there is memory for it.
fn text(alloc: Global) -> Result<String, SampleFault> {
    let mut samples = Samples::new(alloc);
    match samples.add(alloc, LINKED_PAIR) {
        Ok(()) => match samples.text(alloc) {
            Ok(text) => Ok(text),
            Err(_) => Err(SampleFault::Stop(Stop::OutOfMemory)),
        },
        Err(fault) => Err(fault),
    }
}

#[test]
fn right_or_out_of_memory(rt: HostRuntime) {
    match text(rt.alloc()) {
        Ok(text) => {
            same(
                &rt,
                &text.as_str(),
                &"maxbytes=69;maxrefs=5;maxdepth=3;maxarray=0;List;!*",
                "the filter",
            );
        }
        Err(SampleFault::Stop(stop)) => {
            same(&rt, &stop, &Stop::OutOfMemory, "what stops it");
            let _ = println!(rt; "refused");
        }
        Err(SampleFault::Unwritable(_)) => panic!(rt; "the name can be written"),
    }
}
