//! Filters that are suggested for worked streams, counted by hand, and names that no filter can have.

use crate::tests::asserted::{holds, same};
use jser_filter::Filter;
use jser_suggest::{SampleFault, Samples};
use std::alloc::{AllocGlobal, Global};
use std::process::Abort;

mod asserted;
mod example;
mod memory;
mod rows;
mod unwritable;

/// The text that is suggested for these streams.
fn text_of(rt: &(impl Abort + AllocGlobal), streams: &[&[u8]]) -> String {
    let mut samples = Samples::new(rt.alloc());
    for bytes in streams {
        if samples.add(rt.alloc(), bytes).is_err() {
            panic!(rt; "no sample, or no memory");
        }
    }
    match samples.text(rt.alloc()) {
        Ok(text) => text,
        Err(_) => panic!(rt; "no memory"),
    }
}
