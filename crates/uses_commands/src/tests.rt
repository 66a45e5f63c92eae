//! The jobs of the program and what they set, on worked streams: what goes out, what is told, and the status.

use crate::tests::asserted::same;
use jser_commands::{Job, Keyed, run, run_input};
use jser_filter::Filter;
use jser_inputs::{Decoded, Form};
use jser_prim::Source;
use std::alloc::{AllocGlobal, Global};
use std::process::Abort;
use test_support::{Page, Pieces};

mod asserted;
mod devices;
mod jobs;
mod lines;
mod memory;
mod settings;

/// More than any text of these tests has.
const ROOM: usize = 1_000_000;

/// A page with room for all that goes out.
fn page(rt: &impl AllocGlobal) -> Page {
    Page::new(rt.alloc(), 4096, ROOM)
}

/// The page has this text.
fn has(rt: &impl Abort, page: &Page, text: &[u8], what: &str) {
    same(rt, &page.bytes.as_slice(), &text, what);
}

/// The filter of a text that has no fault.
fn filter(rt: &(impl Abort + AllocGlobal), text: &str) -> Filter {
    match Filter::parse(rt.alloc(), text) {
        Ok(filter) => filter,
        Err(_) => rt.panic("this is a filter, and there is memory"),
    }
}

/// A check under the filter of a text.
fn check(rt: &(impl Abort + AllocGlobal), text: &str) -> Job {
    Job::Check {
        filter: filter(rt, text),
        strict: false,
    }
}

/// A list under the filter of a text.
fn list(rt: &(impl Abort + AllocGlobal), text: &str) -> Job {
    Job::List {
        filter: filter(rt, text),
    }
}

/// A list under the filter of a text, with the names at any place.
fn list_anywhere(rt: &(impl Abort + AllocGlobal), text: &str) -> Job {
    Job::ListAnywhere {
        filter: filter(rt, text),
    }
}

/// The job on these bytes ends so: this text goes out, and nothing is told.
fn does(rt: &(impl Abort + AllocGlobal), job: &Job, bytes: &[u8], text: &[u8], status: u8) {
    let (mut output, mut faults) = (page(rt), page(rt));
    let mut input = Decoded::new(Pieces::new(bytes, 7), Form::Binary);
    let found = run_input(
        rt.alloc(),
        Keyed::new(1),
        job,
        &mut input,
        &mut output,
        &mut faults,
    );
    has(rt, &output, text, "what goes out");
    has(rt, &faults, b"", "what is told");
    same(rt, &found, &status, "the status");
    let (mut output, mut faults) = (page(rt), page(rt));
    let found = run(
        rt.alloc(),
        job,
        &mut Pieces::new(bytes, 7),
        &mut output,
        &mut faults,
    );
    has(rt, &output, text, "what goes out of any source");
    has(rt, &faults, b"", "what is told of any source");
    same(rt, &found, &status, "the status of any source");
}

/// The job on this source ends with status 3, after this text went out to a page with so much room, and this line was told.
fn fails<R: Source + Drop>(
    rt: &(impl Abort + AllocGlobal),
    job: &Job,
    source: R,
    room: usize,
    text: &[u8],
    line: &[u8],
) {
    let (mut output, mut faults) = (Page::new(rt.alloc(), 4096, room), page(rt));
    let mut input = source;
    let found = run(rt.alloc(), job, &mut input, &mut output, &mut faults);
    has(rt, &output, text, "what goes out");
    has(rt, &faults, line, "what is told");
    same(rt, &found, &3, "the status");
}
