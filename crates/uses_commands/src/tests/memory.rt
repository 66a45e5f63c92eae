//! To be run with each allocation refused in turn: a job ends as it would with memory, or `out of memory` is told.

use crate::tests::asserted::holds;
use jser_commands::{Job, run};
use jser_filter::Filter;
use jser_inputs::{Decoded, Form};
use jser_settings::filter_of;
use std::alloc::{AllocGlobal, Global};
use std::process::Abort;
use test_support::streams::LINKED_PAIR;
use test_support::{Compared, Pieces};

/// The job on `linked-pair` ends with this text, or without memory, and then that is told.
fn ends(rt: &(impl Abort + AllocGlobal), job: &Job, text: &[u8]) {
    let mut output = Compared::new(text);
    let mut faults = Compared::new(b"out of memory\n");
    let mut input = Decoded::new(Pieces::new(LINKED_PAIR, 7), Form::Binary);
    match run(rt.alloc(), job, &mut input, &mut output, &mut faults) {
        0 => holds(
            rt,
            output.is_whole() && faults.left() == 14,
            "all of the text",
        ),
        3 => holds(
            rt,
            output.is_front() && faults.is_whole(),
            "that memory ran out is told",
        ),
        _ => rt.panic("another status"),
    }
}

#[test]
fn a_filter_or_want_of_memory(rt: HostRuntime) {
    let mut faults = Compared::new(b"out of memory\n");
    match filter_of(rt.alloc(), "a.*;maxdepth=3;!*", &mut faults) {
        Ok(_) => holds(&rt, faults.left() == 14, "nothing is told"),
        Err(status) => holds(
            &rt,
            status == 3 && faults.is_whole(),
            "that memory ran out is told",
        ),
    }
}

#[test]
fn ends_or_tells_want_of_memory(rt: HostRuntime) {
    ends(&rt, &Job::Show { values: false }, LINKED_PAIR_TEXT);
    if let Ok(filter) = Filter::parse(rt.alloc(), "B;List") {
        let line = b"yes 69 bytes, 2 contents, 5 refs, depth 3\n";
        ends(
            &rt,
            &Job::Check {
                filter,
                strict: false,
            },
            line,
        );
    }
    if let Ok(filter) = Filter::parse(rt.alloc(), "B;List") {
        ends(&rt, &Job::List { filter }, b"1 allowed:1 \"List\"\n");
    }
    if let Ok(filter) = Filter::parse(rt.alloc(), "B;List") {
        let line = b"1 allowed:1 \"List\"\n";
        ends(&rt, &Job::ListAnywhere { filter }, line);
    }
}

const LINKED_PAIR_TEXT: &[u8] = b"stream version 5
object #0.7e0002
  class desc #0.7e0000 \"List\" suid 69c88a154016ae68 flags 02
    field I \"value\"
    field L \"next\" type text #0.7e0001 \"LList;\"
    super null
  data \"List\"
    \"value\" = 00000011
    \"next\" = object #0.7e0003
      class ref #0.7e0000
      data \"List\"
        \"value\" = 00000013
        \"next\" = null
ref #0.7e0003
";
