//! The texts of `show` of worked streams, and what goes out of them where the sink fails.

use crate::tests::{page_has, page_is_full, with_graph};
use jser_graph::{Graph, GraphFault};
use jser_prim::Sink;
use std::alloc::AllocGlobal;
use std::process::Abort;
use std::test::Fail;
use test_support::Page;
use test_support::streams::{ARRAY_LIST, INT_ARRAY, LINKED_PAIR, RESET_EPOCHS, nest};

pub(crate) const LINKED_PAIR_TEXT: &[u8] = b"stream version 5
object #0.7e0002
  class desc #0.7e0000 \"List\" suid 69c88a154016ae68 flags 02
    field I \"value\"
    field L \"next\" type text #0.7e0001 \"LList;\"
    super null
  data \"List\"
    \"value\" = 00000011
    \"next\" = object #0.7e0003
      class ref #0.7e0000
      data \"List\"
        \"value\" = 00000013
        \"next\" = null
ref #0.7e0003
";

/// Shows the graph.
pub(crate) fn show<W: Sink>(
    rt: &impl AllocGlobal,
    graph: &Graph,
    sink: &mut W,
) -> Result<u64, GraphFault> {
    graph.show(rt.alloc(), sink)
}

/// The stream is shown as this text, to a sink that takes so many bytes at once.
fn shows_by(rt: &(impl Abort + AllocGlobal), graph: &Graph, text: &[u8], step: usize) {
    let mut page = Page::new(rt.alloc(), step, 1_000_000);
    let count = show(rt, graph, &mut page);
    page_has(rt, &page, count, text);
}

/// The stream is shown as this text.
fn shows(rt: &(impl Abort + AllocGlobal), bytes: &[u8], text: &[u8]) {
    with_graph(rt, bytes, |rt, graph| {
        shows_by(rt, graph, text, 4096);
        shows_by(rt, graph, text, 1);
    });
}

#[test]
fn show_linked_pair(rt: HostRuntime) {
    shows(&rt, LINKED_PAIR, LINKED_PAIR_TEXT);
}

#[test]
fn show_array_list(rt: HostRuntime) {
    shows(
        &rt,
        ARRAY_LIST,
        b"stream version 5
object #0.7e0001
  class desc #0.7e0000 \"java.util.ArrayList\" suid 7881d21d99c7619d flags 03
    field I \"size\"
    super null
  data \"java.util.ArrayList\"
    \"size\" = 00000001
    note block 4: 00000001
    note text #0.7e0002 \"a\"
",
    );
}

#[test]
fn show_int_array(rt: HostRuntime) {
    shows(
        &rt,
        INT_ARRAY,
        b"stream version 5
array #0.7e0001 length 2
  class desc #0.7e0000 \"[I\" suid 4dba602676eab2a5 flags 02
    super null
  [0] 00000001
  [1] ffffffff
",
    );
}

#[test]
fn show_reset_epochs(rt: HostRuntime) {
    shows(
        &rt,
        RESET_EPOCHS,
        b"stream version 5
text #0.7e0000 \"a\"
reset
text #1.7e0000 \"b\"
ref #1.7e0000
",
    );
}

#[test]
fn show_nothing(rt: HostRuntime) {
    shows(&rt, b"\xAC\xED\x00\x05", b"stream version 5\n");
}

/// The length of the text of `nest(999)`, from the definition of the text: 3 lines for the first array, with that of the
/// version before them, 2 for each other array, indented by its level, and one for the null in the last one.
const NEST_999_LENGTH: u64 = 2_047_027;

/// The text has so many bytes.
fn shows_as_many(rt: &(impl Abort + AllocGlobal), graph: &Graph, length: u64) {
    let mut page = Page::new(rt.alloc(), 4096, 10_000_000);
    let count = show(rt, graph, &mut page);
    is_as_long(rt, &page, count, length);
}

/// Its lines go as deep as the arrays.
#[test]
fn show_nest_999(rt: HostRuntime) -> Result<(), Fail> {
    let bytes = nest(rt.alloc(), 999)?;
    with_graph(&rt, &bytes, |rt, graph| {
        shows_as_many(rt, graph, NEST_999_LENGTH)
    });
    Ok(())
}

/// The page was given so many bytes, and they were counted.
fn is_as_long(rt: &impl Abort, page: &Page, count: Result<u64, GraphFault>, length: u64) {
    assert_eq!(rt; count, Ok(length));
    assert_eq!(rt; page.bytes.len() as u64, length);
}

/// To a page that has room for so much of the text of the linked pair, just this is shown.
fn shows_fronts(rt: &(impl Abort + AllocGlobal), graph: &Graph) {
    for room in 0..LINKED_PAIR_TEXT.len() {
        shows_front(rt, graph, &LINKED_PAIR_TEXT[..room]);
    }
    shows_by(rt, graph, LINKED_PAIR_TEXT, 7);
}

/// What went out is the beginning of the text that the fault counts, wherever the sink fails, and the graph still
/// answers.
#[test]
fn show_fails_anywhere(rt: HostRuntime) {
    with_graph(&rt, LINKED_PAIR, |rt, graph| shows_fronts(rt, graph));
}

/// To a page that has no room for more than this text, it is shown, and then the fault counts it.
fn shows_front(rt: &(impl Abort + AllocGlobal), graph: &Graph, front: &[u8]) {
    let mut page = Page::new(rt.alloc(), 7, front.len());
    let count = show(rt, graph, &mut page);
    page_is_full(rt, &page, count, front);
}

/// Wherever an allocation is refused, what went out is the beginning of the text that the fault counts.
#[test]
fn show_in_any_memory(rt: HostRuntime) -> Result<(), Fail> {
    let graph = Graph::read(rt.alloc(), LINKED_PAIR)?;
    let mut page = Page::new(rt.alloc(), 4096, 1_000_000);
    let count = show(&rt, &graph, &mut page);
    is_front(&rt, &page, count);
    Ok(())
}

/// The page was given the text of the linked pair, or the beginning of it that the fault counts.
fn is_front(rt: &impl Abort, page: &Page, count: Result<u64, GraphFault>) {
    match count {
        Ok(_) => page_has(rt, page, count, LINKED_PAIR_TEXT),
        Err(GraphFault::Write { written } | GraphFault::OutOfMemory { written }) => {
            assert_eq!(rt; page.bytes.len() as u64, written);
            assert!(rt; LINKED_PAIR_TEXT.starts_with(&page.bytes));
        }
    }
}
