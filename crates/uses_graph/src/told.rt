//! What is told of a stream by a graph of it: each promise speaks of every list that the bytes spell, and there is one.
ghost use Rattle.std.specs.Prelude.{◌≡◌, length, slice_get, IfOk, IfErr, OnOk, OnErr, false, true};
ghost use Rattle.std.specs.Io.KnownBytes.{Appends};
ghost use Rattle.jser_grammar.specs.Trees.{ContentTrees};
ghost use Rattle.jser_grammar.specs.Streams.{IsStreamOf};
ghost use Rattle.jser_grammar.specs.CheckedNames.{checked_names};
ghost use Rattle.jser_value.specs.View.{view_contents};
ghost use Rattle.jser_shown.specs.Nodes.{nodes_of};
ghost use Rattle.jser_shown.specs.Shown.{shown};
ghost use Rattle.jser_index.specs.Graphs.{IsNode, StandsForSome, node_at, text_of};
ghost use Rattle.jser_index.specs.Listed.{IsList};
ghost use Rattle.jser_index.specs.Outputs.{WroteFirst};
ghost use Rattle.jser_index.specs.Showing.{counted};
ghost use Rattle.uses_graph.specs.Told.{OfEachList, TreeCause, FrontShown};

use jser_graph::{Graph, GraphFault, Node};
use jser_prim::Sink;
use jser_reading::laws::one_reading;
use jser_value::{Contents, ValueCause};
use std::alloc::Global;

/// What a handle names in a stream.
#[tactic(auto, using(crate::proofs::ToldLemmas::node_told))]
pub fn node(graph: &Graph, bytes: &[u8], epoch: u64, handle: u32) -> Option<Node>
    requires { StandsForSome bytes.now graph.now }
    ensures { OfEachList bytes.now (λ list. IsNode (node_at (nodes_of list) epoch handle) result) }
{
    one_reading();
    graph.node(epoch, handle)
}

/// The units of the string that a handle names.
#[tactic(auto, using(crate::proofs::ToldLemmas::text_told))]
pub fn text<'g>(graph: &'g Graph, bytes: &[u8], epoch: u64, handle: u32) -> Option<&'g [u16]>
    requires { StandsForSome bytes.now graph.now }
    ensures { OfEachList bytes.now (λ list. IsList (text_of (node_at (nodes_of list) epoch handle)) result) }
{
    one_reading();
    graph.text(epoch, handle)
}

/// How many class names a stream has.
pub fn name_count(graph: &Graph, bytes: &[u8]) -> usize
    requires { StandsForSome bytes.now graph.now }
    ensures { OfEachList bytes.now (λ list. result ≡ length (checked_names list)) }
{
    one_reading();
    graph.name_count()
}

/// A class name of a stream, by its number.
pub fn name<'g>(graph: &'g Graph, bytes: &[u8], number: usize) -> Option<&'g [u16]>
    requires { StandsForSome bytes.now graph.now }
    ensures { OfEachList bytes.now (λ list. IsList (slice_get (checked_names list) number) result) }
{
    one_reading();
    graph.name_at(number)
}

/// Writes the bytes of a stream.
///
/// # Errors
///
/// Where the sink failed: the first bytes went out.
#[tactic(auto, using(crate::proofs::ToldLemmas::bytes_told, crate::proofs::ToldLemmas::first_told))]
pub fn write_back<W: Sink>(
    alloc: Global,
    graph: &Graph,
    bytes: &[u8],
    sink: &mut W,
) -> Result<u64, GraphFault>
    requires { StandsForSome bytes.now graph.now }
    ensures written { OnOk result (Appends (W.gone_out sink.old) (W.gone_out sink.new) bytes.now) }
    ensures length { IfOk result (λ count. count ≡ length bytes.now) }
    ensures failed { OnErr result (W.has_failed sink.new ≡ true) }
    ensures front { IfErr result (WroteFirst (W.gone_out sink.old) (W.gone_out sink.new) bytes.now) }
    ensures kept { OnOk result (W.has_failed sink.new ≡ W.has_failed sink.old) }
{
    graph.write_to(alloc, sink)
}

/// Shows a stream.
///
/// # Errors
///
/// Where the sink failed or memory ran out: the first bytes of the text went out.
pub fn show<W: Sink>(
    alloc: Global,
    graph: &Graph,
    bytes: &[u8],
    sink: &mut W,
) -> Result<u64, GraphFault>
    requires { StandsForSome bytes.now graph.now }
    ensures shown { OnOk result (OfEachList bytes.now (λ list. Appends (W.gone_out sink.old) (W.gone_out sink.new) (shown false list))) }
    ensures length { IfOk result (λ count. OfEachList bytes.now (λ list. count ≡ counted (length (shown false list)))) }
    ensures front { IfErr result (λ why. OfEachList bytes.now (λ list. FrontShown (W.gone_out sink.old) (W.gone_out sink.new) (shown false list) why)) }
    ensures kept { OnOk result (W.has_failed sink.new ≡ W.has_failed sink.old) }
{
    one_reading();
    graph.show(alloc, sink)
}

/// The tree of a stream.
///
/// # Errors
///
/// `TooDeep` exactly where it is more than 1,000 deep, else `TooLarge` exactly where it has more than 2^31 - 1 bytes, or
/// `OutOfMemory` of one that is neither.
#[tactic(auto, using(crate::proofs::ToldLemmas::cause_told))]
pub fn tree(alloc: Global, graph: &Graph, bytes: &[u8]) -> Result<Contents, ValueCause>
    requires { StandsForSome bytes.now graph.now }
    ensures list { IfOk result (λ contents. OfEachList bytes.now (λ list. view_contents contents ≡ list)) }
    ensures cause { IfErr result (λ why. OfEachList bytes.now (λ list. TreeCause why bytes.now list)) }
{
    one_reading();
    graph.contents(alloc)
}
