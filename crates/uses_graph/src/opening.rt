//! Bytes that may be no stream, and graphs of which nothing is known but that they are graphs.
ghost use Rattle.std.specs.Prelude.{◌≡◌, ◌↔◌, length, IfOk, IfSome, IsSome, OnOk, true, false};
ghost use Rattle.std.specs.Io.KnownBytes.{Appends};
ghost use Rattle.jser_grammar.specs.CheckedNames.{checked_names};
ghost use Rattle.jser_index.specs.Graphs.{StandsForSome};
ghost use Rattle.uses_graph.specs.Told.{AreStream, OfEachList};

use jser_graph::{Graph, GraphFault};
use jser_prim::Sink;
use jser_reader::Stop;
use jser_reading::laws::one_reading;
use std::alloc::Global;

/// There was no memory.
#[derive(Clone, Copy, PartialEq, Eq, Debug)]
pub struct NoMemory;

/// A graph of the bytes, if they are a stream within the greatest limits. There is an answer, and it is right, wherever there is
/// memory.
///
/// # Errors
///
/// `NoMemory`.
#[tactic(auto, using(crate::proofs::OpeningLemmas::has_graph))]
pub fn graph_of(alloc: Global, bytes: &[u8]) -> Result<Option<Graph>, NoMemory>
    ensures exact { IfOk result (λ graph. IsSome graph ↔ AreStream bytes.now) }
    ensures stands { IfOk result (λ graph. IfSome graph (StandsForSome bytes.now)) }
{
    match Graph::read(alloc, bytes) {
        Ok(graph) => Ok(Some(graph)),
        Err(Stop::Refused(_)) => Ok(None),
        Err(Stop::OutOfMemory) => Err(NoMemory),
        Err(Stop::Spent) => unreachable!(),
    }
}

/// Writes the bytes of a graph, and returns how many class names the stream has that they are.
///
/// # Errors
///
/// Where the sink failed.
pub fn hand_on<W: Sink>(alloc: Global, graph: &Graph, sink: &mut W) -> Result<usize, GraphFault>
    ensures names { IfOk result (λ count. OfEachList graph.now.bytes (λ list. count ≡ length (checked_names list))) }
    ensures out { OnOk result (Appends (W.gone_out sink.old) (W.gone_out sink.new) graph.now.bytes) }
{
    one_reading();
    match graph.write_to(alloc, sink) {
        Ok(_) => Ok(graph.name_count()),
        Err(fault) => Err(fault),
    }
}

/// Shows a stream, and returns whether the sink can be given more: it can unless it failed, also where memory ran out.
pub fn is_open_after<W: Sink>(alloc: Global, graph: &Graph, sink: &mut W) -> bool
    ensures open { result ≡ true → W.has_failed sink.new ≡ W.has_failed sink.old }
    ensures failed { result ≡ false → W.has_failed sink.new ≡ true }
{
    match graph.show(alloc, sink) {
        Ok(_) => true,
        Err(GraphFault::OutOfMemory { .. }) => true,
        Err(GraphFault::Write { .. }) => false,
    }
}
