//! A graph: an index, whose calls it hands on, and the tree of the stream.
ghost use Rattle.std.specs.Prelude.{◌≡◌, true, length, slice_get, IfOk, IfErr, OnOk, OnErr, false};
ghost use Rattle.std.specs.Io.KnownBytes.{Appends};
ghost use Rattle.jser_index.specs.Graphs.{IsGraph, StandsForSome, IfRefused, node_at, IsNode, text_of};
ghost use Rattle.jser_index.specs.Listed.{IsList};
ghost use Rattle.jser_index.specs.Outputs.{WroteFirst};
ghost use Rattle.jser_index.specs.Reading.{IsRefused};
ghost use Rattle.jser_index.specs.Showing.{CountsText, WroteText, WroteFront, FailedIf};
ghost use Rattle.jser_graph.specs.Outputs.{IsOf, HasCause};

use jser_grammar::caps::{MOST_TREE_BYTES, MOST_TREE_DEPTH};
use jser_index::{GraphFault, Index, Node};
use jser_prim::Sink;
use jser_reader::{OpenGate, Stop};
use jser_reading::laws::one_reading;
use jser_trees::read_all;
use jser_value::{Contents, ValueCause};
use std::alloc::Global;
use std::marker::Model;

/// A Java object serialization stream, by its handles: what each of them names, the units of every string, the checked
/// names, a copy of the bytes as they were read, the text of `show`, and the tree.
///
/// It holds an `Index`, which says what that takes. It holds no tree: `contents` makes one.
#[derive(Drop)]
pub struct Graph {
    index: Index<Vec<u8>>,
}

impl Model for Graph {
    ghost use Rattle.jser_index.specs.Graphs.{GraphView};

    ghost Value = { GraphView };

    ghost view = { λ a. a.index };
}

impl Graph {
    /// Reads bytes that are one stream within the greatest limits: at most 2^40 bytes, 65,535 levels, and 2,139,226,112
    /// handles in an epoch. No class names are refused.
    ///
    /// # Errors
    ///
    /// `Refused` where the bytes are no such stream, with the first fault. `OutOfMemory` where memory ran out. Never
    /// `Spent`.
    pub fn read(alloc: Global, bytes: &[u8]) -> Result<Graph, Stop>
        ensures accepted { IfOk result (StandsForSome bytes.now) }
        ensures refused { IfErr result (IfRefused (IsRefused bytes.now)) }
    {
        let Ok(copy) = bytes.to_vec(alloc) else {
            return Err(Stop::OutOfMemory);
        };
        match Index::read(alloc, copy) {
            Ok(index) => Ok(Graph { index }),
            Err(stop) => Err(stop),
        }
    }

    /// What a handle names, as it is written in the stream; the first handle of an epoch is `BASE_WIRE_HANDLE`, and each
    /// reset begins the next epoch, counted from 0. `None` where the epoch has no such handle.
    pub fn node(&self, epoch: u64, handle: u32) -> Option<Node>
        ensures { IsNode (node_at self.now.nodes epoch handle) result }
    {
        self.index.node(epoch, handle)
    }

    /// The UTF-16 units of the string that a handle names; `None` where it names none.
    pub fn text(&self, epoch: u64, handle: u32) -> Option<&[u16]>
        ensures { IsList (text_of (node_at self.now.nodes epoch handle)) result }
    {
        self.index.text(epoch, handle)
    }

    /// How many checked names the stream has: those of classes and of the interfaces of proxies.
    pub fn name_count(&self) -> usize
        ensures { result ≡ length self.now.names }
    {
        self.index.name_count()
    }

    /// The checked name with this number, counted from 0 in the order of the stream.
    pub fn name_at(&self, number: usize) -> Option<&[u16]>
        ensures { IsList (slice_get self.now.names number) result }
    {
        self.index.name_at(number)
    }

    /// Writes the bytes of the stream, and returns their number. Takes no memory.
    ///
    /// # Errors
    ///
    /// `Write` where the sink failed, with how many of the first bytes went out before.
    pub fn write_to<W: Sink>(&self, alloc: Global, sink: &mut W) -> Result<u64, GraphFault>
        ensures length { IfOk result (λ count. count ≡ length self.now.bytes) }
        ensures out { OnOk result (Appends (W.gone_out sink.old) (W.gone_out sink.new) self.now.bytes) }
        ensures written { IfErr result (WroteFirst (W.gone_out sink.old) (W.gone_out sink.new) self.now.bytes) }
        ensures kept { OnOk result (W.has_failed sink.new ≡ W.has_failed sink.old) }
        ensures failed { OnErr result (W.has_failed sink.new ≡ true) }
        ensures stands { IsGraph self.now }
    {
        self.index.write_to(alloc, sink)
    }

    /// Writes the text of `show` without what raw values mean, and returns its length, which is exact up to 2^64 - 1 and stays there. `Index::show` says
    /// what memory it takes.
    ///
    /// # Errors
    ///
    /// `Write` where the sink failed; nothing more is read then. `OutOfMemory` where memory ran out. Both say how many
    /// of the first bytes of the text went out.
    pub fn show<W: Sink>(&self, alloc: Global, sink: &mut W) -> Result<u64, GraphFault>
        ensures length { IfOk result (CountsText false self.now) }
        ensures out { OnOk result (WroteText false self.now (W.gone_out sink.old) (W.gone_out sink.new)) }
        ensures written { IfErr result (WroteFront false self.now (W.gone_out sink.old) (W.gone_out sink.new)) }
        ensures kept { OnOk result (W.has_failed sink.new ≡ W.has_failed sink.old) }
        ensures failed { IfErr result (FailedIf (W.has_failed sink.old) (W.has_failed sink.new)) }
    {
        self.index.show(alloc, false, sink)
    }

    /// The contents of the stream, as a tree.
    ///
    /// # Errors
    ///
    /// `TooDeep` where the stream is more than 1,000 deep, else `TooLarge` where it has more than 2^31 - 1 bytes.
    /// `OutOfMemory` where memory ran out.
    #[tactic(auto, using(crate::proofs::OutputLemmas::is_of, crate::proofs::OutputLemmas::too_deep, crate::proofs::OutputLemmas::too_large, crate::proofs::OutputLemmas::memory_out))]
    pub fn contents(&self, alloc: Global) -> Result<Contents, ValueCause>
        ensures list { IfOk result (λ contents. IsOf self.now contents) }
        ensures cause { IfErr result (HasCause self.now) }
    {
        one_reading();
        let totals = self.index.totals();
        if totals.depth > u64::from(MOST_TREE_DEPTH) {
            return Err(ValueCause::TooDeep);
        }
        if totals.bytes > MOST_TREE_BYTES {
            return Err(ValueCause::TooLarge);
        }
        // The bytes were accepted before, under a gate that passes more, so nothing is refused here.
        match read_all(alloc, self.index.bytes(), &OpenGate) {
            Ok(contents) => Ok(contents),
            Err(_) => Err(ValueCause::OutOfMemory),
        }
    }
}
