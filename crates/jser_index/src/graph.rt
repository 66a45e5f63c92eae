//! A stream by its handles.
ghost use Rattle.std.specs.Prelude.{◌≡◌, length, slice_get, IfOk, IfErr};
ghost use Rattle.jser_index.specs.Graphs.{StandsForSome, IfRefused, node_at, IsNode, text_of};
ghost use Rattle.jser_index.specs.Listed.{IsList};
ghost use Rattle.jser_index.specs.Reading.{IsRefused};

use crate::node::Node;
use crate::nodes::Nodes;
use crate::read::{Found, survey};
use crate::texts::Texts;
use jser_grammar::wire::BASE_WIRE_HANDLE;
use jser_printer::OwnerNode;
use jser_reader::{Stop, Totals};
use std::alloc::Global;
use std::convert::AsSlice;
use std::marker::Model;

/// A Java object serialization stream, by its handles: what each of them names, the units of every string, the checked
/// names, and the bytes as they were read: a slice that is lent to it, or a vector that it holds.
///
/// It holds 12 bytes for each handle, 8 for each object, array, enum constant and class object, 8 for each
/// checked name, each reset and each string that has a list of its own, and two for each unit of a string or a checked name;
/// besides, room that is made ready for fewer than 163,840 units, and what each vector holds in reserve as it grows. It holds
/// no tree, and nothing in it goes as deep as the stream.
#[derive(Drop)]
pub struct Index<B: AsSlice<u8>> {
    pub(crate) bytes: B,
    nodes: Nodes,
    names: Texts,
    pub(crate) owners: Vec<OwnerNode>,
    pub(crate) totals: Totals,
}

impl<B: AsSlice<u8>> Model for Index<B> {
    ghost use Rattle.jser_printer.specs.Given.{view_nodes};
    ghost use Rattle.jser_index.specs.Graphs.{GraphView, IsGraph};
    ghost use Rattle.jser_index.specs.Listed.{all_lists};

    ghost Value = { GraphView };

    ghost view = { λ a. record {
      bytes = B.items a.bytes;
      nodes = all_lists a.nodes;
      names = a.names;
      owners = view_nodes a.owners.items;
      totals = a.totals;
    } };

    ghost invariant = { λ a. IsGraph (record {
      bytes = B.items a.bytes;
      nodes = all_lists a.nodes;
      names = a.names;
      owners = view_nodes a.owners.items;
      totals = a.totals;
    }) };
}

impl<B: AsSlice<u8>> Index<B> {
    /// Reads bytes that are one stream within the greatest limits: at most 2^40 bytes, 65,535 levels, and 2,139,226,112
    /// handles in an epoch. No class names are refused.
    ///
    /// # Errors
    ///
    /// `Refused` where the bytes are no such stream, with the first fault. `OutOfMemory` where memory ran out. Never
    /// `Spent`.
    #[tactic(auto, using(crate::proofs::GraphLemmas::stands_for, crate::proofs::GraphLemmas::is_refused))]
    pub fn read(alloc: Global, bytes: B) -> Result<Index<B>, Stop>
    where
        B: Drop,
        ensures accepted { IfOk result (StandsForSome (B.items bytes)) }
        ensures refused { IfErr result (IfRefused (IsRefused (B.items bytes))) }
    {
        let Found { survey, totals } = survey(alloc, bytes.as_slice())?;
        let found = survey.into_found();
        Ok(Index {
            bytes,
            nodes: found.nodes,
            names: found.names,
            owners: found.owners,
            totals,
        })
    }

    /// What a handle names, as it is written in the stream; the first handle of an epoch is `BASE_WIRE_HANDLE`, and each
    /// reset begins the next epoch, counted from 0. `None` where the epoch has no such handle.
    pub fn node(&self, epoch: u64, handle: u32) -> Option<Node>
        ensures { IsNode (node_at self.now.nodes epoch handle) result }
    {
        if handle < BASE_WIRE_HANDLE {
            return None;
        }
        self.nodes
            .node(epoch as usize, (handle - BASE_WIRE_HANDLE) as usize)
    }

    /// The UTF-16 units of the string that a handle names; `None` where it names none.
    pub fn text(&self, epoch: u64, handle: u32) -> Option<&[u16]>
        ensures { IsList (text_of (node_at self.now.nodes epoch handle)) result }
    {
        if handle < BASE_WIRE_HANDLE {
            return None;
        }
        self.nodes
            .text(epoch as usize, (handle - BASE_WIRE_HANDLE) as usize)
    }

    /// How many checked names the stream has: those of classes and of the interfaces of proxies.
    pub fn name_count(&self) -> usize
        ensures { result ≡ length self.now.names }
    {
        self.names.count()
    }

    /// The checked name with this number, counted from 0 in the order of the stream.
    pub fn name_at(&self, number: usize) -> Option<&[u16]>
        ensures { IsList (slice_get self.now.names number) result }
    {
        self.names.get(number)
    }
}
