//! The nodes of a stream, by their handles.
ghost use Rattle.std.specs.Prelude.{◌≡◌, [], None, Some, length, OnOk};
ghost use Rattle.jser_reading.specs.Labels.{StreamToken};
ghost use Rattle.jser_shown.specs.Finding.{node_made};
ghost use Rattle.jser_shown.specs.Nodes.{text_node};
ghost use Rattle.jser_printer.specs.Given.{IsOf};
ghost use Rattle.jser_index.specs.StoredNodes.{view_kind, AddsNode};
ghost use Rattle.jser_index.specs.Graphs.{IsNode, node_in, stored_in, text_of};
ghost use Rattle.jser_index.specs.Listed.{IsList, all_lists, ended_last, with_last};
ghost use Rattle.jser_index.specs.Surveying.{view_begun};

use crate::begun::Begun;
use crate::lists::Lists;
use crate::node::{Node, NodeKind, StoredNode};
use crate::strings::Strings;
use jser_printer::Token;
use std::alloc::{AllocError, Global};
use std::marker::Model;

/// The nodes so far, epoch by epoch, in the order of their handles.
#[derive(Drop)]
pub(crate) struct Nodes {
    nodes: Lists<StoredNode>,
    /// The units of those that are strings.
    strings: Strings,
}

impl Model for Nodes {
    ghost use Rattle.std.specs.Prelude.{map};
    ghost use Rattle.std.specs.List.{All};
    ghost use Rattle.jser_shown.specs.Nodes.{Node as ToldNode};
    ghost use Rattle.jser_index.specs.Listed.{Listed};
    ghost use Rattle.jser_index.specs.StoredNodes.{view_node, IsAmong};

    ghost Value = { Listed ToldNode };

    ghost view = { λ a. record { ended = map (map (view_node a.strings)) a.nodes.ended; last = map (view_node a.strings) a.nodes.last } };

    ghost invariant = { λ a. All (IsAmong a.strings) a.nodes.last × All (All (IsAmong a.strings)) a.nodes.ended };
}

impl Nodes {
    /// No nodes. Takes no memory.
    pub(crate) fn new(alloc: Global) -> Nodes
        ensures { result ≡ record { ended = []; last = [] } }
    {
        Nodes {
            nodes: Lists::new(alloc),
            strings: Strings::new(alloc),
        }
    }

    /// How many nodes the last epoch has.
    #[tactic(auto, using(crate::proofs::StoredLemmas::length_told))]
    #[inline(always)]
    pub(crate) fn count(&self) -> usize
        ensures { result ≡ length self.now.last }
    {
        self.nodes.last_count()
    }

    /// Adds the node of a tag, which is made at this token.
    #[tactic(auto, using(crate::proofs::StoredLemmas::no_units))]
    #[inline(always)]
    pub(crate) fn make(&mut self, begun: Begun, token: Token<'_>) -> Result<(), AllocError>
        ensures { OnOk result ((told : StreamToken) → IsOf token.entry told → self.new ≡ with_last self.old (node_made (view_begun begun) told)) }
    {
        match begun.kind {
            NodeKind::Text => match token {
                Token::Text(units) => self.push_text(units, begun.tag_byte),
                _ => self.push(begun),
            },
            _ => self.push(begun),
        }
    }

    /// Adds a node that has no text.
    #[inline(always)]
    fn push(&mut self, begun: Begun) -> Result<(), AllocError>
        ensures { OnOk result (self.new ≡ with_last self.old (record { kind = view_kind begun.kind; place = begun.tag_byte; units = None })) }
    {
        let stored = StoredNode::without_units(begun.kind, begun.tag_byte)?;
        self.nodes.push(stored)
    }

    /// Adds the node of a string.
    #[tactic(auto, using(crate::proofs::StoredLemmas::among_extended, crate::proofs::StoredLemmas::all_among_extended))]
    #[inline(always)]
    fn push_text(&mut self, units: &[u16], tag_byte: u64) -> Result<(), AllocError>
        ensures { OnOk result (self.new ≡ with_last self.old (record { kind = text_node; place = tag_byte; units = Some units.now })) }
    {
        let spot = self.strings.add(units)?;
        let stored = StoredNode::string(spot, tag_byte)?;
        self.nodes.push(stored)
    }

    /// Adds the node of a string of which these are the bytes. `scratch` is room for its units.
    #[tactic(auto, using(crate::proofs::StoredLemmas::among_extended, crate::proofs::StoredLemmas::all_among_extended))]
    #[inline(always)]
    pub(crate) fn push_string(
        &mut self,
        bytes: &[u8],
        scratch: &mut Vec<u16>,
        tag_byte: u64,
    ) -> Result<(), AllocError>
        ensures { OnOk result (AddsNode bytes.now tag_byte self.old self.new) }
    {
        let spot = self.strings.add_text(bytes, scratch)?;
        let stored = StoredNode::string(spot, tag_byte)?;
        self.nodes.push(stored)
    }

    /// Begins the next epoch.
    #[tactic(auto, using(crate::proofs::StoredLemmas::among_end, crate::proofs::StoredLemmas::view_end))]
    pub(crate) fn end(&mut self) -> Result<(), AllocError>
        ensures { OnOk result (self.new ≡ ended_last self.old) }
    {
        self.nodes.end()
    }

    /// The node with this number of an epoch, if there is one.
    #[tactic(auto, using(crate::proofs::NodeLemmas::node_is))]
    pub(crate) fn node(&self, epoch: usize, number: usize) -> Option<Node>
        ensures { IsNode (node_in (all_lists self.now) epoch number) result }
    {
        let stored = stored(&self.nodes, epoch, number)?;
        Some(stored.node())
    }

    /// The units of the string with this number of an epoch, if there is one.
    #[tactic(auto, using(crate::proofs::NodeLemmas::text_is))]
    pub(crate) fn text(&self, epoch: usize, number: usize) -> Option<&[u16]>
        ensures { IsList (text_of (node_in (all_lists self.now) epoch number)) result }
    {
        let stored = stored(&self.nodes, epoch, number)?;
        let spot = stored.spot()?;
        Some(self.strings.get(spot))
    }
}

/// The node with this number of an epoch, as it is kept.
#[tactic(auto, using(crate::proofs::NodeLemmas::last_list, crate::proofs::NodeLemmas::other_list))]
fn stored(nodes: &Lists<StoredNode>, epoch: usize, number: usize) -> Option<StoredNode>
    ensures { result ≡ stored_in nodes.now epoch number }
{
    let list = if epoch == nodes.count() {
        nodes.last()
    } else {
        nodes.get(epoch)?
    };
    list.get(number).copied()
}
