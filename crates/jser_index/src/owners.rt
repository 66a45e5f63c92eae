//! The owners of a stream: its objects, arrays, enum constants and class objects, in the order of their tags.
ghost use Rattle.std.specs.Prelude.{◌≡◌, [], ◌∷◌, ◌++◌, length, slice_set, OnOk};
ghost use Rattle.jser_shown.specs.Owners.{owner_node};
ghost use Rattle.jser_printer.specs.Given.{view_node, view_nodes};

use jser_printer::OwnerNode;
use std::alloc::{AllocError, Global};
use std::marker::Model;

/// The owners so far; one whose handle is not assigned yet is of zeros.
#[derive(Drop)]
pub(crate) struct Owners {
    owners: Vec<OwnerNode>,
}

impl Model for Owners {
    ghost use Rattle.std.specs.Prelude.{List};
    ghost use Rattle.jser_shown.specs.Owners.{OwnerNode as ToldNode};
    ghost use Rattle.jser_printer.specs.Given.{view_nodes};

    ghost Value = { List ToldNode };

    ghost view = { λ a. view_nodes a.owners.items };
}

impl Owners {
    /// No owners. Takes no memory.
    pub(crate) fn new(alloc: Global) -> Owners
        ensures { result ≡ [] }
    {
        Owners {
            owners: Vec::new(alloc),
        }
    }

    /// How many there are.
    #[tactic(auto, using(crate::proofs::OwnerLemmas::length_told))]
    #[inline(always)]
    pub(crate) fn count(&self) -> usize
        ensures { result ≡ length self.now }
    {
        self.owners.len()
    }

    /// Adds one that is not filled in.
    #[tactic(auto, using(crate::proofs::OwnerLemmas::view_push))]
    #[inline(always)]
    pub(crate) fn begin(&mut self) -> Result<(), AllocError>
        ensures { OnOk result (self.new ≡ self.old ++ owner_node 0 0 ∷ []) }
    {
        let blank = OwnerNode {
            number: 0,
            elements: 0,
        };
        self.owners.reserve(1)?;
        self.owners.push_reserved(blank);
        Ok(())
    }

    /// Fills in the one at this position, if there is one.
    #[tactic(auto, using(crate::proofs::OwnerLemmas::view_set, crate::proofs::OwnerLemmas::view_past))]
    #[inline(always)]
    pub(crate) fn fill(&mut self, position: usize, node: OwnerNode)
        ensures { self.new ≡ slice_set self.old position (view_node node) }
    {
        if position < self.owners.len() {
            self.owners[position] = node;
        }
    }

    /// The owners. Takes no memory.
    pub(crate) fn into_vec(self) -> Vec<OwnerNode>
        ensures { view_nodes result.items ≡ self }
    {
        let Owners { owners } = self;
        owners
    }
}
