//! The gate of trees: that of the caller, with its limits of bytes and depth lowered to the caps of trees.
ghost use Rattle.std.specs.Prelude.{◌≡◌};

use jser_grammar::caps::{MOST_TREE_BYTES, MOST_TREE_DEPTH};
use jser_reader::{Answer, Gate};
use std::marker::Model;

/// A gate with its limits of bytes and depth lowered.
#[derive(Drop)]
pub(crate) struct TreeGate<'g, G: Gate> {
    gate: &'g G,
}

impl<'g, G: Gate> Model for TreeGate<'g, G> {
    ghost Value = { G };

    ghost view = { λ a. a.gate.now };
}

impl<'g, G: Gate> TreeGate<'g, G> {
    /// This gate, lowered.
    pub(crate) fn new(gate: &'g G) -> TreeGate<'g, G>
        ensures { result ≡ gate.now }
    {
        TreeGate { gate }
    }
}

impl<'g, G: Gate> Gate for TreeGate<'g, G> {
    ghost use Rattle.jser_grammar.specs.Caps.{most_tree_bytes, most_tree_depth};
    ghost use Rattle.jser_verdict.specs.Gates.{lowered};
    ghost use Rattle.jser_verdict.proofs.Passing.{lowered_is_gate};

    ghost told = { λ gate. lowered most_tree_bytes most_tree_depth (G.told gate) };

    fn name(&self, name: &[u16]) -> Answer {
        self.gate.name(name)
    }

    fn max_bytes(&self) -> u64 {
        self.gate.max_bytes().min(MOST_TREE_BYTES)
    }

    fn max_depth(&self) -> u32 {
        self.gate.max_depth().min(MOST_TREE_DEPTH)
    }

    fn max_refs(&self) -> u64 {
        self.gate.max_refs()
    }

    fn max_array(&self) -> u32 {
        self.gate.max_array()
    }

    fn max_handles(&self) -> u32 {
        self.gate.max_handles()
    }

    ghost within = { λ gate. lowered_is_gate (G.told gate) most_tree_bytes most_tree_depth (G.within gate) };
}
