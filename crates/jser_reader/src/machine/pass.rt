//! Steps over tokens with which no count changes: what comes next is taken from the front of a piece, and nothing is lent.
ghost use Rattle.std.specs.Prelude.{◌<◌, length};
ghost use Rattle.jser_reader.specs.Passes.{bytes_passed, Passes, HasPassed, CanPass, IsQuiet};

use crate::gate::Gate;
use crate::machine::Machine;
use crate::machine::passed::Passed;
use crate::tally::Tally;

mod class_names;
mod descriptors;
mod members;

impl Machine {
    /// Takes bytes of the token that is open, whichever it is, where no count changes with it.
    #[inline(always)]
    pub(crate) fn pass_quiet<G: Gate>(&mut self, gate: &G, piece: &[u8]) -> Passed
        requires can { CanPass self.old piece.now }
        requires some { 0 < length piece.now }
        requires quiet { IsQuiet self.old.phase }
        ensures passes { (tally : Tally) → Passes (G.told gate.now) piece.now (bytes_passed result) self.old tally self.new tally }
        ensures progress { HasPassed piece.now (bytes_passed result) }
    {
        self.take(gate, piece).passed(piece.len())
    }
}
