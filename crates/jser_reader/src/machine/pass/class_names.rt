//! Names of classes of which all bytes are in the piece, each of them a unit: they are taken in one step with their length.
ghost use Rattle.std.specs.Prelude.{◌≡◌, ◌<◌, IfSome, length};
ghost use Rattle.jser_reader.specs.Passes.{bytes_passed, Passes, CanPass, HasPassed};
ghost use Rattle.jser_reader.specs.ClassNames.{HasName, JudgesName};

use crate::gate::Gate;
use crate::machine::Machine;
use crate::machine::flow::Flow;
use crate::machine::passed::Passed;
use crate::machine::take::text_bytes::add_units;
use crate::phase::{Phase, TextFor};
use crate::tally::Tally;
use jser_prim::{is_plain_between, read_u16};

/// How many bytes the name has whose length comes first, where all of them are there and each is a unit.
#[inline(always)]
fn name_in(piece: &[u8]) -> Option<usize>
    ensures { IfSome result (λ len. HasName piece.now len) }
{
    if piece.len() < 2 {
        return None;
    }
    let (number, _) = piece.split_at(2);
    let len = read_u16(number) as usize;
    if !is_plain_between(piece, 2, len + 2) {
        return None;
    }
    Some(len)
}

impl Machine {
    /// How many bytes the name has that comes next with its length, where it is that of a class, whole in the piece, and each
    /// byte of it is a unit.
    #[inline(always)]
    fn class_name_here(&self, piece: &[u8]) -> Option<usize>
        ensures { IfSome result (λ len. HasName piece.now len × (self.now.text ≡ TextFor.ClassName)) }
    {
        if self.text != TextFor::ClassName {
            return None;
        }
        name_in(piece)
    }

    /// The name of a class that has been kept is judged.
    #[tactic(auto, unfolding(crate::specs::ClassNames::JudgesName))]
    #[inline(always)]
    fn judge_name<G: Gate>(&mut self, gate: &G) -> Flow
        ensures { JudgesName (G.told gate.now) result self.old self.new }
    {
        self.class_name(gate)
    }

    /// Takes the length of a text and the text: in one step where it is such a name, and there is room for its units.
    #[inline(always)]
    pub(crate) fn pass_name<G: Gate>(&mut self, gate: &G, piece: &[u8]) -> Passed
        requires can { CanPass self.old piece.now }
        requires some { 0 < length piece.now }
        requires phase { self.old.phase ≡ Phase.Length2 }
        ensures passes { (tally : Tally) → Passes (G.told gate.now) piece.now (bytes_passed result) self.old tally self.new tally }
        ensures progress { HasPassed piece.now (bytes_passed result) }
    {
        let Some(len) = self.class_name_here(piece) else {
            return self.pass_length(gate, piece);
        };
        if self.name.capacity() < len {
            return self.pass_length(gate, piece);
        }
        let (_, rest) = piece.split_at(2);
        let (part, _) = rest.split_at(len);
        self.name.clear();
        add_units(&mut self.name, part);
        self.at += 2 + len as u64;
        match self.judge_name(gate) {
            Flow::On => Passed::Took(2 + len),
            Flow::Stopped => Passed::Stopped,
        }
    }
}
