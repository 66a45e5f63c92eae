//! Laws of the definitions alone: what the shortest decimal is, however it is found.
ghost use Rattle.uses_decimal.specs.Laws.{DoublesAreShortest, NextMeets, OnlyOne, ReadsBackAsOne, SinglesAreShortest, TakesShortest};

/// The decimal that is taken is the shortest: it reads back, and none with fewer digits does; of those with as few it is
/// the nearest, and of two the even one.
#[tactic(auto, using(crate::proofs::ShortestLemmas::takes_shortest))]
pub fn takes_shortest()
    ensures { TakesShortest }
{}

/// No other decimal is the shortest.
#[tactic(auto, using(crate::proofs::OnlyLemmas::only_one))]
pub fn only_one()
    ensures { OnlyOne }
{}

/// Each double that is finite and not zero has its shortest decimal.
#[tactic(auto, using(crate::proofs::FloatLemmas::doubles_are_shortest))]
pub fn doubles_are_shortest()
    ensures { DoublesAreShortest }
{}

/// Each float that is finite and not zero has its shortest decimal.
#[tactic(auto, using(crate::proofs::FloatLemmas::singles_are_shortest))]
pub fn singles_are_shortest()
    ensures { SinglesAreShortest }
{}

/// Floats of bits that follow one another meet half way, and one of the two takes that point.
#[tactic(auto, using(crate::proofs::NextLemmas::next_meets))]
pub fn next_meets()
    ensures { NextMeets }
{}

/// No decimal reads back as two floats.
#[tactic(auto, using(crate::proofs::NextLemmas::reads_back_as_one))]
pub fn reads_back_as_one()
    ensures { ReadsBackAsOne }
{}
