//! Laws of the definitions alone: each is the clause of an empty function, so that the check insists on its proof.

ghost use Rattle.jser_names.specs.Collecting.{LengthsAreMeasured, NamesAreCollected};

/// What is collected along the tokens of a list are its checked names.
#[tactic(auto, using(crate::proofs::CollectedLemmas::collected_law))]
pub fn names_are_collected()
    ensures { NamesAreCollected }
{}

/// What is measured along them is the greatest of its array lengths.
#[tactic(auto, using(crate::proofs::MeasureLemmas::measured_law))]
pub fn lengths_are_measured()
    ensures { LengthsAreMeasured }
{}
