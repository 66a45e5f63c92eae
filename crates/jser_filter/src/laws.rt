//! Laws of filter texts. They speak of the definitions alone: each function is empty, and its contract is the
//! law.
ghost use Rattle.jser_filter.specs.Laws.{NeedsNoTable, KeepsDecided};

/// A text without `/` has the same verdicts with every table of modules.
#[tactic(auto, using(crate::proofs::LawLemmas::needs_no_table))]
pub fn needs_no_table()
    ensures { NeedsNoTable }
{}

/// Pieces that are appended to a text, after a `;`, change no verdict but Undecided.
#[tactic(auto, using(crate::proofs::LawLemmas::keeps_decided))]
pub fn keeps_decided()
    ensures { KeepsDecided }
{}
