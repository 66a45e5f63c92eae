//! Laws of names. They speak of the definitions alone: each function is empty, and its contract is the law.
ghost use Rattle.jser_table.specs.Laws.{MalformedAlike};

/// `layer_kind_of` answers `None` for exactly the names of which `element_of` says that they are malformed.
#[tactic(auto, using(crate::proofs::NameLemmas::malformed_both))]
pub fn malformed_alike()
    ensures { MalformedAlike }
{}
