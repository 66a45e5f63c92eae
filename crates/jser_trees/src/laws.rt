//! Laws of the definitions alone: no call stands behind them. Each is the clause of an empty function, so that the check
//! insists on its proof; the statements are in `specs/Laws.antt`.

ghost use Rattle.jser_trees.specs.Laws.{FindsList, WrittenPasses};

/// Out of its spelling, each list that obeys the format is found again, where it is no deeper than trees may be.
#[tactic(auto, using(crate::proofs::ValuesBuilt::list_found))]
pub fn finds_list()
    ensures { FindsList }
{}

/// The spelling of contents passes the open gate as trees lower it: contents that were written are not refused.
#[tactic(auto, using(crate::proofs::RoundTrips::written_passes))]
pub fn written_passes()
    ensures { WrittenPasses }
{}
