//! Laws of the definitions alone: no call of the product stands behind them. Each is the clause of an empty function, so
//! that the check insists on its proof; the statements are in `specs/`, as `TokenLaws`, `FaultLaws` and `AnswerLaws`.

ghost use Rattle.jser_verdict.specs.TokenLaws.{TurnsAreInOrder, TellsEachRow, TellsTheFirstRow, BadTextIsExact, VerdictScans};
ghost use Rattle.jser_verdict.specs.FaultLaws.{RefusesTheFirst, CutIsTheFirst, OverIsTheFirst, RefusesPromptly, DecidesAlone};
ghost use Rattle.jser_verdict.specs.AnswerLaws.{AcceptsPassing, AcceptsNoFault, RefusesFirstFault, OneFirstFault, RefusedForGood, LoweredIsGate, LoweredPasses};

/// The turns of the reasons are the order of ties: the lowest number first, Truncated after all others.
pub fn turns_are_in_order()
    ensures { TurnsAreInOrder }
{}

/// Where the row of a reason holds, the verdict tells a reason, and one that comes no later.
pub fn tells_each_row()
    ensures { TellsEachRow }
{}

/// What the verdict tells at the first byte at which it tells anything is the row that comes first.
pub fn tells_the_first_row()
    ensures { TellsTheFirstRow }
{}

/// The row of BadText holds exactly where no text goes on.
pub fn bad_text_is_exact()
    ensures { BadTextIsExact }
{}

/// A verdict that goes with the gate of its limits says the same wherever a walk asks: so the laws of the walk hold of
/// the verdict that code follows.
pub fn verdict_scans()
    ensures { VerdictScans }
{}

/// What the walk refuses is the first fault.
pub fn refuses_the_first()
    ensures { RefusesTheFirst }
{}

/// Where the bytes end short of a stream, Truncated is the first fault.
pub fn cut_is_the_first()
    ensures { CutIsTheFirst }
{}

/// Where more bytes come than the limit allows, BytesExceeded is the first fault.
pub fn over_is_the_first()
    ensures { OverIsTheFirst }
{}

/// Where the walk has refused nothing there is no fault but Truncated.
pub fn refuses_promptly()
    ensures { RefusesPromptly }
{}

/// What the walk refuses is decided by the bytes before its end.
pub fn decides_alone()
    ensures { DecidesAlone }
{}

/// The answer is `accepted` exactly for the streams that the gate lets pass.
pub fn accepts_passing()
    ensures { AcceptsPassing }
{}

/// What is accepted has no fault.
pub fn accepts_no_fault()
    ensures { AcceptsNoFault }
{}

/// The answer is a refusal exactly where there is a first fault, and tells it.
pub fn refuses_first_fault()
    ensures { RefusesFirstFault }
{}

/// There is at most one first fault.
pub fn one_first_fault()
    ensures { OneFirstFault }
{}

/// A refusal, save Truncated, is the same with any bytes after those that decide, and no stream that passes begins
/// with them.
pub fn refused_for_good()
    ensures { RefusedForGood }
{}

/// A gate with its limits of bytes and depth lowered is a gate.
pub fn lowered_is_gate()
    ensures { LoweredIsGate }
{}

/// It lets pass what the gate lets pass within the lower limits.
pub fn lowered_passes()
    ensures { LoweredPasses }
{}
