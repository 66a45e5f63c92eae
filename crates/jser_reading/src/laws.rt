//! Laws of the definitions alone: no call of the product stands behind them. Each is the clause of an empty
//! function, so that the check insists on its proof; the statements are in `specs/`, as `Laws`, `ByteLaws` and
//! `WalkLaws`.

ghost use Rattle.jser_reading.specs.Laws.{Exact, NextIsTold, StackIsBounded};
ghost use Rattle.jser_reading.specs.ByteLaws.{OneReading, NoPrefix, Spelled};
ghost use Rattle.jser_reading.specs.WalkLaws.{AcceptsExactly, RefusesFirst, NoFaultPassed, CutShort, TokensAreTold, EachGateHasAVerdict};
ghost use Rattle.jser_reading.specs.GateLimits.{Limited};
ghost use Rattle.jser_reading.specs.Totals.{Totalled};

/// Of a byte list at most one content list makes a stream.
pub fn one_reading()
    ensures { OneReading }
{}

/// Of two values that obey the format from the same table, one whose bytes begin the other's is equal to it.
pub fn no_prefix()
    ensures { NoPrefix }
{}

/// The tokens of a list that obeys the format, joined, are its spelling.
pub fn spelled()
    ensures { Spelled }
{}

/// The reading machine reads exactly the tokens of the lists that obey the format.
pub fn exact()
    ensures { Exact }
{}

/// What the machine asks next is exactly what may come next: each front of tokens that it takes begins a stream,
/// save just behind a reference's tag.
pub fn next_is_told()
    ensures { NextIsTold }
{}

/// The stack of goals is at least as long as the next token is deep, and at most three times that and two.
pub fn stack_is_bounded()
    ensures { StackIsBounded }
{}

/// A walk over bytes, by any verdict that goes with its gate, accepts exactly the streams that the gate passes.
pub fn accepts_exactly()
    ensures { AcceptsExactly }
{}

/// What the walk refuses is a fault, and no fault is decided by fewer bytes.
pub fn refuses_first()
    ensures { RefusesFirst }
{}

/// Where the walk refuses nothing there is no fault.
pub fn no_fault_passed()
    ensures { NoFaultPassed }
{}

/// Where the walk ends within a token or short of the top, the bytes are no stream.
pub fn cut_short()
    ensures { CutShort }
{}

/// What the walk has taken when it ends are the first tokens of every stream that begins with its bytes.
pub fn tokens_are_told()
    ensures { TokensAreTold }
{}

/// Each gate has a verdict that goes with it, so the laws of the walk speak of something.
pub fn each_gate_has_a_verdict()
    ensures { EachGateHasAVerdict }
{}

/// A gate's limits on depth, places, array lengths, handles of each epoch and checked names, asked token by token,
/// hold exactly where the counts and the names of the list are within them.
pub fn limited()
    ensures { Limited }
{}

/// Along the tokens of a list one counts its contents, places, depth and handles.
pub fn totalled()
    ensures { Totalled }
{}
