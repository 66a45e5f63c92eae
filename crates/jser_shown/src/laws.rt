//! Laws of the definitions alone: no call of the product stands behind them. Each is the clause of an empty
//! function, so that the check insists on its proof; the statements are in `specs/`, as `Laws` and
//! `FrontLaws`.

ghost use Rattle.jser_shown.specs.FrontLaws.{TellsFronts, OneMore, FindsFronts};
ghost use Rattle.jser_shown.specs.Laws.{Told, EndsThere, Found, PlacesAreCounted, Counted};

/// Along the tokens of a list that obeys the format the teller says the list's text of `show`.
pub fn told()
    ensures { Told }
{}

/// After these tokens the teller is at the top, knows what the list leaves, and has used exactly the owners that
/// it was given.
pub fn ends_there()
    ensures { EndsThere }
{}

/// What is found along these tokens, each told how many handles are assigned before it, are the nodes, the owners and
/// the checked names of the list. No teller is needed.
pub fn found()
    ensures { Found }
{}

/// The place after some bytes is so many bytes further on as they are.
pub fn places_are_counted()
    ensures { PlacesAreCounted }
{}

/// Tokens may be taken one by one: what the teller says of some first tokens, and then of the others from where it has
/// come to, is what it says of all.
pub fn tells_fronts()
    ensures { TellsFronts }
{}

/// What is found may be found token by token too.
pub fn finds_fronts()
    ensures { FindsFronts }
{}

/// One token more is one step, from a teller that has settled.
pub fn one_more()
    ensures { OneMore }
{}

/// The text of `list` is that of tallies of the checked names, which are counted one after another.
pub fn counted()
    ensures { Counted }
{}
