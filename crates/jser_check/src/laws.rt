//! Laws of the definitions alone.
ghost use Rattle.jser_check.specs.Passing.{AnywhereIsStronger, NamesAreJudged};

/// A stream that is admitted with each name that stands anywhere is admitted by the check without names, under the same
/// filter.
pub fn anywhere_is_stronger()
    ensures { AnywhereIsStronger }
{}

/// Each name that stands anywhere is one that the gate judges, by the class that it names.
pub fn names_are_judged()
    ensures { NamesAreJudged }
{}
