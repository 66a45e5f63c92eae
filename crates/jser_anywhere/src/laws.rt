//! Laws of the definitions alone.
ghost use Rattle.jser_anywhere.specs.Laws.{StandsForGood};
ghost use Rattle.jser_anywhere.specs.LoadableNames.{NamesAreInRows, ReadsLoadable};
ghost use Rattle.jser_anywhere.specs.LooseText.{ReadsLoose, ReadsRows};
ghost use Rattle.jser_anywhere.specs.NamesIn.{AllAreNamed, NamesStand};
ghost use Rattle.jser_anywhere.specs.Worked.{WorkedRows};

/// What stands in some short bytes.
pub fn worked_rows()
    ensures { WorkedRows }
{}

/// What stands in some bytes stands in all that begin with them.
pub fn stands_for_good()
    ensures { StandsForGood }
{}

/// The reader of loose text tells the units of each row of groups, and of nothing else.
pub fn reads_loose()
    ensures { ReadsLoose }
{}

/// The reader of rows tells the units of each such text with no byte below 20, and of nothing else.
pub fn reads_rows()
    ensures { ReadsRows }
{}

/// The reader of names tells the class of each loadable name, and of nothing else.
pub fn reads_loadable()
    ensures { ReadsLoadable }
{}

/// A row goes on behind each loadable name, however that is spelled.
pub fn names_are_in_rows()
    ensures { NamesAreInRows }
{}

/// The names that are told one after another are those that stand.
pub fn names_are_all()
    ensures stand { NamesStand }
    ensures all { AllAreNamed }
{}
