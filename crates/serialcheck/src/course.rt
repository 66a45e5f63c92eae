//! How far a command is that goes through files: what was found so far, and what standard error is told of it.
ghost use Rattle.std.specs.Prelude.{◌≡◌, OnOk};

use crate::progress::Progress;
use jser_prim::{Failed, Sink};
use jser_scan::{FilePath, Found, How, Tally, print_found};
use jser_settings::tell_failure;

/// What was found so far.
#[derive(Drop)]
pub(crate) struct Course<'r> {
    /// Its counts.
    pub(crate) tally: Tally,
    /// How far the command is.
    pub(crate) progress: Progress<'r>,
}

impl<'r> Course<'r> {
    /// Nothing was found so far; `what` names what is counted.
    pub(crate) fn new(rt: &'r HostRuntime, asked: bool, what: &'static str) -> Course<'r> {
        Course {
            tally: Tally::new(),
            progress: Progress::new(rt, asked, what),
        }
    }

    /// Counts what was found in a file, and prints it.
    pub(crate) fn print<W: Sink, E: Sink>(
        &mut self,
        how: How,
        path: &FilePath,
        found: &Found,
        output: &mut W,
        faults: &mut E,
    ) -> Result<(), Failed>
        ensures kept { OnOk result (W.has_failed output.new ≡ W.has_failed output.old) }
    {
        self.tally.note(found);
        if is_told_as_fault(found) {
            self.progress.clear();
        }
        print_found(how, path, found, output, faults)
    }

    /// Counts a file of which nothing can be printed, since there is no memory for its path.
    pub(crate) fn tell_no_memory<E: Sink>(&mut self, faults: &mut E) {
        self.tally.note(&Found::OutOfMemory);
        self.progress.clear();
        tell_failure(faults, "out of memory\n");
    }
}

/// Whether standard error is told what was found.
fn is_told_as_fault(found: &Found) -> bool {
    matches!(
        found,
        Found::NotOpened | Found::NotRead(_) | Found::OutOfMemory
    )
}
