//! What a scan prints and counts of one file after another.
ghost use Rattle.std.specs.Prelude.{◌≡◌, OnOk, OnErr, true, false};
ghost use Rattle.uses_commands.specs.Scans.{Scanned, AllAccepted};

use jser_inputs::Input;
use jser_prim::{Failed, Sink};
use jser_scan::{FilePath, How, Rules, Tally, check_file, print_found};
use std::alloc::Global;

/// Checks a file, counts it and prints it: what was found is right of its bytes, and it is what was counted and printed, and
/// nothing else was.
///
/// # Errors
///
/// `Failed` where the output failed.
#[tactic(auto, using(crate::proofs::ScanLemmas::scanned))]
pub fn scan_one<R: Input + Drop, W: Sink, E: Sink>(
    alloc: Global,
    rules: &Rules,
    how: How,
    path: &FilePath,
    input: R,
    tally: &mut Tally,
    output: &mut W,
    faults: &mut E,
) -> Result<(), Failed>
    ensures scanned { OnOk result (Scanned rules.now how path.now (R.to_come input) tally.old tally.new (W.gone_out output.old) (W.gone_out output.new)) }
    ensures kept { OnOk result (W.has_failed output.new ≡ W.has_failed output.old) }
    ensures failed { OnErr result (W.has_failed output.new ≡ true) }
{
    let (found, _input) = check_file(alloc, rules, input);
    tally.note(&found);
    print_found(how, path, &found, output, faults)
}

/// Whether each file that was counted was accepted.
pub fn all_accepted(tally: Tally) -> bool
    ensures accepted { result ≡ true → AllAccepted tally }
{
    tally.status() == 0
}
