//! What a caller knows of a source that was checked.
ghost use Rattle.std.specs.Prelude.{◌≡◌, ◌+◌, IfSome, true, false};
ghost use Rattle.jser_grammar.specs.Caps.{most_bytes};
ghost use Rattle.jser_check.specs.Admitted.{gate_of_filter};
ghost use Rattle.jser_check.specs.Sources.{TakesAtMost, read_bytes};
ghost use Rattle.jser_check.specs.SourceAnswers.{Undecided};

use jser_check::{CheckFault, Options, Reason, Stop, check_reader};
use jser_filter::Filter;
use jser_prim::Source;
use std::alloc::Global;

/// Whether a read of the source failed, by the answer of the check alone; then the bytes that came decide no refusal. However
/// that may be, no more bytes were taken than a stream may have and one.
pub fn read_failed<R: Source>(
    alloc: Global,
    source: &mut R,
    filter: &Filter,
    options: Options,
) -> bool
    requires { R.has_failed source.old ≡ false }
    ensures exact { result ≡ R.has_failed source.new }
    ensures undecided { result ≡ true → Undecided (gate_of_filter filter.now options) (R.to_come source.old) (R.to_come source.new) }
    ensures within { TakesAtMost (most_bytes + 1) (R.to_come source.old) (R.to_come source.new) }
{
    match check_reader(alloc, source, filter, options) {
        Err(CheckFault::ReadFault) => true,
        Ok(_) | Err(CheckFault::Stop(_)) => false,
    }
}

/// How many bytes decide that a source is refused, if they do so before its end; besides them at most the rest of a read was
/// taken.
pub fn decided_by<R: Source>(
    alloc: Global,
    source: &mut R,
    filter: &Filter,
    options: Options,
) -> Option<u64>
    ensures prompt { IfSome result (λ end. TakesAtMost (end + read_bytes) (R.to_come source.old) (R.to_come source.new)) }
{
    match check_reader(alloc, source, filter, options) {
        Err(CheckFault::Stop(Stop::Refused(refusal))) => match refusal.reason {
            Reason::Truncated => None,
            _ => Some(refusal.to_byte),
        },
        _ => None,
    }
}
