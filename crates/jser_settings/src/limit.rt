//! How many bytes of a text are wanted.
ghost use Rattle.std.specs.Prelude.{◌≡◌, IfErr, OnErr, OnOk};
ghost use Rattle.jser_settings.specs.Settings.{ReadsLimit, TellsNoLimit};

use crate::status::tell_misuse;
use jser_prim::Sink;

/// The limit that a text says: decimal digits, behind a `+` or none.
///
/// # Errors
///
/// The status, 2, after a line was written to `faults`: the text has other characters or none, or the number is not below
/// 2^64.
pub fn limit_of<E: Sink>(text: &str, faults: &mut E) -> Result<u64, u8>
    ensures limit { ReadsLimit text.now result }
    ensures told { OnErr result (TellsNoLimit (E.has_failed faults.new) (E.gone_out faults.old) (E.gone_out faults.new)) }
    ensures quiet { OnOk result (faults.new ≡ faults.old) }
    ensures status { IfErr result (λ status. status ≡ 2) }
{
    match text.parse::<u64>() {
        Ok(limit) => Ok(limit),
        Err(_) => Err(tell_misuse(faults, "--limit is not a number of bytes\n")),
    }
}
