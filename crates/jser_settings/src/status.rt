//! The statuses of the program, and how faults are told.
//!
//! A fault of the writer of faults itself changes no status.
ghost use Rattle.std.specs.Prelude.{◌≡◌, ◌⊎◌, IsOkAnd, true, string_bytes};
ghost use Rattle.jser_settings.specs.Settings.{Tells, TellsNoMemory, TellsInputFault};
ghost use Rattle.std.specs.Io.KnownBytes.{Appends};

use jser_inputs::InputFault;
use jser_prim::{Sink, give_all};
use std::alloc::{AllocError, Global};

/// The bytes are a stream.
pub const ACCEPTED: u8 = 0;
/// The bytes are refused.
pub const REFUSED: u8 = 1;
/// The command line, the filter or the table of modules is at fault.
pub const MISUSED: u8 = 2;
/// A device failed, or memory ran out.
pub const FAILED: u8 = 3;
/// The text has more bytes than the limit allows, and was cut.
pub const CUT: u8 = 4;

/// Tells a failure, as far as that can be done, and returns the status of one.
pub fn tell_failure<E: Sink>(faults: &mut E, line: &str) -> u8
    ensures status { result ≡ 3 }
    ensures told { Tells (E.has_failed faults.new) (E.gone_out faults.old) (E.gone_out faults.new) line.now }
    ensures kept { (E.has_failed faults.new ≡ true) ⊎ (E.has_failed faults.new ≡ E.has_failed faults.old) }
{
    let _ = give_all(faults, line.as_bytes());
    FAILED
}

/// Tells what is wrong with what was asked for, as far as that can be done, and returns the status for it.
pub fn tell_misuse<E: Sink>(faults: &mut E, text: &str) -> u8
    ensures status { result ≡ 2 }
    ensures told { Tells (E.has_failed faults.new) (E.gone_out faults.old) (E.gone_out faults.new) text.now }
{
    let _ = give_all(faults, text.as_bytes());
    MISUSED
}

/// Tells what is wrong with what was asked for, in a text for which there may be no memory: then that is told, as a failure.
pub fn tell_misuse_of<E: Sink>(faults: &mut E, text: Result<String, AllocError>) -> u8
    ensures status { (result ≡ 2) ⊎ (result ≡ 3) }
    ensures told { result ≡ 2 → (E.has_failed faults.new ≡ true)
        ⊎ IsOkAnd text (λ text. Appends (E.gone_out faults.old) (E.gone_out faults.new) (string_bytes text)) }
    ensures failed { result ≡ 3 → TellsNoMemory (E.has_failed faults.new) (E.gone_out faults.old) (E.gone_out faults.new) }
{
    match text {
        Ok(text) => tell_misuse(faults, text.as_str()),
        Err(_) => tell_failure(faults, "out of memory\n"),
    }
}

/// Tells why an input was not read, as far as that can be done, and returns the status of a failure. Where there is no memory
/// for the line of a text that is not of its form, that is told.
pub fn tell_input_fault<E: Sink>(alloc: Global, fault: InputFault, faults: &mut E) -> u8
    ensures status { result ≡ 3 }
    ensures told { TellsInputFault fault (E.has_failed faults.new) (E.gone_out faults.old) (E.gone_out faults.new) }
{
    match fault {
        InputFault::Failed => tell_failure(faults, "read failed\n"),
        _ => match format!(in alloc; "{fault}\n") {
            Ok(text) => tell_failure(faults, text.as_str()),
            Err(_) => tell_failure(faults, "out of memory\n"),
        },
    }
}
