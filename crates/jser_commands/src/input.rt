//! The stream of an input, read whole before anything is printed of it; and why there is none.
ghost use Rattle.std.specs.Prelude.{◌≡◌, ◌≢◌, ◌⊎◌, IfOk, IfErr, OnOk, IfSome, true};
ghost use Rattle.std.specs.Io.KnownBytes.{Appends, Keeps};
ghost use Rattle.jser_index.specs.Graphs.{StandsForSome};
ghost use Rattle.jser_index.specs.Reading.{IsRefused};
ghost use Rattle.jser_commands.specs.Lines.{AppendsSome};
ghost use Rattle.jser_commands.specs.Inputs.{IfUnreadRefused, PrintsUnread, WhyUnread, IsReadFault, IsUnread};

use crate::answer::{print_line, text_of_refusal};
use jser_check::Refusal;
use jser_index::Index;
use jser_inputs::InputFault;
use jser_names::{NamesFault, bytes_of};
use jser_prim::{Sink, Source};
use jser_reader::Stop;
use jser_settings::{REFUSED, tell_failure, tell_input_fault};
use std::alloc::Global;

/// Why there is no stream.
#[derive(Clone, Copy)]
pub(crate) enum Unread {
    /// The bytes are no stream, or one that is longer or deeper than any may be.
    Refused(Refusal),
    /// A read failed.
    Failed,
    /// Memory ran out.
    OutOfMemory,
}

/// The stream of a source, which is read to its end, or until one byte more than a stream may have has come. Its bytes go to
/// `bytes`; where it is refused nothing is kept of it.
///
/// # Errors
///
/// `Unread`, with the reason. A failed read is told whatever came before it.
#[tactic(auto, using(crate::proofs::InputLemmas::unread_refuses, crate::proofs::InputLemmas::unread_fails))]
pub(crate) fn read_stream<'b, R: Source>(
    alloc: Global,
    input: &mut R,
    bytes: &'b mut Vec<u8>,
) -> Result<Index<&'b [u8]>, Unread>
    ensures accepted { IfOk result (λ graph. IfSome (R.to_come input.old) (λ bytes. StandsForSome bytes graph)) }
    ensures refused { IfErr result (λ unread. IfSome (R.to_come input.old) (λ bytes. IfUnreadRefused (IsRefused bytes) unread)) }
    ensures unbroken { OnOk result (R.has_failed input.new ≡ R.has_failed input.old) }
    ensures fault { IfErr result (λ unread. IsReadFault unread (R.has_failed input.old) (R.has_failed input.new)) }
{
    match bytes_of(alloc, input) {
        Ok(read) => {
            *bytes = read;
            stream_of(alloc, bytes.as_slice())
        }
        Err(fault) => Err(unread_of(fault)),
    }
}

/// The stream of these bytes.
fn stream_of(alloc: Global, bytes: &[u8]) -> Result<Index<&[u8]>, Unread>
    ensures accepted { IfOk result (StandsForSome bytes.now) }
    ensures refused { IfErr result (IfUnreadRefused (IsRefused bytes.now)) }
    ensures read { IfErr result (λ unread. unread ≢ Unread.Failed) }
{
    match Index::read(alloc, bytes) {
        Ok(graph) => Ok(graph),
        Err(Stop::Refused(refusal)) => Err(Unread::Refused(refusal)),
        Err(_) => Err(Unread::OutOfMemory),
    }
}

/// Why there is no stream, from why its names or bytes were not found.
pub(crate) fn unread_of(fault: NamesFault) -> Unread
    ensures { IsUnread fault result }
{
    match fault {
        NamesFault::Refused(refusal) => Unread::Refused(refusal),
        NamesFault::ReadFault => Unread::Failed,
        NamesFault::OutOfMemory => Unread::OutOfMemory,
    }
}

/// Prints the line of a refusal, or tells why there is no stream, and returns the status. `fault` is that of the input.
pub(crate) fn print_unread<W: Sink, E: Sink>(
    alloc: Global,
    unread: Unread,
    fault: InputFault,
    output: &mut W,
    faults: &mut E,
) -> u8
    ensures refused { result ≡ 1 → PrintsUnread (Appends (W.gone_out output.old) (W.gone_out output.new)) unread }
    ensures failed { result ≡ 3 → Keeps (W.gone_out output.old) (W.gone_out output.new)
        ⊎ ((W.has_failed output.new ≡ true) × PrintsUnread (AppendsSome (W.gone_out output.old) (W.gone_out output.new)) unread) }
    ensures status { (result ≡ 1) ⊎ (result ≡ 3) }
    ensures why { result ≡ 3 → WhyUnread fault unread (W.has_failed output.old) (W.has_failed output.new) (E.has_failed faults.new) (E.gone_out faults.old) (E.gone_out faults.new) }
    ensures unbroken { result ≡ 1 → W.has_failed output.new ≡ W.has_failed output.old }
    ensures quiet { result ≡ 1 → faults.new ≡ faults.old }
{
    match unread {
        Unread::Refused(refusal) => {
            print_line(output, faults, text_of_refusal(alloc, refusal), REFUSED)
        }
        Unread::Failed => tell_input_fault(alloc, fault, faults),
        Unread::OutOfMemory => tell_failure(faults, "out of memory\n"),
    }
}
