//! Streams that are read token by token, under the gate of a filter.
ghost use Rattle.std.specs.Prelude.{IfOk};
ghost use Rattle.jser_reader.specs.Answers.{PassesWith};
ghost use Rattle.jser_check.specs.Answers.{Reports};

use jser_check::{HeldGate, Holds, Options, Report, Stop};
use jser_filter::Filter;
use jser_reader::{Gate, Reader};
use std::alloc::Global;

/// Reads bytes by a reader's own calls, and returns the counts of the stream that they are. The filter admits it.
///
/// # Errors
///
/// As a reader under this gate.
#[tactic(auto, using(crate::proofs::ReaderLemmas::admits_passing))]
pub fn read_admitted(
    alloc: Global,
    bytes: &[u8],
    filter: &Filter,
    options: Options,
) -> Result<Report, Stop>
    ensures { IfOk result (Reports filter.now options bytes.now) }
{
    read_under(alloc, bytes, HeldGate::new(filter, options))
}

/// Reads bytes as `read_admitted` does, under the filter that this holds, whoever owns it.
///
/// # Errors
///
/// As a reader under this gate.
#[tactic(auto, using(crate::proofs::ReaderLemmas::admits_passing))]
pub fn read_held<F: Holds + Drop>(
    alloc: Global,
    bytes: &[u8],
    holder: F,
    options: Options,
) -> Result<Report, Stop>
    ensures { IfOk result (Reports (F.held holder) options bytes.now) }
{
    read_under(alloc, bytes, HeldGate::new(holder, options))
}

/// The counts of the stream that the bytes are, which passes the gate.
#[tactic(auto, using(crate::proofs::ReaderLemmas::reads_passing))]
fn read_under<G: Gate + Drop>(alloc: Global, bytes: &[u8], gate: G) -> Result<Report, Stop>
    ensures { IfOk result (PassesWith (G.told gate) bytes.now) }
{
    let mut reader = Reader::new(alloc, gate);
    match reader.skip(bytes) {
        Ok(()) => reader.finish(),
        Err(stop) => Err(stop),
    }
}
