//! What a caller knows while it takes a stream: that the bytes hold no fault so far, that few frames are open, and that raw
//! bytes take no memory.
ghost use Rattle.std.specs.Prelude.{◌≢◌, ◌≤◌, ◌+◌, ℕ, List, OnOk, Err};
ghost use Rattle.jser_reading.specs.Labels.{Label, Piece};
ghost use Rattle.jser_reading.specs.ComesNext.{ComesNext};
ghost use Rattle.jser_reader.specs.ItemsTold.{StandsIn};
ghost use Rattle.jser_reader.specs.Memory.{IsForgotten};
ghost use Rattle.jser_reader.specs.ReaderStates.{StandsFor};
ghost use Rattle.uses_reader.specs.Taking.{HoldsNoFault};

use jser_reader::laws::bytes_are_tokens;
use jser_reader::{Gate, Reader, Step, Stop};
use jser_verdict::laws::refuses_promptly;

/// Takes a piece. Where it is taken, all the bytes so far hold no fault but that they end.
///
/// # Errors
///
/// As `skip` of the reader.
#[tactic(auto, using(crate::proofs::TakingLemmas::no_fault))]
pub fn take_piece<G: Gate>(reader: &mut Reader<G>, piece: &[u8]) -> Result<(), Stop>
    ensures { OnOk result (HoldsNoFault (G.told reader.old.gate) piece.now reader.old.machine reader.old.tally) }
{
    refuses_promptly();
    reader.skip(piece)
}

/// How many frames are open: at most one more than the gate's depth.
#[tactic(auto, using(crate::proofs::TakingLemmas::few_frames))]
pub fn frames_open<G: Gate>(reader: &Reader<G>) -> u64
    ensures { (bytes : List ℕ) → StandsFor (G.told reader.now.gate) bytes reader.now.machine reader.now.tally
        → result ≤ (G.told reader.now.gate).depth + 1 }
{
    bytes_are_tokens();
    reader.open_frames()
}

/// Takes some of a piece that goes on within a token of which nothing is kept: raw values, the bytes of a block, or a text that
/// is no checked name. It does not run out of memory.
///
/// # Errors
///
/// As `next` of the reader, but never `OutOfMemory`.
pub fn take_raw<'p, G: Gate>(reader: &mut Reader<G>, piece: &'p [u8]) -> Result<Step<'p>, Stop>
    ensures { (front : List Piece) (cut : List ℕ) (label : Label) → StandsIn (G.told reader.old.gate) front cut reader.old.machine reader.old.tally
        → ComesNext front label → IsForgotten label.position → result ≢ Err Stop.OutOfMemory }
{
    reader.next(piece)
}
