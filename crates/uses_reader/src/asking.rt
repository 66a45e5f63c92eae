//! What a reader tells of itself between pieces, and what it answers when it begins anew and when it has stopped.
ghost use Rattle.std.specs.Prelude.{◌≡◌, ◌≢◌, ◌↔◌, ◌≤◌, ℕ, List, [], ◌++◌, length, Some, Err, true};
ghost use Rattle.jser_reading.specs.Labels.{Label, Piece};
ghost use Rattle.jser_reading.specs.ComesNext.{ComesNext};
ghost use Rattle.jser_reading.specs.TokenBytes.{joined};
ghost use Rattle.jser_reading.specs.WalkLaws.{BeginEvery};
ghost use Rattle.jser_reader.specs.ItemsTold.{StandsIn, LentCases};
ghost use Rattle.jser_reader.specs.Memory.{EndsInside, IsCheckedName};
ghost use Rattle.jser_reader.specs.ReaderStates.{HasRefused, IsSpent};
ghost use Rattle.jser_reader.specs.ReasonNames.{reason_name};
ghost use Rattle.jser_reader.specs.declared.Refusal.{Refusal};

use jser_reader::laws::tokens_begin_streams;
use jser_reader::{Gate, Reader, Reason, Step, Stop};

/// Whether no frame is open. Then at most one layer is kept beside them.
pub fn is_between<G: Gate>(reader: &Reader<G>) -> bool
    ensures exact { (result ≡ true) ↔ (length reader.now.machine.frames ≡ 0) }
    ensures layers { result ≡ true → length reader.now.machine.layers ≤ 1 }
{
    reader.open_frames() == 0
}

/// How many handles the tokens so far assigned. They are the first tokens of every stream that begins with the bytes so far.
pub fn handles_so_far<G: Gate>(reader: &Reader<G>) -> u32
    ensures assigned { (front : List Piece) (cut : List ℕ) (label : Label) → StandsIn (G.told reader.now.gate) front cut reader.now.machine reader.now.tally
        → ComesNext front label → length label.moment.table ≡ result }
    ensures settled { (front : List Piece) (cut : List ℕ) → StandsIn (G.told reader.now.gate) front cut reader.now.machine reader.now.tally
        → BeginEvery front (joined front ++ cut) }
{
    tokens_begin_streams();
    reader.epoch_handles()
}

/// The limit on bytes after the next item was taken: it is what it was.
pub fn limit_after<'p, G: Gate>(reader: &mut Reader<G>, piece: &'p [u8]) -> u64
    ensures { result ≡ (G.told reader.old.gate).bytes }
{
    let _step = reader.next(piece);
    reader.gate().max_bytes()
}

/// Begins a stream anew, whatever was read before, and takes the first item of its first token.
///
/// # Errors
///
/// As `next` of the reader.
#[tactic(auto, using(crate::proofs::AskingLemmas::first_lent))]
pub fn first_item<'p, G: Gate>(reader: &mut Reader<G>, piece: &'p [u8]) -> Result<Step<'p>, Stop>
    ensures { LentCases (G.told reader.old.gate) [] [] piece.now result reader.new.machine reader.new.tally }
{
    reader.restart();
    reader.next(piece)
}

/// What a reader that has stopped answers to a piece: what it answered before.
pub fn next_again<'p, G: Gate>(reader: &mut Reader<G>, piece: &'p [u8]) -> Result<Step<'p>, Stop>
    ensures refused { (refusal : Refusal) → HasRefused refusal reader.old.machine → result ≡ Err (Stop.Refused refusal) }
    ensures spent { IsSpent reader.old.machine → result ≡ Err Stop.Spent }
{
    reader.next(piece)
}

/// Takes a piece that ends inside the token that is open or comes next, where that is no checked name. It does not run out of
/// memory.
///
/// # Errors
///
/// As `skip` of the reader, but never `OutOfMemory`.
pub fn take_inside<G: Gate>(reader: &mut Reader<G>, piece: &[u8]) -> Result<(), Stop>
    ensures { (front : List Piece) (cut : List ℕ) (label : Label) → StandsIn (G.told reader.old.gate) front cut reader.old.machine reader.old.tally
        → ComesNext front label → (IsCheckedName label.position → ⊥) → EndsInside label.position (cut ++ piece.now)
        → result ≢ Err Stop.OutOfMemory }
{
    reader.skip(piece)
}

/// Whether a reason has the name that a rule of an operator gives.
pub fn is_called(reason: Reason, name: &str) -> bool
    ensures { (result ≡ true) ↔ (name.now ≡ reason_name reason) }
{
    reason.name() == name
}
