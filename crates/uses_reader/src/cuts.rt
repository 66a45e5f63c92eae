//! Bytes that are cut in two: wherever the cut is, a reader answers the same.
ghost use Rattle.std.specs.Prelude.{◌≡◌, ◌++◌, [], IfOk};
ghost use Rattle.jser_grammar.specs.Parts.{IsBytes};
ghost use Rattle.jser_reader.specs.Gates.{open_gate};
ghost use Rattle.jser_reader.specs.ReaderStates.{StandsFor};
ghost use Rattle.uses_reader.specs.Answers.{Answers, IsAnswerOf};

use jser_reader::{Gate, OpenGate, Reader, Stop, Totals};
use jser_reading::laws::one_reading;
use jser_verdict::laws::one_first_fault;
use std::alloc::Global;

/// There was no memory.
#[derive(Clone, Copy, PartialEq, Eq, Debug)]
pub struct NoMemory;

/// The counts of a stream, or why the bytes are none.
pub type Answer = Result<Totals, Stop>;

/// What is answered of bytes that are read in two pieces, the second beginning at this place.
///
/// # Errors
///
/// `Refused` with their first fault; `OutOfMemory`. Never `Spent`.
#[tactic(auto, using(crate::proofs::CutLemmas::of_both))]
pub fn read_in_two(alloc: Global, bytes: &[u8], at: usize) -> Answer
    ensures { Answers open_gate bytes.now result }
{
    let (front, back) = bytes.split_at(at.min(bytes.len()));
    let mut reader = Reader::new(alloc, OpenGate);
    read_both(&mut reader, front, back)
}

/// What a new reader answers to two pieces.
#[tactic(auto, using(crate::proofs::CutLemmas::front_stops, crate::proofs::CutLemmas::back_stops, crate::proofs::CutLemmas::finishes))]
fn read_both<G: Gate>(reader: &mut Reader<G>, front: &[u8], back: &[u8]) -> Answer
    requires stands { StandsFor (G.told reader.old.gate) [] reader.old.machine reader.old.tally }
    requires bytes { IsBytes (front.now ++ back.now) }
    ensures { Answers (G.told reader.old.gate) (front.now ++ back.now) result }
{
    match reader.skip(front) {
        Err(stop) => Err(stop),
        Ok(()) => match reader.skip(back) {
            Err(stop) => Err(stop),
            Ok(()) => reader.finish(),
        },
    }
}

/// What is answered of the same bytes, cut at two places. Both answers are the same.
///
/// # Errors
///
/// `NoMemory`.
pub fn read_twice(
    alloc: Global,
    bytes: &[u8],
    at: usize,
    other: usize,
) -> Result<(Answer, Answer), NoMemory>
    ensures { IfOk result (λ both. both.0 ≡ both.1) }
{
    let answer = match read_in_two(alloc, bytes, at) {
        Ok(totals) => Ok(totals),
        Err(Stop::OutOfMemory) => return Err(NoMemory),
        Err(stop) => Err(stop),
    };
    match read_again(alloc, bytes, other, answer) {
        Ok(again) => Ok((answer, again)),
        Err(NoMemory) => Err(NoMemory),
    }
}

/// What is answered of bytes that are cut at this place, and got this answer before.
#[tactic(auto, using(crate::proofs::CutLemmas::refused_again))]
fn read_again(alloc: Global, bytes: &[u8], at: usize, answer: Answer) -> Result<Answer, NoMemory>
    requires { IsAnswerOf open_gate bytes.now answer }
    ensures { IfOk result (λ again. answer ≡ again) }
{
    one_reading();
    one_first_fault();
    match read_in_two(alloc, bytes, at) {
        Ok(totals) => Ok(Ok(totals)),
        Err(Stop::Refused(refusal)) => Ok(Err(Stop::Refused(refusal))),
        Err(Stop::OutOfMemory) => Err(NoMemory),
        Err(Stop::Spent) => unreachable!(),
    }
}
