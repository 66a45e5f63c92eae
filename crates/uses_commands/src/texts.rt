//! What the status of a command says of an input that comes as text.
ghost use Rattle.std.specs.Prelude.{◌≡◌, ◌≢◌, Some, None, IfSome, true, false};
ghost use Rattle.jser_grammar.specs.Parts.{IsBytes};
ghost use Rattle.jser_inputs.specs.Spelled.{spelling_of};
ghost use Rattle.uses_commands.specs.Answers.{IsNo, IsYes};

use crate::answers::answers;
use jser_commands::Job;
use jser_inputs::{Decoded, Form};
use jser_prim::{Sink, Source};
use std::alloc::Global;

/// Whether the answer to a job is yes, of the bytes that a text spells. Where it is, the whole text is of its form. `None`
/// where it is not, a device failed or memory ran out, and then that was told.
#[tactic(auto, using(crate::proofs::TextLemmas::yes_of_text, crate::proofs::TextLemmas::no_of_text, crate::proofs::TextLemmas::all_bytes))]
pub fn answers_text<R: Source + Drop, W: Sink, E: Sink>(
    alloc: Global,
    job: &Job,
    text: R,
    form: Form,
    output: &mut W,
    faults: &mut E,
) -> Option<bool>
    ensures yes { result ≡ Some true → IfSome (R.to_come «text») (λ text. IsYes job.now (spelling_of form text)) }
    ensures no { result ≡ Some false → IfSome (R.to_come «text») (λ text. IsNo job.now (spelling_of form text)) }
    ensures of_form { result ≡ Some true → IfSome (R.to_come «text») (λ text. IsBytes (spelling_of form text)) }
    ensures quiet { result ≢ None → faults.new ≡ faults.old }
{
    let mut input = Decoded::new(text, form);
    answers(alloc, job, &mut input, output, faults)
}
