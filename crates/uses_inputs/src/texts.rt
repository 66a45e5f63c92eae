//! Inputs over texts, for a program that reads what they spell and tells why it cannot.
ghost use Rattle.std.specs.Prelude.{◌≡◌, IfOk, IfSome, Ok, false, length, true, option_map};
ghost use Rattle.std.specs.Io.KnownBytes.{ReadConsumes};
ghost use Rattle.jser_inputs.specs.Decoding.{HasCause, bytes_to_come};
ghost use Rattle.jser_inputs.specs.Places.{first_spot};
ghost use Rattle.jser_inputs.specs.Spelled.{right_until, spelling_of};

use jser_inputs::{Decoded, Form, Input, InputFault};
use jser_prim::{Failed, Source};

/// An input of the bytes that a text spells, of which the first were read into `buf`, and how many these are.
///
/// # Errors
///
/// `Failed` where the text is not of its form, or its source failed.
pub fn opened<R: Source + Drop>(
    text: R,
    form: Form,
    buf: &mut [u8],
) -> Result<(Decoded<R>, usize), Failed>
    ensures bytes { IfOk result (λ both. ReadConsumes {E = Failed} (option_map (spelling_of form) (R.to_come «text»)) (bytes_to_come both.0) (Ok both.1) buf.new) }
    ensures failed { IfOk result (λ both. both.0.has_failed ≡ false) }
{
    let mut input = Decoded::new(text, form);
    match input.take(buf) {
        Ok(count) => Ok((input, count)),
        Err(failed) => Err(failed),
    }
}

/// Why the next read of an input fails, if it does.
pub fn fault_of_read<I: Input>(input: &mut I, buf: &mut [u8]) -> Option<InputFault>
    ensures { IfSome result (λ fault. (fault ≡ I.why_failed input.new) × (I.has_failed input.new ≡ true)) }
{
    match input.take(buf) {
        Ok(_) => None,
        Err(_) => Some(input.fault()),
    }
}

/// Whether the first bytes that a text spells were read, and the input of the others. Where they were not, there is a cause.
pub fn first_read<R: Source + Drop>(text: R, form: Form, buf: &mut [u8]) -> (bool, Decoded<R>)
    ensures { result.0 ≡ false → HasCause result.1 (length buf.new) }
{
    let mut input = Decoded::new(text, form);
    match input.take(buf) {
        Ok(_) => (true, input),
        Err(_) => (false, input),
    }
}

/// Where a text is no longer hexadecimal, if that is why its first read fails: how many of its characters are right.
#[tactic(auto, using(crate::proofs::WrongLemmas::told_place))]
pub fn wrong_at<R: Source + Drop>(text: R, buf: &mut [u8]) -> Option<u64>
    ensures { IfSome result (λ at. IfSome (R.to_come «text») (λ text. at ≡ right_until (first_spot Form.Hex) text)) }
{
    let mut input = Decoded::new(text, Form::Hex);
    match input.take(buf) {
        Ok(_) => None,
        Err(_) => match input.fault() {
            InputFault::NotHexadecimal { at } => Some(at),
            _ => None,
        },
    }
}
