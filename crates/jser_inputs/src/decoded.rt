//! A source of the bytes that the text of another source spells.
ghost use Rattle.std.specs.Prelude.{◌≡◌, ◌≢◌, ◌⊎◌, ◌≤◌, ◌<◌, IfOk, IfSome, OnOk, OnErr, Ok, None, length, take, true, false, option_map};
ghost use Rattle.std.specs.Io.KnownBytes.{Consumes, IsAtEnd, Keeps, ReadConsumes};
ghost use Rattle.jser_inputs.specs.Decoding.{bytes_to_come, right_in, fault_in, misspelled, HasCause, KeepsNumber};
ghost use Rattle.jser_inputs.specs.Places.{first_spot, is_whole, is_wrong};
ghost use Rattle.jser_inputs.specs.Spelled.{right_until, spelling_of};

use crate::decode::decode;
use crate::fault::{Input, InputFault};
use crate::form::Form;
use crate::place::{Place, is_whole, is_wrong};
use crate::spot::{Spot, first_spot};
use jser_prim::{Failed, Source};
use std::marker::Model;

/// The bytes that the text of another source spells. Where the text is not of its form, it gives the bytes that come
/// before that place, and then fails.
///
/// It keeps none of the text, and takes no memory.
#[derive(Drop)]
pub struct Decoded<R: Source> {
    text: R,
    form: Form,
    spot: Spot,
    at: u64,
    failed: bool,
}

impl<R: Source> Model for Decoded<R> {
    ghost use Rattle.jser_inputs.specs.Decoding.{Decoding};
    ghost use Rattle.jser_inputs.specs.Places.{Fits};

    ghost Value = { Decoding };

    ghost view = { λ a. record { form = a.form; text = R.to_come a.text; text_failed = R.has_failed a.text; spot = a.spot; at = a.at; has_failed = a.failed } };

    ghost invariant = { λ a. Fits a.spot.place };
}

impl<R: Source> Decoded<R> {
    /// A source of the bytes that the text of `text` spells in this form.
    pub fn new(text: R, form: Form) -> Decoded<R>
        ensures bytes { bytes_to_come result ≡ option_map (spelling_of form) (R.to_come «text») }
        ensures failed { result.has_failed ≡ false }
        ensures begins { (result.form ≡ form) × (result.at ≡ 0) }
        ensures right { right_in result ≡ option_map (right_until (first_spot form)) (R.to_come «text») }
    {
        Decoded {
            text,
            form,
            spot: first_spot(form),
            at: 0,
            failed: false,
        }
    }

    /// Remembers that a call fails.
    fn fail(&mut self) -> Failed
        ensures { self.new ≡ record self.old { has_failed = true } }
    {
        self.failed = true;
        Failed
    }

    /// One read of the text, whose characters become bytes: how many. `None` where they complete none.
    #[tactic(auto, using(crate::proofs::TurnLemmas::keeps_bytes, crate::proofs::TurnLemmas::keeps_number, crate::proofs::TurnLemmas::same_bytes, crate::proofs::TurnLemmas::same_number, crate::proofs::TurnLemmas::gives_bytes, crate::proofs::TurnLemmas::gives_none, crate::proofs::TurnLemmas::counts_on, crate::proofs::TurnLemmas::ends_whole, crate::proofs::TurnLemmas::ends_bytes, crate::proofs::TurnLemmas::ends_wrong, crate::proofs::TurnLemmas::ends_number))]
    fn turn(&mut self, buf: &mut [u8]) -> Result<Option<usize>, Failed>
        requires { 0 < length buf.old }
        ensures bytes { IfOk result (λ given. IfSome given (λ count. Consumes (bytes_to_come self.old) (bytes_to_come self.new) (take count buf.new))) }
        ensures within { IfOk result (λ given. IfSome given (λ count. count ≤ length buf.new)) }
        ensures end { IfOk result (λ given. IfSome given (λ count. count ≡ 0 → IsAtEnd (bytes_to_come self.new))) }
        ensures none { result ≡ Ok None → Keeps (bytes_to_come self.old) (bytes_to_come self.new) }
        ensures kept { OnErr result (Keeps (bytes_to_come self.old) (bytes_to_come self.new)) }
        ensures ok { OnOk result (self.new.has_failed ≡ self.old.has_failed) }
        ensures err { OnErr result (self.new.has_failed ≡ true) }
        ensures cause { OnErr result (HasCause self.new (length buf.new)) }
        ensures wrong { is_wrong self.old.spot.place ≡ true → result ≢ Ok None }
        ensures moves { result ≡ Ok None → (is_wrong self.new.spot.place ≡ true) ⊎ (self.old.at < self.new.at) }
        ensures place { KeepsNumber (right_in self.old) (right_in self.new) }
        ensures form { self.new.form ≡ self.old.form }
        ensures size { length buf.new ≡ length buf.old }
    {
        let most = u64::MAX - buf.len() as u64;
        if is_wrong(self.spot.place) || self.at > most || self.spot.spare > most {
            return Err(self.fail());
        }
        let count = match self.text.take(buf) {
            Ok(count) => count,
            Err(_) => return Err(self.fail()),
        };
        if count == 0 {
            return match self.end() {
                Ok(()) => Ok(Some(0)),
                Err(failed) => Err(failed),
            };
        }
        let piece = decode(self.spot, buf, count);
        self.spot = piece.spot;
        self.at += piece.taken as u64;
        if piece.given == 0 {
            Ok(None)
        } else {
            Ok(Some(piece.given))
        }
    }

    /// The text has ended.
    fn end(&mut self) -> Result<(), Failed>
        ensures whole { OnOk result ((self.new ≡ self.old) × (is_whole self.old.spot.place ≡ true)) }
        ensures cut { OnErr result ((self.new ≡ record self.old { spot = record self.old.spot { place = Place.Wrong }; has_failed = true }) × (is_whole self.old.spot.place ≡ false)) }
    {
        if is_whole(self.spot.place) {
            return Ok(());
        }
        self.spot.place = Place::Wrong;
        Err(self.fail())
    }
}

impl<R: Source> Source for Decoded<R> {
    ghost to_come = { λ s. bytes_to_come s };

    ghost has_failed = { λ s. s.has_failed };

    #[tactic(auto, using(crate::proofs::TurnLemmas::same_bytes, crate::proofs::TurnLemmas::same_number, crate::proofs::TurnLemmas::keeps_all, crate::proofs::TurnLemmas::keeps_consumes, crate::proofs::TurnLemmas::keeps_count))]
    fn take(&mut self, buf: &mut [u8]) -> Result<usize, Failed>
        ensures within { IfOk result (λ count. count ≤ length buf.new) }
        ensures bytes { ReadConsumes (bytes_to_come self.old) (bytes_to_come self.new) result buf.new }
        ensures ok { OnOk result (self.new.has_failed ≡ self.old.has_failed) }
        ensures err { OnErr result (self.new.has_failed ≡ true) }
        ensures cause { OnErr result (HasCause self.new (length buf.new)) }
        ensures place { KeepsNumber (right_in self.old) (right_in self.new) }
        ensures form { self.new.form ≡ self.old.form }
    {
        if buf.is_empty() {
            return Ok(0);
        }
        'turns: for turns in 0..u64::MAX {
            let _ = turns;
            match self.turn(buf) {
                Ok(Some(count)) => return Ok(count),
                Ok(None) => {}
                Err(failed) => return Err(failed),
            }
        }
        Err(self.fail())
    }

    fn failed(&self) -> bool {
        self.failed
    }
}

impl<R: Source> Input for Decoded<R> {
    ghost why_failed = { λ s. fault_in s };

    fn fault(&self) -> InputFault {
        if !is_wrong(self.spot.place) {
            return InputFault::Failed;
        }
        match self.form {
            Form::Binary => InputFault::Failed,
            Form::Hex => InputFault::NotHexadecimal { at: self.at },
            Form::Base64 | Form::Base64Url => InputFault::NotBase64 { at: self.at },
        }
    }
}
