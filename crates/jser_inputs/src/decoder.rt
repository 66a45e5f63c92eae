//! The bytes that a text spells, piece after piece, each in the place where it lies: for a caller that has the text in a
//! buffer of its own.
ghost use Rattle.std.specs.Prelude.{◌≡◌, ◌≤◌, ◌<◌, ◌+◌, ◌-◌, ◌^◌, length, min, take, if◌then◌else◌};
ghost use Rattle.jser_inputs.specs.Decoding.{ReadsOn, text_fault};
ghost use Rattle.jser_inputs.specs.Places.{first_spot, is_whole};

use crate::decode::decode;
use crate::fault::InputFault;
use crate::form::Form;
use crate::place::{Place, is_whole, is_wrong};
use crate::spot::{Spot, first_spot};
use std::marker::Model;

/// How far a text was read.
#[derive(Debug, Drop)]
pub struct Decoder {
    form: Form,
    spot: Spot,
    at: u64,
}

impl Model for Decoder {
    ghost use Rattle.jser_inputs.specs.Decoding.{TextRead};
    ghost use Rattle.jser_inputs.specs.Places.{Fits};

    ghost Value = { TextRead };

    ghost view = { λ a. record { form = a.form; spot = a.spot; at = a.at } };

    ghost invariant = { λ a. Fits a.spot.place };
}

impl Decoder {
    /// At the beginning of a text of this form.
    pub fn new(form: Form) -> Decoder
        ensures { result ≡ record { form = form; spot = first_spot form; at = 0 } }
    {
        Decoder {
            form,
            spot: first_spot(form),
            at: 0,
        }
    }

    /// Goes over characters that spell nothing, as a mark before the digits.
    pub fn skip(&mut self, count: usize)
        ensures { self.new ≡ record self.old { at = min (self.old.at + count) (2 ^ 64 - 1) } }
    {
        self.at = self.at.saturating_add(count as u64);
    }

    /// Puts the bytes that the next characters spell at the front of them, and returns how many. It stops where the text goes
    /// wrong. So does a text of some 2^64 characters.
    #[tactic(auto, using(crate::proofs::TextLemmas::reads_on))]
    pub fn decode(&mut self, text: &mut [u8]) -> usize
        ensures reads { self.old.spot.spare + length text.old < 2 ^ 64 → ReadsOn self.old self.new text.old (take result text.new) }
        ensures within { result ≤ length text.new }
        ensures size { length text.new ≡ length text.old }
    {
        let count = text.len();
        if self.spot.spare > u64::MAX - count as u64 {
            self.spot.place = Place::Wrong;
            return 0;
        }
        let piece = decode(self.spot, text, count);
        self.spot = piece.spot;
        self.at = self.at.saturating_add(piece.taken as u64);
        piece.given
    }

    /// The text has ended. Where it may not end here, it is wrong.
    pub fn end(&mut self)
        ensures { self.new ≡ (if is_whole self.old.spot.place then self.old else record self.old { spot = record self.old.spot { place = Place.Wrong } }) }
    {
        if !is_whole(self.spot.place) {
            self.spot.place = Place::Wrong;
        }
    }

    /// Why the text is not of its form, if it is not.
    pub fn fault(&self) -> Option<InputFault>
        ensures { result ≡ text_fault self.now }
    {
        if !is_wrong(self.spot.place) {
            return None;
        }
        Some(match self.form {
            Form::Binary => InputFault::Failed,
            Form::Hex => InputFault::NotHexadecimal { at: self.at },
            Form::Base64 | Form::Base64Url => InputFault::NotBase64 { at: self.at },
        })
    }
}
