//! The streams that a text spells, one after another.
ghost use Rattle.std.specs.Prelude.{◌≡◌, ◌<◌, ◌≤◌, IfOk, OnErr, Some, length};
ghost use Rattle.jser_find.specs.Spelled.{IsIn, bytes_from};
ghost use Rattle.jser_find.specs.Starts.{IsFirstStart};
ghost use Rattle.jser_find.specs.Texts.{FindsText, IsLongest, IsTextFindAt, ends_group, form_of};

use crate::budget::Budget;
use crate::bytes::place_behind;
use crate::form::Form;
use crate::longest::longest;
use crate::next::Next;
use crate::spot::Digit;
use crate::start::{Start, first_start};
use std::alloc::{AllocError, Global};
use std::marker::Model;

/// A stream that a text spells.
#[derive(Debug, Drop)]
pub struct TextFind {
    /// How it is spelled.
    pub form: Form,
    /// Where the first digit of its header stands.
    pub from: usize,
    /// The place behind the digit that completes its last byte.
    pub to: usize,
    /// The stream. The header alone, of 4 bytes, is a stream of no contents.
    pub stream: Vec<u8>,
}

/// The streams that a text spells in base64 and in hexadecimal, one after another. Contracts see the text, and where the search
/// goes on.
#[derive(Drop)]
pub struct TextFinds<'t> {
    text: &'t [u8],
    most: usize,
    place: usize,
}

impl<'t> Model for TextFinds<'t> {
    ghost use Rattle.std.specs.Prelude.{◌≤◌, length};
    ghost use Rattle.jser_find.specs.Texts.{TextSearch};

    ghost Value = { TextSearch };

    ghost view = { λ a. record { text = a.text.now; most = a.most; place = a.place } };

    ghost invariant = { λ a. a.place ≤ length a.text.now };
}

impl<'t> TextFinds<'t> {
    /// The streams in this text from a place on, of each of which at most `most` bytes are read.
    pub fn new(text: &'t [u8], place: usize, most: usize) -> TextFinds<'t>
        requires { place ≤ length text.now }
        ensures { result ≡ record { text = text.now; most = most; place = place } }
    {
        TextFinds { text, most, place }
    }

    /// The next header outside of the streams before it, with the longest stream that the text spells there and that has at most
    /// `most` bytes, whatever classes it names; or the first header of which the budget is too small to know that. A header may
    /// begin in the last digit of the stream before it, where that has bits of the next byte too.
    ///
    /// It takes the bytes that decide off the budget, as `Finds::next` does.
    ///
    /// # Errors
    ///
    /// `AllocError` where memory ran out. Then the search stays where it is.
    #[tactic(auto, using(crate::proofs::TextLemmas::text_spent, crate::proofs::TextLemmas::no_text_found, crate::proofs::TextLemmas::longest_enough))]
    pub fn next(&mut self, alloc: Global, budget: &mut Budget) -> Result<Next<TextFind>, AllocError>
        ensures finds { IfOk result (FindsText self.old.most self.old.text self.old.place self.new.place budget.old.left budget.new.left) }
        ensures text { IfOk result (λ next. self.new ≡ record self.old { place = self.new.place }) }
        ensures stays { OnErr result ((self.new ≡ self.old) × (budget.new ≡ budget.old)) }
    {
        let start = match first_start(self.text, self.place) {
            Some(start) => start,
            None => return Ok(Next::End),
        };
        let longest = match longest(alloc, self.text, start.reading, self.most, budget.left) {
            Ok(Some(longest)) => longest,
            Ok(None) => {
                budget.left = 0;
                return Ok(Next::Spent(start.from));
            }
            Err(error) => return Err(error),
        };
        budget.left -= longest.read;
        Ok(Next::Found(self.found(start, longest.stream)))
    }

    /// Goes behind this stream, which is at this header.
    #[tactic(auto, using(crate::proofs::TextLemmas::text_found))]
    fn found(&mut self, start: Start, stream: Vec<u8>) -> TextFind
        requires first { IsFirstStart self.old.text self.old.place (Some start) }
        requires inside { IsIn self.old.text start.reading × (start.from < length self.old.text) }
        requires few { length stream.items ≤ length (bytes_from self.old.text start.reading) }
        ensures is { IsLongest self.old.most (bytes_from self.old.text start.reading) stream.items
            → IsTextFindAt self.old.most self.old.text self.old.place self.new.place start result }
        ensures text { self.new ≡ record self.old { place = self.new.place } }
    {
        let to = place_behind(self.text, start.reading, stream.len());
        let behind = if ends_group(start.reading.spot.next, stream.len()) {
            to
        } else {
            to.saturating_sub(1)
        };
        self.place = behind.max(start.from + 1);
        TextFind {
            form: form_of(start.reading.spot.next),
            from: start.from,
            to,
            stream,
        }
    }
}

/// The form of a text of which this digit comes next.
fn form_of(next: Digit) -> Form
    ensures { result ≡ form_of next }
{
    match next {
        Digit::High | Digit::Low(_) => Form::Hexadecimal,
        Digit::First | Digit::Second(_) | Digit::Third(_) | Digit::Fourth(_) => Form::Base64,
    }
}

/// Whether so many bytes of a text end with a whole digit, where their first begins before this one. Three bytes are four digits
/// of base64, so behind any other number of bytes the last digit has bits of the next byte too.
fn ends_group(next: Digit, count: usize) -> bool
    ensures { result ≡ ends_group next count }
{
    match next {
        Digit::High | Digit::Low(_) => true,
        Digit::First | Digit::Second(_) => count % 3 == 0,
        Digit::Third(_) => count % 3 == 2,
        Digit::Fourth(_) => count % 3 == 1,
    }
}
