//! The record that is read, and the bytes that came of it, where these may be handed on.
ghost use Rattle.std.specs.Prelude.{◌≡◌, ◌⊎◌, ◌++◌, ◌<◌, ◌^◌, ℕ, List, [], length, map, true, false, Some, None, IfOk, IfSome};
ghost use Rattle.jser_inputs.specs.declared.Form.{Form as ToldForm};
ghost use Rattle.jser_inputs.specs.Places.{first_place};
ghost use Rattle.jser_records.specs.Held.{Holds, HoldsMore, HoldsSame, Keeps, may_pass, passes};
ghost use Rattle.jser_records.specs.Keys.{HasNoKey, KeepsKey};
ghost use Rattle.jser_records.specs.Readings.{Came, Counts, HasRead, HasSpelled, IsFor, IsOfDigits, KeepsRules};
ghost use Rattle.jser_records.specs.Readings.{Value as ToldValue};
ghost use Rattle.jser_records.specs.Texts.{blanked, characters_in, without_space};

use crate::answer::Answer;
use crate::inbox::ROOM;
use crate::layout::Spelling;
use crate::reading::Reading;
use crate::sign::{Sign, signs_of};
use jser_inputs::Form;
use jser_scan::{Found, Rules, is_plain};
use memchr::memchr;
use std::alloc::{AllocError, Global};

/// The record that is read.
#[derive(Drop)]
pub(crate) struct Record<'f> {
    alloc: Global,
    passes: bool,
    /// Its KEY, and what is found of its value.
    pub(crate) reading: Reading<'f>,
    held: Vec<u8>,
    /// The text that becomes bytes.
    text: Vec<u8>,
}

/// What is answered of a record that has ended.
#[derive(Drop)]
pub(crate) struct Ended {
    /// The signs of its KEY, if they are printed.
    pub(crate) signs: Vec<Sign>,
    /// The answer.
    pub(crate) answer: Answer,
}

impl<'f> Record<'f> {
    /// No record so far. Its bytes are kept where they may be handed on.
    pub(crate) fn new(
        alloc: Global,
        rules: &'f Rules,
        passes: bool,
        most: u64,
    ) -> Result<Record<'f>, AllocError>
        ensures rules { IfOk result (λ made. made.reading.judge.rules ≡ rules.now) }
        ensures most { IfOk result (λ made. made.reading.most ≡ most) }
        ensures passes { IfOk result (λ made. made.passes ≡ passes) }
    {
        match Reading::new(alloc, rules, most) {
            Ok(reading) => Record::over(alloc, reading, passes),
            Err(failed) => Err(failed),
        }
    }

    /// A record that is read by this reading, with room for the text of its value.
    fn over(alloc: Global, reading: Reading<'f>, passes: bool) -> Result<Record<'f>, AllocError>
        ensures reading { IfOk result (λ made. made.reading ≡ reading.entry) }
        ensures passes { IfOk result (λ made. made.passes ≡ passes) }
    {
        match Vec::with_capacity(alloc, ROOM) {
            Ok(text) => Ok(Record {
                alloc,
                passes,
                reading,
                held: Vec::new(alloc),
                text,
            }),
            Err(failed) => Err(failed),
        }
    }

    /// Begins the next record.
    #[tactic(auto, using(crate::proofs::HeldLemmas::keeps_rules))]
    pub(crate) fn begin(&mut self, form: Form)
        ensures has { HasRead self.new.reading [] }
        ensures spelled { HasSpelled self.new.reading form 0 [] }
        ensures open { self.new.reading.answer ≡ None }
        ensures place { self.new.reading.decoder.spot.place ≡ first_place form }
        ensures key { HasNoKey self.new.reading.key }
        ensures keeps { Keeps self.old self.new }
        ensures held { Holds self.new [] }
    {
        self.held.clear();
        self.reading.begin(form);
    }

    /// Keeps bytes of the record, as they came, as long as it may be handed on.
    #[tactic(auto, using(crate::proofs::HeldLemmas::keeps_held, crate::proofs::HeldLemmas::holds_off, crate::proofs::HeldLemmas::holds_refused))]
    pub(crate) fn hold(&mut self, bytes: &[u8])
        ensures refused { may_pass self.old.reading.answer ≡ false → self.new.reading ≡ self.old.reading }
        ensures kept { (self.new.reading ≡ self.old.reading) ⊎ (self.new.reading ≡ record self.old.reading { answer = Some (Answer.Checked Found.OutOfMemory) }) }
        ensures keeps { Keeps self.old self.new }
        ensures held { HoldsMore self.old self.new bytes.now }
    {
        if !self.passes {
            return;
        }
        if !self.reading.may_pass() {
            self.held.clear();
        } else if self.held.extend_from_slice(bytes).is_err() {
            self.held.clear();
            self.reading.decide(Answer::Checked(Found::OutOfMemory));
        }
    }

    /// Takes more bytes of the value, as they are.
    #[tactic(auto, using(crate::proofs::HeldLemmas::keeps_rules, crate::proofs::HeldLemmas::keeps_both))]
    pub(crate) fn take(&mut self, bytes: &[u8])
        ensures counts { (total : ℕ) (before : List ℕ) → Counts self.old.reading total before → Counts self.new.reading total (before ++ bytes.now) }
        ensures keeps { Keeps self.old self.new }
        ensures held { HoldsMore self.old self.new bytes.now }
        ensures key { self.new.reading.key ≡ self.old.reading.key }
    {
        self.hold(bytes);
        self.reading.take(bytes);
    }

    /// Takes more characters of the value, which become the bytes that they spell.
    #[tactic(auto, using(crate::proofs::HeldLemmas::keeps_rules, crate::proofs::HeldLemmas::holds_answered))]
    pub(crate) fn spell(&mut self, spelling: Spelling, text: &[u8])
        ensures spelled { (mark : ℕ) (before : List ℕ) → IsOfDigits spelling.form → length (before ++ text.now) < 2 ^ 63 → HasSpelled self.old.reading spelling.form mark before
            → HasSpelled self.new.reading spelling.form mark (before ++ characters_in spelling.copy text.now) }
        ensures answered { IfSome self.old.reading.answer (λ a. self.new.reading ≡ self.old.reading) }
        ensures key { self.new.reading.key ≡ self.old.reading.key }
        ensures keeps { Keeps self.old self.new }
        ensures held { HoldsSame self.old self.new }
    {
        if self.reading.is_answered() {
            return;
        }
        self.text.clear();
        if self.text.extend_from_slice(text).is_err() {
            self.reading.decide(Answer::Checked(Found::OutOfMemory));
            return;
        }
        spell_over(&mut self.reading, spelling, self.text.as_mut_slice());
    }

    /// The bytes that were kept.
    pub(crate) fn held(&self) -> &[u8]
        ensures { result.now ≡ self.now.held.items }
    {
        self.held.as_slice()
    }

    /// The record has ended: its answer. Where there is no memory for the signs of its KEY, that is the answer, and it has no KEY.
    #[tactic(auto, using(crate::proofs::HeldLemmas::finished_passes, crate::proofs::HeldLemmas::keeps_rules, crate::proofs::ReadingLemmas::finish_for))]
    pub(crate) fn finish(&mut self, json: bool) -> Ended
        ensures held { self.new.held.items ≡ self.old.held.items }
        ensures right { (value : ToldValue) → Came self.old.reading value → IsFor self.old.reading.judge.rules self.old.reading.most self.new.reading.key.is_lost value result.answer }
        ensures passes { passes result.answer ≡ true → may_pass self.old.reading.answer ≡ true }
        ensures key { KeepsKey self.old.reading.key self.new.reading.key result.answer }
        ensures keeps { Keeps self.old self.new }
    {
        let answer = self.reading.finish();
        match self.signs(json) {
            Ok(signs) => Ended { signs, answer },
            Err(_) => {
                self.reading.key.clear();
                Ended {
                    signs: Vec::new(self.alloc),
                    answer: Answer::Checked(Found::OutOfMemory),
                }
            }
        }
    }

    /// The signs of the KEY, if they are printed.
    fn signs(&self, json: bool) -> Result<Vec<Sign>, AllocError> {
        let bytes = self.reading.key.bytes();
        if json || !is_plain(bytes) {
            signs_of(self.alloc, bytes)
        } else {
            Ok(Vec::new(self.alloc))
        }
    }
}

/// Takes more characters, in room where they become the bytes that they spell.
fn spell_over(reading: &mut Reading<'_>, spelling: Spelling, text: &mut [u8])
    ensures spelled { (mark : ℕ) (before : List ℕ) → IsOfDigits spelling.form → length (before ++ text.old) < 2 ^ 63 → HasSpelled reading.old spelling.form mark before
        → HasSpelled reading.new spelling.form mark (before ++ characters_in spelling.copy text.old) }
    ensures answered { IfSome reading.old.answer (λ a. reading.new ≡ reading.old) }
    ensures key { reading.new.key ≡ reading.old.key }
    ensures rules { KeepsRules reading.old reading.new }
{
    write_over(spelling.copy, text);
    reading.spell(text);
}

/// Writes over the characters of a value that the decoder is to take otherwise: white space becomes a NUL, which is no digit, and
/// `\n` of two characters white space, where it is passed over.
fn write_over(copy: bool, text: &mut [u8])
    ensures { text.new ≡ characters_in copy text.old }
{
    refuse_space(text);
    if copy {
        blank_line_feeds(text);
    }
}

/// Writes a NUL over each character of white space.
fn refuse_space(text: &mut [u8])
    ensures { text.new ≡ map without_space text.old }
{
    for character in text.iter_mut() {
        *character = without_space(*character);
    }
}

/// A character, or a NUL for one of white space.
fn without_space(character: u8) -> u8
    ensures { result ≡ without_space character }
{
    match character {
        b' ' | b'\t' | b'\n' | b'\r' => 0,
        _ => character,
    }
}

/// Writes spaces over each `\n` of two characters: the decoder passes over both.
fn blank_line_feeds(text: &mut [u8])
    ensures { text.new ≡ blanked text.old }
{
    if memchr(b'\\', text).is_none() {
        return;
    }
    let mut at = 0;
    'marks: while at + 1 < text.len() {
        if text[at] == b'\\' && text[at + 1] == b'n' {
            text[at] = b' ';
            text[at + 1] = b' ';
        }
        at += 1;
    }
}
