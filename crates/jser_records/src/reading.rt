//! One record, as it is read: its KEY, the bytes that its value spells, and what is found of them.
ghost use Rattle.std.specs.Prelude.{◌≡◌, ◌⊎◌, ◌++◌, ◌+◌, ◌<◌, ◌≤◌, ◌^◌, ℕ, List, [], length, take, true, false, Some, None, IfSome, IfOk};
ghost use Rattle.std.specs.Option.{is_some};
ghost use Rattle.jser_inputs.specs.declared.Form.{Form as ToldForm};
ghost use Rattle.jser_inputs.specs.declared.place.Place.TheVariants as Place;
ghost use Rattle.jser_scan.specs.declared.Rules.{Rules as ToldRules};
ghost use Rattle.jser_inputs.specs.Places.{first_place, is_whole, is_wrong};
ghost use Rattle.jser_inputs.specs.Spelled.{spelling_of};
ghost use Rattle.jser_records.specs.Held.{may_pass};
ghost use Rattle.jser_records.specs.Keys.{HasLostKey, HasNoKey};
ghost use Rattle.jser_records.specs.Readings.{AddsKey, Counts, HasLost, HasPlain, HasRead, HasSpelled, IsOfBytes, IsOfDigits, IsPlaced, IsRight, IsWrongIn, KeepsRules};

use crate::answer::Answer;
use crate::judge::Judge;
use crate::key::Key;
use jser_inputs::{Decoder, Form};
use jser_scan::{Found, Rules};
use std::alloc::{AllocError, Global};

/// One record, as it is read.
#[derive(Drop)]
pub(crate) struct Reading<'f> {
    judge: Judge<'f>,
    /// Its KEY.
    pub(crate) key: Key,
    most: u64,
    decoder: Decoder,
    /// How many more bytes are read at most.
    room: u64,
    answer: Option<Answer>,
}

impl<'f> Reading<'f> {
    /// No record so far.
    pub(crate) fn new(alloc: Global, rules: &'f Rules, most: u64) -> Result<Reading<'f>, AllocError>
        ensures rules { IfOk result (λ reading. reading.judge.rules ≡ rules.now) }
        ensures most { IfOk result (λ reading. reading.most ≡ most) }
    {
        let judge = match Judge::new(alloc, rules) {
            Ok(judge) => judge,
            Err(failed) => return Err(failed),
        };
        match Key::new(alloc) {
            Ok(key) => Ok(Reading {
                judge,
                key,
                most,
                decoder: Decoder::new(Form::Binary),
                room: most,
                answer: None,
            }),
            Err(failed) => Err(failed),
        }
    }

    /// Begins the next record, whose value has this form.
    #[tactic(auto, using(crate::proofs::ReadingLemmas::begins, crate::proofs::ReadingLemmas::spells_none))]
    pub(crate) fn begin(&mut self, form: Form)
        ensures has { HasRead self.new [] }
        ensures spelled { HasSpelled self.new form 0 [] }
        ensures open { self.new.answer ≡ None }
        ensures place { self.new.decoder.spot.place ≡ first_place form }
        ensures key { HasNoKey self.new.key }
        ensures rules { KeepsRules self.old self.new }
    {
        self.judge.restart();
        self.key.clear();
        self.decoder = Decoder::new(form);
        self.room = self.most;
        self.answer = None;
    }

    /// Adds to its KEY.
    pub(crate) fn add_key(&mut self, bytes: &[u8])
        ensures { AddsKey self.old self.new bytes.now }
    {
        if !self.key.add(bytes) {
            self.decide(Answer::LongKey);
        }
    }

    /// Its KEY is too long.
    pub(crate) fn lose_key(&mut self)
        ensures rest { self.new ≡ record self.old { key = self.new.key; answer = Some Answer.LongKey } }
        ensures lost { HasLostKey self.new.key }
    {
        self.key.lose();
        self.decide(Answer::LongKey);
    }

    /// Whether it is answered, whatever its value has besides.
    pub(crate) fn is_answered(&self) -> bool
        ensures { result ≡ is_some self.now.answer }
    {
        self.answer.is_some()
    }

    /// Whether it may pass, as far as it is answered.
    pub(crate) fn may_pass(&self) -> bool
        ensures { result ≡ may_pass self.now.answer }
    {
        match &self.answer {
            Some(answer) => answer.passes(),
            None => true,
        }
    }

    /// The answer, whatever was found so far.
    pub(crate) fn decide(&mut self, answer: Answer)
        ensures { self.new ≡ record self.old { answer = Some answer } }
    {
        self.answer = Some(answer);
    }

    /// It has no value: that is the answer, unless there is one.
    pub(crate) fn decide_null(&mut self)
        ensures null { self.old.answer ≡ None → self.new.answer ≡ Some Answer.Null }
        ensures kept { IfSome self.old.answer (λ a. self.new.answer ≡ Some a) }
        ensures rest { self.new ≡ record self.old { answer = self.new.answer } }
    {
        if !self.is_answered() {
            self.decide(Answer::Null);
        }
    }

    /// Its value has so many bytes, none of which came so far: where that is more than are read, that is the answer.
    #[tactic(auto, using(crate::proofs::FrameLemmas::counts_longer, crate::proofs::FrameLemmas::counts_begun))]
    pub(crate) fn limit(&mut self, count: u64)
        ensures counts { (before : List ℕ) → HasPlain self.old before ⊎ HasLost self.old → Counts self.new count before }
        ensures may { may_pass self.new.answer ≡ true → may_pass self.old.answer ≡ true }
        ensures rest { self.new ≡ record self.old { answer = self.new.answer } }
    {
        if count > self.most {
            self.decide(Answer::Longer { most: self.most });
        }
    }

    /// Goes over characters of the value that spell nothing.
    #[tactic(auto, using(crate::proofs::PlaceLemmas::spells_behind))]
    pub(crate) fn skip(&mut self, count: usize)
        ensures rest { self.new ≡ record self.old { decoder = self.new.decoder } }
        ensures spot { self.new.decoder.spot ≡ self.old.decoder.spot }
        ensures spelled { (form : ToldForm) → self.old.answer ≡ None → HasSpelled self.old form 0 [] → HasSpelled self.new form count [] }
    {
        self.decoder.skip(count);
    }

    /// The next characters of the value, which become the bytes that they spell.
    pub(crate) fn spell(&mut self, text: &mut [u8])
        ensures spelled { (form : ToldForm) (mark : ℕ) (before : List ℕ) → IsOfDigits form → length (before ++ text.old) < 2 ^ 63 → HasSpelled self.old form mark before
            → HasSpelled self.new form mark (before ++ text.old) }
        ensures answered { IfSome self.old.answer (λ a. self.new ≡ self.old) }
        ensures rules { KeepsRules self.old self.new }
        ensures key { self.new.key ≡ self.old.key }
    {
        if self.is_answered() {
            return;
        }
        let given = self.decoder.decode(text);
        let (bytes, _) = text.split_at(given);
        self.take(bytes);
        self.look_at_text();
    }

    /// The next bytes of the record.
    #[tactic(auto, using(crate::proofs::ReadingLemmas::took_none))]
    pub(crate) fn take(&mut self, bytes: &[u8])
        ensures has { (taken : List ℕ) → HasRead self.old taken → HasRead self.new (taken ++ bytes.now) }
        ensures answered { IfSome self.old.answer (λ a. self.new ≡ self.old) }
        ensures bytes { IfSome self.old.answer IsOfBytes → IfSome self.new.answer IsOfBytes }
        ensures rules { KeepsRules self.old self.new }
        ensures key { self.new.key ≡ self.old.key }
        ensures decoder { self.new.decoder ≡ self.old.decoder }
    {
        if self.is_answered() {
            return;
        }
        if bytes.len() as u64 <= self.room {
            self.take_all(bytes);
        } else {
            self.take_first(bytes);
        }
    }

    /// The next bytes, for which there is room.
    fn take_all(&mut self, bytes: &[u8])
        requires open { self.old.answer ≡ None }
        requires fits { length bytes.now ≤ self.old.room }
        ensures has { (taken : List ℕ) → HasRead self.old taken → HasRead self.new (taken ++ bytes.now) }
        ensures bytes { IfSome self.new.answer IsOfBytes }
        ensures rules { KeepsRules self.old self.new }
        ensures key { self.new.key ≡ self.old.key }
        ensures decoder { self.new.decoder ≡ self.old.decoder }
    {
        self.room -= bytes.len() as u64;
        if let Some(found) = self.judge.feed(bytes) {
            self.decide(Answer::Checked(found));
        }
    }

    /// The next bytes, for which there is no room: as many as there is room for.
    fn take_first(&mut self, bytes: &[u8])
        requires open { self.old.answer ≡ None }
        requires longer { self.old.room < length bytes.now }
        ensures has { (taken : List ℕ) → HasRead self.old taken → HasRead self.new (taken ++ bytes.now) }
        ensures bytes { IfSome self.new.answer IsOfBytes }
        ensures rules { KeepsRules self.old self.new }
        ensures key { self.new.key ≡ self.old.key }
        ensures decoder { self.new.decoder ≡ self.old.decoder }
    {
        let (first, _) = bytes.split_at(self.room as usize);
        match self.judge.feed(first) {
            Some(found) => self.decide(Answer::Checked(found)),
            None => self.decide(Answer::Longer { most: self.most }),
        }
    }

    /// Where the text has gone wrong, that is the answer.
    #[tactic(auto, using(crate::proofs::ReadingLemmas::unread_right, crate::proofs::PlaceLemmas::wrong_in))]
    fn look_at_text(&mut self)
        ensures has { (taken : List ℕ) → HasRead self.old taken → HasRead self.new taken }
        ensures rest { self.new ≡ record self.old { answer = self.new.answer } }
        ensures kept { IfSome self.old.answer (λ a. self.new.answer ≡ Some a) }
        ensures bytes { self.old.decoder.spot.place ≡ Place.Bytes → self.new ≡ self.old }
        ensures unread { self.old.answer ≡ None → (rules : ToldRules) (most : ℕ) (bytes : List ℕ) → IfSome self.new.answer (λ a. IsRight rules most bytes a) }
        ensures open { self.new.answer ≡ None → (self.old.answer ≡ None) × (is_wrong self.old.decoder.spot.place ≡ false) }
        ensures wrong { self.old.answer ≡ None → IfSome self.new.answer (λ a. IsWrongIn self.old.decoder a) }
    {
        if self.is_answered() {
            return;
        }
        if let Some(fault) = self.decoder.fault() {
            self.decide(Answer::Checked(Found::NotRead(fault)));
        }
    }

    /// The record has ended: its answer.
    pub(crate) fn finish(&mut self) -> Answer
        ensures right { (bytes : List ℕ) → HasRead self.old bytes → IsRight self.old.judge.rules self.old.most bytes result }
        ensures spelled { (form : ToldForm) (mark : ℕ) (text : List ℕ) → HasSpelled self.old form mark text
            → IsRight self.old.judge.rules self.old.most (spelling_of form text) result × IsPlaced form mark text result }
        ensures bytes { self.old.decoder.spot.place ≡ Place.Bytes → IfSome self.old.answer IsOfBytes → IsOfBytes result }
        ensures kept { IfSome self.old.answer (λ a. result ≡ a) }
        ensures rules { KeepsRules self.old self.new }
        ensures key { self.new.key ≡ self.old.key }
    {
        self.decoder.end();
        self.look_at_text();
        match self.answer.take() {
            Some(answer) => answer,
            None => Answer::Checked(self.judge.finish()),
        }
    }
}
