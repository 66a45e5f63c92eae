//! Text places, of the name of an enum constant and the type of a field, which are new strings or references to
//! strings; and what comes after a text.
ghost use Rattle.std.specs.Prelude.{◌≡◌, ℕ, true, List, None};
ghost use Rattle.jser_reading.specs.TokensFromBytes.{tag_from};
ghost use Rattle.jser_reading.specs.Goals.{settle};
ghost use Rattle.jser_reader.specs.Readers.{IsForm, IsInside, moment_of, text_rest};
ghost use Rattle.jser_reader.specs.Handlers.{Tells, TellsSurely, IsNext};
ghost use Rattle.jser_reader.specs.TextStates.{text_tag_reason, handle_reason, after_text_tag, EndsText, text_reason, after_text};

use crate::gate::Gate;
use crate::machine::Machine;
use crate::machine::flow::Flow;
use crate::phase::{Phase, TextFor};
use crate::refusal::Reason;
use jser_grammar::wire::{TC_LONGSTRING, TC_REFERENCE, TC_STRING};

impl Machine {
    /// A tag in a text place.
    #[tactic(auto, using(crate::proofs::TextLemmas::text_reference, crate::proofs::TextLemmas::short_text, crate::proofs::TextLemmas::long_text, crate::proofs::TextLemmas::no_text_tag))]
    pub(super) fn text_tag(&mut self, byte: u8) -> Flow
        ensures { IsForm self.old.text true → IsInside self.old.text self.old.frames
            → Tells (text_tag_reason self.old byte) (after_text_tag self.old (tag_from byte)) result self.old self.new }
    {
        match byte {
            TC_REFERENCE => self.done(Phase::TextHandle),
            TC_STRING => self.new_text(self.text, false),
            TC_LONGSTRING => self.new_text(self.text, true),
            _ => self.refuse(Reason::BadTag),
        }
    }

    /// The text of a text place has ended.
    #[tactic(auto, using(crate::proofs::TextLemmas::constant_named, crate::proofs::TextLemmas::type_named))]
    fn place_done(&mut self) -> Flow
        ensures { IsForm self.old.text true → IsInside self.old.text self.old.frames
            → TellsSurely None (settle (moment_of self.old) (text_rest self.old self.old.text)) result self.old self.new }
    {
        if self.text == TextFor::FieldType {
            return self.fields_done();
        }
        self.ended()
    }

    /// The handle of a reference in a text place.
    #[tactic(auto, using(crate::proofs::TextLemmas::wrong_text, crate::proofs::TextLemmas::right_text))]
    pub(super) fn text_handle(&mut self, n: u32) -> Flow
        ensures { IsForm self.old.text true → IsInside self.old.text self.old.frames
            → TellsSurely (handle_reason self.old n) (settle (moment_of self.old) (text_rest self.old self.old.text)) result self.old self.new }
    {
        match self.text_fault(n) {
            Some(reason) => self.refuse(reason),
            None => self.place_done(),
        }
    }

    /// A text place comes next, of the type of the field whose name has been read.
    pub(super) fn next_type(&mut self) -> Flow
        ensures next { IsNext Phase.TextTag self.old.owner self.old.elements self.old.header TextFor.FieldType self.old self.new }
        ensures result { result ≡ Flow.On }
    {
        self.text = TextFor::FieldType;
        self.done(Phase::TextTag)
    }

    /// The text has ended whose bytes are being read, and all of them have been counted: mostly it is a string.
    #[tactic(auto, using(crate::proofs::TextLemmas::value_ends))]
    #[inline(always)]
    pub(super) fn text_ended<G: Gate>(&mut self, gate: &G) -> Flow
        ensures { (units : List ℕ) → EndsText self.old units → TellsSurely (text_reason (G.told gate.now) self.old units) (after_text self.old units) result self.old self.new }
    {
        if self.text == TextFor::Value {
            return self.ended();
        }
        self.text_done(gate)
    }

    /// A text that is no string has ended, and all its bytes have been counted.
    #[inline(never)]
    pub(super) fn text_done<G: Gate>(&mut self, gate: &G) -> Flow
        ensures { (units : List ℕ) → EndsText self.old units → TellsSurely (text_reason (G.told gate.now) self.old units) (after_text self.old units) result self.old self.new }
    {
        self.text_done_in_line(gate)
    }

    /// A text that is no string has ended; what comes after it is found in line.
    #[inline(always)]
    #[tactic(auto, using(crate::proofs::TextLemmas::value_ends, crate::proofs::TextLemmas::type_ends, crate::proofs::TextLemmas::object_field_named, crate::proofs::TextLemmas::field_named, crate::proofs::TextLemmas::class_name_ends, crate::proofs::TextLemmas::interface_name_ends))]
    pub(super) fn text_done_in_line<G: Gate>(&mut self, gate: &G) -> Flow
        ensures { (units : List ℕ) → EndsText self.old units → TellsSurely (text_reason (G.told gate.now) self.old units) (after_text self.old units) result self.old self.new }
    {
        match self.text {
            TextFor::Value => self.ended(),
            TextFor::FieldType => self.fields_done(),
            TextFor::FieldName(true) => self.next_type(),
            TextFor::FieldName(false) => self.fields_done(),
            TextFor::ClassName => self.class_name(gate),
            TextFor::InterfaceName => self.interface_name(gate),
        }
    }
}
