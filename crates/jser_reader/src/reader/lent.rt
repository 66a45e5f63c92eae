//! Values that are lent at once: a reference with its handle, a string with its text, and the beginning of what has a
//! class, where that is a reference; where all these bytes are in the piece.
ghost use Rattle.std.specs.Prelude.{◌≡◌, ◌<◌, get_or, length};
ghost use Rattle.jser_grammar.specs.Wire.{TC_REFERENCE, TC_STRING};
ghost use Rattle.jser_verdict.specs.Gates.{Gate as ToldGate, IsGate};
ghost use Rattle.jser_reader.specs.Passes.{CanPass};
ghost use Rattle.jser_reader.specs.Tags.{view_tag};
ghost use Rattle.jser_reader.specs.Wholes.{IsPlace, HasPlace, HasReference, tag_of_owner};
ghost use Rattle.jser_reader.specs.WholesTold.{LentCases, OwnerCases};
ghost use Rattle.jser_reading.specs.TokenBytes.{tag_byte};

use crate::frame::Owner;
use crate::gate::Gate;
use crate::item::Whole;
use crate::machine::flow::Flow;
use crate::machine::wholes::{number_after, reference_after, text_after, text_in};
use crate::phase::Phase;
use crate::reader::Reader;
use jser_grammar::wire::{TC_ARRAY, TC_CLASS, TC_ENUM, TC_OBJECT, TC_REFERENCE, TC_STRING};

impl<G: Gate> Reader<G> {
    /// Takes a reference, its tag and its handle, and lends the handle; or does nothing.
    #[inline(always)]
    fn lend_reference<'p>(&mut self, piece: &'p [u8]) -> Lent<'p>
        requires can { CanPass self.old.machine piece.now }
        requires place { IsPlace self.old.machine.phase }
        requires tag { TC_REFERENCE ≡ get_or piece.now 0 0 }
        ensures tells { (gate : ToldGate) → IsGate gate → LentCases gate piece.now result self.old.machine self.old.tally self.new.machine self.new.tally }
        ensures gate { self.new.gate ≡ self.old.gate }
    {
        let Some(n) = number_after(piece) else {
            return Lent::Nothing;
        };
        if !self.machine.is_assigned(n) {
            return Lent::Nothing;
        }
        if !self.machine.has_place() {
            return Lent::Nothing;
        }
        self.machine.count(&mut self.tally, TC_REFERENCE);
        self.machine.begin_place(5);
        self.machine.ended_in_line();
        Lent::Value(Whole::Reference(n))
    }

    /// Takes a string, its tag, its length and its text, and lends the bytes of the text; or does nothing.
    #[inline(always)]
    fn lend_string<'p>(&mut self, piece: &'p [u8]) -> Lent<'p>
        requires can { CanPass self.old.machine piece.now }
        requires place { IsPlace self.old.machine.phase }
        requires tag { TC_STRING ≡ get_or piece.now 0 0 }
        ensures tells { (gate : ToldGate) → IsGate gate → LentCases gate piece.now result self.old.machine self.old.tally self.new.machine self.new.tally }
        ensures gate { self.new.gate ≡ self.old.gate }
    {
        let Some(len) = text_after(piece) else {
            return Lent::Nothing;
        };
        if !self.machine.has_place() {
            return Lent::Nothing;
        }
        if !self.machine.assign_text() {
            return Lent::Nothing;
        }
        self.machine.count(&mut self.tally, TC_STRING);
        self.machine.begin_place(len as u64 + 3);
        self.machine.ended_in_line();
        Lent::Value(Whole::String(text_in(piece, len)))
    }

    /// Takes the tag of what has a class, and the reference that is its class: its handle is `n`.
    #[inline(always)]
    fn lend_class(&mut self, piece: &[u8], owner: Owner, n: u32) -> Flow
        requires can { CanPass self.old.machine piece.now }
        requires place { IsPlace self.old.machine.phase }
        requires tag { tag_byte (view_tag (tag_of_owner owner)) ≡ get_or piece.now 0 0 }
        requires class { HasReference piece.now n }
        requires room { HasPlace self.old.machine }
        ensures tells { (gate : ToldGate) → IsGate gate → OwnerCases gate piece.now (get_or piece.now 0 0) n result self.old.machine self.old.tally self.new.machine self.new.tally }
        ensures gate { self.new.gate ≡ self.old.gate }
    {
        self.machine.count(&mut self.tally, piece[0]);
        self.machine.begin_class_reference(owner);
        self.machine.class_handle(n)
    }

    /// Takes the beginning of what has a class, where that is a reference.
    #[inline(always)]
    fn lend_owner<'p>(&mut self, piece: &'p [u8], owner: Owner) -> Lent<'p>
        requires can { CanPass self.old.machine piece.now }
        requires place { IsPlace self.old.machine.phase }
        requires tag { tag_byte (view_tag (tag_of_owner owner)) ≡ get_or piece.now 0 0 }
        ensures tells { (gate : ToldGate) → IsGate gate → LentCases gate piece.now result self.old.machine self.old.tally self.new.machine self.new.tally }
        ensures gate { self.new.gate ≡ self.old.gate }
    {
        let Some(class) = reference_after(piece) else {
            return Lent::Nothing;
        };
        if !self.machine.has_place() {
            return Lent::Nothing;
        }
        let tag = piece[0];
        match self.lend_class(piece, owner, class) {
            Flow::On => Lent::Value(Whole::Owner { tag, class }),
            Flow::Stopped => Lent::Stopped,
        }
    }

    /// Takes a value that comes next, where all its bytes are at the front of the piece, and lends it: a reference, a string of less
    /// than 64 KiB, or the beginning of what has a class, where that is a reference. It is taken in one step, as if `next` lent its
    /// items one after another. Where something else comes next, or not all of these bytes are there, nothing is done; so too where a
    /// reference or a string is refused or memory runs out.
    #[inline(always)]
    pub(super) fn lend_whole<'p>(&mut self, piece: &'p [u8]) -> Lent<'p>
        ensures tells { (gate : ToldGate) → IsGate gate → LentCases gate piece.now result self.old.machine self.old.tally self.new.machine self.new.tally }
        ensures gate { self.new.gate ≡ self.old.gate }
    {
        if piece.is_empty() || !self.machine.has_room(piece) {
            return Lent::Nothing;
        }
        match self.machine.phase() {
            Phase::Value | Phase::Top | Phase::Note => self.lend_value(piece),
            _ => Lent::Nothing,
        }
    }

    /// Takes a value that is lent at once, where a content or a value comes next, or does nothing.
    #[inline(always)]
    fn lend_value<'p>(&mut self, piece: &'p [u8]) -> Lent<'p>
        requires can { CanPass self.old.machine piece.now }
        requires place { IsPlace self.old.machine.phase }
        requires some { 0 < length piece.now }
        ensures tells { (gate : ToldGate) → IsGate gate → LentCases gate piece.now result self.old.machine self.old.tally self.new.machine self.new.tally }
        ensures gate { self.new.gate ≡ self.old.gate }
    {
        match piece[0] {
            TC_REFERENCE => self.lend_reference(piece),
            TC_STRING => self.lend_string(piece),
            TC_OBJECT => self.lend_owner(piece, Owner::Object),
            TC_ARRAY => self.lend_owner(piece, Owner::Array),
            TC_ENUM => self.lend_owner(piece, Owner::EnumConst),
            TC_CLASS => self.lend_owner(piece, Owner::ClassObject),
            _ => Lent::Nothing,
        }
    }
}

/// What is lent at once.
#[derive(Clone, Copy)]
pub(super) enum Lent<'p> {
    /// A value.
    Value(Whole<'p>),
    /// Nothing; nothing was done.
    Nothing,
    /// Nothing; the machine has stopped.
    Stopped,
}
