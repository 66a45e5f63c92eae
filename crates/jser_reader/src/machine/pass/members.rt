//! Declared fields of a descriptor of which all bytes are in the piece: the type code, the name, and the type where that is a
//! reference, in one step; a type that is a new string in another. As many as come are taken one after another, or one is lent.
ghost use Rattle.std.specs.Prelude.{◌≡◌, ◌+◌, ◌^◌, ◌<◌, ◌≤◌, true, false, get_or, length, IfSome, Some};
ghost use Rattle.jser_table.specs.Codes.{is_object_code};
ghost use Rattle.jser_verdict.specs.Gates.{Gate as ToldGate};
ghost use Rattle.jser_reader.specs.Passes.{Passes, CanPass};
ghost use Rattle.jser_reader.specs.Takes.{farther};
ghost use Rattle.jser_reader.specs.Wholes.{AssignsText, HasText};
ghost use Rattle.jser_reader.specs.FieldsTold.{FieldCases};
ghost use Rattle.jser_reader.specs.Members.{BeginsMember, HasType, MemberCases};

use crate::item::Field;
use crate::machine::Machine;
use crate::machine::fields::is_object_code;
use crate::machine::wholes::{number_after, plain_text_after, size_of_field, text_in};
use crate::phase::{Phase, TextFor};
use crate::tally::Tally;
use jser_grammar::wire::{TC_REFERENCE, TC_STRING};

impl Machine {
    /// The handle of the reference at the front of the piece, where that is one to a string and all its bytes are there.
    #[inline(always)]
    fn type_here(&self, piece: &[u8]) -> Option<u32>
        ensures { IfSome result (λ n. HasType piece.now n self.now) }
    {
        let Some(n) = number_after(piece) else {
            return None;
        };
        if piece[0] != TC_REFERENCE || self.text_fault(n).is_some() {
            return None;
        }
        Some(n)
    }

    /// Keeps the type code of a field, where it may stand there and there is memory for it; or does nothing.
    #[inline(always)]
    fn begin_member(&mut self, code: u8, is_object: bool) -> bool
        requires { is_object ≡ is_object_code code }
        ensures begins { result ≡ true → BeginsMember code is_object self.old self.new }
        ensures nothing { result ≡ false → self.new ≡ self.old }
    {
        if self.code_fault(code).is_some() {
            return false;
        }
        self.fields.push(code, is_object).is_ok()
    }

    /// Takes a field of a descriptor, where it is whole in the piece, and lends it; or does nothing. Its type is taken too, where it is
    /// a reference that is whole in the piece.
    #[inline(always)]
    fn whole_member<'p>(&mut self, piece: &'p [u8]) -> Option<Field<'p>>
        requires can { CanPass self.old piece.now }
        requires phase { self.old.phase ≡ Phase.TypeCode }
        ensures { FieldCases piece.now result self.old self.new }
    {
        let Some(len) = plain_text_after(piece) else {
            return None;
        };
        let code = piece[0];
        let name = text_in(piece, len);
        if !is_object_code(code) {
            if !self.begin_member(code, false) {
                return None;
            }
            self.at += len as u64 + 3;
            self.fields_done();
            return Some(Field {
                code,
                name,
                type_handle: None,
            });
        }
        let (_, rest) = piece.split_at(len + 3);
        let Some(handle) = self.type_here(rest) else {
            if !self.begin_member(code, true) {
                return None;
            }
            self.at += len as u64 + 3;
            self.next_type();
            return Some(Field {
                code,
                name,
                type_handle: None,
            });
        };
        if !self.begin_member(code, true) {
            return None;
        }
        self.at += len as u64 + 8;
        self.fields_done();
        Some(Field {
            code,
            name,
            type_handle: Some(handle),
        })
    }

    /// Takes a declared field that comes next, where it is whole in the piece, and lends it; or does nothing.
    #[inline(always)]
    pub(crate) fn lend_field<'p>(&mut self, piece: &'p [u8]) -> Option<Field<'p>>
        ensures { FieldCases piece.now result self.old self.new }
    {
        if self.phase != Phase::TypeCode || !self.has_room(piece) {
            return None;
        }
        self.whole_member(piece)
    }

    /// So many bytes more were taken.
    #[inline(always)]
    fn go_farther(&mut self, size: u64)
        requires { self.old.meter.at + size < 2 ^ 64 }
        ensures { self.new ≡ farther self.old size }
    {
        self.at += size;
    }

    /// Assigns the handle of a type that is a new string; or does nothing. Most types are references, so this is out of line.
    #[inline(never)]
    fn assign_type(&mut self) -> bool
        ensures { AssignsText result self.old self.new }
    {
        self.assign_text()
    }

    /// Takes the type of a field, where it is a new string that is whole in the piece, each byte of it a unit; or does
    /// nothing.
    #[inline(always)]
    fn whole_type(&mut self, piece: &[u8]) -> Option<usize>
        requires can { CanPass self.old piece.now }
        requires phase { self.old.phase ≡ Phase.TextTag }
        ensures { MemberCases piece.now result self.old self.new }
    {
        let Some(len) = plain_text_after(piece) else {
            return None;
        };
        if piece[0] != TC_STRING || self.text != TextFor::FieldType {
            return None;
        }
        if !self.assign_type() {
            return None;
        }
        self.go_farther(len as u64 + 3);
        self.fields_done();
        Some(len + 3)
    }

    /// Takes what comes next, a field or the type of one, where it is whole in the piece; or does nothing.
    #[inline(always)]
    fn next_member(&mut self, piece: &[u8]) -> Option<usize>
        requires can { CanPass self.old piece.now }
        ensures { MemberCases piece.now result self.old self.new }
    {
        match self.phase {
            Phase::TypeCode => match self.whole_member(piece) {
                Some(field) => Some(size_of_field(field)),
                None => None,
            },
            Phase::TextTag => self.whole_type(piece),
            _ => None,
        }
    }

    /// Takes fields of a descriptor, as many as come one after another and are whole in the piece, and returns how many
    /// bytes they are.
    #[inline(never)]
    pub(crate) fn pass_members(&mut self, piece: &[u8]) -> usize
        requires can { CanPass self.old piece.now }
        ensures passes { (gate : ToldGate) (tally : Tally) → Passes gate piece.now (Some result) self.old tally self.new tally }
        ensures within { result ≤ length piece.now }
        ensures nothing { result ≡ 0 → self.new ≡ self.old }
    {
        let mut used = 0;
        'members: while used < piece.len() {
            let (_, rest) = piece.split_at(used);
            match self.next_member(rest) {
                None => return used,
                Some(more) => used += more,
            }
        }
        used
    }
}
