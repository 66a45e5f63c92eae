//! All names that stand anywhere, one after another.
ghost use Rattle.std.specs.Prelude.{◌≡◌, ◌≤◌, ◌<◌, ◌+◌, [], ◌∷◌, List, ℕ, Some, None, length, IfSome};
ghost use Rattle.jser_anywhere.specs.NamesIn.{TellsNext, class_in, names_in, row_of, untold};

use crate::class::named_class;
use crate::name::Units;
use crate::recent::number_of;
use crate::search::text_of;
use arrayvec::ArrayVec;
use jser_grammar::wire::{TC_CLASSDESC, TC_PROXYCLASSDESC};
use std::marker::Model;

/// Where a name stands.
#[derive(Clone, Copy, PartialEq, Eq, Debug)]
pub struct Stand {
    /// The place of its 72 or 7D.
    pub from: usize,
    /// The place of its length.
    pub at: usize,
    /// The end of its text.
    pub to: usize,
}

/// The names that stand anywhere in some bytes: by their places, and at one place by their ends.
///
/// Takes no memory: it has room for the units of one name. To tell all of them it looks at each byte a bounded number of
/// times.
#[derive(Drop)]
pub struct Names<'b> {
    bytes: &'b [u8],
    next: usize,
    from: usize,
    left: u32,
    at: usize,
    units: Units,
}

impl<'b> Model for Names<'b> {
    ghost use Rattle.std.specs.Prelude.{◌≤◌, length};
    ghost use Rattle.jser_anywhere.specs.NamesIn.{Telling};

    ghost Value = { Telling };

    ghost view = { λ a. record { bytes = a.bytes.now; next = a.next; from = a.from; left = a.left; at = a.at; last = a.units.items } };

    ghost invariant = { λ a. (a.at ≤ length a.bytes.now) × (a.next ≤ length a.bytes.now) };
}

impl<'b> Names<'b> {
    /// The names of these bytes, of which none was told yet.
    pub fn new(bytes: &'b [u8]) -> Names<'b>
        ensures names { untold result ≡ names_in 0 bytes.now }
        ensures bytes { result.bytes ≡ bytes.now }
    {
        Names {
            bytes,
            next: 0,
            from: 0,
            left: 0,
            at: 0,
            units: ArrayVec::new(),
        }
    }

    /// The next name: where it stands. `units` then has its units. `None` where all were told.
    pub fn next(&mut self) -> Option<Stand>
        ensures tells { TellsNext self.old result self.new }
        ensures inside { IfSome result (λ found. (found.at < found.to) × (found.to ≤ length self.old.bytes)) }
        ensures same { self.new.bytes ≡ self.old.bytes }
    {
        if let Some(found) = self.in_row() {
            return Some(found);
        }
        'places: while self.next < self.bytes.len() {
            self.open();
            if let Some(found) = self.in_row() {
                return Some(found);
            }
        }
        None
    }

    /// The name that was told last, as it stands: of a class, or of an array of one.
    pub fn text(&self) -> &[u16]
        ensures { result.now ≡ self.now.last }
    {
        self.units.as_slice()
    }

    /// The class that it names.
    #[tactic(auto, using(crate::proofs::NamesLemmas::class_some, crate::proofs::NamesLemmas::class_none))]
    pub fn units(&self) -> &[u16]
        ensures { result.now ≡ class_in self.now.last }
    {
        match named_class(self.units.as_slice()) {
            Some(class) => class,
            None => &[],
        }
    }

    /// The next name of the row that is being told.
    fn in_row(&mut self) -> Option<Stand>
        ensures told { IfSome result (λ found. TellsNext self.old (Some found) self.new) }
        ensures inside { IfSome result (λ found. (found.at < found.to) × (found.to ≤ length self.old.bytes)) }
        ensures same { self.new.bytes ≡ self.old.bytes }
        ensures none { result ≡ None → (untold self.new ≡ untold self.old) × (self.new.left ≡ 0) × (self.new.next ≡ self.old.next) }
    {
        'texts: while self.left > 0 {
            if let Some(found) = self.one_text() {
                return Some(found);
            }
        }
        None
    }

    /// The next text of the row that is being told, if it is a name.
    #[tactic(auto, using(crate::proofs::NamesLemmas::row_told, crate::proofs::NamesLemmas::row_passed, crate::proofs::NamesLemmas::row_broken))]
    fn one_text(&mut self) -> Option<Stand>
        requires some { 0 < self.old.left }
        ensures told { IfSome result (λ found. TellsNext self.old (Some found) self.new) }
        ensures inside { IfSome result (λ found. (found.at < found.to) × (found.to ≤ length self.old.bytes)) }
        ensures same { self.new.bytes ≡ self.old.bytes }
        ensures none { result ≡ None → untold self.new ≡ untold self.old }
        ensures less { self.new.left < self.old.left }
        ensures next { self.new.next ≡ self.old.next }
    {
        let (_, rest) = self.bytes.split_at(self.at);
        match text_of(rest, &mut self.units) {
            None => {
                self.left = 0;
                None
            }
            Some(end) => {
                let at = self.at;
                self.left -= 1;
                self.at += end;
                if named_class(self.units.as_slice()).is_none() {
                    return None;
                }
                Some(Stand {
                    from: self.from,
                    at,
                    to: self.at,
                })
            }
        }
    }

    /// Goes to the names of the next place.
    #[tactic(auto, using(crate::proofs::NamesLemmas::opened))]
    fn open(&mut self)
        requires inside { self.old.next < length self.old.bytes }
        requires told { self.old.left ≡ 0 }
        ensures names { untold self.new ≡ untold self.old }
        ensures next { self.new.next ≡ self.old.next + 1 }
        ensures bytes { self.new.bytes ≡ self.old.bytes }
    {
        let (_, rest) = self.bytes.split_at(self.next);
        let row = row_of(rest);
        self.from = self.next;
        self.at = self.next + row.head;
        self.left = row.most;
        self.next += 1;
    }
}

/// Where names may stand at the head of some bytes.
#[derive(Clone, Copy, Debug)]
struct RowHead {
    /// How many bytes come before them.
    head: usize,
    /// How many there are at most.
    most: u32,
}

/// Where names may stand at the head of these bytes.
#[tactic(auto, unfolding(crate::specs::NamesIn::row_of))]
fn row_of(bytes: &[u8]) -> RowHead
    ensures row { result ≡ row_of bytes.now }
    ensures within { result.head ≤ length bytes.now }
{
    match bytes {
        [TC_CLASSDESC, ..] => RowHead { head: 1, most: 1 },
        [TC_PROXYCLASSDESC, 0, 0, high, low, ..] => RowHead {
            head: 5,
            most: u32::from(number_of(*high, *low)),
        },
        _ => RowHead { head: 0, most: 0 },
    }
}
