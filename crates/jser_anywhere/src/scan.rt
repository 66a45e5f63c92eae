//! The scan in pieces: it keeps the last six bytes, and the units of the texts that may be names.
ghost use Rattle.std.specs.Prelude.{◌≡◌, ◌≤◌, ◌-◌, ◌+◌, ◌++◌, true, false, [], ◌∷◌, Bool, List, ℕ, Some, None, length, IfOk, IfSome};
ghost use Rattle.jser_anywhere.specs.Slots.{lower};
ghost use Rattle.jser_anywhere.specs.Steps.{HasRoom, NameFits, RowFits, gone_on, keeping, kept_with, name_after, name_hidden, name_left, name_taken, name_with, noted, noted_hidden, or_taken, past, read_past, reading, row_after, row_hidden, row_taken, row_with, scan_after, scan_hidden, taken_by, with_row};
ghost use Rattle.jser_anywhere.specs.Scans.{HasScanned, Hurries, TakesBytes};

use crate::hidden::{Hidden, Judge};
use crate::letters::{Letters, push_letters};
use crate::open::{Name, Row, RowAt, Text};
use crate::quiet::{may_begin, quiet_until, text_until};
use crate::recent::{Begun, Recent};
use crate::text::{Place, Taken};
use std::alloc::{AllocError, Global};
use std::marker::Model;

/// A scan of bytes that come in pieces, for the first name that can be read at any place and does not pass.
///
/// It has room for the units of the names that are being read, some 18 kilobytes, which `new` takes.
#[derive(Drop)]
pub struct Scan {
    count: u64,
    recent: Recent,
    kept: Letters,
    name: Option<Name>,
    even: Option<Row>,
    odd: Option<Row>,
}

impl Model for Scan {
    ghost use Rattle.jser_anywhere.specs.Steps.{Scanning};

    ghost Value = { Scanning };

    ghost view = { λ a. record { count = a.count; recent = a.recent; kept = a.kept; name = a.name; even = a.even; odd = a.odd } };
}

impl Scan {
    /// No bytes so far.
    ///
    /// # Errors
    ///
    /// Where there is no memory for the names.
    #[tactic(auto, using(crate::proofs::TakeLemmas::scanned_none))]
    pub fn new(alloc: Global) -> Result<Scan, AllocError>
        ensures nothing { IfOk result (λ scan. (passes : List ℕ → Bool) → HasScanned passes [] scan) }
    {
        match Letters::new(alloc) {
            Ok(kept) => Ok(Scan {
                count: 0,
                recent: Recent::none(),
                kept,
                name: None,
                even: None,
                odd: None,
            }),
            Err(error) => Err(error),
        }
    }

    /// Makes it a scan of no bytes. It keeps its memory.
    pub fn restart(&mut self)
        ensures nothing { (passes : List ℕ → Bool) → HasScanned passes [] self.new }
    {
        self.count = 0;
        self.recent = Recent::none();
        self.kept.clear();
        self.name = None;
        self.even = None;
        self.odd = None;
    }

    /// Takes more bytes: the first hidden name of all bytes so far, if one ends in these.
    ///
    /// Once it has told one, nothing is said of later calls. Takes no memory; each byte is looked at a bounded number of
    /// times.
    #[tactic(auto, using(crate::proofs::TakeLemmas::takes_none, crate::proofs::TakeLemmas::fed_more, crate::proofs::TakeLemmas::fed_some, crate::proofs::TakeLemmas::fed_all, crate::proofs::QuietLemmas::fed_on))]
    pub fn feed<J: Judge>(&mut self, judge: &J, piece: &[u8]) -> Option<Hidden>
        ensures { TakesBytes (J.passes judge.now) self.old self.new piece.now result }
    {
        let mut at: usize = 0;
        'bytes: while at < piece.len() {
            if let Some(hidden) = self.take(judge, piece[at]) {
                return Some(hidden);
            }
            at = self.hurry(piece, at + 1);
        }
        None
    }

    /// The class that the hidden name names which the last call of `feed` told; `None` where it told none. Takes no memory.
    pub fn hidden_class<J: Judge>(&self, judge: &J) -> Option<&[u16]>
        ensures { IfSome result (λ name. J.passes judge.now name.now ≡ false) }
    {
        let place = self.hidden(judge)?;
        let kept = self.kept.as_slice();
        if let Some(name) = self.name
            && let Some(class) = name.hidden_class(place, kept, judge)
        {
            return Some(class);
        }
        match row_class(self.even, place, kept, judge) {
            Some(class) => Some(class),
            None => row_class(self.odd, place, kept, judge),
        }
    }

    /// One byte more.
    #[tactic(auto, using(crate::proofs::TakeLemmas::byte_none, crate::proofs::TakeLemmas::byte_some))]
    fn take<J: Judge>(&mut self, judge: &J, byte: u8) -> Option<Hidden>
        ensures { TakesBytes (J.passes judge.now) self.old self.new (byte ∷ []) result }
    {
        let to = self.count.saturating_add(1);
        match self.byte(judge, byte) {
            Some(from) => Some(Hidden { from, to }),
            None => None,
        }
    }

    /// Goes past the bytes from `at` on that begin no name, where no row is being read: those of no name, or of a
    /// descriptor's name; returns how far it came.
    #[tactic(auto, using(crate::proofs::QuietLemmas::hurries_none))]
    fn hurry(&mut self, piece: &[u8], at: usize) -> usize
        requires { at ≤ length piece.now }
        ensures { Hurries self.old self.new piece.now at result }
    {
        if at < 6 || self.even.is_some() || self.odd.is_some() {
            return at;
        }
        match self.name {
            None => self.hurry_outside(piece, at),
            Some(name) => self.hurry_inside(piece, at, name),
        }
    }

    /// Goes past more letters of the descriptor's name that is being read, all but its last byte, as long as they begin no other.
    #[tactic(auto, using(crate::proofs::QuietLemmas::hurries_none))]
    #[inline(always)]
    fn hurry_inside(&mut self, piece: &[u8], at: usize, name: Name) -> usize
        requires at { (6 ≤ at) × (at ≤ length piece.now) }
        requires name { self.old.name ≡ Some name }
        requires even { self.old.even ≡ None }
        requires odd { self.old.odd ≡ None }
        ensures { Hurries self.old self.new piece.now at result }
    {
        if may_begin(piece, at) || !name.text.group.is_first() || name.text.skip.is_none() {
            return at;
        }
        let to = text_until(piece, at, usize::from(name.text.left));
        self.read_past(piece, at, to, name);
        to
    }

    /// Past some letters of the descriptor's name that is being read.
    fn read_past(&mut self, piece: &[u8], from: usize, to: usize, name: Name)
        requires from { (6 ≤ from) × (from ≤ to) × (to ≤ length piece.now) }
        requires few { to - from ≤ name.text.left }
        requires even { self.old.even ≡ None }
        requires odd { self.old.odd ≡ None }
        ensures { length self.old.kept + (to - from) ≤ 9217 → self.new ≡ read_past self.old name piece.now from to }
    {
        push_letters(&mut self.kept, &piece[from..to]);
        self.count = self.count.saturating_add((to - from) as u64);
        self.recent = Recent::in_piece(piece, to);
        self.name = Some(Name {
            place: name.place,
            text: Text {
                left: name.text.left - (to - from) as u16,
                group: Place::First,
                skip: name.text.skip,
            },
        });
    }

    /// Past the bytes that begin no name, where no name is being read.
    #[inline(always)]
    fn hurry_outside(&mut self, piece: &[u8], at: usize) -> usize
        requires at { (6 ≤ at) × (at ≤ length piece.now) }
        requires name { self.old.name ≡ None }
        requires even { self.old.even ≡ None }
        requires odd { self.old.odd ≡ None }
        ensures { Hurries self.old self.new piece.now at result }
    {
        let to = quiet_until(piece, at);
        self.go_past(piece, at, to);
        to
    }

    /// Past some bytes that begin no name, where none is being read.
    fn go_past(&mut self, piece: &[u8], from: usize, to: usize)
        requires { (6 ≤ from) × (from ≤ to) × (to ≤ length piece.now) }
        ensures { self.new ≡ past self.old piece.now from to }
    {
        self.count = self.count.saturating_add((to - from) as u64);
        self.recent = Recent::in_piece(piece, to);
        self.kept.clear();
    }

    /// One byte more: the place of the hidden name that ends with it, the least one if more than one do.
    fn byte<J: Judge>(&mut self, judge: &J, byte: u8) -> Option<u64>
        ensures hidden { HasRoom self.old → result ≡ scan_hidden (J.passes judge.now) self.old byte }
        ensures goes_on { HasRoom self.old → result ≡ None → self.new ≡ scan_after self.old byte }
    {
        if self.even.is_none() && self.odd.is_none() {
            return self.byte_outside_rows(judge, byte);
        }
        self.byte_of_rows(judge, byte)
    }

    /// One byte more, where a row is being read.
    #[tactic(auto, using(crate::proofs::StepLemmas::went_on, crate::proofs::StepLemmas::was_hidden))]
    #[inline(never)]
    fn byte_of_rows<J: Judge>(&mut self, judge: &J, byte: u8) -> Option<u64>
        ensures hidden { HasRoom self.old → result ≡ scan_hidden (J.passes judge.now) self.old byte }
        ensures goes_on { HasRoom self.old → result ≡ None → self.new ≡ scan_after self.old byte }
    {
        self.note(byte);
        let place = self.hidden(judge);
        if place.is_none() {
            self.go_on(byte);
        }
        place
    }

    /// One byte more, where no row is being read: what is asked and kept is the descriptor's name alone.
    #[tactic(auto, using(crate::proofs::StepLemmas::went_on, crate::proofs::StepLemmas::hidden_outside_rows))]
    #[inline(always)]
    fn byte_outside_rows<J: Judge>(&mut self, judge: &J, byte: u8) -> Option<u64>
        requires even { self.old.even ≡ None }
        requires odd { self.old.odd ≡ None }
        ensures hidden { HasRoom self.old → result ≡ scan_hidden (J.passes judge.now) self.old byte }
        ensures goes_on { HasRoom self.old → result ≡ None → self.new ≡ scan_after self.old byte }
    {
        self.note_outside_rows(byte);
        let place = name_hidden(self.name, self.kept.as_slice(), judge);
        if place.is_none() {
            self.go_on_outside_rows(byte);
        }
        place
    }

    /// The descriptor's name takes the byte, where no row is being read.
    #[tactic(auto, using(crate::proofs::StepLemmas::noted_outside_rows))]
    #[inline(always)]
    fn note_outside_rows(&mut self, byte: u8)
        requires even { self.old.even ≡ None }
        requires odd { self.old.odd ≡ None }
        ensures noted { HasRoom self.old → self.new ≡ noted self.old byte }
        ensures even { self.new.even ≡ None }
        ensures odd { self.new.odd ≡ None }
    {
        let taken = name_taken(self.name, byte);
        self.keep(taken);
        self.name = name_with(self.name, byte);
    }

    /// After a byte that ended no hidden name, where no row was being read.
    #[inline(always)]
    fn go_on_outside_rows(&mut self, byte: u8)
        requires even { self.old.even ≡ None }
        requires odd { self.old.odd ≡ None }
        ensures { self.new ≡ gone_on self.old byte }
    {
        self.name = self.name_after(byte);
        if let Some(begun) = self.recent.row_left(byte) {
            self.begin_row(begun);
        }
        self.recent = self.recent.with_byte(byte);
        self.count = self.count.saturating_add(1);
    }

    /// A row begins whose first text comes next.
    #[inline(never)]
    fn begin_row(&mut self, begun: Begun)
        requires even { self.old.even ≡ None }
        requires odd { self.old.odd ≡ None }
        ensures { self.new ≡ with_row self.old begun }
    {
        let place = self.count.saturating_sub(6);
        let row = Some(Row {
            place,
            more: begun.more,
            at: RowAt::Text(Text::new(self.kept.len(), begun.left)),
        });
        if place % 2 == 0 {
            self.even = row;
        } else {
            self.odd = row;
        }
    }

    /// The texts that are being read take the byte.
    #[tactic(auto, using(crate::proofs::StepLemmas::noted_by))]
    fn note(&mut self, byte: u8)
        ensures { HasRoom self.old → self.new ≡ noted self.old byte }
    {
        let taken = self.taken(byte);
        self.keep(taken);
        self.read(byte);
    }

    /// What the byte leads to in each text that may be a name.
    fn taken(&self, byte: u8) -> Taken
        ensures { HasRoom self.now → result ≡ taken_by self.now byte }
    {
        or_taken(
            name_taken(self.name, byte),
            or_taken(row_taken(self.even, byte), row_taken(self.odd, byte)),
        )
    }

    /// Keeps the unit; lets go of all where no text may be a name.
    fn keep(&mut self, taken: Taken)
        ensures kept { length self.old.kept ≤ 9216 → self.new ≡ keeping self.old (kept_with self.old.kept taken) }
        ensures even { self.new.even ≡ self.old.even }
        ensures odd { self.new.odd ≡ self.old.odd }
    {
        match taken {
            Taken::Unit(unit) => {
                self.kept.push(unit);
            }
            Taken::Part(_) => {}
            Taken::Refused => {
                self.kept.clear();
            }
        }
    }

    fn read(&mut self, byte: u8)
        ensures { NameFits self.old.name → RowFits self.old.even → RowFits self.old.odd → self.new ≡ reading self.old byte }
    {
        self.name = name_with(self.name, byte);
        self.even = row_with(self.even, byte);
        self.odd = row_with(self.odd, byte);
    }

    /// The least place of a name that ended with the last byte and does not pass.
    fn hidden<J: Judge>(&self, judge: &J) -> Option<u64>
        ensures { result ≡ noted_hidden (J.passes judge.now) self.now }
    {
        let kept = self.kept.as_slice();
        lower(
            name_hidden(self.name, kept, judge),
            lower(
                row_hidden(self.even, kept, judge),
                row_hidden(self.odd, kept, judge),
            ),
        )
    }

    /// After a byte that the texts have taken, and that ended no hidden name.
    fn go_on(&mut self, byte: u8)
        ensures { self.new ≡ gone_on self.old byte }
    {
        let kept = self.kept.len();
        let place = self.count.saturating_sub(6);
        let is_even = place % 2 == 0;
        let begun = self.recent.row_left(byte);
        self.name = self.name_after(byte);
        self.even = row_after(is_even, place, kept, begun, self.even, byte);
        self.odd = row_after(!is_even, place, kept, begun, self.odd, byte);
        self.recent = self.recent.with_byte(byte);
        self.count = self.count.saturating_add(1);
    }

    /// The descriptor's name that is read after a byte.
    fn name_after(&self, byte: u8) -> Option<Name>
        ensures { result ≡ name_after self.now.count (length self.now.kept) (name_left self.now.recent byte) self.now.name }
    {
        match (self.recent.name_left(byte), self.name) {
            (Some(left), _) => Some(Name {
                place: self.count.saturating_sub(2),
                text: Text::new(self.kept.len(), left),
            }),
            (None, Some(name)) => name.onward(),
            (None, None) => None,
        }
    }
}

fn name_with(name: Option<Name>, byte: u8) -> Option<Name>
    ensures { NameFits name → result ≡ name_with name byte }
{
    match name {
        Some(name) => name.with_byte(byte),
        None => None,
    }
}

fn name_taken(name: Option<Name>, byte: u8) -> Taken
    ensures { NameFits name → result ≡ name_taken name byte }
{
    match name {
        Some(name) => name.taken(byte),
        None => Taken::Refused,
    }
}

fn name_hidden<J: Judge>(name: Option<Name>, kept: &[u16], judge: &J) -> Option<u64>
    ensures { result ≡ name_hidden (J.passes judge.now) name kept.now }
{
    match name {
        Some(name) => name.hidden(kept, judge),
        None => None,
    }
}

fn row_with(row: Option<Row>, byte: u8) -> Option<Row>
    ensures { RowFits row → result ≡ row_with row byte }
{
    match row {
        Some(row) => row.with_byte(byte),
        None => None,
    }
}

fn row_taken(row: Option<Row>, byte: u8) -> Taken
    ensures { RowFits row → result ≡ row_taken row byte }
{
    match row {
        Some(row) => row.taken(byte),
        None => Taken::Refused,
    }
}

fn row_hidden<J: Judge>(row: Option<Row>, kept: &[u16], judge: &J) -> Option<u64>
    ensures { result ≡ row_hidden (J.passes judge.now) row kept.now }
{
    match row {
        Some(row) => row.hidden(kept, judge),
        None => None,
    }
}

fn row_class<'k, J: Judge>(
    row: Option<Row>,
    place: u64,
    kept: &'k [u16],
    judge: &J,
) -> Option<&'k [u16]>
    ensures { IfSome result (λ name. J.passes judge.now name.now ≡ false) }
{
    match row {
        Some(row) => row.hidden_class(place, kept, judge),
        None => None,
    }
}

/// The row that is read after a byte: one that begins at a place of this kind, or the one that was there.
fn row_after(
    is_wanted: bool,
    place: u64,
    kept: usize,
    begun: Option<Begun>,
    old: Option<Row>,
    byte: u8,
) -> Option<Row>
    ensures { result ≡ row_after is_wanted place kept begun old byte }
{
    if let Some(begun) = begun {
        if is_wanted {
            return Some(Row {
                place,
                more: begun.more,
                at: RowAt::Text(Text::new(kept, begun.left)),
            });
        }
    }
    match old {
        Some(row) => row.onward(byte, kept),
        None => None,
    }
}

/// The first of the two, if it is one.
fn or_taken(first: Taken, second: Taken) -> Taken
    ensures { result ≡ or_taken first second }
{
    match first {
        Taken::Refused => second,
        _ => first,
    }
}

/// The lower place of two.
fn lower(a: Option<u64>, b: Option<u64>) -> Option<u64>
    ensures { result ≡ lower a b }
{
    match (a, b) {
        (Some(a), Some(b)) => Some(a.min(b)),
        (Some(a), None) => Some(a),
        (None, b) => b,
    }
}
