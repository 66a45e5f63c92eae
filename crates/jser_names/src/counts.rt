//! How often each name was seen.
ghost use Rattle.std.specs.Prelude.{◌≡◌, ◌<◌, ℕ, List, [], ◌∷◌, ◌++◌, is_some, length, slice_get, true, Some, None, IfSome, OnOk, OnErr};
ghost use Rattle.jser_prim.specs.ModifiedUtf8.{IsUnits, modified_utf8};
ghost use Rattle.jser_shown.specs.Counting.{name_tally, tally_one};
ghost use Rattle.jser_names.specs.Counts.{IsCount, IsSpelledBy, number_in};

use crate::keyed::Keyed;
use indexmap::IndexMap;
use jser_prim::{read_u32, read_units};
use std::alloc::{AllocError, Global};
use std::marker::Model;

/// How many places there are for names that were seen last. Each has room for two.
const PLACES: usize = 512;

/// A name, and how often it was seen.
#[derive(Clone, Copy)]
pub struct NameCount<'a> {
    /// Its UTF-16 units.
    pub name: &'a [u16],
    /// How often it was seen.
    pub times: u64,
}

/// What is kept beside a name.
#[derive(Drop)]
struct Seen {
    /// How often it was seen.
    times: u64,
    /// Its modified UTF-8, where it was read from that; else none.
    spelled: Vec<u8>,
}

/// The different names that were seen, in the order in which they were first seen, each with how often it was.
///
/// Names are told apart by their hashes under a key: whoever knows it can choose names that are slow to tell apart. One that was
/// seen lately is found at once, in a table of 4 KiB.
#[derive(Drop)]
pub struct NameCounts {
    alloc: Global,
    names: IndexMap<Vec<u16>, Seen, Keyed>,
    /// Numbers of names that were seen last, two at each place that a name tells: the later one, and the other one `PLACES`
    /// behind it.
    recent: [u32; 1024],
}

impl Model for NameCounts {
    ghost use Rattle.std.specs.Prelude.{List, map};
    ghost use Rattle.jser_shown.specs.Counting.{NameTally};
    ghost use Rattle.jser_names.specs.Counts.{AreApart, AreSpelled, tally_of};

    ghost Value = { List NameTally };

    ghost view = { λ a. map tally_of a.names.entries };

    ghost invariant = { λ a. AreApart a.names.entries × AreSpelled a.names.entries };
}

impl NameCounts {
    /// No names, which are hashed under this key; it changes nothing else. Takes no memory.
    pub fn new(alloc: Global, keyed: Keyed) -> NameCounts
        ensures { result ≡ [] }
    {
        NameCounts {
            alloc,
            names: IndexMap::with_hasher(alloc, keyed),
            recent: [0; 1024],
        }
    }

    /// Counts a name once more. Takes memory for a name that is new.
    ///
    /// # Errors
    ///
    /// `AllocError` where there is no memory, or where the name was seen 2^64 - 1 times: no stream has so many. Then the counts
    /// stay as they were.
    #[tactic(auto, using(crate::proofs::CountLemmas::counts_new))]
    pub fn count(&mut self, name: &[u16]) -> Result<(), AllocError>
        ensures counted { OnOk result (self.new ≡ tally_one name.now self.old) }
        ensures kept { OnErr result (self.new ≡ self.old) }
    {
        match self.number_of(name, place_of(name)) {
            Some(number) => self.raise(number),
            None => self.add(name, &[]),
        }
    }

    /// Counts the name once more that these bytes spell in modified UTF-8. A name that was seen lately is found by its bytes;
    /// another one's units are put into `units`.
    ///
    /// # Errors
    ///
    /// As `count`.
    pub(crate) fn count_text(&mut self, text: &[u8], units: &mut Vec<u16>) -> Result<(), AllocError>
        ensures { OnOk result ((name : List ℕ) → IsUnits name → modified_utf8 name ≡ text.now → self.new ≡ tally_one name self.old) }
    {
        let place = place_of_text(text);
        if let Some(number) = self.recent_text(text, place) {
            return self.raise(number);
        }
        let is_text = read_units(text, units)?;
        match self.number_of(units, place) {
            Some(number) => self.raise(number),
            None if is_text => self.add(units, text),
            None => self.add(units, &[]),
        }
    }

    /// How many different names there are.
    #[tactic(auto, using(crate::proofs::CountLemmas::as_many))]
    pub fn len(&self) -> usize
        ensures { result ≡ length self.now }
    {
        self.names.len()
    }

    /// The name with this number, counted from 0 in the order in which they were first seen, and how often it was seen.
    pub fn get(&self, number: usize) -> Option<NameCount<'_>>
        ensures { IsCount (slice_get self.now number) result }
    {
        let (name, seen) = self.names.get_index(number)?;
        Some(NameCount {
            name: name.as_slice(),
            times: seen.times,
        })
    }

    /// Whether this name was seen.
    pub fn has(&self, name: &[u16]) -> bool
        ensures { result ≡ is_some (number_in name.now self.now) }
    {
        self.look_up(name).is_some()
    }

    /// The number of the name that these bytes spell, where it was seen lately.
    fn recent_text(&mut self, text: &[u8], place: usize) -> Option<usize>
        requires { place < 512 }
        ensures inside { IfSome result (λ number. number < length self.old) }
        ensures named { IfSome result (λ number. (name : List ℕ) → IsUnits name → modified_utf8 name ≡ text.now → number_in name self.old ≡ Some number) }
        ensures kept { self.new ≡ self.old }
    {
        let number = self.recent[place] as usize;
        if self.is_spelled(text, number) {
            return Some(number);
        }
        let other = self.recent[place + PLACES] as usize;
        if !self.is_spelled(text, other) {
            return None;
        }
        self.remember(other, place);
        Some(other)
    }

    /// The number of this name, if it was seen. It is kept at this place.
    fn number_of(&mut self, name: &[u16], place: usize) -> Option<usize>
        requires { place < 512 }
        ensures found { result ≡ number_in name.now self.old }
        ensures kept { self.new ≡ self.old }
    {
        let number = self.recent[place] as usize;
        if self.is_numbered(name, number) {
            return Some(number);
        }
        let number = self.look_up(name)?;
        self.remember(number, place);
        Some(number)
    }

    /// The number of this name, if it was seen.
    fn look_up(&self, name: &[u16]) -> Option<usize>
        ensures { result ≡ number_in name.now self.now }
    {
        self.names.get_index_of(name)
    }

    /// Keeps a number at this place, with the later one of those that are there. One that is too large is lost, and then the
    /// name is looked up.
    fn remember(&mut self, number: usize, place: usize)
        requires { place < 512 }
        ensures { self.new ≡ self.old }
    {
        self.recent[place + PLACES] = self.recent[place];
        self.recent[place] = (number % 4_294_967_296) as u32;
    }

    /// Whether this is the number of the name.
    fn is_numbered(&self, name: &[u16], number: usize) -> bool
        ensures { result ≡ true → number_in name.now self.now ≡ Some number }
    {
        match self.names.get_index(number) {
            Some((other, _)) => other.as_slice() == name,
            None => false,
        }
    }

    /// Whether the name with this number is the one that the bytes spell; where it is not known, it is not.
    fn is_spelled(&self, text: &[u8], number: usize) -> bool
        ensures inside { result ≡ true → number < length self.now }
        ensures named { result ≡ true → (name : List ℕ) → IsUnits name → modified_utf8 name ≡ text.now → number_in name self.now ≡ Some number }
    {
        match self.names.get_index(number) {
            Some((_, seen)) => !text.is_empty() && seen.spelled.as_slice() == text,
            None => false,
        }
    }

    /// Counts the name once more that has this number.
    fn raise(&mut self, number: usize) -> Result<(), AllocError>
        requires { number < length self.old }
        ensures counted { OnOk result ((name : List ℕ) → number_in name self.old ≡ Some number → self.new ≡ tally_one name self.old) }
        ensures kept { OnErr result (self.new ≡ self.old) }
    {
        let seen = &mut self.names[number];
        let Some(times) = seen.times.checked_add(1) else {
            return Err(AllocError);
        };
        seen.times = times;
        Ok(())
    }

    /// Puts a name that is new behind the others, with the bytes that spell it, if it was read from some.
    fn add(&mut self, name: &[u16], text: &[u8]) -> Result<(), AllocError>
        requires new { number_in name.now self.old ≡ None }
        requires spelled { IsSpelledBy name.now text.now }
        ensures added { OnOk result (self.new ≡ self.old ++ name_tally name.now 1 ∷ []) }
        ensures kept { OnErr result (self.new ≡ self.old) }
    {
        let seen = Seen {
            times: 1,
            spelled: text.to_vec(self.alloc)?,
        };
        match self.names.insert(name.to_vec(self.alloc)?, seen) {
            Ok(_) => Ok(()),
            Err(_) => Err(AllocError),
        }
    }
}

/// Where the number of a name is kept that was seen last.
fn place_of(name: &[u16]) -> usize
    ensures { result < 512 }
{
    let middle = name.get(name.len() / 2).copied().unwrap_or(0);
    let last = name.last().copied().unwrap_or(0);
    place(name.len(), u32::from(middle), u32::from(last))
}

/// Where it is kept, from the bytes that spell the name: their number, and four in the middle and at the end.
fn place_of_text(text: &[u8]) -> usize
    ensures { result < 512 }
{
    let (_, half) = text.split_at(text.len() / 2);
    if half.len() < 4 {
        let last = text.last().copied().unwrap_or(0);
        let middle = half.first().copied().unwrap_or(0);
        return place(text.len(), u32::from(middle), u32::from(last));
    }
    let (middle, _) = half.split_at(4);
    let (_, last) = half.split_at(half.len() - 4);
    place(text.len(), read_u32(middle), read_u32(last))
}

/// The place of a name of this length, with these units or bytes in its middle and at its end. Each of their bits has a part
/// in it (Fibonacci hashing).
fn place(len: usize, middle: u32, last: u32) -> usize
    ensures { result < 512 }
{
    let sum = u64::from(middle)
        .wrapping_mul(31)
        .wrapping_add(u64::from(last))
        .wrapping_add(len as u64);
    (sum.wrapping_mul(0x9E37_79B9_7F4A_7C15) >> 40) as usize % PLACES
}
