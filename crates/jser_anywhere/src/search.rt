//! The first name that does not pass.
ghost use Rattle.std.specs.Prelude.{◌≡◌, ◌≤◌, ◌<◌, ◌^◌, IfSome, length};
ghost use Rattle.jser_anywhere.specs.Names.{core};
ghost use Rattle.jser_anywhere.specs.Search.{TellsFirst, TellsText, hidden_here, is_settled, names_hidden, row_hidden, sooner};

use crate::class::named_class;
use crate::hidden::{Hidden, Judge};
use crate::name::{MOST_BYTES, Units, read_text};
use crate::recent::number_of;
use arrayvec::ArrayVec;
use jser_grammar::wire::{TC_CLASSDESC, TC_PROXYCLASSDESC};

/// How many bytes the text at the head of these bytes has, with its length, if one stands there that is loose and has no byte
/// below 20; `units` then has its units.
#[tactic(auto, unfolding(crate::specs::Search::text_of))]
pub(crate) fn text_of(bytes: &[u8], units: &mut Units) -> Option<usize>
    ensures { TellsText bytes.now result units.new.items }
{
    match bytes {
        [high, low, rest @ ..] => {
            let len = usize::from(number_of(*high, *low));
            if len >= 1 && len <= MOST_BYTES && len <= rest.len() {
                let (text, _) = rest.split_at(len);
                if read_text(text, units) {
                    Some(2 + len)
                } else {
                    None
                }
            } else {
                None
            }
        }
        _ => None,
    }
}

/// Where the first name ends that does not pass, of at most `most` texts that stand one after another at the head of
/// these bytes.
#[tactic(auto, using(crate::proofs::RowLemmas::ahead_first, crate::proofs::RowLemmas::ahead_done, crate::proofs::RowLemmas::ahead_none, crate::proofs::RowLemmas::ahead_found, crate::proofs::RowLemmas::ahead_more))]
fn row_hidden<J: Judge>(bytes: &[u8], most: u32, judge: &J, units: &mut Units) -> Option<usize>
    ensures end { result ≡ row_hidden (J.passes judge.now) most bytes.now }
    ensures within { IfSome result (λ end. end ≤ length bytes.now) }
{
    let mut rest = bytes;
    let mut gone: usize = 0;
    'names: for turn in 0..most {
        match text_of(rest, units) {
            None => return None,
            Some(end) => {
                if names_hidden(units.as_slice(), judge) {
                    return Some(gone + end);
                }
                let (_, after) = rest.split_at(end);
                rest = after;
                gone += end;
            }
        }
    }
    None
}

/// Whether these units name a class that does not pass.
fn names_hidden<J: Judge>(units: &[u16], judge: &J) -> bool
    ensures { result ≡ names_hidden (J.passes judge.now) (core units.now) }
{
    match named_class(units) {
        Some(name) => !judge.passes(name),
        None => false,
    }
}

/// Where the first name at the head of these bytes ends that does not pass.
#[tactic(auto, unfolding(crate::specs::Search::hidden_here))]
fn hidden_here<J: Judge>(bytes: &[u8], judge: &J, units: &mut Units) -> Option<usize>
    ensures end { result ≡ hidden_here (J.passes judge.now) bytes.now }
    ensures within { IfSome result (λ end. end ≤ length bytes.now) }
{
    match bytes {
        [TC_CLASSDESC, rest @ ..] => { row_hidden(rest, 1, judge, units).map(|end| 1 + end) }
        [TC_PROXYCLASSDESC, 0, 0, high, low, rest @ ..] => {
            let most = u32::from(number_of(*high, *low));
            row_hidden(rest, most, judge, units).map(|end| 5 + end)
        }
        _ => None,
    }
}

/// Of the names that stand anywhere in the bytes and do not pass, that with the least end, and of those that at
/// the least place; `None` exactly if all pass. Takes no memory.
#[tactic(auto, using(crate::proofs::FirstLemmas::first_none, crate::proofs::FirstLemmas::first_settled, crate::proofs::FirstLemmas::first_whole, crate::proofs::FirstLemmas::first_same, crate::proofs::FirstLemmas::first_more))]
pub fn first_hidden<J: Judge>(bytes: &[u8], judge: &J) -> Option<Hidden>
    ensures { TellsFirst (J.passes judge.now) bytes.now result }
{
    let mut units: Units = ArrayVec::new();
    let mut first: Option<Hidden> = None;
    'places: for from in 0..bytes.len() {
        if is_settled(first, from as u64) {
            return first;
        }
        let (_, rest) = bytes.split_at(from);
        if let Some(end) = hidden_here(rest, judge, &mut units) {
            let found = Hidden {
                from: from as u64,
                to: (from + end) as u64,
            };
            first = sooner(first, found);
        }
    }
    first
}

/// Whether no name that stands at `from` or later ends before the first one found.
fn is_settled(first: Option<Hidden>, from: u64) -> bool
    requires { from < 2 ^ 63 }
    ensures { result ≡ is_settled first from }
{
    match first {
        Some(hidden) => hidden.to <= from + 3,
        None => false,
    }
}

/// The first one found, or another that ends before it.
fn sooner(first: Option<Hidden>, other: Hidden) -> Option<Hidden>
    ensures { result ≡ sooner first other }
{
    match first {
        Some(hidden) if hidden.to <= other.to => Some(hidden),
        _ => Some(other),
    }
}
