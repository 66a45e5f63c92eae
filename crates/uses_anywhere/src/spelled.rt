//! Names that can be read at any place, in the words of the format and of a class loader.
ghost use Rattle.std.specs.Prelude.{◌≡◌, ◌≤◌, ◌∷◌, [], ℕ, List, IsTrue, false, true, length};
ghost use Rattle.uses_anywhere.specs.Spelled.{CanBeAskedFor, HoldsName};

use crate::places::place_of;
use jser_anywhere::laws::{names_are_in_rows, reads_loadable, reads_rows, worked_rows};
use jser_anywhere::{Judge, Names, first_hidden};
use jser_grammar::wire::TC_PROXYCLASSDESC;

/// Whether the judge lets each name pass that can be read. Then it lets the class of each loadable name pass that stands behind 72
/// and its length, wherever that is and however the name is spelled.
pub fn is_clear<J: Judge>(bytes: &[u8], judge: &J) -> bool
    ensures { IsTrue result → (class : List ℕ) → HoldsName bytes.now class → J.passes judge.now class ≡ true }
{
    names_are_in_rows();
    reads_rows();
    reads_loadable();
    match first_hidden(bytes, judge) {
        Some(_) => false,
        None => true,
    }
}

/// Whether a name of this class can be read at some place. Then it is one that a class loader can be asked for.
#[tactic(auto, using(crate::proofs::SpelledLemmas::asked_for))]
pub fn can_be_asked_for(bytes: &[u8], name: &[u16]) -> bool
    ensures { IsTrue result → CanBeAskedFor name.now }
{
    reads_rows();
    reads_loadable();
    match place_of(bytes, name) {
        Some(_) => true,
        None => false,
    }
}

/// Whether the judge is asked about the third interface of a proxy: it is, and so refuses `c`.
#[tactic(auto, using(crate::proofs::SpelledLemmas::third_hidden))]
pub fn refuses_third<J: Judge>(judge: &J) -> bool
    requires { J.passes judge.now (0x63 ∷ []) ≡ false }
    ensures { result ≡ true }
{
    worked_rows();
    match first_hidden(
        &[
            TC_PROXYCLASSDESC,
            0,
            0,
            0,
            3,
            0,
            1,
            b'a',
            0,
            1,
            b'b',
            0,
            1,
            b'c',
        ],
        judge,
    ) {
        Some(_) => true,
        None => unreachable!(),
    }
}

/// How many bytes the longest name has that can be read, with its length: never more than there are.
pub fn longest(bytes: &[u8]) -> usize
    ensures { result ≤ length bytes.now }
{
    let mut names = Names::new(bytes);
    let mut longest: usize = 0;
    'names: while let Some(stand) = names.next() {
        longest = longest.max(stand.to - stand.at);
    }
    longest
}
