//! The bytes that a text spells, one after another.
ghost use Rattle.jser_find.specs.Spelled.{GivesNext, IsIn};

use crate::group::next_pair;
use crate::spot::{Spot, Step, step_of};

/// How far a text was read.
#[derive(Clone, Copy, PartialEq, Eq, Debug)]
pub struct Reading {
    /// How many of its characters were read.
    pub at: usize,
    /// Where it is behind them.
    pub spot: Spot,
}

/// The next byte of a text, and how far it is read then.
#[derive(Clone, Copy, PartialEq, Eq, Debug)]
pub struct Given {
    /// The byte.
    pub byte: u8,
    /// How far the text is read.
    pub then: Reading,
}

/// The next byte that a text spells. `None` where its digits end before one.
#[tactic(auto, using(crate::proofs::SpelledLemmas::begun, crate::proofs::SpelledLemmas::goes_on, crate::proofs::SpelledLemmas::gives, crate::proofs::SpelledLemmas::ends, crate::proofs::SpelledLemmas::no_text))]
pub(crate) fn next_byte(text: &[u8], from: Reading) -> Option<Given>
    requires { IsIn text.now from }
    ensures { GivesNext text.now from result }
{
    if let Some(given) = next_pair(text, from) {
        return Some(given);
    }
    let mut at = from.at;
    let mut spot = from.spot;
    'characters: while at < text.len() {
        match step_of(spot, text[at]) {
            Step::Goes(next) => {
                spot = next;
                at += 1;
            }
            Step::Gives(byte, next) => {
                return Some(Given {
                    byte,
                    then: Reading {
                        at: at + 1,
                        spot: next,
                    },
                });
            }
            Step::Ends => return None,
        }
    }
    None
}
