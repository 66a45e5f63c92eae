//! Where a text may go on with a header behind its first digit: all other places are passed over, most of them 32 together.
//!
//! Behind that digit two characters are known, for each way in which a header is spelled, unless a line end or a `\` stands there.
ghost use Rattle.std.specs.Prelude.{◌≡◌, ◌+◌, ◌≤◌, ◌<◌, length};
ghost use Rattle.jser_find.specs.Marks.{AreUnmarked, parts_digits};

use crate::lanes::{LANES, are, both, either, first_of};
use std::simd::prelude::*;

/// How far the places of a text from `from` on are not marked, as far as whole loads tell.
#[tactic(auto, using(crate::proofs::MarkLemmas::unmarked_none, crate::proofs::MarkLemmas::unmarked_joined))]
pub(crate) fn unmarked_until(text: &[u8], from: usize) -> usize
    requires { from ≤ length text.now }
    ensures { AreUnmarked text.now from result }
{
    let mut at = from;
    'loads: while text.len() - at > LANES {
        let run = unmarked_run(text, at);
        at += run;
        if run < LANES {
            return at;
        }
    }
    at
}

/// How many places of the load at this place come before the first that is marked.
#[inline(always)]
fn unmarked_run(text: &[u8], at: usize) -> usize
    requires { at + LANES < length text.now }
    ensures within { result ≤ LANES }
    ensures unmarked { AreUnmarked text.now at (at + result) }
{
    let parts = either(
        either(are(text, at, b'\n'), are(text, at, b'\r')),
        are(text, at, b'\\'),
    );
    let begins = either(
        either(
            either(
                both(
                    either(are(text, at, b'c'), are(text, at, b'C')),
                    either(are(text, at + 1, b'e'), are(text, at + 1, b'E')),
                ),
                both(are(text, at, b'O'), are(text, at + 1, b'0')),
            ),
            both(are(text, at, b'z'), are(text, at + 1, b't')),
        ),
        both(are(text, at, b's'), are(text, at + 1, b'7')),
    );
    first_of(either(parts, begins))
}

/// Whether a character may stand between digits: a line end or a `\`.
#[inline(always)]
pub(crate) fn parts_digits(byte: u8) -> bool
    ensures { result ≡ parts_digits byte }
{
    byte == b'\n' || byte == b'\r' || byte == b'\\'
}
