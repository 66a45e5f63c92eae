//! The longest stream that a text spells from a place on.
ghost use Rattle.std.specs.Prelude.{◌≡◌, ◌≤◌, ◌<◌, IfOk, take};
ghost use Rattle.jser_find.specs.Spelled.{IsIn, bytes_from};
ghost use Rattle.jser_find.specs.Texts.{IsCut, IsLongestIn, IsTurn};

use crate::bytes::front_of;
use crate::finder::{Whole, whole_of};
use crate::spelled::Reading;
use std::alloc::{AllocError, Global};

/// How many bytes are read at first.
const FIRST: usize = 64;

/// The longest stream that a text spells from a place on.
#[derive(Debug, Drop)]
pub(crate) struct Decoded {
    /// The stream; no bytes where there is none.
    pub(crate) stream: Vec<u8>,
    /// How many bytes decide that.
    pub(crate) read: usize,
}

/// What the first of these bytes come to.
#[derive(Debug, Drop)]
enum Turn {
    /// They decide.
    Found(Decoded),
    /// More than are left decide.
    Over,
    /// They do not decide.
    More,
}

/// The longest stream among the first `most` bytes that a text spells; `None` where more than `left` of them decide it.
///
/// It reads 64 bytes. Where they do not decide, it reads from the start again, twice as many, until they do, or more than `left`
/// do not. So it reads less than four times as many bytes as decide, or are left, or than 64.
pub(crate) fn longest(
    alloc: Global,
    text: &[u8],
    from: Reading,
    most: usize,
    left: usize,
) -> Result<Option<Decoded>, AllocError>
    requires { IsIn text.now from }
    ensures { IfOk result (IsLongestIn most left (bytes_from text.now from)) }
{
    let mut count = most.min(FIRST);
    'fronts: for _ in 0..u64::MAX {
        match longest_in(alloc, text, from, most, left, count) {
            Ok(Turn::Found(longest)) => return Ok(Some(longest)),
            Ok(Turn::Over) => return Ok(None),
            Ok(Turn::More) => count = count.saturating_mul(2).min(most),
            Err(error) => return Err(error),
        }
    }
    Err(AllocError)
}

/// The longest stream at the first of these digits, where the first `count` bytes decide it.
#[tactic(auto, using(crate::proofs::TextLemmas::turn_sure, crate::proofs::TextLemmas::turn_all, crate::proofs::TextLemmas::turn_over, crate::proofs::TextLemmas::are_bytes))]
fn longest_in(
    alloc: Global,
    text: &[u8],
    from: Reading,
    most: usize,
    left: usize,
    count: usize,
) -> Result<Turn, AllocError>
    requires text { IsIn text.now from }
    requires few { count ≤ most }
    ensures { IfOk result (IsTurn most left (bytes_from text.now from)) }
{
    let front = front_of(alloc, text, from, count)?;
    let whole = whole_of(alloc, front.as_slice())?;
    if whole.read < front.len() {
        Ok(cut(front, whole, left))
    } else if front.len() < count || count >= most {
        Ok(cut(front, whole, left))
    } else if count > left {
        Ok(Turn::Over)
    } else {
        Ok(Turn::More)
    }
}

/// The stream that these bytes begin with, where no more than `left` of them decide.
fn cut(front: Vec<u8>, whole: Whole, left: usize) -> Turn
    ensures { IsCut front.items whole left result }
{
    if whole.read > left {
        return Turn::Over;
    }
    let mut stream = front;
    stream.truncate(whole.len);
    Turn::Found(Decoded {
        stream,
        read: whole.read,
    })
}
