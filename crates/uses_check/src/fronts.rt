//! Where a caller cuts: a stream and other bytes behind it, and streams one after another.
ghost use Rattle.std.specs.Prelude.{◌≡◌, ◌<◌, ◌≤◌, ◌++◌, ℕ, List, length, take, drop, IfSome};
ghost use Rattle.jser_check.specs.Admitted.{AreAdmitted};
ghost use Rattle.jser_check.specs.Pieces.{HasTaken};
ghost use Rattle.jser_check.specs.Fronts.{IsFront};

use jser_check::{Checker, Options, Stop, judge_bytes};
use jser_filter::Filter;
use std::alloc::Global;

/// How many bytes at the front of these are a stream that the filter admits, of the longest one; `None` where there is none,
/// and where memory ran out. Whatever lies behind it changes nothing.
pub fn stream_at_front(
    alloc: Global,
    bytes: &[u8],
    filter: &Filter,
    options: Options,
) -> Option<u64>
    ensures admitted { IfSome result (λ n. AreAdmitted filter.now options (take n bytes.now)) }
    ensures longest { IfSome result (λ n. (m : ℕ) → n < m → m ≤ length bytes.now → AreAdmitted filter.now options (take m bytes.now) → ⊥) }
{
    let judged = judge_bytes(alloc, bytes, filter, options);
    match judged.answer {
        Ok(_) => found(judged.whole),
        Err(Stop::Refused(_)) => found(judged.whole),
        Err(_) => None,
    }
}

/// A number of bytes, if there are any.
fn found(whole: u64) -> Option<u64>
    ensures { IfSome result (λ n. (n ≡ whole) × (0 < n)) }
{
    if whole == 0 {
        return None;
    }
    Some(whole)
}

/// Takes the piece, and says how many of all bytes that came are whole contents: also where the piece is refused.
pub fn whole_so_far(checker: &mut Checker, piece: &[u8]) -> Option<u64>
    ensures { (taken : List ℕ) → HasTaken checker.old taken → IfSome result (IsFront checker.old.reader.gate.filter checker.old.reader.gate.options (taken ++ piece.now)) }
{
    match checker.feed(piece) {
        Ok(()) => Some(checker.whole()),
        Err(Stop::Refused(_)) => Some(checker.whole()),
        Err(_) => None,
    }
}
