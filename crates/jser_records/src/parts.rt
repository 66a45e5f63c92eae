//! The fields of a line: TAB is between them, one is the value, and the others are the KEY.

ghost use Rattle.std.specs.Prelude.{◌≤◌, ◌-◌, ℕ, None, Some, length};
ghost use Rattle.jser_records.specs.Fields.{AreParts, AreWithin, StartsAt};

use memchr::{memchr, memrchr};

/// Where the value of a line is.
#[derive(Clone, Copy, PartialEq, Eq, Debug)]
pub(crate) struct Parts {
    /// The end of the fields before it.
    pub(crate) front: usize,
    /// Where it begins.
    pub(crate) from: usize,
    /// Its end.
    pub(crate) to: usize,
}

/// Where the value of a line is: its last field, or that of this number, from 1. Where the line has fewer fields, the value is
/// empty, and all of the line is before it.
pub(crate) fn parts_of(line: &[u8], field: Option<u64>) -> Parts
    ensures within { AreWithin (length line.now) result }
    ensures value { AreParts field line.now result }
{
    match field {
        None => last_part(line),
        Some(number) => numbered_part(line, number),
    }
}

/// The last field.
fn last_part(line: &[u8]) -> Parts
    ensures within { AreWithin (length line.now) result }
    ensures value { AreParts None line.now result }
{
    match memrchr(b'\t', line) {
        Some(at) => Parts {
            front: at,
            from: at + 1,
            to: line.len(),
        },
        None => Parts {
            front: 0,
            from: 0,
            to: line.len(),
        },
    }
}

/// The field of a number.
fn numbered_part(line: &[u8], number: u64) -> Parts
    ensures within { AreWithin (length line.now) result }
    ensures value { AreParts (Some number) line.now result }
{
    let mut from = 0;
    let mut left = number.saturating_sub(1);
    'fields: while left > 0 {
        left -= 1;
        let (_, rest) = line.split_at(from);
        match memchr(b'\t', rest) {
            Some(at) => from += at + 1,
            None => {
                return Parts {
                    front: line.len(),
                    from: line.len(),
                    to: line.len(),
                };
            }
        }
    }
    part_from(line, from)
}

/// The field that begins there.
fn part_from(line: &[u8], from: usize) -> Parts
    requires { from ≤ length line.now }
    ensures within { AreWithin (length line.now) result }
    ensures value { (number : ℕ) → StartsAt line.now from (number - 1) → AreParts (Some number) line.now result }
{
    let (_, rest) = line.split_at(from);
    match memchr(b'\t', rest) {
        Some(at) => Parts {
            front: from.saturating_sub(1),
            from,
            to: from + at,
        },
        None => Parts {
            front: from.saturating_sub(1),
            from,
            to: line.len(),
        },
    }
}
