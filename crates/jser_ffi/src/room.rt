//! A text in a room that C brings.
ghost use Rattle.std.specs.Prelude.{◌≡◌, ◌⊎◌, ◌<◌, ◌++◌, ℕ, List, drop, length, min, option_map, take};
ghost use Rattle.jser_commands.specs.Limits.{BeginsText};
ghost use Rattle.jser_ffi.specs.Lines.{PutsAny};
ghost use Rattle.jser_ffi.specs.Rooms.{Puts, PutsUpTo};
ghost use Rattle.jser_ffi.specs.Texts.{HasText};
ghost use Rattle.jser_ffi.specs.Told.{TextZeros, bare_answer};

use crate::answer::{Answer, NO_MEMORY, SMALL, SPENT, YES, bare};
use jser_commands::Start;

/// Puts a text into a room, or as many of its first bytes as the room has. The answer has the length of the text.
pub(crate) fn put(text: &[u8], room: &mut [u8]) -> Answer
    ensures puts { Puts text.now room.old room.new result }
    ensures zeros { TextZeros result }
{
    let length = text.len() as u64;
    if text.len() <= room.len() {
        let (front, _) = room.split_at_mut(text.len());
        front.copy_from_slice(text);
        with_length(YES, length)
    } else {
        let (front, _) = text.split_at(room.len());
        room.copy_from_slice(front);
        with_length(SMALL, length)
    }
}

/// The answer with the length of a text.
#[tactic(auto, using(crate::proofs::ZeroLemmas::shown_zeros))]
fn with_length(status: u32, length: u64) -> Answer
    requires { (status ≡ 0) ⊎ (status ≡ 6) }
    ensures status { result.status ≡ status }
    ensures length { result.bytes ≡ length }
    ensures zeros { TextZeros result }
{
    Answer {
        bytes: length,
        ..bare(status)
    }
}

/// Puts a text into a room, if there is one.
pub(crate) fn put_any(text: Option<&str>, room: &mut [u8]) -> Answer
    ensures puts { PutsAny (option_map (λ text. text.now) text.entry) room.old room.new result }
    ensures zeros { TextZeros result }
{
    match text {
        Some(text) => put(text.as_bytes(), room),
        None => bare(SPENT),
    }
}

/// Puts a text into a room of which these are all bytes, or more than `most` of the first.
#[tactic(auto, using(crate::proofs::RoomLemmas::puts_within, crate::proofs::RoomLemmas::puts_beyond))]
pub(crate) fn put_start(start: &Start, most: usize, room: &mut [u8]) -> Answer
    ensures puts { (text : List ℕ) → BeginsText start.now text → HasText result → PutsUpTo most text room.old room.new result }
    ensures kept { result.status ≡ 3 → room.new ≡ room.old }
    ensures known { (result.status ≡ 0) ⊎ ((result.status ≡ 3) ⊎ (result.status ≡ 6)) }
    ensures zeros { TextZeros result }
{
    if start.bytes.len() > most {
        put_front(&start.bytes, most, room);
        return bare(SMALL);
    }
    if start.whole {
        return put(&start.bytes, room);
    }
    bare(NO_MEMORY)
}

/// Puts so many of the first bytes of a text into a room, or as many as it has.
fn put_front(text: &[u8], most: usize, room: &mut [u8])
    requires { most < length text.now }
    ensures { room.new ≡ take (min most (length room.old)) text.now ++ drop (min most (length room.old)) room.old }
{
    let count = most.min(room.len());
    let (front, _) = text.split_at(count);
    let (place, _) = room.split_at_mut(count);
    place.copy_from_slice(front);
}
