//! The text of one read becomes bytes, in the place where it was read: no character completes more than one.
ghost use Rattle.std.specs.Prelude.{◌≡◌, ◌≤◌, ◌<◌, ◌+◌, ◌-◌, ◌^◌, ◌⊎◌, [], length, take, true};
ghost use Rattle.jser_inputs.specs.Places.{Fits, is_wrong};
ghost use Rattle.jser_inputs.specs.Groups.{TurnsOn};
ghost use Rattle.jser_inputs.specs.Spelled.{Reads};

use crate::group::{take_groups, take_pairs};
use crate::place::Place;
use crate::spot::{Move, Spot, move_of};

/// How far the text of a read came.
#[derive(Clone, Copy, Debug)]
pub(crate) struct Piece {
    /// How many bytes it spells.
    pub(crate) given: usize,
    /// How many of its characters are right.
    pub(crate) taken: usize,
    /// Where the text is behind them.
    pub(crate) spot: Spot,
}

/// Puts the bytes that the first `count` characters of `buf` spell at the front of `buf`. Where the text goes wrong it stops.
/// Bytes as they are stay where they are.
#[tactic(auto, using(crate::proofs::ReadLemmas::as_they_are))]
pub(crate) fn decode(start: Spot, buf: &mut [u8], count: usize) -> Piece
    requires fits { Fits start.place }
    requires room { start.spare + count < 2 ^ 64 }
    requires inside { count ≤ length buf.old }
    ensures reads { Reads start result.spot (take count buf.old) [] (take result.given buf.new) result.taken }
    ensures fits { Fits result.spot.place }
    ensures few { (result.given ≤ result.taken) × (result.taken ≤ count) }
    ensures moves { (is_wrong result.spot.place ≡ true) ⊎ (result.taken ≡ count) }
    ensures size { length buf.new ≡ length buf.old }
{
    match start.place {
        Place::Bytes => Piece {
            given: count,
            taken: count,
            spot: start,
        },
        _ => decode_text(start, buf, count),
    }
}

/// The bytes of a text of digits, in whole groups and else character by character.
#[tactic(auto, using(crate::proofs::ReadLemmas::reads_none, crate::proofs::ReadLemmas::reads_goes, crate::proofs::ReadLemmas::reads_gives, crate::proofs::ReadLemmas::reads_wrong))]
fn decode_text(start: Spot, buf: &mut [u8], count: usize) -> Piece
    requires fits { Fits start.place }
    requires room { start.spare + count < 2 ^ 64 }
    requires inside { count ≤ length buf.old }
    ensures reads { Reads start result.spot (take count buf.old) [] (take result.given buf.new) result.taken }
    ensures fits { Fits result.spot.place }
    ensures few { (result.given ≤ result.taken) × (result.taken ≤ count) }
    ensures moves { (is_wrong result.spot.place ≡ true) ⊎ (result.taken ≡ count) }
    ensures size { length buf.new ≡ length buf.old }
{
    let mut spot = start;
    let mut given = 0;
    let mut taken = 0;
    'characters: while taken < count {
        let run = take_run(Piece { given, taken, spot }, buf, count);
        given = run.given;
        taken = run.taken;
        spot = run.spot;
        if taken >= count {
            return run;
        }
        match move_of(spot, buf[taken]) {
            Move::Goes(next) => {
                taken += 1;
                spot = next;
            }
            Move::Gives(byte, next) => {
                buf[given] = byte;
                given += 1;
                taken += 1;
                spot = next;
            }
            Move::Wrong => {
                return Piece {
                    given,
                    taken,
                    spot: Spot {
                        place: Place::Wrong,
                        spare: spot.spare,
                    },
                };
            }
        }
    }
    Piece { given, taken, spot }
}

/// Takes whole pairs or groups from here on, where one may begin.
#[tactic(auto, using(crate::proofs::GroupLemmas::turns_none))]
#[inline(always)]
fn take_run(from: Piece, buf: &mut [u8], count: usize) -> Piece
    requires inside { count ≤ length buf.old }
    requires few { (from.given ≤ from.taken) × (from.taken ≤ count) }
    requires fits { Fits from.spot.place }
    requires room { from.spot.spare + (count - from.taken) < 2 ^ 64 }
    ensures turns { TurnsOn from.spot result.spot buf.old buf.new count from.taken from.given result.taken result.given }
    ensures few { (result.given ≤ result.taken) × (result.taken ≤ count) }
    ensures ahead { from.taken ≤ result.taken }
    ensures fits { Fits result.spot.place }
    ensures room { result.spot.spare + from.taken ≤ from.spot.spare + result.taken }
    ensures size { length buf.new ≡ length buf.old }
{
    match from.spot.place {
        Place::High => take_pairs(from, buf, count),
        Place::First { alphabet } => take_groups(alphabet, from, buf, count),
        _ => from,
    }
}
