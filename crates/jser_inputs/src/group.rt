//! Whole groups of base64 and whole pairs of hexadecimal digits, one after another. Texts hold little else.
ghost use Rattle.std.specs.Prelude.{◌≡◌, ◌≤◌, ◌<◌, ◌+◌, ◌-◌, ◌^◌, length};
ghost use Rattle.jser_inputs.specs.declared.place.Place.TheVariants as ThePlace;
ghost use Rattle.jser_inputs.specs.Groups.{TurnsOn};
ghost use Rattle.jser_inputs.specs.Places.{Fits};

use crate::decode::Piece;
use crate::place::Place;
use crate::spot::Spot;
use jser_digits::{Alphabet, NO_GROUP, NO_PAIR, group_bits, pair_bits};

/// Takes pairs of digits from here on, as long as there are.
#[tactic(auto, using(crate::proofs::RunLemmas::run_begins, crate::proofs::RunLemmas::pair_step))]
pub(crate) fn take_pairs(from: Piece, buf: &mut [u8], count: usize) -> Piece
    requires place { from.spot.place ≡ ThePlace.High }
    requires inside { count ≤ length buf.old }
    requires few { (from.given ≤ from.taken) × (from.taken ≤ count) }
    requires room { from.spot.spare + (count - from.taken) < 2 ^ 64 }
    ensures turns { TurnsOn from.spot result.spot buf.old buf.new count from.taken from.given result.taken result.given }
    ensures few { (result.given ≤ result.taken) × (result.taken ≤ count) }
    ensures ahead { from.taken ≤ result.taken }
    ensures fits { Fits result.spot.place }
    ensures room { result.spot.spare + from.taken ≤ from.spot.spare + result.taken }
    ensures size { length buf.new ≡ length buf.old }
{
    let mut given = from.given;
    let mut taken = from.taken;
    'pairs: while count - taken >= 2 {
        let bits = pair_bits(buf[taken], buf[taken + 1]);
        if bits >= NO_PAIR {
            break;
        }
        buf[given] = bits as u8;
        given += 1;
        taken += 2;
    }
    let spare = from.spot.spare + (given - from.given) as u64;
    Piece {
        given,
        taken,
        spot: Spot {
            place: Place::High,
            spare,
        },
    }
}

/// Takes groups of digits from here on, as long as there are.
#[tactic(auto, using(crate::proofs::RunLemmas::run_begins, crate::proofs::BitStepLemmas::bits_step))]
pub(crate) fn take_groups(alphabet: Alphabet, from: Piece, buf: &mut [u8], count: usize) -> Piece
    requires place { from.spot.place ≡ ThePlace.First alphabet }
    requires inside { count ≤ length buf.old }
    requires few { (from.given ≤ from.taken) × (from.taken ≤ count) }
    requires room { from.spot.spare + (count - from.taken) < 2 ^ 64 }
    ensures turns { TurnsOn from.spot result.spot buf.old buf.new count from.taken from.given result.taken result.given }
    ensures few { (result.given ≤ result.taken) × (result.taken ≤ count) }
    ensures ahead { from.taken ≤ result.taken }
    ensures fits { Fits result.spot.place }
    ensures room { result.spot.spare + from.taken ≤ from.spot.spare + result.taken }
    ensures size { length buf.new ≡ length buf.old }
{
    let mut given = from.given;
    let mut taken = from.taken;
    'groups: while count - taken >= 4 {
        let bits = group_bits(
            alphabet,
            buf[taken],
            buf[taken + 1],
            buf[taken + 2],
            buf[taken + 3],
        );
        if bits >= NO_GROUP {
            break;
        }
        buf[given] = (bits / 65536) as u8;
        buf[given + 1] = (bits / 256 % 256) as u8;
        buf[given + 2] = (bits % 256) as u8;
        given += 3;
        taken += 4;
    }
    let spare = from.spot.spare + (given - from.given) as u64;
    Piece {
        given,
        taken,
        spot: Spot {
            place: Place::First { alphabet },
            spare,
        },
    }
}
