//! Where a text is, and how much white space may still come. Without such a bound a text without end, of white space alone, would
//! be read for ever.
ghost use Rattle.std.specs.Prelude.{◌≡◌, ◌<◌, ◌-◌, ◌^◌};
ghost use Rattle.jser_inputs.specs.Places.{Fits, FitsMove, FitsStep, first_spot, move_of, move_over_space, moved, space_passed};

use crate::form::Form;
use crate::place::{Place, Step, first_place, step_by_place};
use crate::space::is_space;

/// How many characters of white space may come before the first byte.
const SPARE_SPACE: u64 = 1_048_576;

/// Where a text is.
#[derive(Clone, Copy, PartialEq, Eq, Debug)]
pub struct Spot {
    /// The place.
    pub place: Place,
    /// How many characters of white space may come: at first 2^20, and one more for each byte.
    pub spare: u64,
}

/// What a character does to a text.
#[derive(Clone, Copy, PartialEq, Eq, Debug)]
pub enum Move {
    /// It completes no byte, and the text is here behind it.
    Goes(Spot),
    /// It completes this byte, and the text is here behind it.
    Gives(u8, Spot),
    /// It may not come there.
    Wrong,
}

/// Where a text of a form begins.
pub(crate) fn first_spot(form: Form) -> Spot
    ensures spot { result ≡ first_spot form }
    ensures fits { Fits result.place }
{
    Spot {
        place: first_place(form),
        spare: SPARE_SPACE,
    }
}

/// What a character does.
pub(crate) fn move_of(spot: Spot, byte: u8) -> Move
    requires fits { Fits spot.place }
    requires room { spot.spare < 2 ^ 64 - 1 }
    ensures is { result ≡ move_of spot byte }
    ensures fits { FitsMove spot.spare result }
{
    if is_space(byte) {
        over_space(spot.place, spot.spare, byte)
    } else {
        moved(spot.spare, step_by_place(spot.place, byte))
    }
}

/// White space is passed over, but in bytes as they are.
fn over_space(place: Place, spare: u64, byte: u8) -> Move
    requires { Fits place }
    ensures is { result ≡ move_over_space place spare byte }
    ensures fits { FitsMove spare result }
{
    match place {
        Place::Bytes => Move::Gives(
            byte,
            Spot {
                place: Place::Bytes,
                spare,
            },
        ),
        Place::Wrong => Move::Wrong,
        _ => space_passed(place, spare),
    }
}

/// A character of white space, if it is not too many.
fn space_passed(place: Place, spare: u64) -> Move
    requires { Fits place }
    ensures is { result ≡ space_passed place spare }
    ensures fits { FitsMove spare result }
{
    if spare == 0 {
        Move::Wrong
    } else {
        Move::Goes(Spot {
            place,
            spare: spare - 1,
        })
    }
}

/// Another character.
fn moved(spare: u64, step: Step) -> Move
    requires fits { FitsStep step }
    requires room { spare < 2 ^ 64 - 1 }
    ensures is { result ≡ moved spare step }
    ensures fits { FitsMove spare result }
{
    match step {
        Step::Goes(place) => Move::Goes(Spot { place, spare }),
        Step::Gives(byte, Place::Bytes) => Move::Gives(
            byte,
            Spot {
                place: Place::Bytes,
                spare,
            },
        ),
        Step::Gives(byte, place) => Move::Gives(
            byte,
            Spot {
                place,
                spare: spare + 1,
            },
        ),
        Step::Wrong => Move::Wrong,
    }
}
