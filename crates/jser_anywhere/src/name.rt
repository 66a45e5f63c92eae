//! The text that some bytes are.
ghost use Rattle.std.specs.Prelude.{◌≡◌, ◌≤◌, Some, None, length, if◌then◌else◌};
ghost use Rattle.jser_anywhere.specs.Standing.{most_bytes};
ghost use Rattle.jser_anywhere.specs.Texts.{row_units};

use crate::text::{Place, Taken};
use arrayvec::ArrayVec;

/// The greatest length of a name in bytes: the first byte of a length is at most 23, and no loadable name has such a byte.
pub(crate) const MOST_BYTES: usize = 9215;

/// Room for the units of a text: it has no more units than bytes.
pub(crate) type Units = ArrayVec<u16, MOST_BYTES>;

/// Whether the bytes are a loose text with no byte below 20. If so `units` has its units, and nothing else.
#[tactic(auto, using(crate::proofs::NameLemmas::begins, crate::proofs::NameLemmas::reads_low, crate::proofs::NameLemmas::reads_refused, crate::proofs::NameLemmas::reads_more, crate::proofs::NameLemmas::reads_unit))]
pub(crate) fn read_text(bytes: &[u8], units: &mut Units) -> bool
    requires { length bytes.now ≤ most_bytes }
    ensures { row_units bytes.now ≡ (if result then Some units.new.items else None) }
{
    units.clear();
    let mut place = Place::First;
    'bytes: for byte in bytes {
        if *byte < 0x20 {
            return false;
        }
        match place.take(*byte) {
            Taken::Refused => return false,
            Taken::Part(next) => {
                place = next;
            }
            Taken::Unit(unit) => {
                units.push(unit);
                place = Place::First;
            }
        }
    }
    place.is_first()
}
