//! The units of a text of which all bytes are there.
ghost use Rattle.std.specs.Prelude.{◌≡◌, ◌<◌, ◌∷◌, ◌++◌, [], ℕ, List, length, true, false, Ok, OnOk};
ghost use Rattle.jser_prim.specs.ModifiedUtf8.{IsUnits, modified_utf8};
ghost use Rattle.jser_prim.specs.Texts.{BeginsText, HasAccepted};

use crate::scan::TextScan;
use std::alloc::AllocError;

/// Puts the UTF-16 units that the bytes spell in modified UTF-8 in place of those in `units`, and says whether they spell
/// any: bytes that are no text leave the units of their front there. Takes memory where `units` has too little room.
///
/// # Errors
///
/// `AllocError` where there was no memory for the units.
#[tactic(auto, using(crate::proofs::ReadLemmas::none_read, crate::proofs::ReadLemmas::has_room))]
pub fn read_units(bytes: &[u8], units: &mut Vec<u16>) -> Result<bool, AllocError>
    ensures units { result ≡ Ok true → IsUnits units.new.items }
    ensures spelled { result ≡ Ok true → modified_utf8 units.new.items ≡ bytes.now }
    ensures only { OnOk result ((told : List ℕ) → IsUnits told → modified_utf8 told ≡ bytes.now → units.new.items ≡ told) }
    ensures none { result ≡ Ok false → (told : List ℕ) → IsUnits told → modified_utf8 told ≡ bytes.now → ⊥ }
{
    units.clear();
    let mut scan = TextScan::new(bytes.len() as u64);
    'bytes: for byte in bytes {
        if !push_onto(&mut scan, *byte, units)? {
            return Ok(false);
        }
    }
    Ok(true)
}

/// Scans a byte, and adds the unit that it ends, if it ends one. False where no text goes on with the byte.
fn push_onto(scan: &mut TextScan, byte: u8, units: &mut Vec<u16>) -> Result<bool, AllocError>
    requires { 0 < scan.old.left }
    ensures goes_on { result ≡ Ok true → (len : ℕ) (bytes : List ℕ) → HasAccepted len bytes units.old.items scan.old
        → HasAccepted len (bytes ++ byte ∷ []) units.new.items scan.new }
    ensures lost { result ≡ Ok false → (len : ℕ) (bytes : List ℕ) → HasAccepted len bytes units.old.items scan.old
        → BeginsText len (bytes ++ byte ∷ []) → ⊥ }
{
    match scan.push(byte) {
        Ok(None) => Ok(true),
        Ok(Some(unit)) => match units.push(unit) {
            Ok(()) => Ok(true),
            Err(_) => Err(AllocError),
        },
        Err(_) => Ok(false),
    }
}
