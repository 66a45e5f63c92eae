//! The class of a name of which all bytes are given.
ghost use Rattle.std.specs.Prelude.{◌≡◌, ℕ, List, Ok, None, length, IfOk, IfSome};
ghost use Rattle.jser_anywhere.specs.Standing.{StandsAt};

use crate::names::Names;
use std::alloc::{AllocError, Global};

/// The class of a name that stands at the first of these bytes and ends with the last, if one does. Takes memory for its units.
///
/// # Errors
///
/// `AllocError` where there was no memory for them.
// Out of line, since names take 18 kilobytes of a frame.
#[inline(never)]
#[tactic(auto, using(crate::proofs::WholeLemmas::first_names, crate::proofs::WholeLemmas::named_here))]
pub fn whole_class(alloc: Global, bytes: &[u8]) -> Result<Option<Vec<u16>>, AllocError>
    ensures named { IfOk result (λ found. IfSome found (λ units. StandsAt bytes.now 0 (length bytes.now) units.items)) }
    ensures none { result ≡ Ok None → (units : List ℕ) → StandsAt bytes.now 0 (length bytes.now) units → ⊥ }
{
    let mut names = Names::new(bytes);
    'names: while let Some(found) = names.next() {
        if found.from == 0 && found.to == bytes.len() {
            let units = names.units().to_vec(alloc)?;
            return Ok(Some(units));
        }
    }
    Ok(None)
}
