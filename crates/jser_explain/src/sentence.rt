//! What the reason of a refusal means.
ghost use Rattle.std.specs.Prelude.{◌≤◌, length};

use jser_commands::{meaning_of, meaning_of_hidden};
use jser_scan::Found;

/// What the reason of a refusal means, in a sentence; nothing where nothing is refused.
pub(crate) fn sentence_of(found: &Found) -> &'static [u8]
    ensures { length result.now ≤ 160 }
{
    match found {
        Found::Refused { refusal, .. } => meaning_of(refusal.reason).as_bytes(),
        Found::Hidden { .. } => meaning_of_hidden().as_bytes(),
        _ => b"",
    }
}
