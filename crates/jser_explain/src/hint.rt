//! What bytes look like that are no stream.

ghost use Rattle.std.specs.Prelude.{◌≤◌, length};

use jser_reader::Reason;
use jser_scan::Found;

/// The line that says so, where the bytes have no header and look like something else; else nothing.
pub(crate) fn hint_of(found: &Found, bytes: &[u8]) -> &'static [u8]
    ensures { length result.now ≤ 64 }
{
    match found {
        Found::Refused { refusal, .. } if refusal.reason == Reason::BadHeader => looks_like(bytes),
        _ => b"",
    }
}

/// What bytes look like.
fn looks_like(bytes: &[u8]) -> &'static [u8]
    ensures { length result.now ≤ 64 }
{
    if bytes.starts_with(b"rO0AB") {
        b"  The bytes look like base64: try --base64.\n"
    } else if bytes.len() >= 8 && bytes[..8].eq_ignore_ascii_case(b"aced0005") {
        b"  The bytes look like hexadecimal: try --hex.\n"
    } else if bytes.starts_with(&[0x1F, 0x8B]) {
        b"  The bytes look like gzip: unpack them first.\n"
    } else if bytes.starts_with(b"PK\x03\x04") {
        b"  The bytes look like zip: unpack them first.\n"
    } else if bytes.starts_with(b"{") || bytes.starts_with(b"[") {
        b"  The bytes look like JSON, which holds no Java objects.\n"
    } else {
        b""
    }
}
