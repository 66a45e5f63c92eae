//! Texts of modified UTF-8, in one piece and in several.
ghost use Rattle.std.specs.Prelude.{◌≡◌, ◌<◌, ◌≤◌, ◌+◌, ◌↔◌, ℕ, List, min, [], ◌∷◌, ◌++◌, length, true, false, IsTrue, IsOk, IsSome, IfOk, IfSome};
ghost use Rattle.jser_prim.specs.ModifiedUtf8.{modified_utf8};
ghost use Rattle.jser_prim.specs.Texts.{BeginsText, FaultsAfter, HasAccepted};

use jser_prim::{TextFault, TextScan, is_plain_between};
use std::alloc::{AllocError, Global};

/// Whether the bytes are a text.
pub fn is_text(bytes: &[u8]) -> bool
    ensures { IsTrue result ↔ BeginsText (length bytes.now) bytes.now }
{
    let mut text = TextScan::new(bytes.len() as u64);
    text.push_all(bytes).is_ok()
}

/// Whether the bytes are a whole text of this length.
pub fn is_whole(len: u64, bytes: &[u8]) -> bool
    requires { length bytes.now ≤ len }
    ensures { IsTrue result → length bytes.now ≡ len }
{
    let mut scan = TextScan::new(len);
    scan.push_all(bytes).is_ok() && scan.is_done()
}

/// How many bytes come before the first that makes the bytes no text, if one does.
pub fn first_fault(bytes: &[u8]) -> Option<usize>
    ensures { IfSome result (FaultsAfter (length bytes.now) [] bytes.now) }
{
    let mut scan = TextScan::new(bytes.len() as u64);
    match scan.push_all(bytes) {
        Ok(()) => None,
        Err(fault) => Some(fault.accepted),
    }
}

/// Scans more of a text, and tells the byte that is at fault, if one is.
pub fn faulty_byte(scan: &mut TextScan, bytes: &[u8]) -> Option<u8>
    requires { length bytes.now ≤ scan.old.left }
    ensures { IsSome result → scan.new.has_failed ≡ true }
{
    match scan.push_all(bytes) {
        Ok(()) => None,
        Err(fault) => Some(bytes[fault.accepted]),
    }
}

/// The last letter of the field between these places of a row, if the field is plain ASCII. It may miss one near the
/// end of the row.
pub fn last_letter(row: &[u8], from: usize, to: usize) -> Option<u8>
    requires some { from < to }
    requires within { from ≤ length row.now }
    ensures { IfSome result (λ letter. (1 ≤ letter) × (letter < 0x80)) }
{
    if is_plain_between(row, from, to) {
        Some(row[to - 1])
    } else {
        None
    }
}

/// What comes behind the field between these places of a row, if the field is plain ASCII.
pub fn behind_field(row: &[u8], from: usize, to: usize) -> Option<&[u8]>
    requires order { from ≤ to }
    requires within { from ≤ length row.now }
    ensures { IfSome result (λ rest. to + length rest.now ≡ length row.now) }
{
    if is_plain_between(row, from, to) {
        let (_, rest) = row.split_at(to);
        Some(rest)
    } else {
        None
    }
}

/// Whether the bytes are a text of plain ASCII. Each of them is then a unit of it.
pub fn is_plain_text(bytes: &[u8]) -> bool
    ensures { IsTrue result → bytes.now ≡ modified_utf8 bytes.now }
{
    let mut scan = TextScan::new(bytes.len() as u64);
    scan.push_plain(bytes) && scan.is_done()
}

/// Scans more of a text, at once where it is plain ASCII, and tells whether the text goes on with it.
pub fn push_piece(scan: &mut TextScan, piece: &[u8]) -> bool
    requires { length piece.now ≤ scan.old.left }
    ensures goes_on { (len : ℕ) (bytes units : List ℕ) → HasAccepted len bytes units scan.old
        → (IsTrue result ↔ BeginsText len (bytes ++ piece.now)) }
    ensures left { IsTrue result → scan.new.left + length piece.now ≡ scan.old.left }
{
    if scan.push_plain(piece) {
        return true;
    }
    scan.push_all(piece).is_ok()
}

/// Whether two pieces together are a text.
pub fn is_text_in_two(first: &[u8], second: &[u8]) -> bool
    ensures { IsTrue result ↔ BeginsText (length first.now + length second.now) (first.now ++ second.now) }
{
    let mut scan = TextScan::new(first.len() as u64 + second.len() as u64);
    scan.push_all(first).is_ok() && scan.push_all(second).is_ok()
}

/// Whether a text of this length can begin with the byte.
pub fn can_begin(len: u64, byte: u8) -> bool
    requires { 0 < len }
    ensures { IsTrue result ↔ BeginsText len (byte ∷ []) }
{
    TextScan::new(len).push(byte).is_ok()
}

/// Scans a byte, if the text is not complete.
pub fn push_more(scan: &mut TextScan, byte: u8) -> Option<Result<Option<u16>, TextFault>>
    ensures { result ≡ None ↔ scan.old.left ≡ 0 }
{
    if scan.is_done() {
        return None;
    }
    Some(scan.push(byte))
}

/// How many bytes of a piece are of the text. What follows them comes after it.
pub fn own_bytes(scan: &TextScan, piece: &[u8]) -> usize
    ensures { result ≡ min (length piece.now) scan.now.left }
{
    let left = scan.left();
    if left < piece.len() as u64 {
        left as usize
    } else {
        piece.len()
    }
}

/// Scans a byte, and tells whether the text is complete with it.
pub fn ends_with(scan: &mut TextScan, byte: u8) -> bool
    requires { 0 < scan.old.left }
    ensures { (len : ℕ) (bytes units : List ℕ) → HasAccepted len bytes units scan.old
        → IsTrue result → length (bytes ++ byte ∷ []) ≡ len }
{
    scan.push(byte).is_ok() && scan.is_done()
}

/// Scans two bytes, and tells whether the text goes on with both.
pub fn push_pair(scan: &mut TextScan, first: u8, second: u8) -> bool
    requires { 2 ≤ scan.old.left }
    ensures { IsTrue result → scan.new.left + 2 ≡ scan.old.left }
{
    scan.push(first).is_ok() && scan.push(second).is_ok()
}

/// Scans a byte, and tries again where it is at fault: that never helps.
///
/// # Errors
///
/// `TextFault`, as the scan says.
pub fn push_again(scan: &mut TextScan, byte: u8) -> Result<Option<u16>, TextFault>
    requires { 0 < scan.old.left }
    ensures { (len : ℕ) (bytes units : List ℕ) → HasAccepted len bytes units scan.old
        → (IsOk result ↔ BeginsText len (bytes ++ byte ∷ [])) }
{
    match scan.push(byte) {
        Ok(unit) => Ok(unit),
        Err(_) => scan.push(byte),
    }
}

/// Whether a byte that follows a fault completes the text: it never does.
pub fn is_mended(scan: &mut TextScan, byte: u8) -> bool
    requires left { 0 < scan.old.left }
    requires failed { scan.old.has_failed ≡ true }
    ensures { result ≡ false }
{
    let _ = scan.push(byte);
    scan.is_done()
}

/// Scans what came of a text, and tells whether the text is complete. One that was at fault before never is,
/// however much of it is still to come.
pub fn is_complete_after(scan: &mut TextScan, bytes: &[u8]) -> bool
    requires { length bytes.now ≤ scan.old.left }
    ensures { scan.old.has_failed ≡ true → result ≡ false }
{
    let _ = scan.push_all(bytes);
    scan.is_done()
}

/// Whether a text that is at fault in these bytes goes on with one more byte: it never does.
pub fn goes_on_after_fault(scan: &mut TextScan, bytes: &[u8], byte: u8) -> bool
    requires { length bytes.now ≤ scan.old.left }
    ensures { result ≡ false }
{
    match scan.push_all(bytes) {
        Ok(()) => false,
        Err(_) => scan.push(byte).is_ok(),
    }
}

/// Scans two pieces of a text that is at fault already, and tells whether the second is accepted: it never is.
pub fn drained(scan: &mut TextScan, first: &[u8], second: &[u8]) -> bool
    requires failed { scan.old.has_failed ≡ true }
    requires first { length first.now ≤ scan.old.left }
    requires second { length second.now ≤ scan.old.left }
    requires some { 0 < length second.now }
    ensures refused { result ≡ false }
    ensures kept { scan.new ≡ scan.old }
{
    let _ = scan.push_all(first);
    scan.push_all(second).is_ok()
}

/// The units of a text, if the bytes are one.
///
/// # Errors
///
/// `AllocError` where there was no memory for them.
pub fn units_in(alloc: Global, bytes: &[u8]) -> Result<Option<Vec<u16>>, AllocError>
    ensures { IfOk result (λ found. IfSome found (λ units. bytes.now ≡ modified_utf8 units.items)) }
{
    let mut scan = TextScan::new(bytes.len() as u64);
    let mut units = Vec::new(alloc);
    'bytes: for byte in bytes {
        if !push_onto(&mut scan, &mut units, *byte)? {
            return Ok(None);
        }
    }
    if scan.is_done() {
        Ok(Some(units))
    } else {
        Ok(None)
    }
}

/// Scans a byte, and adds the unit that it ends, if it ends one. `false` is a fault.
fn push_onto(scan: &mut TextScan, units: &mut Vec<u16>, byte: u8) -> Result<bool, AllocError>
    requires { 0 < scan.old.left }
    ensures { IfOk result (λ goes_on. IsTrue goes_on → (len : ℕ) (bytes : List ℕ)
        → HasAccepted len bytes units.old.items scan.old → HasAccepted len (bytes ++ byte ∷ []) units.new.items scan.new) }
{
    match scan.push(byte) {
        Ok(None) => Ok(true),
        Ok(Some(unit)) => {
            units.push(unit)?;
            Ok(true)
        }
        Err(_) => Ok(false),
    }
}
