//! Bytes from a source, for a gateway that reads from a network.
ghost use Rattle.std.specs.Prelude.{◌≡◌, ◌≤◌, ◌↔◌, ℕ, List, length, false, true, IfOk, IfSome, IsSome, OnErr, IsTrue, Ok};
ghost use Rattle.std.specs.Io.KnownBytes.{ReadConsumes};

use jser_prim::{Failed, FromRead, Source};
use std::io::Read;

/// Takes the next bytes, and tries once more where that fails. A failed try loses no byte.
///
/// # Errors
///
/// `Failed` where both fail.
pub fn take_again<R: Source>(source: &mut R, buf: &mut [u8]) -> Result<usize, Failed>
    ensures within { IfOk result (λ count. count ≤ length buf.new) }
    ensures bytes { ReadConsumes (R.to_come source.old) (R.to_come source.new) result buf.new }
    ensures failed { OnErr result (R.has_failed source.new ≡ true) }
    ensures remembers { (all : List ℕ) → R.remembers source.old all → R.remembers source.new all }
{
    match source.take(buf) {
        Ok(count) => Ok(count),
        Err(_) => source.take(buf),
    }
}

/// Takes the next bytes, and tells the last of them.
pub fn last_taken<R: Source>(source: &mut R, buf: &mut [u8]) -> Option<u8>
    ensures { IsSome result → R.has_failed source.new ≡ R.has_failed source.old }
{
    match source.take(buf) {
        Ok(count) if count > 0 => Some(buf[count - 1]),
        _ => None,
    }
}

/// Whether the source fails now, and did not before.
pub fn fails_now<R: Source>(source: &mut R, buf: &mut [u8]) -> bool
    ensures { IsTrue result ↔ ((R.has_failed source.old ≡ false) × (R.has_failed source.new ≡ true)) }
{
    let failed_before = source.failed();
    let taken = source.take(buf);
    !failed_before && taken.is_err()
}

/// A source over a reader whose first bytes were read into `buf`, and how many these are, unless that failed.
pub fn opened<R: Read + Drop>(reader: R, buf: &mut [u8]) -> Option<(FromRead<R>, usize)>
    ensures bytes { IfSome result (λ open_source. ReadConsumes {E = Failed} (R.remaining reader) open_source.0.bytes (Ok open_source.1) buf.new) }
    ensures failed { IfSome result (λ open_source. open_source.0.has_failed ≡ false) }
{
    let mut source = FromRead::new(reader);
    match source.take(buf) {
        Ok(count) => Some((source, count)),
        Err(_) => None,
    }
}
