//! The bytes of a source, if they are not too many.
ghost use Rattle.std.specs.Prelude.{◌≡◌, ◌≢◌, ◌<◌, ◌≤◌, ◌+◌, IfOk, IfErr, OnOk, IfSome, length, take, vec_len, true, false};
ghost use Rattle.std.specs.Io.KnownBytes.{IsAtEnd};
ghost use Rattle.jser_grammar.specs.Caps.{most_bytes};
ghost use Rattle.jser_settings.specs.Settings.{most_modules_bytes};
ghost use Rattle.jser_settings.specs.Whole.{ReadsOnto};

use jser_prim::Source;
use std::alloc::{AllocError, Global};

/// Why there are no bytes.
#[derive(Clone, Copy)]
pub enum WholeFault {
    /// A read failed.
    Failed,
    /// There are more bytes than a file of modules may have.
    TooLong,
    /// Memory ran out.
    OutOfMemory,
}

/// The most bytes of a file of modules, 2^24.
const MOST: usize = 16_777_216;

/// How many bytes a read asks for at most.
const BUFFER_LEN: usize = 65_536;

/// All the bytes of a file of modules.
///
/// # Errors
///
/// `WholeFault`, with the reason.
pub(crate) fn read_whole<R: Source>(alloc: Global, source: &mut R) -> Result<Vec<u8>, WholeFault>
    ensures bytes { IfOk result (λ whole. IfSome (R.to_come source.old) (λ bytes. bytes ≡ whole.items)) }
    ensures within { IfOk result (λ whole. vec_len whole ≤ most_modules_bytes) }
    ensures unbroken { OnOk result (R.has_failed source.new ≡ R.has_failed source.old) }
    ensures broken { result ≡ Err WholeFault.Failed → R.has_failed source.new ≡ true }
    ensures ran_out { result ≡ Err WholeFault.OutOfMemory → R.has_failed source.new ≡ R.has_failed source.old }
    ensures too_long { result ≡ Err WholeFault.TooLong → IfSome (R.to_come source.old) (λ bytes. most_modules_bytes < length bytes) }
{
    let whole = match read_front(alloc, source, MOST) {
        Ok(front) => front,
        Err(fault) => return Err(fault),
    };
    if whole.len() > MOST {
        return Err(WholeFault::TooLong);
    }
    Ok(whole)
}

/// The first bytes of a source: all of them, or one more than `most` where there are more than that.
///
/// # Errors
///
/// `WholeFault::Failed` where a read failed, `WholeFault::OutOfMemory` where memory ran out.
#[tactic(auto, using(crate::proofs::WholeLemmas::reads_on, crate::proofs::WholeLemmas::reads_nothing, crate::proofs::WholeLemmas::front_at_end, crate::proofs::WholeLemmas::front_of_many))]
pub fn read_front<R: Source>(
    alloc: Global,
    source: &mut R,
    most: usize,
) -> Result<Vec<u8>, WholeFault>
    requires { most ≤ most_bytes }
    ensures bytes { IfOk result (λ front. IfSome (R.to_come source.old) (λ bytes. take (most + 1) bytes ≡ front.items)) }
    ensures within { IfOk result (λ front. vec_len front ≤ most + 1) }
    ensures unbroken { OnOk result (R.has_failed source.new ≡ R.has_failed source.old) }
    ensures broken { result ≡ Err WholeFault.Failed → R.has_failed source.new ≡ true }
    ensures ran_out { result ≡ Err WholeFault.OutOfMemory → R.has_failed source.new ≡ R.has_failed source.old }
    ensures cut { result ≢ Err WholeFault.TooLong }
{
    let Ok(mut buffer) = new_buffer(alloc) else {
        return Err(WholeFault::OutOfMemory);
    };
    let mut front = Vec::new(alloc);
    'reads: while front.len() <= most {
        let room = (most + 1 - front.len()).min(buffer.len());
        match read_some(source, &mut buffer[..room], &mut front) {
            Err(fault) => return Err(fault),
            Ok(false) => return Ok(front),
            Ok(true) => {}
        }
    }
    Ok(front)
}

/// Room for the bytes of a read.
fn new_buffer(alloc: Global) -> Result<Vec<u8>, AllocError>
    ensures { IfOk result (λ buffer. 0 < vec_len buffer) }
{
    vec![in alloc; 0u8; BUFFER_LEN]
}

/// One read: adds the bytes that it gives. `false` is the end.
#[tactic(auto, using(crate::proofs::WholeLemmas::reads_nothing))]
fn read_some<R: Source>(
    source: &mut R,
    buffer: &mut [u8],
    all: &mut Vec<u8>,
) -> Result<bool, WholeFault>
    requires { 0 < length buffer.old }
    ensures read { OnOk result (ReadsOnto (R.to_come source.old) (R.to_come source.new) all.old.items all.new.items) }
    ensures unbroken { OnOk result (R.has_failed source.new ≡ R.has_failed source.old) }
    ensures broken { result ≡ Err WholeFault.Failed → R.has_failed source.new ≡ true }
    ensures ran_out { result ≡ Err WholeFault.OutOfMemory → R.has_failed source.new ≡ R.has_failed source.old }
    ensures cut { result ≢ Err WholeFault.TooLong }
    ensures end { result ≡ Ok false → IsAtEnd (R.to_come source.new) × (all.new.items ≡ all.old.items) }
    ensures grows { result ≡ Ok true → vec_len all.old < vec_len all.new }
    ensures within { vec_len all.new ≤ vec_len all.old + length buffer.old }
{
    let count = match source.take(buffer) {
        Ok(count) => count,
        Err(_) => return Err(WholeFault::Failed),
    };
    if count == 0 {
        return Ok(false);
    }
    if all.extend_from_slice(&buffer[..count]).is_err() {
        return Err(WholeFault::OutOfMemory);
    }
    Ok(true)
}
