//! Room for the bytes that are read of a source: little at first, since most inputs are small.
ghost use Rattle.std.specs.Prelude.{vec_len, IfOk};
ghost use Rattle.jser_check.specs.Sources.{IsRoom};

use std::alloc::{AllocError, Global};

/// How many bytes the first read asks for at most: a page.
const FIRST_LEN: usize = 4_096;

/// How many bytes a later read asks for at most: 14 pages, so that each read of a file begins at a page.
const BUFFER_LEN: usize = 57_344;

/// Room for the first read of a source: 4,096 bytes.
///
/// # Errors
///
/// Where memory runs out.
pub(crate) fn first_buffer(alloc: Global) -> Result<Vec<u8>, AllocError>
    ensures { IfOk result (λ buffer. IsRoom (vec_len buffer)) }
{
    vec![in alloc; 0u8; FIRST_LEN]
}

/// The buffer for the read after one of `count` bytes: one of 57,344 bytes if these filled the first buffer and memory allows,
/// else the same buffer.
pub(crate) fn next_buffer(alloc: Global, buffer: Vec<u8>, count: usize) -> Vec<u8>
    requires { IsRoom (vec_len buffer) }
    ensures { IsRoom (vec_len result) }
{
    if count < buffer.len() || buffer.len() >= BUFFER_LEN {
        return buffer;
    }
    match vec![in alloc; 0u8; BUFFER_LEN] {
        Ok(larger) => larger,
        Err(_) => buffer,
    }
}
