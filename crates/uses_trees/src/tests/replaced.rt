//! Worked streams with one byte replaced by each other one: what is still read is written as the same bytes.

use crate::tests::{put, writes_what_it_reads};
use std::alloc::AllocGlobal;
use std::process::Abort;
use std::test::Fail;
use test_support::streams::{ARRAY_LIST, ENUM_CONSTANT, LINKED_PAIR};

/// Each byte in turn is replaced by each of the 256.
fn each_replaced(rt: &(impl Abort + AllocGlobal), bytes: &[u8]) -> Result<(), Fail> {
    let mut changed = bytes.to_vec(rt.alloc())?;
    each_replaced_in(rt, &mut changed, bytes)
}

/// Each byte in turn is replaced in this copy of the bytes, and put back.
fn each_replaced_in(
    rt: &(impl Abort + AllocGlobal),
    changed: &mut [u8],
    bytes: &[u8],
) -> Result<(), Fail> {
    for (place, own) in bytes.iter().enumerate() {
        for byte in 0..=255u8 {
            put(changed, place, byte);
            writes_what_it_reads(rt, changed)?;
        }
        put(changed, place, *own);
    }
    Ok(())
}

#[test]
fn linked_pair(rt: HostRuntime) -> Result<(), Fail> {
    each_replaced(&rt, LINKED_PAIR)
}

#[test]
fn enum_constant(rt: HostRuntime) -> Result<(), Fail> {
    each_replaced(&rt, ENUM_CONSTANT)
}

#[test]
fn array_list(rt: HostRuntime) -> Result<(), Fail> {
    each_replaced(&rt, ARRAY_LIST)
}
