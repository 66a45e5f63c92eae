//! The checks of jser_check: of a slice, of a source, and in pieces, with names at any place and without.

use crate::texts::Drops;
use jser_check::{
    AnywhereChecker, AnywhereFault, CheckFault, Checker, FilterGate, Options, Refusal, Report,
    Stop, check_anywhere, check_bytes, check_reader,
};
use jser_filter::Filter;
use jser_prim::Source;
use jser_reader::Gate;
use std::alloc::{AllocError, Global};

/// The counts of a stream in memory.
pub fn whole(alloc: Global, bytes: &[u8], filter: &Filter) -> Result<[u64; 5], Stop> {
    let report: Report = check_bytes(alloc, bytes, filter, Options { strict: true })?;
    Ok([
        report.bytes,
        report.contents,
        report.refs,
        report.depth,
        report.handles,
    ])
}

/// Whether the stream of a source passes, and of a slice that comes byte by byte.
pub fn sources<R: Source>(alloc: Global, source: &mut R, bytes: &[u8], filter: &Filter) -> u8 {
    let options = Options { strict: false };
    let mut drops = Drops::of(bytes);
    let _ = check_reader::<Drops<'_>>(alloc, &mut drops, filter, options);
    match check_reader::<R>(alloc, source, filter, options) {
        Ok(_) => 0,
        Err(CheckFault::Stop(Stop::Refused(Refusal { .. }))) => 1,
        Err(CheckFault::Stop(_)) => 2,
        Err(CheckFault::ReadFault) => 3,
    }
}

/// Whether the stream of a source passes, with the names at any place.
pub fn sources_anywhere<R: Source>(alloc: Global, source: &mut R, filter: &Filter) -> u8 {
    match check_anywhere::<R>(alloc, source, filter, Options { strict: false }) {
        Ok(_) => 0,
        Err(AnywhereFault::Stop(_)) => 1,
        Err(AnywhereFault::ReadFault) => 2,
        Err(
            AnywhereFault::Hidden {
                from_byte: 0,
                to_byte: _,
            },
        ) => 3,
        Err(AnywhereFault::Hidden { .. }) => 4,
    }
}

/// A check in pieces that owns its filter: it is given away, and serves for one stream after another.
pub fn checker(alloc: Global, filter: Filter) -> Checker {
    let mut checker: Checker = Checker::new(alloc, filter, Options { strict: true });
    checker.restart();
    checker
}

/// The check of two pieces.
pub fn two_pieces(checker: &mut Checker, first: &[u8], second: &[u8]) -> Result<Report, Stop> {
    checker.feed(first)?;
    checker.feed(second)?;
    checker.finish()
}

/// A check in pieces that asks about names at any place.
pub fn anywhere(alloc: Global, filter: Filter) -> Result<AnywhereChecker, AllocError> {
    let mut checker: AnywhereChecker = Checker::new_anywhere(
        alloc,
        filter,
        Options { strict: true },
    )?;
    checker.restart();
    Ok(checker)
}

/// The check of a piece, with the names at any place.
pub fn piece_anywhere(
    checker: &mut AnywhereChecker,
    piece: &[u8],
) -> Result<Report, AnywhereFault> {
    checker.feed(piece)?;
    checker.finish()
}

/// The limits of the gate of a filter.
pub fn gate_limits(filter: &Filter) -> (u64, u32, u64, u32, u32) {
    let gate: FilterGate = FilterGate::new(filter, Options { strict: true });
    (
        gate.max_bytes(),
        gate.max_depth(),
        gate.max_refs(),
        gate.max_array(),
        gate.max_handles(),
    )
}
