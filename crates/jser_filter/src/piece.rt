//! The pieces of a filter's text: limits, patterns and empty ones.
ghost use Rattle.std.specs.Prelude.{◌≡◌, IfOk, IfErr};
ghost use Rattle.jser_filter.specs.Pieces.{read_piece, read_limit, read_pattern, read_named, read_name, lacks_package, view_piece, IsCauseOf};

use crate::cut::cut;
use crate::fault::FilterCause;
use crate::limit::{Limit, limit_value};
use crate::pattern::NamePattern;
use crate::units::Units;
use jser_table::is_text;
use std::alloc::Global;

/// A pattern of names.
#[derive(Drop)]
pub(crate) struct Pattern {
    pub(crate) rejects: bool,
    pub(crate) in_module: Option<Units>,
    pub(crate) name: NamePattern,
}

/// What a piece says. An empty one says nothing, and keeps its place in the order. A pattern lies on the heap, so that a text
/// of separators alone costs 16 bytes a piece.
#[derive(Drop)]
pub(crate) enum Piece {
    Empty,
    Limit(Limit, u64),
    Pattern(Box<Pattern>),
}

const EQUALS: u16 = 0x3D;

const REJECTS: u16 = 0x21;

const SLASH: u16 = 0x2F;

impl Piece {
    /// Reads a piece, or tells what is wrong with it.
    pub(crate) fn read(alloc: Global, units: &[u16]) -> Result<Piece, FilterCause>
        ensures piece { IfOk result (λ piece. view_piece piece ≡ read_piece units.now) }
        ensures cause { IfErr result (IsCauseOf (read_piece units.now)) }
    {
        if units.is_empty() {
            return Ok(Piece::Empty);
        }
        match cut(units, EQUALS) {
            Some((name, value)) => read_limit(name, value),
            None => read_pattern(alloc, units),
        }
    }
}

/// Reads `name=value`.
fn read_limit(name: &[u16], value: &[u16]) -> Result<Piece, FilterCause>
    ensures piece { IfOk result (λ piece. view_piece piece ≡ read_limit (name.now, value.now)) }
    ensures cause { IfErr result (IsCauseOf (read_limit (name.now, value.now))) }
{
    let Some(limit) = Limit::named(name) else {
        return Err(FilterCause::UnknownLimit);
    };
    let Some(value) = limit_value(value) else {
        return Err(FilterCause::BadLimit);
    };
    Ok(Piece::Limit(limit, value))
}

/// Reads a pattern: one leading `!` makes it a rejecting one.
fn read_pattern(alloc: Global, units: &[u16]) -> Result<Piece, FilterCause>
    ensures piece { IfOk result (λ piece. view_piece piece ≡ read_pattern units.now) }
    ensures cause { IfErr result (IsCauseOf (read_pattern units.now)) }
{
    match units {
        [REJECTS, units @ ..] => read_named(alloc, true, units),
        _ => read_named(alloc, false, units),
    }
}

/// Reads `module/name`, or a name pattern alone.
fn read_named(alloc: Global, rejects: bool, units: &[u16]) -> Result<Piece, FilterCause>
    ensures piece { IfOk result (λ piece. view_piece piece ≡ read_named rejects units.now) }
    ensures cause { IfErr result (IsCauseOf (read_named rejects units.now)) }
{
    match cut(units, SLASH) {
        None => read_name(alloc, rejects, None, units),
        Some(([], _)) => Err(FilterCause::ModuleMissing),
        Some((module, name)) => {
            let module = Units::copy_of(alloc, module)?;
            read_name(alloc, rejects, Some(module), name)
        }
    }
}

/// Reads a name pattern.
fn read_name(
    alloc: Global,
    rejects: bool,
    in_module: Option<Units>,
    units: &[u16],
) -> Result<Piece, FilterCause>
    ensures piece { IfOk result (λ piece. view_piece piece ≡ read_name rejects in_module units.now) }
    ensures cause { IfErr result (IsCauseOf (read_name rejects in_module units.now)) }
{
    if units.is_empty() {
        return Err(FilterCause::NameMissing);
    }
    if lacks_package(units) {
        return Err(FilterCause::PackageMissing);
    }
    let name = NamePattern::read(alloc, units)?;
    let pattern = Pattern {
        rejects,
        in_module,
        name,
    };
    match Box::new(alloc, pattern) {
        Ok(pattern) => Ok(Piece::Pattern(pattern)),
        Err(_) => Err(FilterCause::OutOfMemory),
    }
}

/// Whether the name pattern is `.*` or `.**` alone.
fn lacks_package(units: &[u16]) -> bool
    ensures { result ≡ lacks_package units.now }
{
    is_text(units, b".*") || is_text(units, b".**")
}
