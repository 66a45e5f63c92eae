//! Patterns: which names they match, and which of these they reject.
ghost use Rattle.std.specs.Prelude.{◌≡◌, ◌≤◌, length, IfOk};
ghost use Rattle.jser_filter.specs.Patterns.{name_pattern, view_name, without_last};

use crate::units::Units;
use std::alloc::{AllocError, Global};

/// A name pattern, read once: the units are those in front of its stars, or all of them.
#[derive(Drop)]
pub(crate) enum NamePattern {
    /// `P.**`, with its `P.`
    BelowPackage(Units),
    /// `P.*`, with its `P`
    InPackage(Units),
    /// `X*`, with its `X`
    Prefix(Units),
    /// Any other: the whole name.
    Exact(Units),
}

pub(crate) const DOT: u16 = 0x2E;

const STAR: u16 = 0x2A;

const BELOW: [u16; 3] = [DOT, STAR, STAR];

const INSIDE: [u16; 2] = [DOT, STAR];

impl NamePattern {
    /// Reads a name pattern. The cases are tried in the order of the variants.
    #[tactic(auto, using(crate::proofs::PackageLemmas::package_read))]
    pub(crate) fn read(alloc: Global, units: &[u16]) -> Result<NamePattern, AllocError>
        ensures { IfOk result (λ pattern. view_name pattern ≡ name_pattern units.now) }
    {
        if units.ends_with(&BELOW) {
            Ok(NamePattern::BelowPackage(without_last(alloc, units, 2)?))
        } else if units.ends_with(&INSIDE) {
            Ok(NamePattern::InPackage(without_last(alloc, units, 2)?))
        } else if units.ends_with(&[STAR]) {
            Ok(NamePattern::Prefix(without_last(alloc, units, 1)?))
        } else {
            Ok(NamePattern::Exact(Units::copy_of(alloc, units)?))
        }
    }
}

/// A copy of all units but the last `count`.
fn without_last(alloc: Global, units: &[u16], count: usize) -> Result<Units, AllocError>
    requires { count ≤ length units.now }
    ensures { IfOk result (λ kept. kept ≡ without_last count units.now) }
{
    let (front, _) = units.split_at(units.len() - count);
    Units::copy_of(alloc, front)
}
