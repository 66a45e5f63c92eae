//! The class that a loadable name names.
ghost use Rattle.std.specs.Prelude.{◌≡◌, ◌<◌, ◌≤◌, ◌&&◌, nat_le, IfSome, length, true};
ghost use Rattle.std.specs.Option.{option_map};
ghost use Rattle.jser_table.specs.Names.{is_primitive_code};
ghost use Rattle.jser_anywhere.specs.Names.{behind_bracket, core, ends_in_brackets, ends_in_semicolon, inside, is_part, is_plain, peeled};

use jser_table::{BodyKind, LayerKind, layer_kind_of};

/// The class that these units name: what is left where `[]` at the end, `[L` and `;` round it, and `[` before it are taken off as
/// often as they are there. `None` where they name none.
#[tactic(auto, using(crate::proofs::CoreLemmas::core_begins, crate::proofs::CoreLemmas::core_peeled, crate::proofs::CoreLemmas::core_named, crate::proofs::CoreLemmas::core_unnamed))]
pub fn named_class(units: &[u16]) -> Option<&[u16]>
    ensures core { option_map (λ name. name.now) result ≡ core units.now }
{
    let mut rest = units;
    'peels: while let Some(inner) = peeled(rest) {
        rest = inner;
    }
    if is_plain(rest) { Some(rest) } else { None }
}

/// What is left of a name of which something can be taken off.
fn peeled(units: &[u16]) -> Option<&[u16]>
    ensures is { option_map (λ inner. inner.now) result ≡ peeled units.now }
    ensures shorter { IfSome result (λ inner. length inner.now < length units.now) }
{
    if ends_in_brackets(units) {
        let (front, _) = units.split_at(units.len() - 2);
        Some(front)
    } else {
        inside(units)
    }
}

/// What stands inside a name that begins with `[`.
fn inside(units: &[u16]) -> Option<&[u16]>
    ensures is { option_map (λ inner. inner.now) result ≡ inside units.now }
    ensures shorter { IfSome result (λ inner. length inner.now < length units.now) }
{
    match units {
        [0x5B, rest @ ..] => behind_bracket(rest),
        _ => None,
    }
}

/// What stands inside, of what is behind the first `[`: with no `L` and `;` round it; nothing, where that is the letter of a primitive
/// type.
fn behind_bracket(units: &[u16]) -> Option<&[u16]>
    ensures is { option_map (λ inner. inner.now) result ≡ behind_bracket units.now }
    ensures shorter { IfSome result (λ inner. length inner.now ≤ length units.now) }
{
    match units {
        [] => None,
        [letter] if is_primitive(*letter) => None,
        [0x4C, rest @ ..] if ends_in_semicolon(rest) => {
            let (inner, _) = rest.split_at(rest.len() - 1);
            Some(inner)
        }
        _ => Some(units),
    }
}

/// Whether the unit is the letter of a primitive type.
fn is_primitive(unit: u16) -> bool
    ensures { result ≡ is_primitive_code unit }
{
    matches!(
        layer_kind_of(&[0x5B, unit]),
        Some(LayerKind::Array(BodyKind::Prim(_)))
    )
}

/// Whether the last units are `[]`, and others stand before them.
fn ends_in_brackets(units: &[u16]) -> bool
    ensures is { result ≡ ends_in_brackets units.now }
    ensures long { result ≡ true → 3 ≤ length units.now }
{
    let len = units.len();
    len >= 3 && units[len - 2] == 0x5B && units[len - 1] == 0x5D
}

fn ends_in_semicolon(units: &[u16]) -> bool
    ensures is { result ≡ ends_in_semicolon units.now }
    ensures long { result ≡ true → 1 ≤ length units.now }
{
    let len = units.len();
    len >= 1 && units[len - 1] == 0x3B
}

/// Whether the units are parts of a name, with a `.` between two of them.
#[tactic(auto, using(crate::proofs::CoreLemmas::plain_begins, crate::proofs::CoreLemmas::plain_small, crate::proofs::CoreLemmas::plain_dot, crate::proofs::CoreLemmas::plain_part, crate::proofs::CoreLemmas::plain_twice, crate::proofs::CoreLemmas::plain_other, crate::proofs::CoreLemmas::plain_ends))]
fn is_plain(units: &[u16]) -> bool
    ensures { result ≡ is_plain units.now }
{
    let mut wants = true;
    'units: for unit in units {
        if is_small(*unit) {
            wants = false;
        } else if *unit == 0x2E {
            if wants {
                return false;
            }
            wants = true;
        } else if is_part(*unit) {
            wants = false;
        } else {
            return false;
        }
    }
    !wants
}

/// Whether the unit is a small letter of ASCII, as most of a name are.
#[inline(always)]
fn is_small(unit: u16) -> bool
    ensures { result ≡ (nat_le 0x61 unit && nat_le unit 0x7A) }
{
    unit >= 0x61 && unit <= 0x7A
}

/// Whether the unit is a letter, a digit, `_`, `$`, `-`, or one from 0080 on.
fn is_part(unit: u16) -> bool
    ensures { result ≡ is_part unit }
{
    (unit >= 0x41 && unit <= 0x5A)
        || (unit >= 0x61 && unit <= 0x7A)
        || (unit >= 0x30 && unit <= 0x39)
        || unit == 0x5F
        || unit == 0x24
        || unit == 0x2D
        || unit >= 0x80
}
