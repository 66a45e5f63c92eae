//! Cutting a list of units at a unit.
ghost use Rattle.std.specs.Prelude.{◌≡◌, ◌==◌, ◌<◌, length, position, option_map, IfSome};
ghost use Rattle.jser_filter.specs.Cuts.{cut, before_last, both_now, part_now, split_at_each, split_with};

/// What stands before and after the first such unit, if there is one.
pub(crate) fn cut(units: &[u16], at: u16) -> Option<(&[u16], &[u16])>
    ensures { option_map both_now result ≡ cut at units.now }
{
    let Some(place) = first_place(units, at) else {
        return None;
    };
    let (front, _) = units.split_at(place);
    let (_, back) = units.split_at(place + 1);
    Some((front, back))
}

/// The index of the first such unit, if there is one.
fn first_place(units: &[u16], at: u16) -> Option<usize>
    ensures place { result ≡ position (λ unit. unit == at) units.now }
    ensures inside { IfSome result (λ place. place < length units.now) }
{
    units.iter().position(|unit| *unit == at)
}

/// The first part of a text that is cut at each such unit, and what follows the unit that ends it.
#[tactic(auto, using(crate::proofs::CutLemmas::parts_cut, crate::proofs::CutLemmas::parts_uncut, crate::proofs::CutLemmas::shorter_back))]
pub(crate) fn next_part(units: &[u16], at: u16) -> (&[u16], Option<&[u16]>)
    ensures parts { split_at_each at units.now ≡ split_with at result }
    ensures shorter { IfSome result.1 (λ rest. length rest.now < length units.now) }
{
    match cut(units, at) {
        Some((part, rest)) => (part, Some(rest)),
        None => (units, None),
    }
}

/// What stands before the last such unit, if there is one.
#[tactic(auto, using(crate::proofs::CutLemmas::before_last_here, crate::proofs::CutLemmas::before_last_earlier))]
pub(crate) fn before_last(units: &[u16], at: u16) -> Option<&[u16]>
    ensures { option_map part_now result ≡ before_last at units.now }
{
    let mut front = units;
    while let Some((last, rest)) = front.split_last() {
        if *last == at {
            return Some(rest);
        }
        front = rest;
    }
    None
}
