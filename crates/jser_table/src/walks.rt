//! Ways from one section of an object's data to the next: along a path, or by a walk up from the last one.
ghost use Rattle.std.specs.Prelude.{ℕ, ◌≡◌, ◌+◌, ◌<◌, length, IfSome, IfNone};
ghost use Rattle.jser_table.specs.Aheads.{AreAhead, IsWay};
ghost use Rattle.jser_table.specs.Descriptors.{AreShelved, IsFiled, chains_of};
ghost use Rattle.jser_table.specs.Sections.{HasSection, down_to, IsOn, IsNext};
ghost use Rattle.jser_table.specs.Upwards.{IsAfter, RisesOver, filed_in};

use crate::ahead::{AHEAD, Ahead};
use crate::descriptor::{Descriptor, Filed};

/// The section with this number.
pub(crate) fn filed_at<'a>(
    descriptors: &[Descriptor],
    sections: &'a [Filed],
    number: u32,
) -> &'a Filed
    requires shelved { AreShelved descriptors.now sections.now }
    requires number_in { HasSection (chains_of descriptors.now) number }
    ensures told { IsFiled (chains_of descriptors.now) number result.now }
    ensures is { result.now ≡ filed_in sections.now number }
{
    &sections[number as usize]
}

/// Where the section after another one is found.
enum Way {
    /// Nowhere: there is none.
    End,
    /// It is this one, by a path.
    Path(u32),
    /// By a walk up from the last one: it has so many others above it.
    Walk(u32),
}

/// Where the section is found that comes after this one in data that end with the section `last`.
#[inline(always)]
fn way_after(descriptors: &[Descriptor], sections: &[Filed], last: u32, section: u32) -> Way
    requires shelved { AreShelved descriptors.now sections.now }
    requires on { IsOn (chains_of descriptors.now) last section }
    ensures { IsWay (chains_of descriptors.now) last section result }
{
    if section == last {
        return Way::End;
    }
    let own = filed_at(descriptors, sections, section);
    let lowest = filed_at(descriptors, sections, last);
    if own.path == lowest.path && section < last {
        return Way::Path(own.below);
    }
    let before = own.upward.count;
    if lowest.upward.count <= before {
        return Way::End;
    }
    Way::Walk(before)
}

/// The section that comes after this one in data that end with the section `last`.
#[tactic(auto, using(crate::proofs::AheadLemmas::next_after))]
pub(crate) fn section_after(
    descriptors: &[Descriptor],
    sections: &[Filed],
    last: u32,
    section: u32,
) -> Option<u32>
    requires shelved { AreShelved descriptors.now sections.now }
    requires on { IsOn (chains_of descriptors.now) last section }
    ensures { IsNext (chains_of descriptors.now) last section result }
{
    match way_after(descriptors, sections, last, section) {
        Way::End => None,
        Way::Path(next) => Some(next),
        Way::Walk(before) => Some(section_below(descriptors, sections, last, before)),
    }
}

/// The section that comes after this one in data that end with the section `last`. Where it takes a walk, those that come
/// next are kept too.
#[tactic(auto, using(crate::proofs::AheadLemmas::next_after))]
#[inline(always)]
pub(crate) fn section_after_kept(
    descriptors: &[Descriptor],
    sections: &[Filed],
    ahead: &mut Ahead,
    last: u32,
    section: u32,
) -> Option<u32>
    requires shelved { AreShelved descriptors.now sections.now }
    requires ahead { AreAhead (chains_of descriptors.now) ahead.old }
    requires on { IsOn (chains_of descriptors.now) last section }
    ensures next { IsNext (chains_of descriptors.now) last section result }
    ensures ahead { AreAhead (chains_of descriptors.now) ahead.new }
{
    match way_after(descriptors, sections, last, section) {
        Way::End => None,
        Way::Path(next) => Some(next),
        Way::Walk(before) => Some(section_kept(descriptors, sections, ahead, last, before)),
    }
}

/// The section that has `before` others above it in data that end with the section `last`, from those that are kept, or by a
/// walk.
#[inline(never)]
fn section_kept(
    descriptors: &[Descriptor],
    sections: &[Filed],
    ahead: &mut Ahead,
    last: u32,
    before: u32,
) -> u32
    requires shelved { AreShelved descriptors.now sections.now }
    requires ahead { AreAhead (chains_of descriptors.now) ahead.old }
    requires last_in { HasSection (chains_of descriptors.now) last }
    requires over { before < length (down_to (chains_of descriptors.now) last) }
    ensures found { IsAfter (chains_of descriptors.now) last before result }
    ensures ahead { AreAhead (chains_of descriptors.now) ahead.new }
{
    match ahead.get(last, before) {
        Some(next) => next,
        None => look_ahead(descriptors, sections, ahead, last, before),
    }
}

/// The section that has `before` others above it in data that end with the section `last`. It and those that come after it
/// are found by one walk, and kept.
#[tactic(auto, using(crate::proofs::AheadLemmas::ahead_none, crate::proofs::AheadLemmas::ahead_push))]
fn look_ahead(
    descriptors: &[Descriptor],
    sections: &[Filed],
    ahead: &mut Ahead,
    last: u32,
    before: u32,
) -> u32
    requires shelved { AreShelved descriptors.now sections.now }
    requires last_in { HasSection (chains_of descriptors.now) last }
    requires over { before < length (down_to (chains_of descriptors.now) last) }
    ensures found { IsAfter (chains_of descriptors.now) last before result }
    ensures ahead { AreAhead (chains_of descriptors.now) ahead.new }
{
    let most = filed_at(descriptors, sections, last).upward.count - 1;
    let lowest = most.min(before.saturating_add(AHEAD as u32 - 1));
    let mut section = section_below(descriptors, sections, last, lowest);
    let mut above = lowest;
    ahead.begin(last, lowest);
    ahead.push(section);
    'up: while above > before {
        section = section_above(descriptors, sections, section);
        above -= 1;
        ahead.push(section);
    }
    section
}

/// The section just above this one, where there is one.
#[tactic(auto, using(crate::proofs::AheadLemmas::after_above))]
fn section_above(descriptors: &[Descriptor], sections: &[Filed], section: u32) -> u32
    requires shelved { AreShelved descriptors.now sections.now }
    requires section_in { HasSection (chains_of descriptors.now) section }
    ensures { (last before : ℕ) → IsAfter (chains_of descriptors.now) last (before + 1) section → IsAfter (chains_of descriptors.now) last before result }
{
    filed_at(descriptors, sections, section).upward.above
}

/// The section that has `before` others above it in data that end with the section `last`, found by a walk up from that.
#[inline(never)]
pub(crate) fn section_below(
    descriptors: &[Descriptor],
    sections: &[Filed],
    last: u32,
    before: u32,
) -> u32
    requires shelved { AreShelved descriptors.now sections.now }
    requires last_in { HasSection (chains_of descriptors.now) last }
    requires over { before < length (down_to (chains_of descriptors.now) last) }
    ensures { IsAfter (chains_of descriptors.now) last before result }
{
    let mut place = last;
    'walk: while let Some(higher) = section_over(descriptors, sections, place, before) {
        place = higher;
    }
    place
}

/// The section above this one that the longest link leads to which still has as many as `before` above it, if there is one.
fn section_over(
    descriptors: &[Descriptor],
    sections: &[Filed],
    place: u32,
    before: u32,
) -> Option<u32>
    requires shelved { AreShelved descriptors.now sections.now }
    requires place_in { HasSection (chains_of descriptors.now) place }
    requires over { before < length (down_to (chains_of descriptors.now) place) }
    ensures up { IfSome result (RisesOver (chains_of descriptors.now) before place) }
    ensures here { IfNone result (length (down_to (chains_of descriptors.now) place) ≡ before + 1) }
{
    let own = filed_at(descriptors, sections, place);
    if own.upward.count - 1 <= before {
        return None;
    }
    let jump = own.upward.jump;
    if filed_at(descriptors, sections, jump).upward.count > before {
        return Some(jump);
    }
    Some(own.upward.above)
}
