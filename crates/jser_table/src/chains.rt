//! The chains of all descriptors that have been closed, in the order in which they were closed.
//!
//! Each descriptor keeps a link to its parent and one that jumps further up, so a chain takes no memory
//! beyond its own layer, and any layer of it is found in a number of steps in the order of its logarithm.
ghost use Rattle.std.specs.Prelude.{take, count_by, ◌≡◌, ◌+◌, ◌<◌, ◌≤◌, ◌^◌, [], ◌∷◌, ◌++◌, length, slice_get, Some, OnOk, OnErr, IfSome, IfNone, None, IsSomeAnd, ◌-◌, option_map, vec_len, vec_capacity};
ghost use Rattle.std.specs.Option.{ForSome};
ghost use Rattle.jser_table.specs.Chains.{own_layer, all_serial, next_filled, is_filled, is_external, elements_of, chain_in, IsFront};
ghost use Rattle.jser_table.specs.Codes.{size_of, primitive_codes, AreLeading};
ghost use Rattle.jser_table.specs.Sections.{HasSection, down_to, sections_of, layer_of, HoldsFor, IsOn, IsNext, AreSections};
ghost use Rattle.jser_table.specs.Fits.{fit_of};
ghost use Rattle.jser_table.specs.Lines.{line_in, next_line, LeadsTo};
ghost use Rattle.jser_table.specs.Lined.{AreLined, LinesUnder, lines_of};
ghost use Rattle.jser_table.specs.Upwards.{IsAfter, LeadUp, RisesOver, filed_in, upward_below, upward_in, upward_under};
ghost use Rattle.jser_table.specs.Paths.{FilesOne, IsPathUnder};
ghost use Rattle.jser_table.specs.Jumps.{JumpsFar, TakesJump};
ghost use Rattle.jser_table.specs.Descriptors.{AreTold, IsHighest, GoesUp, IsAbove, IsTold, IsLast, IsLastUnder, AreShelved, IsFiled, chains_of, chain_of_parent, count_of, front_of};

use crate::ahead::Ahead;
use crate::codes::{leading_size, prim_size_in};
use crate::descriptor::{Above, Counted, Descriptor, Filed, Links, Upward};
use crate::entry::MOST_CHAINS;
use crate::kept::KeptLayer;
use crate::layer::{Fit, Purpose};
use crate::section::{Section, SectionNumber, Sections};
use crate::walks::{filed_at, section_after, section_after_kept, section_below};
use std::alloc::{AllocError, Global};
use std::marker::Model;

/// The chains of the closed descriptors, numbered in the order in which they were added.
#[derive(Drop)]
pub(crate) struct Chains {
    descriptors: Vec<Descriptor>,
    /// The sections of those that have one.
    sections: Vec<Filed>,
    /// Sections that come next in an object's data.
    ahead: Ahead,
}

impl Model for Chains {
    ghost use Rattle.std.specs.Prelude.{◌-◌, ◌^◌, min, vec_len, vec_capacity};
    ghost use Rattle.jser_table.specs.Stored.{ChainList};

    ghost Value = { ChainList };

    ghost use Rattle.jser_table.specs.Aheads.{AreWhole};
    ghost use Rattle.jser_table.specs.Descriptors.{chains_of};
    ghost use Rattle.jser_table.specs.Lined.{lines_of};

    ghost view = { λ a. record {
      listed = chains_of a.descriptors.items;
      lines = lines_of a.descriptors.items;
      room = min (2 ^ 32 - 3 - vec_len a.descriptors) (min (vec_capacity a.descriptors - vec_len a.descriptors) (vec_capacity a.sections - vec_len a.sections));
    } };

    ghost invariant = { λ a. AreWhole a.descriptors.items a.sections.items a.ahead };
}

impl Chains {
    /// No chains. Takes no memory.
    #[tactic(auto, using(crate::proofs::ChainLemmas::chains_of_none, crate::proofs::LineLemmas::lines_of_none, crate::proofs::FiledLemmas::shelved_none, crate::proofs::AheadLemmas::ahead_none))]
    pub(crate) fn new(alloc: Global) -> Chains
        ensures listed { result.listed ≡ [] }
        ensures lines { result.lines ≡ [] }
    {
        Chains {
            descriptors: Vec::new(alloc),
            sections: Vec::new(alloc),
            ahead: Ahead::new(),
        }
    }

    /// Makes room for that many more chains. Most handles are not those of descriptors, so this is out of line.
    #[inline(never)]
    pub(crate) fn reserve(&mut self, additional: usize) -> Result<(), AllocError>
        ensures listed { self.new.listed ≡ self.old.listed }
        ensures lines { self.new.lines ≡ self.old.lines }
        ensures room { OnOk result (additional ≤ self.new.room) }
        ensures kept { self.old.room ≤ self.new.room }
    {
        if MOST_CHAINS - self.descriptors.len() < additional {
            return Err(AllocError);
        }
        self.sections.reserve(additional)?;
        self.descriptors.reserve(additional)
    }

    /// Adds the chain of the parent, if there is one, with this layer at its end, and gives its number.
    /// Takes no memory.
    #[tactic(auto, using(crate::proofs::ChainLemmas::length_chains_of, crate::proofs::ChainLemmas::told_push, crate::proofs::ChainLemmas::chains_push, crate::proofs::LineLemmas::lines_push))]
    pub(crate) fn add(&mut self, layer: KeptLayer, parent: Option<u32>) -> u32
        requires room { 0 < self.old.room }
        requires parent_in { ForSome parent (λ number. number < length self.old.listed) }
        ensures added { self.new.listed ≡ self.old.listed ++ (chain_of_parent self.old.listed parent ++ layer ∷ []) ∷ [] }
        ensures number { result ≡ length self.old.listed }
        ensures lines { self.new.lines ≡ self.old.lines ++ next_line self.old.lines parent ∷ [] }
        ensures most { result < 2 ^ 32 - 3 }
        ensures room { self.old.room ≤ self.new.room + 1 }
    {
        let place = self.descriptors.len();
        self.ahead.clear();
        let above = above_of(&self.descriptors, parent);
        self.descriptors
            .push_reserved(Descriptor::begun(above, layer));
        let own = &mut self.descriptors[place];
        let section = self.sections.len() as u32;
        if own.complete(section) {
            file(&mut self.sections, &own.layer, place as u32, above.last);
        }
        place as u32
    }

    /// How many chains there are.
    #[tactic(auto, using(crate::proofs::ChainLemmas::length_chains_of, crate::proofs::LineLemmas::length_lines_of))]
    pub(crate) fn count(&self) -> u32
        ensures listed { result ≡ length self.now.listed }
        ensures lines { result ≡ length self.now.lines }
    {
        self.descriptors.len() as u32
    }

    /// How many layers the chain has.
    #[tactic(auto, using(crate::proofs::ChainLemmas::length_chains_of))]
    pub(crate) fn layers(&self, number: u32) -> usize
        requires { number < length self.now.listed }
        ensures { result ≡ length (chain_in self.now.listed number) }
    {
        descriptor_at(&self.descriptors, number as usize).count(Counted::Layers)
    }

    /// The layer of the chain at this index.
    #[tactic(auto, using(crate::proofs::ChainLemmas::length_chains_of))]
    pub(crate) fn layer(&self, number: u32, index: usize) -> &KeptLayer
        requires number_in { number < length self.now.listed }
        requires index_in { index < length (chain_in self.now.listed number) }
        ensures { slice_get (chain_in self.now.listed number) index ≡ Some result.now }
    {
        layer_at(&self.descriptors, number as usize, index)
    }

    /// The number of the class whose own layer is the one of the chain at this index.
    #[tactic(auto, using(crate::proofs::ChainLemmas::length_chains_of))]
    pub(crate) fn class_of_layer(&self, number: u32, index: usize) -> u32
        requires number_in { number < length self.now.listed }
        requires index_in { index < length (chain_in self.now.listed number) }
        ensures number { slice_get (line_in self.now.lines number) index ≡ Some result }
        ensures inside { result < length self.now.listed }
        ensures layer { own_layer (chain_in self.now.listed result) ≡ slice_get (chain_in self.now.listed number) index }
    {
        class_of(&self.descriptors, number as usize, index) as u32
    }

    /// The index of the first layer at `from` or after it that has something to read.
    #[tactic(auto, using(crate::proofs::ChainLemmas::length_chains_of))]
    pub(crate) fn next_filled(&self, number: u32, from: usize) -> Option<usize>
        requires { number < length self.now.listed }
        ensures { result ≡ next_filled (chain_in self.now.listed number) from }
    {
        next_filled_at(&self.descriptors, number as usize, from)
    }

    /// Whether each layer of the chain is a proxy or serializable.
    #[tactic(auto, using(crate::proofs::ChainLemmas::length_chains_of))]
    pub(crate) fn all_serial(&self, number: u32) -> bool
        requires { number < length self.now.listed }
        ensures { result ≡ all_serial (chain_in self.now.listed number) }
    {
        descriptor_at(&self.descriptors, number as usize).is_serial
    }

    /// Whether the class fits the purpose.
    #[tactic(auto, using(crate::proofs::ChainLemmas::length_chains_of))]
    pub(crate) fn fit(&self, number: u32, purpose: Purpose) -> Fit
        requires { number < length self.now.listed }
        ensures { result ≡ fit_of purpose (chain_in self.now.listed number) }
    {
        let class = descriptor_at(&self.descriptors, number as usize);
        class.layer.fit(purpose, class.is_serial)
    }

    /// Whether the class itself is externalizable.
    #[tactic(auto, using(crate::proofs::ChainLemmas::length_chains_of))]
    pub(crate) fn is_external(&self, number: u32) -> bool
        requires { number < length self.now.listed }
        ensures { result ≡ is_external (chain_in self.now.listed number) }
    {
        descriptor_at(&self.descriptors, number as usize)
            .layer
            .is_externalizable()
    }

    /// The size of the elements of an array of the class, where they are raw values.
    #[tactic(auto, using(crate::proofs::ChainLemmas::length_chains_of))]
    pub(crate) fn element_size(&self, number: u32) -> Option<u8>
        requires { number < length self.now.listed }
        ensures { result ≡ option_map size_of (elements_of (chain_in self.now.listed number)) }
    {
        descriptor_at(&self.descriptors, number as usize)
            .layer
            .element_size()
    }

    /// The sections of an object's data of this chain, if there are any.
    #[tactic(auto, using(crate::proofs::ChainLemmas::length_chains_of))]
    #[inline(always)]
    pub(crate) fn sections(&self, number: u32) -> Option<Sections>
        requires { number < length self.now.listed }
        ensures { AreSections self.now.listed (chain_in self.now.listed number) result }
    {
        sections_at(&self.descriptors, &self.sections, number as usize)
    }

    /// What the section holds.
    #[tactic(auto, using(crate::proofs::ChainLemmas::length_chains_of))]
    pub(crate) fn section(&self, section: u32) -> Section
        requires { HasSection self.now.listed section }
        ensures { HoldsFor (layer_of self.now.listed section) result }
    {
        filed_at(&self.descriptors, &self.sections, section).section()
    }

    /// The size of the raw value at this place of the section.
    #[tactic(auto, using(crate::proofs::ChainLemmas::length_chains_of))]
    pub(crate) fn prim_size(&self, section: u32, pos: u16) -> u8
        requires section { HasSection self.now.listed section }
        requires pos { pos < length (primitive_codes (layer_of self.now.listed section).codes) }
        ensures { option_map size_of (slice_get (primitive_codes (layer_of self.now.listed section).codes) pos) ≡ Some result }
    {
        prim_size_at(&self.descriptors, &self.sections, section, pos)
    }

    /// The section that comes after this one in data that end with the section `last`.
    #[tactic(auto, using(crate::proofs::ChainLemmas::length_chains_of))]
    pub(crate) fn next_section(&self, last: u32, section: u32) -> Option<u32>
        requires { IsOn self.now.listed last section }
        ensures { IsNext self.now.listed last section result }
    {
        section_after(&self.descriptors, &self.sections, last, section)
    }

    /// The section that comes after this one in data that end with the section `last`. Those that come next may be kept.
    #[tactic(auto, using(crate::proofs::ChainLemmas::length_chains_of))]
    #[inline(always)]
    pub(crate) fn pass_section(&mut self, last: u32, section: u32) -> Option<u32>
        requires { IsOn self.old.listed last section }
        ensures next { IsNext self.old.listed last section result }
        ensures same { self.new ≡ self.old }
    {
        section_after_kept(
            &self.descriptors,
            &self.sections,
            &mut self.ahead,
            last,
            section,
        )
    }

    /// Forgets all chains, and keeps the room.
    #[tactic(auto, using(crate::proofs::ChainLemmas::chains_of_none, crate::proofs::LineLemmas::lines_of_none, crate::proofs::FiledLemmas::shelved_none, crate::proofs::AheadLemmas::ahead_none))]
    pub(crate) fn clear(&mut self)
        ensures listed { self.new.listed ≡ [] }
        ensures lines { self.new.lines ≡ [] }
    {
        self.descriptors.clear();
        self.sections.clear();
        self.ahead.clear();
    }
}

/// What is known of the superclasses of a class under this parent, if it has one.
#[tactic(auto, using(crate::proofs::ChainLemmas::length_chains_of))]
fn above_of(descriptors: &[Descriptor], parent: Option<u32>) -> Above
    requires told { AreTold descriptors.now }
    requires parent_in { ForSome parent (λ number. number < length descriptors.now) }
    ensures above { IsAbove (chains_of descriptors.now) parent result }
    ensures lines { AreLined descriptors.now → LinesUnder (lines_of descriptors.now) parent result.links }
{
    let Some(parent) = parent else {
        return Above::none();
    };
    let jump = jump_from(descriptors, parent);
    let own = descriptor_at(descriptors, parent as usize);
    Above {
        links: Some(Links { parent, jump }),
        layers: own.layers,
        filled: own.filled,
        last: own.last,
        is_serial: own.is_serial,
    }
}

/// Adds the section of the layer of this class to the list. `above` is the lowest section of the class's superclasses, if there
/// is one. Takes no memory.
fn file(sections: &mut Vec<Filed>, layer: &KeptLayer, class: u32, above: Option<u32>)
    requires room { vec_len sections.old < vec_capacity sections.old }
    requires fewer { vec_len sections.old < 2 ^ 32 - 3 }
    requires above_in { ForSome above (λ number. number < length sections.old.items) }
    requires upwards { LeadUp sections.old.items }
    ensures filed { FilesOne layer.now class above sections.old.items sections.new.items }
    ensures room { vec_capacity sections.old - vec_len sections.old ≤ vec_capacity sections.new - vec_len sections.new + 1 }
{
    let number = sections.len() as u32;
    let upward = upward_under(sections, above);
    let path = path_under(sections.as_mut_slice(), above);
    sections.push_reserved(Filed::new(layer, class, path, number, upward));
}

/// Where a walk goes up from the next section, under the section `above`.
fn upward_under(sections: &[Filed], above: Option<u32>) -> Upward
    requires fewer { length sections.now < 2 ^ 32 - 3 }
    requires above_in { ForSome above (λ number. number < length sections.now) }
    requires upwards { LeadUp sections.now }
    ensures { result ≡ upward_under sections.now above }
{
    match above {
        Some(above) => upward_below(sections, above),
        None => Upward::at_top(sections.len() as u32),
    }
}

/// Where a walk goes up from the next section, just under this one: beyond its two last jumps where these are as long as
/// each other, and else to it.
fn upward_below(sections: &[Filed], above: u32) -> Upward
    requires fewer { length sections.now < 2 ^ 32 - 3 }
    requires above_in { above < length sections.now }
    requires upwards { LeadUp sections.now }
    ensures { result ≡ upward_below sections.now above }
{
    let near = upward_at(sections, above);
    let middle = upward_at(sections, near.jump);
    let top = upward_at(sections, middle.jump);
    let are_alike = u64::from(near.count) + u64::from(top.count) == 2 * u64::from(middle.count);
    let jump = if are_alike { middle.jump } else { above };
    let count = near.count + 1;
    Upward { above, jump, count }
}

/// Where a walk goes up from the section with this number.
fn upward_at(sections: &[Filed], number: u32) -> Upward
    requires inside { number < length sections.now }
    requires upwards { LeadUp sections.now }
    ensures is { result ≡ upward_in sections.now number }
    ensures jump_in { result.jump ≤ number }
    ensures within { result.count ≤ number + 1 }
{
    sections[number as usize].upward
}

/// The path of the next section under the section `above`: it goes on with that one's, where that was the last of it, and
/// else begins one.
fn path_under(sections: &mut [Filed], above: Option<u32>) -> u32
    requires fewer { length sections.old < 2 ^ 32 - 3 }
    requires above_in { ForSome above (λ number. number < length sections.old) }
    ensures { IsPathUnder above result sections.old sections.new }
{
    let next = sections.len() as u32;
    let Some(above) = above else {
        return next;
    };
    let end = &mut sections[above as usize];
    if end.below != above {
        return next;
    }
    end.below = next;
    end.path
}

/// Where a class under this parent jumps to: beyond the parent's two last jumps where these are as long as
/// each other, and else to the parent.
fn jump_from(descriptors: &[Descriptor], parent: u32) -> u32
    requires told { AreTold descriptors.now }
    requires parent_in { parent < length descriptors.now }
    ensures inside { result < length descriptors.now }
    ensures front { IsFront (chain_in (chains_of descriptors.now) result) (chain_in (chains_of descriptors.now) parent) }
    ensures far { JumpsFar descriptors.now parent result }
    ensures line { AreLined descriptors.now → LeadsTo (line_in (lines_of descriptors.now) result) (line_in (lines_of descriptors.now) parent) }
{
    let above = &descriptors[parent as usize];
    let Some(near) = above.links else {
        return parent;
    };
    let middle = &descriptors[near.jump as usize];
    let Some(far) = middle.links else {
        return parent;
    };
    let top = &descriptors[far.jump as usize];
    if u64::from(above.layers) + u64::from(top.layers) == 2 * u64::from(middle.layers) {
        far.jump
    } else {
        parent
    }
}

/// The descriptor at this place, with all that it tells.
fn descriptor_at(descriptors: &[Descriptor], place: usize) -> &Descriptor
    requires told { AreTold descriptors.now }
    requires place_in { place < length descriptors.now }
    ensures { IsTold (chains_of descriptors.now) place result.now }
{
    &descriptors[place]
}

/// The size of the raw value at this place of the section. As long as the codes before it are those of
/// primitive types, which holds in each stream, it is found at once.
#[tactic(auto, using(crate::proofs::ChainLemmas::length_chains_of))]
fn prim_size_at(descriptors: &[Descriptor], sections: &[Filed], section: u32, pos: u16) -> u8
    requires shelved { AreShelved descriptors.now sections.now }
    requires section { HasSection (chains_of descriptors.now) section }
    requires pos { pos < length (primitive_codes (layer_of (chains_of descriptors.now) section).codes) }
    ensures { option_map size_of (slice_get (primitive_codes (layer_of (chains_of descriptors.now) section).codes) pos) ≡ Some result }
{
    let filed = filed_at(descriptors, sections, section);
    let codes = descriptor_at(descriptors, filed.class as usize)
        .layer
        .codes();
    if pos < filed.leading {
        leading_size(codes, filed.leading, pos)
    } else {
        prim_size_in(codes, pos as usize)
    }
}

/// The sections of an object's data of the chain at this place, if there are any.
#[inline(always)]
fn sections_at(descriptors: &[Descriptor], sections: &[Filed], place: usize) -> Option<Sections>
    requires shelved { AreShelved descriptors.now sections.now }
    requires place_in { place < length descriptors.now }
    ensures { AreSections (chains_of descriptors.now) (chain_in (chains_of descriptors.now) place) result }
{
    let own = descriptor_at(descriptors, place);
    let last = own.last?;
    let first = if own.filled == 1 {
        last
    } else {
        first_of(descriptors, sections, place, last)
    };
    Some(Sections {
        first: SectionNumber { number: first },
        last: SectionNumber { number: last },
    })
}

/// The first section of the chain at this place, whose last one is known: the first of that one's path where the path
/// begins at the top.
#[inline(never)]
fn first_of(descriptors: &[Descriptor], sections: &[Filed], place: usize, last: u32) -> u32
    requires shelved { AreShelved descriptors.now sections.now }
    requires last { IsLast (chains_of descriptors.now) (chain_in (chains_of descriptors.now) place) (Some last) }
    ensures { AreSections (chains_of descriptors.now) (chain_in (chains_of descriptors.now) place) (Some record { first = result; last = last }) }
{
    let path = filed_at(descriptors, sections, last).path;
    if filed_at(descriptors, sections, path).upward.count == 1 {
        path
    } else {
        section_below(descriptors, sections, last, 0)
    }
}

/// The layer at this index of the chain at `start`.
#[tactic(auto, using(crate::proofs::WalkLemmas::layer_found))]
fn layer_at(descriptors: &[Descriptor], start: usize, index: usize) -> &KeptLayer
    requires told { AreTold descriptors.now }
    requires start_in { start < length descriptors.now }
    requires index_in { index < length (chain_in (chains_of descriptors.now) start) }
    ensures { slice_get (chain_in (chains_of descriptors.now) start) index ≡ Some result.now }
{
    let place = highest(descriptors, start, Counted::Layers, index);
    &descriptor_at(descriptors, place).layer
}

/// The class whose own layer is the one at this index of the chain at `start`.
#[tactic(auto, using(crate::proofs::LineLemmas::class_found, crate::proofs::LineLemmas::layer_of_found))]
fn class_of(descriptors: &[Descriptor], start: usize, index: usize) -> usize
    requires told { AreTold descriptors.now }
    requires lined { AreLined descriptors.now }
    requires start_in { start < length descriptors.now }
    requires index_in { index < length (chain_in (chains_of descriptors.now) start) }
    ensures number { slice_get (line_in (lines_of descriptors.now) start) index ≡ Some result }
    ensures inside { result < length descriptors.now }
    ensures layer { own_layer (chain_in (chains_of descriptors.now) result) ≡ slice_get (chain_in (chains_of descriptors.now) start) index }
{
    highest(descriptors, start, Counted::Layers, index)
}

/// The index of the first layer, at `from` or after it, that has something to read.
#[tactic(auto, using(crate::proofs::WalkLemmas::none_filled, crate::proofs::WalkLemmas::past_filled, crate::proofs::WalkLemmas::filled_found))]
fn next_filled_at(descriptors: &[Descriptor], start: usize, from: usize) -> Option<usize>
    requires told { AreTold descriptors.now }
    requires start_in { start < length descriptors.now }
    ensures { result ≡ next_filled (chain_in (chains_of descriptors.now) start) from }
{
    let class = descriptor_at(descriptors, start);
    if from >= class.count(Counted::Layers) {
        return None;
    }
    let before = filled_before(descriptors, start, from);
    if class.count(Counted::Filled) <= before {
        return None;
    }
    let place = highest(descriptors, start, Counted::Filled, before);
    Some(descriptor_at(descriptors, place).count(Counted::Layers) - 1)
}

/// How many of the layers before this index have something to read.
#[tactic(auto, using(crate::proofs::WalkLemmas::count_before))]
fn filled_before(descriptors: &[Descriptor], start: usize, index: usize) -> usize
    requires told { AreTold descriptors.now }
    requires start_in { start < length descriptors.now }
    requires index_in { index < length (chain_in (chains_of descriptors.now) start) }
    ensures { result ≡ count_by is_filled (take index (chain_in (chains_of descriptors.now) start)) }
{
    if index == 0 {
        return 0;
    }
    let place = highest(descriptors, start, Counted::Layers, index - 1);
    descriptor_at(descriptors, place).count(Counted::Filled)
}

/// The highest class of the chain at `start`, itself included, whose count is over the bound.
fn highest(descriptors: &[Descriptor], start: usize, counted: Counted, bound: usize) -> usize
    requires told { AreTold descriptors.now }
    requires start_in { start < length descriptors.now }
    requires over { bound < count_of counted (chain_in (chains_of descriptors.now) start) }
    ensures inside { result < length descriptors.now }
    ensures highest { IsHighest counted bound (chain_in (chains_of descriptors.now) start) (chain_in (chains_of descriptors.now) result) }
    ensures line { AreLined descriptors.now → LeadsTo (line_in (lines_of descriptors.now) result) (line_in (lines_of descriptors.now) start) }
{
    let mut place = start;
    'walk: while let Some(higher) = step_up(descriptors, place, counted, bound) {
        place = higher;
    }
    place
}

/// The superclass that the longest link leads to whose count is over the bound, if there is one.
fn step_up(
    descriptors: &[Descriptor],
    place: usize,
    counted: Counted,
    bound: usize,
) -> Option<usize>
    requires told { AreTold descriptors.now }
    requires place_in { place < length descriptors.now }
    ensures up { IfSome result (λ higher. GoesUp counted bound (chains_of descriptors.now) place higher) }
    ensures top { IfNone result (count_of counted (front_of (chain_in (chains_of descriptors.now) place)) ≤ bound) }
    ensures far { IfSome result (TakesJump descriptors.now counted bound place) }
    ensures line { AreLined descriptors.now → IfSome result (λ higher. LeadsTo (line_in (lines_of descriptors.now) higher) (line_in (lines_of descriptors.now) place)) }
{
    let links = descriptors[place].links?;
    let (jump, parent) = (links.jump as usize, links.parent as usize);
    if descriptors[jump].count(counted) > bound {
        Some(jump)
    } else if descriptors[parent].count(counted) > bound {
        Some(parent)
    } else {
        None
    }
}
