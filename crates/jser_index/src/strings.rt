//! The units of strings.
ghost use Rattle.std.specs.Prelude.{◌≡◌, [], take, drop, IfOk, IfSome};
ghost use Rattle.jser_index.specs.Keeping.{Extends, IsKeptAt, HasTextAt, IsNext, units_at};

use crate::decode::decode;
use crate::node::small_number;
use crate::spot::Spot;
use crate::texts::Texts;
use crate::units::Units;
use std::alloc::{AllocError, Global};
use std::marker::Model;

/// The units of strings.
#[derive(Drop)]
pub(crate) struct Strings {
    near: Units,
    far: Texts,
}

impl Model for Strings {
    ghost use Rattle.jser_index.specs.Keeping.{Kept};

    ghost Value = { Kept };

    ghost view = { λ a. record { near = a.near; far = a.far } };
}

impl Strings {
    /// No units. Takes no memory.
    pub(crate) fn new(alloc: Global) -> Strings
        ensures near { result.near ≡ [] }
        ensures far { result.far ≡ [] }
    {
        Strings {
            near: Units::new(alloc),
            far: Texts::new(alloc),
        }
    }

    /// Keeps these units.
    #[tactic(auto, using(crate::proofs::KeptLemmas::extends_none, crate::proofs::KeptLemmas::extends_near, crate::proofs::KeptLemmas::extends_far, crate::proofs::KeptLemmas::kept_next, crate::proofs::KeptLemmas::kept_far))]
    #[inline(never)]
    pub(crate) fn add(&mut self, units: &[u16]) -> Result<Spot, AllocError>
        ensures kept { Extends self.old self.new }
        ensures units { IfOk result (λ spot. IsKeptAt self.new spot units.now) }
    {
        if let Some(spot) = self.next_spot(units.len()) {
            self.near.add(units)?;
            return Ok(spot);
        }
        let number = small_number(self.far.count())?;
        self.far.add(units)?;
        Ok(Spot::Far(number))
    }

    /// Keeps the units of a text in modified UTF-8. `scratch` is room for
    /// them, where they cannot be put next to the others at once.
    #[tactic(auto, using(crate::proofs::KeptLemmas::extends_none, crate::proofs::KeptLemmas::extends_near, crate::proofs::KeptLemmas::kept_next, crate::proofs::KeptLemmas::has_narrow))]
    #[inline(always)]
    pub(crate) fn add_text(
        &mut self,
        bytes: &[u8],
        scratch: &mut Vec<u16>,
    ) -> Result<Spot, AllocError>
        ensures kept { Extends self.old self.new }
        ensures text { IfOk result (λ spot. HasTextAt self.new spot bytes.now) }
    {
        match self.next_spot(bytes.len()) {
            None => self.add_wide(bytes, scratch),
            Some(spot) => {
                if self.near.add_narrow(bytes)? {
                    return Ok(spot);
                }
                self.add_wide(bytes, scratch)
            }
        }
    }

    /// Keeps the units of a text by way of the room, also where a unit has several bytes.
    #[tactic(auto, using(crate::proofs::KeptLemmas::extends_none, crate::proofs::KeptLemmas::has_units))]
    #[inline(never)]
    fn add_wide(&mut self, bytes: &[u8], scratch: &mut Vec<u16>) -> Result<Spot, AllocError>
        ensures kept { Extends self.old self.new }
        ensures text { IfOk result (λ spot. HasTextAt self.new spot bytes.now) }
    {
        let units = decode(bytes, scratch)?;
        self.add(units)
    }

    /// The units that are kept at a spot; none where nothing is kept there.
    pub(crate) fn get(&self, spot: Spot) -> &[u16]
        ensures { result.now ≡ units_at self.now spot }
    {
        match spot {
            Spot::Near { start, len } => part(self.near.all(), start as usize, usize::from(len)),
            Spot::Far(number) => self.far.get(number as usize).unwrap_or(&[]),
        }
    }

    /// Where so many units would lie next to the others, if they may.
    #[inline(always)]
    fn next_spot(&self, count: usize) -> Option<Spot>
        ensures { IfSome result (λ spot. IsNext self.now.near count spot) }
    {
        match (u32::try_from(self.near.count()), u16::try_from(count)) {
            (Ok(start), Ok(len)) => Some(Spot::Near { start, len }),
            _ => None,
        }
    }
}

/// So many units, from a place on, as far as there are any.
#[tactic(auto, using(crate::proofs::KeptLemmas::drop_most, crate::proofs::KeptLemmas::take_most))]
fn part(units: &[u16], start: usize, len: usize) -> &[u16]
    ensures { result.now ≡ take len (drop start units.now) }
{
    let (_, rest) = units.split_at(start.min(units.len()));
    let (text, _) = rest.split_at(len.min(rest.len()));
    text
}
