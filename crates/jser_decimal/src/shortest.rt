//! The shortest decimal that reads back as a float.
ghost use Rattle.std.specs.Prelude.{◌≡◌, ◌<◌, ◌≤◌, ◌+◌, ◌*◌, ◌/◌, ◌^◌, nat_lt, length};
ghost use Rattle.jser_decimal.specs.Measured.{AreWhole, IsMeasured, IsRoomy, common, number, view_range};
ghost use Rattle.jser_decimal.specs.Shortest as pure;

use crate::big::Big;

/// One more than the greatest number of 17 digits.
const TEN_TO_17: u64 = 100_000_000_000_000_000;

/// How many digits may be left out of 17: two are told of every decimal.
const MOST_LEFT_OUT: u32 = 15;

/// No place is greater.
const MOST_PLACE: u32 = 700;

/// The size of a float: its significand times a power of two.
#[derive(Clone, Copy)]
pub(crate) struct Size {
    /// Less than 2^53.
    pub(crate) significand: u64,
    /// How often the least power of two is doubled, at most 2,046 times.
    pub(crate) power: u32,
    /// Whether the next smaller float is half as far away as the next greater one.
    pub(crate) at_edge: bool,
}

/// A decimal: so many units, each 10^place times 10^-344.
#[derive(Clone, Copy)]
pub struct Decimal {
    /// Of 17 digits, or 10^17.
    pub units: u64,
    /// 344 more than the power of ten that a unit is.
    pub place: u32,
}

/// What decimals are measured with: a unit of them, the size, and the points half way to the next floats.
#[derive(Drop)]
struct Measure {
    unit: Big,
    low: Big,
    middle: Big,
    high: Big,
    ends: bool,
}

impl Measure {
    /// Whether so many units read back as the float.
    fn reads_back(&self, units: u64) -> bool
        requires { IsRoomy self.now }
        ensures { result ≡ pure.reads_back (view_range self.now) units }
    {
        !self.unit.is_times_below(units, &self.low, !self.ends)
            && self.unit.is_times_below(units, &self.high, self.ends)
    }

    /// Whether of so many steps and one step more the second is nearer to the size.
    fn next_is_nearer(&self, step: u64, steps: u64) -> bool
        requires roomy { IsRoomy self.now }
        requires few { steps ≤ 10 ^ 17 }
        requires fits { (2 * steps + 1) * step < 2 ^ 64 }
        ensures { result ≡ pure.next_is_nearer (view_range self.now) step steps }
    {
        let twice = self.middle.times(2);
        self.unit
            .is_times_below((2 * steps + 1) * step, &twice, steps % 2 == 1)
    }

    /// The best decimal that is a number of such steps, if one reads back. `all` is the number of whole units.
    fn best(&self, all: u64, step: u64) -> Option<u64>
        requires roomy { IsRoomy self.now }
        requires whole { AreWhole self.now all }
        requires some { 0 < step }
        requires few { step ≤ 10 ^ 15 }
        ensures { result ≡ pure.best (view_range self.now) step }
    {
        let steps = all / step;
        let here = self.reads_back(steps * step);
        let there = self.reads_back((steps + 1) * step);
        match (here, there) {
            (true, true) if self.next_is_nearer(step, steps) => Some(steps + 1),
            (true, _) => Some(steps),
            (false, true) => Some(steps + 1),
            (false, false) => None,
        }
    }

    /// The best decimal with the fewest digits, where up to so many may be left out of the 17.
    fn fewest(&self, all: u64, more: u32) -> u64
        requires roomy { IsRoomy self.now }
        requires whole { AreWhole self.now all }
        requires few { more ≤ 15 }
        ensures { result ≡ pure.fewest (view_range self.now) more }
    {
        let step = ten_to(more);
        match self.best(all, step) {
            Some(steps) => steps * step,
            None if more == 0 => all,
            None => self.fewest(all, more - 1),
        }
    }

    /// How many whole units are in the size, which has at most 17 digits of them.
    fn whole_units(&self) -> u64
        requires roomy { IsRoomy self.now }
        requires digits { number self.now.middle < 10 ^ 17 * number self.now.unit }
        ensures { AreWhole self.now result }
    {
        let mut low = 0;
        let mut high = TEN_TO_17;
        'halves: while high - low > 1 {
            let half = low + (high - low) / 2;
            if self.unit.is_times_below(half, &self.middle, true) {
                low = half;
            } else {
                high = half;
            }
        }
        low
    }
}

/// Of the decimals that read back as a float of this size, those with the fewest digits, and at least two; of these the
/// nearest. `least` is that of the floats' kind.
pub(crate) fn shortest(least: u32, size: &Size) -> Decimal
    requires least { least ≤ 1074 }
    requires significand { size.now.significand < 2 ^ 53 }
    requires power { size.now.power ≤ least + 1000 }
    ensures { result ≡ pure.shortest least size.now }
{
    let place = place_of(least, size, likely_place(least, size));
    let measure = measure_at(least, size, place);
    Decimal {
        units: measure.fewest(measure.whole_units(), MOST_LEFT_OUT),
        place,
    }
}

/// What decimals at this place are measured with.
fn measure_at(least: u32, size: &Size, place: u32) -> Measure
    requires least { least ≤ 1074 }
    requires place { place ≤ 700 }
    requires significand { size.now.significand < 2 ^ 53 }
    requires power { size.now.power ≤ least + 1000 }
    ensures range { IsMeasured least size.now place result }
    ensures roomy { IsRoomy result }
{
    let scale = scale_at(least, size.power, place);
    let quarters = size.significand * 4;
    Measure {
        low: scale.quarter.times(low_quarters(size)),
        middle: scale.quarter.times(quarters),
        high: scale.quarter.times(quarters + 2),
        unit: scale.unit,
        ends: size.significand % 2 == 0,
    }
}

/// A quarter of the gap between floats, and a unit of decimals, without the factors that both have.
#[derive(Drop)]
struct Scale {
    quarter: Big,
    unit: Big,
}

/// The scale of floats of this power and of decimals at this place.
fn scale_at(least: u32, power: u32, place: u32) -> Scale
    requires least { least ≤ 1074 }
    requires power { power ≤ least + 1000 }
    requires place { place ≤ 700 }
    ensures quarter { number result.quarter * common least power place ≡ pure.quarter_at power }
    ensures unit { number result.unit * common least power place ≡ pure.unit_at least place }
    ensures room { (length result.quarter.limbs.items < 39) × (length result.unit.limbs.items < 39) }
{
    let twos = power.min(least + 2);
    let tens = place.min(344);
    Scale {
        quarter: power_of(power - twos, 344 - tens),
        unit: power_of(least + 2 - twos, place - tens),
    }
}

/// The product of a power of two and a power of ten.
fn power_of(twos: u32, tens: u32) -> Big
    requires twos { twos ≤ 2074 }
    requires tens { tens ≤ 700 }
    requires few { twos / 63 + tens / 19 ≤ 35 }
    ensures power { number result ≡ 2 ^ twos * 10 ^ tens }
    ensures room { length result.limbs.items < 39 }
{
    let mut product = Big::from(1);
    product.multiply_by_two_to(twos);
    product.multiply_by_ten_to(tens);
    product
}

/// Half way to the next smaller float, in quarters of the gap to the next greater one.
fn low_quarters(size: &Size) -> u64
    requires { size.now.significand < 2 ^ 53 }
    ensures { result ≡ pure.low_quarters size.now }
{
    (size.significand * 4).saturating_sub(if size.at_edge { 1 } else { 2 })
}

/// The place at which the size has 17 digits, or one that is near: a power of two has 0.30103 decimal digits.
fn likely_place(least: u32, size: &Size) -> u32
    requires least { least ≤ 1074 }
    requires power { size.now.power ≤ 2074 }
    ensures { result ≤ 700 }
{
    let bits = size.power + 64 - size.significand.leading_zeros();
    (327 + bits * 30_103 / 100_000)
        .saturating_sub(least * 30_103 / 100_000)
        .min(MOST_PLACE)
}

/// The least place at which the size has at most 17 digits; it is likely to be near the guess.
#[tactic(auto, using(crate::proofs::ShortestLemmas::far_enough_there))]
fn place_of(least: u32, size: &Size, guess: u32) -> u32
    requires least { least ≤ 1074 }
    requires guess { guess ≤ 700 }
    requires significand { size.now.significand < 2 ^ 53 }
    requires power { size.now.power ≤ least + 1000 }
    ensures place { result ≡ pure.place_from least (pure.quarter_at size.now.power * (size.now.significand * 4)) 700 0 }
    ensures digits { pure.quarter_at size.now.power * (size.now.significand * 4) < 10 ^ 17 * pure.unit_at least result }
    ensures within { result ≤ 700 }
{
    let mut place = guess;
    'up: while place < MOST_PLACE && !is_within(least, size, place) {
        place += 1;
    }
    'down: while place > 0 && is_within(least, size, place - 1) {
        place -= 1;
    }
    place
}

/// Whether the size has at most 17 digits at this place.
fn is_within(least: u32, size: &Size, place: u32) -> bool
    requires least { least ≤ 1074 }
    requires place { place ≤ 700 }
    requires significand { size.now.significand < 2 ^ 53 }
    requires power { size.now.power ≤ least + 1000 }
    ensures { result ≡ nat_lt (pure.quarter_at size.now.power * (size.now.significand * 4)) (10 ^ 17 * pure.unit_at least place) }
{
    let scale = scale_at(least, size.power, place);
    let middle = scale.quarter.times(size.significand * 4);
    !scale.unit.is_times_below(TEN_TO_17, &middle, true)
}

/// A power of ten of at most 16 digits.
#[tactic(auto, using(crate::proofs::ShortestLemmas::power_is_some, crate::proofs::ShortestLemmas::power_is_few))]
fn ten_to(power: u32) -> u64
    requires { power ≤ 15 }
    ensures power { result ≡ 10 ^ power }
    ensures some { 0 < result }
    ensures few { result ≤ 10 ^ 15 }
{
    10_u64.pow(power)
}
