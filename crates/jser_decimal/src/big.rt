//! Whole numbers of up to 2,560 bits.
ghost use Rattle.std.specs.Prelude.{◌≡◌, ◌<◌, ◌≤◌, ◌+◌, ◌-◌, ◌*◌, ◌^◌, ◌/◌, length};
ghost use Rattle.jser_decimal.specs.Bigs.{below, weight, worth};

use arrayvec::ArrayVec;

/// How many limbs a number has at most.
pub(crate) const LIMBS: usize = 40;

/// The greatest power of ten that a limb holds.
const TEN_TO_19: u64 = 10_000_000_000_000_000_000;

/// The greatest power of two that a limb holds.
const TWO_TO_63: u64 = 0x8000_0000_0000_0000;

/// A whole number, in limbs of 64 bits, the lowest first.
#[derive(Drop)]
pub(crate) struct Big {
    limbs: ArrayVec<u64, LIMBS>,
}

impl Big {
    /// A number of one limb.
    pub(crate) fn from(number: u64) -> Big
        ensures same { worth result.limbs.items ≡ number }
        ensures one { length result.limbs.items ≡ 1 }
    {
        let mut limbs = ArrayVec::new();
        limbs.push(number);
        Big { limbs }
    }

    /// The product with `by`.
    pub(crate) fn times(&self, by: u64) -> Big
        requires { length self.now.limbs.items < LIMBS }
        ensures product { worth result.limbs.items ≡ worth self.now.limbs.items * by }
        ensures longer { length result.limbs.items ≤ length self.now.limbs.items + 1 }
    {
        let mut product = self.copied();
        product.multiply(by);
        product
    }

    /// Multiplies it by a power of ten.
    pub(crate) fn multiply_by_ten_to(&mut self, power: u32)
        requires { length self.old.limbs.items + power / 19 < LIMBS }
        ensures product { worth self.new.limbs.items ≡ worth self.old.limbs.items * 10 ^ power }
        ensures longer { length self.new.limbs.items ≤ length self.old.limbs.items + power / 19 + 1 }
    {
        if power < 19 {
            self.multiply(10_u64.pow(power));
        } else {
            self.multiply(TEN_TO_19);
            self.multiply_by_ten_to(power - 19);
        }
    }

    /// Multiplies it by a power of two.
    pub(crate) fn multiply_by_two_to(&mut self, power: u32)
        requires { length self.old.limbs.items + power / 63 < LIMBS }
        ensures product { worth self.new.limbs.items ≡ worth self.old.limbs.items * 2 ^ power }
        ensures longer { length self.new.limbs.items ≤ length self.old.limbs.items + power / 63 + 1 }
    {
        if power < 63 {
            self.multiply(1 << power);
        } else {
            self.multiply(TWO_TO_63);
            self.multiply_by_two_to(power - 63);
        }
    }

    /// A copy of this number.
    fn copied(&self) -> Big
        ensures { result.limbs.items ≡ self.now.limbs.items }
    {
        let mut limbs = ArrayVec::new();
        match limbs.try_extend_from_slice(self.limbs.as_slice()) {
            Ok(()) => Big { limbs },
            Err(_) => unreachable!(),
        }
    }

    /// Multiplies it.
    fn multiply(&mut self, by: u64)
        requires { length self.old.limbs.items < LIMBS }
        ensures product { worth self.new.limbs.items ≡ worth self.old.limbs.items * by }
        ensures longer { length self.new.limbs.items ≤ length self.old.limbs.items + 1 }
    {
        let carry = self.multiply_each(by);
        if carry > 0 {
            self.limbs.push(carry);
        }
    }

    /// Multiplies the number in its limbs, and gives what belongs into the next one.
    fn multiply_each(&mut self, by: u64) -> u64
        ensures product { worth self.new.limbs.items + weight (length self.old.limbs.items) * result ≡ worth self.old.limbs.items * by }
        ensures same { length self.new.limbs.items ≡ length self.old.limbs.items }
    {
        multiply_limbs(self.limbs.as_mut_slice(), by)
    }

    /// Whether the product with `by` is below the other, or as great where `ties` count. No product is made.
    pub(crate) fn is_times_below(&self, by: u64, other: &Big, ties: bool) -> bool
        ensures { result ≡ below ties (worth self.now.limbs.items * by) (worth other.now.limbs.items) }
    {
        are_times_below(self.limbs.as_slice(), by, 0, other.limbs.as_slice(), ties)
    }
}

/// A product of two limbs.
#[derive(Clone, Copy)]
struct Product {
    low: u64,
    high: u64,
}

/// The product of two limbs, and `carry` more.
#[tactic(auto, using(crate::proofs::BigLemmas::wide_fits))]
fn multiplied(limb: u64, by: u64, carry: u64) -> Product
    ensures { result.low + 2 ^ 64 * result.high ≡ limb * by + carry }
{
    let wide = u128::from(limb) * u128::from(by) + u128::from(carry);
    Product {
        low: (wide % (1 << 64)) as u64,
        high: (wide >> 64) as u64,
    }
}

/// Multiplies the number in these limbs, and gives what belongs into the next limb.
fn multiply_limbs(limbs: &mut [u64], by: u64) -> u64
    ensures product { worth limbs.new + weight (length limbs.old) * result ≡ worth limbs.old * by }
    ensures same { length limbs.new ≡ length limbs.old }
{
    let mut carry = 0;
    'limbs: for at in 0..limbs.len() {
        let product = multiplied(limbs[at], by, carry);
        limbs[at] = product.low;
        carry = product.high;
    }
    carry
}

/// Whether the product of `by` with the number in these limbs, and `carry` more, is below the other, or as great where
/// `ties` count.
fn are_times_below(one: &[u64], by: u64, carry: u64, other: &[u64], ties: bool) -> bool
    ensures { result ≡ below ties (worth one.now * by + carry) (worth other.now) }
{
    if one.is_empty() && other.is_empty() {
        return ties && carry == 0;
    }
    let (first, rest) = lowest(one);
    let (second, others) = lowest(other);
    let product = multiplied(first, by, carry);
    let ties = is_limb_below(product.low, second, ties);
    are_times_below(rest, by, product.high, others, ties)
}

/// The lowest limb, and those above it: 0 where there is none.
fn lowest(limbs: &[u64]) -> (u64, &[u64])
    ensures worth { worth limbs.now ≡ result.0 + 2 ^ 64 * worth result.1.now }
    ensures fewer { length result.1.now ≡ length limbs.now - 1 }
{
    match limbs.split_first() {
        Some((first, rest)) => (*first, rest),
        None => (0, limbs),
    }
}

/// Whether a limb is below the other, or as great where `ties` count.
fn is_limb_below(one: u64, other: u64, ties: bool) -> bool
    ensures { result ≡ below ties one other }
{
    one < other || ties && one == other
}
