//! The bytes of an accepted stream, taken from the front.
ghost use Rattle.std.specs.Prelude.{◌≡◌, ◌+◌, ◌<◌, ◌≤◌, [], ◌∷◌, length, IfOk, IfErr, OnOk};
ghost use Rattle.jser_trees.specs.Building.{front_in, number_in};
ghost use Rattle.jser_trees.specs.Found.{Finds};

use jser_prim::{read_u16, read_u32, read_u64};
use std::marker::Model;

/// Why a part was not built.
#[derive(Clone, Copy)]
pub(crate) enum Fault {
    /// The bytes are not those of such a part.
    Lost,
    /// Memory ran out.
    OutOfMemory,
}

/// The bytes that are still to be taken.
#[derive(Drop)]
pub(crate) struct Cursor<'p> {
    rest: &'p [u8],
}

impl<'p> Model for Cursor<'p> {
    ghost use Rattle.std.specs.Prelude.{List, ℕ};

    ghost Value = { List ℕ };

    ghost view = { λ a. a.rest.now };
}

impl<'p> Cursor<'p> {
    /// All these bytes are to be taken.
    pub(crate) fn new(bytes: &'p [u8]) -> Cursor<'p>
        ensures { result ≡ bytes.now }
    {
        Cursor { rest: bytes }
    }

    /// How many bytes are to be taken.
    pub(crate) fn left(&self) -> usize
        ensures { result ≡ length self.now }
    {
        self.rest.len()
    }

    /// The next byte.
    pub(crate) fn byte(&mut self) -> Result<u8, Fault>
        ensures byte { IfOk result (λ byte. self.old ≡ byte ∷ self.new) }
        ensures fault { IfErr result (λ fault. fault ≡ Fault.Lost) }
        ensures end { IfErr result (λ _. self.old ≡ []) }
        ensures shorter { OnOk result (length self.new < length self.old) }
    {
        match self.rest {
            [byte, rest @ ..] => {
                self.rest = rest;
                Ok(*byte)
            }
            [] => Err(Fault::Lost),
        }
    }

    /// The next bytes, so many.
    #[tactic(auto, unfolding(crate::specs::Building::front_in), using(crate::proofs::Numbers::front_there, crate::proofs::Numbers::front_short))]
    pub(crate) fn take(&mut self, count: usize) -> Result<&'p [u8], Fault>
        ensures taken { Finds (λ front. front.now) result self.new (front_in count self.old) }
        ensures size { IfOk result (λ front. length front.now ≡ count) }
        ensures shorter { OnOk result (length self.new + count ≤ length self.old) }
    {
        if self.rest.len() < count {
            return Err(Fault::Lost);
        }
        let (front, rest) = self.rest.split_at(count);
        self.rest = rest;
        Ok(front)
    }

    /// The next byte as a number.
    #[tactic(auto, using(crate::proofs::Numbers::byte_there, crate::proofs::Numbers::byte_short))]
    pub(crate) fn number_of_one(&mut self) -> Result<u8, Fault>
        ensures found { Finds (λ number. number) result self.new (number_in 1 self.old) }
        ensures shorter { OnOk result (length self.new < length self.old) }
    {
        self.byte()
    }

    /// The next two bytes as a number.
    #[tactic(auto, using(crate::proofs::Numbers::two_there, crate::proofs::Numbers::number_short))]
    pub(crate) fn number_of_two(&mut self) -> Result<u16, Fault>
        ensures found { Finds (λ number. number) result self.new (number_in 2 self.old) }
        ensures shorter { OnOk result (length self.new < length self.old) }
    {
        let front = self.take(2)?;
        Ok(read_u16(front))
    }

    /// The next four bytes as a number.
    #[tactic(auto, using(crate::proofs::Numbers::four_there, crate::proofs::Numbers::number_short))]
    pub(crate) fn number_of_four(&mut self) -> Result<u32, Fault>
        ensures found { Finds (λ number. number) result self.new (number_in 4 self.old) }
        ensures shorter { OnOk result (length self.new < length self.old) }
    {
        let front = self.take(4)?;
        Ok(read_u32(front))
    }

    /// The next eight bytes as a number.
    #[tactic(auto, using(crate::proofs::Numbers::eight_there, crate::proofs::Numbers::number_short))]
    pub(crate) fn number_of_eight(&mut self) -> Result<u64, Fault>
        ensures found { Finds (λ number. number) result self.new (number_in 8 self.old) }
        ensures shorter { OnOk result (length self.new < length self.old) }
    {
        let front = self.take(8)?;
        Ok(read_u64(front))
    }
}
