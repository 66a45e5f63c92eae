//! What a handle names, asked as a class: the answer has the number of the class's chain, by which the
//! other calls find it at once.
ghost use Rattle.std.specs.Prelude.{◌≡◌};

use std::marker::Model;

/// The number of a chain: in which order of closing its class came, counted from 0 in each epoch. Contracts
/// see it as a number.
#[derive(Clone, Copy, PartialEq, Eq, Hash, Debug)]
pub struct ChainNumber {
    pub(crate) number: u32,
}

impl Model for ChainNumber {
    ghost use Rattle.std.specs.Prelude.{ℕ};

    ghost Value = { ℕ };

    ghost view = { λ a. a.number };

    ghost inverse = { λ n. record { number = n } };
}

impl ChainNumber {
    /// The number, to find what a caller keeps of the class in a list.
    pub fn index(self) -> usize
        ensures { result ≡ self }
    {
        self.number as usize
    }
}

/// What a number names, as a class.
#[derive(Clone, Copy, PartialEq, Eq, Hash, Debug)]
pub enum Class {
    /// Nothing: no entry has this number.
    NotThere,
    /// A string, a class object, an object, an array or an enum constant.
    NoClass,
    /// A descriptor whose superclass place has not been read.
    Open,
    /// A descriptor that has been read, and has this chain.
    Closed(ChainNumber),
}
