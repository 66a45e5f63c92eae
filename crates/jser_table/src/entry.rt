//! What a handle names, and how a table keeps it in four bytes.
ghost use Rattle.std.specs.Prelude.{◌≡◌, ◌<◌, ◌-◌, ◌^◌};
ghost use Rattle.jser_table.specs.Tables.{new_kept, closed_kept};

use std::marker::Model;

/// What a new handle is given to.
#[derive(Clone, Copy, PartialEq, Eq, Hash, Debug)]
pub enum Kind {
    /// A string.
    Text,
    /// A class object, an object, an array or an enum constant.
    Other,
    /// A descriptor whose superclass place has not been read.
    Pending,
}

/// What a handle names. Entries are not compared: that two are closed does not say that they are one class.
#[derive(Clone, Copy)]
pub enum Entry {
    /// A string.
    Text,
    /// A class object, an object, an array or an enum constant.
    Other,
    /// A descriptor whose superclass place has not been read.
    Pending,
    /// A descriptor that has been read. The calls of the table tell its chain.
    Closed(Closed),
}

/// Says nothing more: a table tells the chain of a closed entry by the entry's number.
#[derive(Clone, Copy)]
pub struct Closed {
    pub(crate) nothing: (),
}

/// How many chains a table may have: the number of a chain and 3 fit into four bytes.
pub(crate) const MOST_CHAINS: usize = 0xFFFF_FFFD;

const TEXT: u32 = 0;

const OTHER: u32 = 1;

const PENDING: u32 = 2;

const FIRST_CHAIN: u32 = 3;

/// What a table keeps of an entry.
#[derive(Clone, Copy)]
pub(crate) enum Kept {
    Text,
    Other,
    Pending,
    /// A descriptor that has been read, by the number of its chain.
    Closed(u32),
}

/// An entry in four bytes: a number of four bytes, which this file alone reads.
#[derive(Drop)]
pub(crate) struct Slot {
    code: u32,
}

const _: () = prove!(size_of::<Slot>() == 4);

impl Model for Slot {
    ghost use Rattle.jser_table.specs.declared.entry.Kept.{Kept};
    ghost use Rattle.jser_table.specs.Slots.{kept_of};

    ghost Value = { Kept };

    ghost view = { λ a. kept_of a.code };
}

impl Slot {
    /// The slot of a new handle.
    pub(crate) fn new(kind: Kind) -> Slot
        ensures { result ≡ new_kept kind }
    {
        let code = match kind {
            Kind::Text => TEXT,
            Kind::Other => OTHER,
            Kind::Pending => PENDING,
        };
        Slot { code }
    }

    /// The slot of a descriptor that has been read.
    pub(crate) fn closed(chain: u32) -> Slot
        requires { chain < 2 ^ 32 - 3 }
        ensures { result ≡ closed_kept chain }
    {
        Slot {
            code: FIRST_CHAIN + chain,
        }
    }

    /// What it says.
    pub(crate) fn kept(&self) -> Kept
        ensures { result ≡ self.now }
    {
        match self.code {
            TEXT => Kept::Text,
            OTHER => Kept::Other,
            PENDING => Kept::Pending,
            code => Kept::Closed(code - FIRST_CHAIN),
        }
    }
}
