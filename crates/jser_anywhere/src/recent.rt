//! The last bytes, and what begins with the next one.
ghost use Rattle.std.specs.Prelude.{◌≡◌, ◌+◌, ◌*◌, ◌≤◌, length};
ghost use Rattle.jser_anywhere.specs.Steps.{left_of, name_left, no_recent, recent_in, row_left, with_byte};

use byteorder::{BigEndian, ByteOrder};
use jser_grammar::wire::{TC_CLASSDESC, TC_PROXYCLASSDESC};

/// The last six bytes. Where there were not so many, 0xFF stands for those that are missing: no name begins with it.
#[derive(Clone, Copy, Debug)]
pub(crate) struct Recent {
    pub(crate) last: u8,
    pub(crate) second: u8,
    pub(crate) third: u8,
    pub(crate) fourth: u8,
    pub(crate) fifth: u8,
    pub(crate) sixth: u8,
}

/// A text whose length was just read.
#[derive(Clone, Copy, Debug)]
pub(crate) struct Begun {
    /// How many texts of its row may follow it.
    pub(crate) more: u16,
    /// How many bytes follow the next one.
    pub(crate) left: u16,
}

/// The number in two bytes, the higher first.
pub(crate) fn number_of(high: u8, low: u8) -> u16
    ensures { result ≡ high * 256 + low }
{
    BigEndian::read_u16(&[high, low])
}

/// How many bytes follow the next one of a text of this length, if it is the length of one.
pub(crate) fn left_of(high: u8, low: u8) -> Option<u16>
    ensures { result ≡ left_of high low }
{
    let len = number_of(high, low);
    if len >= 1 && len <= 9215 {
        Some(len - 1)
    } else {
        None
    }
}

impl Recent {
    /// No bytes.
    pub(crate) fn none() -> Recent
        ensures { result ≡ no_recent }
    {
        Recent {
            last: 0xFF,
            second: 0xFF,
            third: 0xFF,
            fourth: 0xFF,
            fifth: 0xFF,
            sixth: 0xFF,
        }
    }

    /// The last six of the bytes of a piece before this place.
    #[inline(always)]
    pub(crate) fn in_piece(piece: &[u8], to: usize) -> Recent
        requires { (6 ≤ to) × (to ≤ length piece.now) }
        ensures { result ≡ recent_in piece.now to }
    {
        Recent {
            last: piece[to - 1],
            second: piece[to - 2],
            third: piece[to - 3],
            fourth: piece[to - 4],
            fifth: piece[to - 5],
            sixth: piece[to - 6],
        }
    }

    /// One byte more.
    pub(crate) fn with_byte(self, byte: u8) -> Recent
        ensures { result ≡ with_byte self byte }
    {
        Recent {
            last: byte,
            second: self.last,
            third: self.second,
            fourth: self.third,
            fifth: self.fourth,
            sixth: self.fifth,
        }
    }

    /// The descriptor's name whose length ends with the next byte.
    pub(crate) fn name_left(self, byte: u8) -> Option<u16>
        ensures { result ≡ name_left self byte }
    {
        if self.second == TC_CLASSDESC {
            left_of(self.last, byte)
        } else {
            None
        }
    }

    /// The first text of a row, whose length ends with the next byte.
    pub(crate) fn row_left(self, byte: u8) -> Option<Begun>
        ensures { result ≡ row_left self byte }
    {
        if self.sixth != TC_PROXYCLASSDESC || self.fifth != 0 || self.fourth != 0 {
            return None;
        }
        let count = number_of(self.third, self.second);
        if count == 0 {
            return None;
        }
        match left_of(self.last, byte) {
            Some(left) => Some(Begun {
                more: count - 1,
                left,
            }),
            None => None,
        }
    }
}
