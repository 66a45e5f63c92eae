//! One byte of a unit's spelling: the places where it can stand, and what it means there.
ghost use Rattle.std.specs.Prelude.{◌≡◌, ◌≢◌, ◌<◌, ◌≤◌, ◌+◌, ℕ, [], ◌∷◌, true, false};
ghost use Rattle.jser_prim.specs.Places.{CanStand, TakesByte, cut_at, is_fault};

/// Where in a unit's spelling the next byte of a text stands.
#[derive(Clone, Copy, Debug)]
pub(crate) enum Place {
    /// It is the first byte of a unit.
    First,
    /// It is the second byte of three, after the first byte `0xE0 + high`.
    Middle { high: u8 },
    /// It is the last byte, after bytes that determine the unit but for its six low bits.
    Last { high: u16 },
    /// Nowhere: there was a fault.
    Fault,
}

/// What a byte leads to.
#[derive(Clone, Copy)]
pub(crate) enum Taken {
    /// The byte ends this unit.
    Unit(u16),
    /// The unit goes on.
    Part(Place),
    /// The byte cannot stand here.
    Refused,
}

impl Place {
    /// What `byte` leads to at this place, with `room` bytes after it in the text.
    pub(crate) fn take(self, byte: u8, room: u64) -> Taken
        requires { CanStand (room + 1) self }
        ensures takes { is_fault self ≡ false → TakesByte room (cut_at self) byte result }
        ensures fault { is_fault self ≡ true → result ≡ Taken.Refused }
    {
        match self {
            Place::First => take_first(byte, room),
            Place::Middle { high } => take_middle(high, byte, room),
            Place::Last { high } => take_last(high, byte),
            Place::Fault => Taken::Refused,
        }
    }
}

/// The first byte of a unit, with `room` bytes after it in the text.
#[tactic(auto, using(crate::proofs::Units::spelling_one))]
fn take_first(byte: u8, room: u64) -> Taken
    ensures { TakesByte room [] byte result }
{
    match byte {
        0x01..=0x7F => Taken::Unit(u16::from(byte)),
        0xC0..=0xDF if byte != 0xC1 && room >= 1 => Taken::Part(Place::Last {
            high: u16::from(byte - 0xC0),
        }),
        0xE0..=0xEF if room >= 2 => Taken::Part(Place::Middle { high: byte - 0xE0 }),
        _ => Taken::Refused,
    }
}

/// The second byte of three, after the first byte `0xE0 + high`, with `room` bytes after it in the text.
#[tactic(auto, using(crate::proofs::PlaceLemmas::middle_cut))]
fn take_middle(high: u8, byte: u8, room: u64) -> Taken
    requires high { high < 16 }
    requires room { 1 ≤ room }
    ensures { TakesByte room ((0xE0 + high) ∷ []) byte result }
{
    match byte {
        0x80..=0x9F if high == 0 => Taken::Refused,
        0x80..=0xBF => Taken::Part(Place::Last {
            high: u16::from(high) * 64 + u16::from(byte - 0x80),
        }),
        _ => Taken::Refused,
    }
}

/// The last byte of a unit, after bytes that determine the unit but for its six low bits.
#[tactic(auto, using(crate::proofs::PlaceLemmas::last_unit))]
fn take_last(high: u16, byte: u8) -> Taken
    requires high { high < 1024 }
    requires not_ascii { high ≢ 1 }
    ensures { (room : ℕ) → TakesByte room (cut_at (Place.Last high)) byte result }
{
    match byte {
        0x80 => Taken::Unit(high * 64),
        0x81..=0xBF if high != 0 => Taken::Unit(high * 64 + u16::from(byte - 0x80)),
        _ => Taken::Refused,
    }
}
