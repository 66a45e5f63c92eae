//! Texts: by their units, or by bytes that stand for themselves.
ghost use Rattle.std.specs.Prelude.{◌≡◌, ◌<◌, ◌∷◌, ◌⊎◌, [], true, false, IfSome};
ghost use Rattle.std.specs.List.{flat_map};
ghost use Rattle.hex.specs.Hex.{encode_lower};
ghost use Rattle.jser_prim.specs.Bytes.{big_bytes};
ghost use Rattle.jser_shown.specs.Words.{quoted_unit};
ghost use Rattle.jser_printer.specs.Plain.{ArePlain, IsAscii};

/// The bytes of a text, each of which is a unit that stands for itself in a quoted text: those from 20 to 7E in
/// hexadecimal, but for `"` and `\`.
#[derive(Clone, Copy)]
pub struct Plain<'t> {
    bytes: &'t [u8],
    pub ghost same: { flat_map quoted_unit bytes.now ≡ bytes.now },
}

impl<'t> Plain<'t> {
    /// These bytes; None where one does not stand for itself.
    pub fn of(bytes: &'t [u8]) -> Option<Plain<'t>>
        ensures is { IfSome result (λ plain. plain.bytes.now ≡ bytes.now) }
        ensures ascii { IfSome result (λ _. IsAscii bytes.now) }
    {
        if are_plain(bytes) {
            Some(Plain { bytes })
        } else {
            None
        }
    }

    /// The bytes.
    #[inline(always)]
    pub(crate) fn bytes(self) -> &'t [u8]
        ensures is { result.now ≡ self.entry.bytes.now }
        ensures same { flat_map quoted_unit result.now ≡ result.now }
    {
        self.bytes
    }
}

/// A text, as it is given.
#[derive(Clone, Copy)]
pub(crate) enum Text<'t> {
    /// Its UTF-16 units.
    Units(&'t [u16]),
    /// Its bytes.
    Plain(Plain<'t>),
}

/// Whether each of the bytes is a unit that stands for itself.
#[tactic(auto, using(crate::proofs::PlainLemmas::quoted_more, crate::proofs::PlainLemmas::ascii_more, crate::proofs::PlainLemmas::plain_all))]
fn are_plain(bytes: &[u8]) -> bool
    ensures { result ≡ true → ArePlain bytes.now }
{
    let mut plain = true;
    for byte in bytes {
        plain &= is_plain(u16::from(*byte));
    }
    plain
}

/// Whether a unit stands for itself in a quoted text: those from 20 to 7E in hexadecimal do, but for `"` and `\`.
#[inline(always)]
pub(crate) fn is_plain(unit: u16) -> bool
    ensures plain { result ≡ true → (quoted_unit unit ≡ unit ∷ []) × (unit < 0x80) }
    ensures other { result ≡ false → (unit ≡ 0x22) ⊎ ((unit ≡ 0x5C) ⊎ (quoted_unit unit ≡ 0x5C ∷ 0x75 ∷ encode_lower (big_bytes 2 unit))) }
{
    unit != 0x22 && unit != 0x5C && 0x20 <= unit && unit <= 0x7E
}
