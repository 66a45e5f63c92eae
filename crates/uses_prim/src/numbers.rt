//! Numbers of a stream.
ghost use Rattle.std.specs.Prelude.{◌≡◌, ◌+◌, ◌∷◌, [], ◌++◌, length, IsTrue, IfSome};
ghost use Rattle.jser_prim.specs.Bytes.{big_bytes};

use jser_prim::{read_u16, read_u32, read_u64};

/// Whether these are the four bytes with which each stream begins.
pub fn is_header(bytes: &[u8; 4]) -> bool
    ensures { IsTrue result → bytes.now ≡ 0xAC ∷ 0xED ∷ 0x00 ∷ 0x05 ∷ [] }
{
    let [a, b, c, d] = *bytes;
    read_u16(&[a, b]) == 0xACED && read_u16(&[c, d]) == 5
}

/// Which handle these four bytes name, counted from 0, if they name one.
pub fn handle(bytes: &[u8; 4]) -> Option<u32>
    ensures { IfSome result (λ number. big_bytes 4 (0x7E0000 + number) ≡ bytes.now) }
{
    read_u32(bytes).checked_sub(0x7E_0000)
}

/// Whether these eight bytes are the serialVersionUID that a service knows.
pub fn is_known(bytes: &[u8; 8], known: u64) -> bool
    ensures { IsTrue result → bytes.now ≡ big_bytes 8 known }
{
    read_u64(bytes) == known
}
