//! Numbers in the byte order of `java.io.DataOutput`: the highest byte first.
ghost use Rattle.std.specs.Prelude.{◌≡◌, length};
ghost use Rattle.jser_prim.specs.Bytes.{big_bytes};

use byteorder::{BigEndian, ByteOrder};

/// The number in two bytes.
#[tactic(auto, using(crate::proofs::NumberLemmas::bytes_of_two))]
pub fn read_u16(bytes: &[u8]) -> u16
    requires { length bytes.now ≡ 2 }
    ensures { big_bytes 2 result ≡ bytes.now }
{
    BigEndian::read_u16(bytes)
}

/// The number in four bytes.
#[tactic(auto, using(crate::proofs::NumberLemmas::bytes_of_four))]
pub fn read_u32(bytes: &[u8]) -> u32
    requires { length bytes.now ≡ 4 }
    ensures { big_bytes 4 result ≡ bytes.now }
{
    BigEndian::read_u32(bytes)
}

/// The number in eight bytes.
#[tactic(auto, using(crate::proofs::NumberLemmas::bytes_of_eight))]
pub fn read_u64(bytes: &[u8]) -> u64
    requires { length bytes.now ≡ 8 }
    ensures { big_bytes 8 result ≡ bytes.now }
{
    BigEndian::read_u64(bytes)
}
