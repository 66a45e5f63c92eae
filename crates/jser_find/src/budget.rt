//! How many bytes of an input may be read.
ghost use Rattle.std.specs.Prelude.{◌≡◌, ◌+◌, ◌*◌, ◌-◌, ◌^◌, min};

/// How many bytes are read beside those for each byte of an input.
pub const BESIDES: usize = 1_048_576;

/// How many bytes of an input may still be read. At each header the bytes count that decide which stream is there.
#[derive(Clone, Copy, PartialEq, Eq, Debug)]
pub struct Budget {
    /// How many are left.
    pub left: usize,
}

impl Budget {
    /// The budget of an input of `len` bytes: `effort` for each of them, and 1,048,576 besides.
    pub fn new(effort: usize, len: usize) -> Budget
        ensures { result.left ≡ min (effort * len + 1048576) (2 ^ 64 - 1) }
    {
        Budget {
            left: effort.saturating_mul(len).saturating_add(BESIDES),
        }
    }
}
