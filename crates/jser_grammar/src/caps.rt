//! The greatest limits: what no gate and no call goes beyond, whatever is asked for.

/// The bytes of a stream: 2^40.
pub const MOST_BYTES: u64 = 0x100_0000_0000;
/// The depth of a place.
pub const MOST_DEPTH: u32 = 65_535;
/// The places of a stream: 2^63 - 1.
pub const MOST_REFS: u64 = 0x7FFF_FFFF_FFFF_FFFF;
/// The length of an array: 2^31 - 1.
pub const MOST_ARRAY: u32 = 0x7FFF_FFFF;
/// The handles of an epoch: those from `BASE_WIRE_HANDLE` to 2^31 - 1.
pub const MOST_HANDLES: u32 = 2_139_226_112;
/// The bytes of a stream that is kept as a tree: 2^31 - 1.
pub const MOST_TREE_BYTES: u64 = 0x7FFF_FFFF;
/// The depth of a tree.
pub const MOST_TREE_DEPTH: u32 = 1000;
