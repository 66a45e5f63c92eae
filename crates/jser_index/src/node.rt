//! Nodes: what the handles of a stream name.
ghost use Rattle.std.specs.Prelude.{ℕ, ◌≡◌, ◌/◌, None, Some, IfOk};
ghost use Rattle.jser_shown.specs.Nodes.{text_node};
ghost use Rattle.jser_index.specs.StoredNodes.{view_kind, kind_in, place_in, spot_of, spot_in, IsStored};

use crate::spot::Spot;
use std::alloc::AllocError;

/// What a handle names.
#[derive(Clone, Copy, PartialEq, Eq, Hash, Debug)]
pub enum NodeKind {
    /// A string.
    Text,
    /// A class descriptor.
    PlainDesc,
    /// A proxy class descriptor.
    ProxyDesc,
    /// A class object.
    ClassObject,
    /// An array.
    Array,
    /// An enum constant.
    EnumConst,
    /// An object.
    Object,
}

/// A node of a stream.
#[derive(Clone, Copy, PartialEq, Eq, Hash, Debug)]
pub struct Node {
    /// What it is.
    pub kind: NodeKind,
    /// The place of its tag: the number of bytes of the stream before it.
    pub tag_byte: u64,
}

/// What a node is, as it is kept.
#[derive(Clone, Copy)]
pub(crate) enum StoredKind {
    /// A string of which no units are kept.
    Text,
    /// A string whose units lie among those of others.
    NearText,
    /// A string whose units are a list of their own.
    FarText,
    PlainDesc,
    ProxyDesc,
    ClassObject,
    Array,
    EnumConst,
    Object,
}

/// A node, as it is kept, in 12 bytes: the place of its tag takes 40 bits, since no stream that is read is longer.
#[derive(Clone, Copy)]
pub(crate) struct StoredNode {
    /// The lower 32 bits of the place of its tag.
    place_low: u32,
    /// Where its units begin, or the number of their list.
    start: u32,
    /// How many units it has among those of others.
    len: u16,
    /// The other bits of the place of its tag.
    place_high: u8,
    kind: StoredKind,
}

/// The number of a handle or of the text of one, as nodes have it. The format has no handle that does not fit 32 bits, and a
/// table of so many would take more memory than there is.
#[inline(always)]
pub(crate) fn small_number(number: usize) -> Result<u32, AllocError>
    ensures { IfOk result (λ small. small ≡ number) }
{
    u32::try_from(number).map_err(|_| AllocError)
}

/// The bits of a place above the lower 32. There are at most 8, since a stream that is read has at most 2^40 bytes.
#[inline(always)]
fn high_bits(place: u64) -> Result<u8, AllocError>
    ensures { IfOk result (λ high. high ≡ place / 4294967296) }
{
    u8::try_from(place / 4_294_967_296).map_err(|_| AllocError)
}

/// What a node of this kind is kept as that has no units.
#[inline(always)]
fn stored_kind(kind: NodeKind) -> StoredKind
    ensures kind { kind_in result ≡ view_kind kind }
    ensures none { (start len : ℕ) → spot_of result start len ≡ None }
{
    match kind {
        NodeKind::Text => StoredKind::Text,
        NodeKind::PlainDesc => StoredKind::PlainDesc,
        NodeKind::ProxyDesc => StoredKind::ProxyDesc,
        NodeKind::ClassObject => StoredKind::ClassObject,
        NodeKind::Array => StoredKind::Array,
        NodeKind::EnumConst => StoredKind::EnumConst,
        NodeKind::Object => StoredKind::Object,
    }
}

impl StoredNode {
    /// A node of this kind that has no units.
    #[inline(always)]
    pub(crate) fn without_units(kind: NodeKind, tag_byte: u64) -> Result<StoredNode, AllocError>
        ensures { IfOk result (λ stored. IsStored stored (view_kind kind) tag_byte None) }
    {
        let place_high = high_bits(tag_byte)?;
        Ok(StoredNode {
            place_low: (tag_byte % 4_294_967_296) as u32,
            start: 0,
            len: 0,
            place_high,
            kind: stored_kind(kind),
        })
    }

    /// A string whose units are kept at this spot.
    #[inline(always)]
    pub(crate) fn string(spot: Spot, tag_byte: u64) -> Result<StoredNode, AllocError>
        ensures { IfOk result (λ stored. IsStored stored text_node tag_byte (Some spot)) }
    {
        let place_high = high_bits(tag_byte)?;
        let place_low = (tag_byte % 4_294_967_296) as u32;
        let stored = match spot {
            Spot::Near { start, len } => StoredNode {
                place_low,
                start,
                len,
                place_high,
                kind: StoredKind::NearText,
            },
            Spot::Far(number) => StoredNode {
                place_low,
                start: number,
                len: 0,
                place_high,
                kind: StoredKind::FarText,
            },
        };
        Ok(stored)
    }

    /// Where its units are kept, if it has any.
    pub(crate) fn spot(self) -> Option<Spot>
        ensures { result ≡ spot_in self }
    {
        match self.kind {
            StoredKind::NearText => Some(Spot::Near {
                start: self.start,
                len: self.len,
            }),
            StoredKind::FarText => Some(Spot::Far(self.start)),
            StoredKind::Text => None,
            StoredKind::PlainDesc => None,
            StoredKind::ProxyDesc => None,
            StoredKind::ClassObject => None,
            StoredKind::Array => None,
            StoredKind::EnumConst => None,
            StoredKind::Object => None,
        }
    }

    /// What it is, and where its tag stands.
    pub(crate) fn node(self) -> Node
        ensures kind { view_kind result.kind ≡ kind_in self.kind }
        ensures tag_byte { result.tag_byte ≡ place_in self }
    {
        let kind = match self.kind {
            StoredKind::Text => NodeKind::Text,
            StoredKind::NearText => NodeKind::Text,
            StoredKind::FarText => NodeKind::Text,
            StoredKind::PlainDesc => NodeKind::PlainDesc,
            StoredKind::ProxyDesc => NodeKind::ProxyDesc,
            StoredKind::ClassObject => NodeKind::ClassObject,
            StoredKind::Array => NodeKind::Array,
            StoredKind::EnumConst => NodeKind::EnumConst,
            StoredKind::Object => NodeKind::Object,
        };
        Node {
            kind,
            tag_byte: u64::from(self.place_low) + 4_294_967_296 * u64::from(self.place_high),
        }
    }
}
