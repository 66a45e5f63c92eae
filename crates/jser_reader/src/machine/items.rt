//! Items: what is lent of the bytes that were taken.
ghost use Rattle.std.specs.Prelude.{◌≡◌, ◌≤◌, ◌++◌, length};
ghost use Rattle.jser_reading.specs.TokensFromBytes.{number_of};
ghost use Rattle.jser_reader.specs.Walks.{size_of_phase, open_phase, cut_of};
ghost use Rattle.jser_reader.specs.ItemsMade.{number_item, MakesItem};

use crate::item::Item;
use crate::machine::Machine;
use crate::phase::Phase;
use arrayvec::ArrayVec;
use jser_prim::{read_u16, read_u32, read_u64};

/// The byte of a token of one byte.
#[inline(always)]
fn byte_of(bytes: &[u8]) -> u8
    ensures { length bytes.now ≡ 1 → result ≡ number_of bytes.now }
{
    match bytes {
        [byte] => *byte,
        _ => 0,
    }
}

/// The number in the bytes of a token of two.
#[tactic(auto, using(crate::proofs::ItemLemmas::number_of_two))]
#[inline(always)]
fn short_of(bytes: &[u8]) -> u16
    ensures { length bytes.now ≡ 2 → result ≡ number_of bytes.now }
{
    if bytes.len() != 2 {
        return 0;
    }
    read_u16(bytes)
}

/// The number in the bytes of a token of four.
#[tactic(auto, using(crate::proofs::ItemLemmas::number_of_four))]
#[inline(always)]
fn word_of(bytes: &[u8]) -> u32
    ensures { length bytes.now ≡ 4 → result ≡ number_of bytes.now }
{
    if bytes.len() != 4 {
        return 0;
    }
    read_u32(bytes)
}

/// The number in the bytes of a token of eight.
#[tactic(auto, using(crate::proofs::ItemLemmas::number_of_eight))]
#[inline(always)]
fn long_of(bytes: &[u8]) -> u64
    ensures { length bytes.now ≡ 8 → result ≡ number_of bytes.now }
{
    if bytes.len() != 8 {
        return 0;
    }
    read_u64(bytes)
}

/// The item of a whole token (header, tag or number) from its bytes.
#[inline(always)]
fn whole_item<'p>(token: Phase, bytes: &[u8]) -> Item<'p>
    ensures { length bytes.now ≡ size_of_phase token → result ≡ number_item token (number_of bytes.now) }
{
    match token {
        Phase::Top | Phase::Note | Phase::Value => Item::Tag(byte_of(bytes)),
        Phase::ClassTag | Phase::SuperTag | Phase::TextTag => Item::Tag(byte_of(bytes)),
        Phase::BackHandle | Phase::ClassHandle => Item::Handle(word_of(bytes)),
        Phase::SuperHandle | Phase::TextHandle => Item::Handle(word_of(bytes)),
        Phase::Length2 => Item::TextLength(u64::from(short_of(bytes))),
        Phase::Length8 => Item::TextLength(long_of(bytes)),
        Phase::Suid => Item::Suid(long_of(bytes)),
        Phase::Flags => Item::Flags(byte_of(bytes)),
        Phase::FieldCount => Item::FieldCount(short_of(bytes)),
        Phase::TypeCode => Item::TypeCode(byte_of(bytes)),
        Phase::InterfaceCount => Item::InterfaceCount(word_of(bytes)),
        Phase::ArrayLength => Item::ArrayLength(word_of(bytes)),
        Phase::BlockLength1 => Item::BlockLength(u32::from(byte_of(bytes))),
        Phase::BlockLength4 => Item::BlockLength(word_of(bytes)),
        _ => Item::Header,
    }
}

/// The first bytes of a token that was cut, none of one that was not.
pub(crate) type Kept = ArrayVec<u8, 8>;

/// The bytes that were kept, and others after them, where there are no more than eight.
fn joined(kept: Kept, part: &[u8]) -> Kept
    ensures { length (kept.items ++ part.now) ≤ 8 → result.items ≡ kept.items ++ part.now }
{
    let mut whole = kept;
    let _ = whole.try_extend_from_slice(part);
    whole
}

/// The item of a token that was cut, of which these bytes were kept, and this part taken now.
#[inline(never)]
fn cut_item<'p>(token: Phase, kept: Kept, part: &[u8]) -> Item<'p>
    ensures { length (kept.items ++ part.now) ≤ 8 → length (kept.items ++ part.now) ≡ size_of_phase token → result ≡ number_item token (number_of (kept.items ++ part.now)) }
{
    let whole = joined(kept, part);
    whole_item(token, whole.as_slice())
}

/// The item of a token, of which these bytes were kept, and this part taken now.
#[tactic(auto, using(crate::proofs::ItemLemmas::makes_number))]
#[inline(always)]
pub(crate) fn item_of<'p>(token: Phase, kept: Kept, part: &'p [u8]) -> Item<'p>
    ensures { MakesItem token kept.items part.now result }
{
    match token {
        Phase::Text => Item::TextPart(part),
        Phase::Prims | Phase::Bytes => Item::RawPart(part),
        _ => {
            if kept.is_empty() {
                return whole_item(token, part);
            }
            cut_item(token, kept, part)
        }
    }
}

impl Machine {
    /// The token that is open or comes next.
    #[inline(always)]
    pub(crate) fn token(&self) -> Phase
        ensures { result ≡ open_phase self.now }
    {
        match self.phase {
            Phase::Cut => self.cut.phase(),
            phase => phase,
        }
    }

    /// The bytes that were kept of it.
    #[inline(always)]
    pub(crate) fn kept(&self) -> Kept
        ensures { result.items ≡ cut_of self.now }
    {
        match self.phase {
            Phase::Cut => self.cut.kept(),
            _ => ArrayVec::new(),
        }
    }
}
