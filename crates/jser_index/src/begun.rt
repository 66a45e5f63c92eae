//! Tags whose nodes are not made yet.
ghost use Rattle.std.specs.Prelude.{◌≡◌, option_map};
ghost use Rattle.jser_reading.specs.TokenBytes.{tag_byte};
ghost use Rattle.jser_reading.specs.Labels.{StreamToken, Tag};
ghost use Rattle.jser_shown.specs.Finding.{elements_made, is_owner_kind, kind_begun};
ghost use Rattle.jser_printer.specs.Given.{IsOf};
ghost use Rattle.jser_index.specs.StoredNodes.{view_kind};

use crate::node::NodeKind;
use jser_grammar::wire::{
    TC_ARRAY, TC_CLASS, TC_CLASSDESC, TC_ENUM, TC_LONGSTRING, TC_OBJECT, TC_PROXYCLASSDESC,
    TC_STRING,
};
use jser_printer::Token;

/// A tag whose node is not made yet.
#[derive(Clone, Copy)]
pub(crate) struct Begun {
    pub(crate) kind: NodeKind,
    /// The place of the tag.
    pub(crate) tag_byte: u64,
    /// Where it stands among the owners, if it is one.
    pub(crate) position: usize,
}

/// What the tag of a value begins; nothing where it is `TC_NULL` or `TC_REFERENCE`.
#[inline(always)]
pub(crate) fn kind_begun(tag: u8) -> Option<NodeKind>
    ensures { (told : Tag) → tag ≡ tag_byte told → option_map view_kind result ≡ kind_begun told }
{
    match tag {
        TC_CLASSDESC => Some(NodeKind::PlainDesc),
        TC_PROXYCLASSDESC => Some(NodeKind::ProxyDesc),
        TC_OBJECT => Some(NodeKind::Object),
        TC_ARRAY => Some(NodeKind::Array),
        TC_CLASS => Some(NodeKind::ClassObject),
        TC_ENUM => Some(NodeKind::EnumConst),
        TC_STRING => Some(NodeKind::Text),
        TC_LONGSTRING => Some(NodeKind::Text),
        _ => None,
    }
}

/// Whether it is the owner of a class place.
#[inline(always)]
pub(crate) fn is_owner(kind: NodeKind) -> bool
    ensures { result ≡ is_owner_kind (view_kind kind) }
{
    match kind {
        NodeKind::Object => true,
        NodeKind::Array => true,
        NodeKind::ClassObject => true,
        NodeKind::EnumConst => true,
        NodeKind::Text => false,
        NodeKind::PlainDesc => false,
        NodeKind::ProxyDesc => false,
    }
}

/// How many elements a node has that is made at this token; 0 where it is no array.
#[inline(always)]
pub(crate) fn elements_made(kind: NodeKind, token: Token<'_>) -> u32
    ensures { (told : StreamToken) → IsOf token.entry told → result ≡ elements_made (view_kind kind) told }
{
    match kind {
        NodeKind::Array => match token {
            Token::ArrayLength(elements) => elements,
            _ => 0,
        },
        NodeKind::Object => 0,
        NodeKind::ClassObject => 0,
        NodeKind::EnumConst => 0,
        NodeKind::Text => 0,
        NodeKind::PlainDesc => 0,
        NodeKind::ProxyDesc => 0,
    }
}
