//! What a printer sees of a token: tags by name, texts in either form alike, and so with raw values and the bytes of
//! blocks.
ghost use Rattle.jser_reading.specs.Labels.{StreamToken};
ghost use Rattle.jser_printer.specs.Given.{IsOf};
ghost use Rattle.jser_printer.specs.Seen.{Sees, tag_seen, view_seen};
ghost use Rattle.std.specs.Prelude.{◌≡◌, option_map};

use crate::text::Text;
use crate::token::Token;
use jser_grammar::wire::{
    BASE_WIRE_HANDLE, TC_ARRAY, TC_BLOCKDATA, TC_BLOCKDATALONG, TC_CLASS, TC_CLASSDESC,
    TC_ENDBLOCKDATA, TC_ENUM, TC_LONGSTRING, TC_NULL, TC_OBJECT, TC_PROXYCLASSDESC, TC_REFERENCE,
    TC_RESET, TC_STRING,
};

/// A tag that begins a value, or stands in a class place or a text place.
#[derive(Clone, Copy)]
pub(crate) enum Tag {
    /// TC_NULL.
    Null,
    /// TC_REFERENCE.
    Reference,
    /// TC_CLASSDESC.
    ClassDesc,
    /// TC_OBJECT.
    Object,
    /// TC_STRING.
    String,
    /// TC_ARRAY.
    Array,
    /// TC_CLASS.
    Class,
    /// TC_LONGSTRING.
    LongString,
    /// TC_PROXYCLASSDESC.
    ProxyDesc,
    /// TC_ENUM.
    Enum,
}

/// What is seen of a token.
#[derive(Clone, Copy)]
pub(crate) enum Seen<'f> {
    /// The header.
    Header,
    /// The tag of a value.
    Tag(Tag),
    /// The tag of a block, in the long form or the short one.
    BlockTag(bool),
    /// TC_ENDBLOCKDATA.
    EndTag,
    /// TC_RESET.
    ResetTag,
    /// The number of an entry.
    Handle(usize),
    /// The serial version UID of a descriptor.
    Suid(u64),
    /// The flags of a descriptor.
    Flags(u8),
    /// The number of fields of a descriptor.
    FieldCount(u16),
    /// The number of interfaces of a proxy descriptor.
    InterfaceCount(u32),
    /// The number of elements of an array.
    ArrayLength(u32),
    /// The type code of a field.
    TypeCode(u8),
    /// The number of bytes of a block.
    BlockLength(u32),
    /// A text.
    Text(Text<'f>),
    /// The bytes of raw values or of a block.
    Bytes(&'f [u8]),
}

/// What is seen of a token; None of one that no stream has.
#[tactic(auto, using(crate::proofs::SeenLemmas::sees_tag))]
#[inline(always)]
pub(crate) fn see(token: Token<'_>) -> Option<Seen<'_>>
    ensures { (told : StreamToken) → IsOf token.entry told → Sees result told }
{
    match token {
        Token::Header => Some(Seen::Header),
        Token::Tag(byte) => see_tag(byte),
        Token::Handle(handle) => match handle.checked_sub(BASE_WIRE_HANDLE) {
            Some(number) => Some(Seen::Handle(number as usize)),
            None => None,
        },
        Token::Suid(suid) => Some(Seen::Suid(suid)),
        Token::Flags(flags) => Some(Seen::Flags(flags)),
        Token::FieldCount(count) => Some(Seen::FieldCount(count)),
        Token::InterfaceCount(count) => Some(Seen::InterfaceCount(count)),
        Token::ArrayLength(length) => Some(Seen::ArrayLength(length)),
        Token::TypeCode(code) => Some(Seen::TypeCode(code)),
        Token::BlockLength(length) => Some(Seen::BlockLength(length)),
        Token::Text(units) => Some(Seen::Text(Text::Units(units))),
        Token::Raw(bytes) => Some(Seen::Bytes(bytes)),
    }
}

/// What is seen of a tag; None of a byte that is no tag.
#[inline(always)]
fn see_tag(byte: u8) -> Option<Seen<'static>>
    ensures { option_map view_seen result ≡ tag_seen byte }
{
    match byte {
        TC_NULL => Some(Seen::Tag(Tag::Null)),
        TC_REFERENCE => Some(Seen::Tag(Tag::Reference)),
        TC_CLASSDESC => Some(Seen::Tag(Tag::ClassDesc)),
        TC_OBJECT => Some(Seen::Tag(Tag::Object)),
        TC_STRING => Some(Seen::Tag(Tag::String)),
        TC_ARRAY => Some(Seen::Tag(Tag::Array)),
        TC_CLASS => Some(Seen::Tag(Tag::Class)),
        TC_BLOCKDATA => Some(Seen::BlockTag(false)),
        TC_ENDBLOCKDATA => Some(Seen::EndTag),
        TC_RESET => Some(Seen::ResetTag),
        TC_BLOCKDATALONG => Some(Seen::BlockTag(true)),
        TC_LONGSTRING => Some(Seen::Tag(Tag::LongString)),
        TC_PROXYCLASSDESC => Some(Seen::Tag(Tag::ProxyDesc)),
        TC_ENUM => Some(Seen::Tag(Tag::Enum)),
        _ => None,
    }
}
