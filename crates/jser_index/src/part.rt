//! What a reader lends of a stream that it is given in one piece: tokens, or the bytes of texts.
ghost use Rattle.jser_index.specs.Along.{IsPartOf};

use jser_printer::Token;
use jser_reader::Item;

/// A token, or what leads to one.
#[derive(Clone, Copy)]
pub(crate) enum Part<'p> {
    /// A token that is no text.
    Token(Token<'p>),
    /// All bytes of a text.
    Text(&'p [u8]),
    /// The length of a text whose bytes come next.
    Length,
}

/// The item, as a part.
#[inline(always)]
pub(crate) fn part_of(item: Item<'_>) -> Part<'_>
    ensures { IsPartOf item.entry result }
{
    match item {
        Item::Header => Part::Token(Token::Header),
        Item::Tag(tag) => Part::Token(Token::Tag(tag)),
        Item::Handle(handle) => Part::Token(Token::Handle(handle)),
        Item::TextLength(0) => Part::Text(&[]),
        Item::TextLength(_) => Part::Length,
        Item::TextPart(bytes) => Part::Text(bytes),
        Item::Suid(suid) => Part::Token(Token::Suid(suid)),
        Item::Flags(flags) => Part::Token(Token::Flags(flags)),
        Item::FieldCount(count) => Part::Token(Token::FieldCount(count)),
        Item::InterfaceCount(count) => Part::Token(Token::InterfaceCount(count)),
        Item::TypeCode(code) => Part::Token(Token::TypeCode(code)),
        Item::ArrayLength(length) => Part::Token(Token::ArrayLength(length)),
        Item::BlockLength(length) => Part::Token(Token::BlockLength(length)),
        Item::RawPart(bytes) => Part::Token(Token::Raw(bytes)),
    }
}
