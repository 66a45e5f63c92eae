//! Tags: the bytes that say what comes next (Java Object Serialization Specification, section 6.4.2,
//! `java.io.ObjectStreamConstants`).
ghost use Rattle.jser_reader.specs.Tags.{IsTagOf};

use jser_grammar::wire::{
    TC_ARRAY, TC_BLOCKDATA, TC_BLOCKDATALONG, TC_CLASS, TC_CLASSDESC, TC_ENDBLOCKDATA, TC_ENUM,
    TC_EXCEPTION, TC_LONGSTRING, TC_NULL, TC_OBJECT, TC_PROXYCLASSDESC, TC_REFERENCE, TC_RESET,
    TC_STRING,
};

/// A tag that begins a value, or stands in a class place or a text place.
#[derive(Clone, Copy)]
pub(crate) enum ValueTag {
    Null,
    Reference,
    ClassDesc,
    Object,
    String,
    LongString,
    Array,
    Class,
    ProxyClassDesc,
    Enum,
}

/// A tag of the protocol.
#[derive(Clone, Copy)]
pub(crate) enum Tag {
    Value(ValueTag),
    /// Block data, in the long form or the short one.
    Block(bool),
    EndBlockData,
    Reset,
    Exception,
}

/// The tag that a byte is, if it is one: the bytes from `TC_NULL` to `TC_ENUM` are.
#[inline(always)]
pub(crate) fn tag_of(byte: u8) -> Option<Tag>
    ensures { IsTagOf byte result }
{
    match byte {
        TC_NULL => Some(Tag::Value(ValueTag::Null)),
        TC_REFERENCE => Some(Tag::Value(ValueTag::Reference)),
        TC_CLASSDESC => Some(Tag::Value(ValueTag::ClassDesc)),
        TC_OBJECT => Some(Tag::Value(ValueTag::Object)),
        TC_STRING => Some(Tag::Value(ValueTag::String)),
        TC_ARRAY => Some(Tag::Value(ValueTag::Array)),
        TC_CLASS => Some(Tag::Value(ValueTag::Class)),
        TC_BLOCKDATA => Some(Tag::Block(false)),
        TC_ENDBLOCKDATA => Some(Tag::EndBlockData),
        TC_RESET => Some(Tag::Reset),
        TC_BLOCKDATALONG => Some(Tag::Block(true)),
        TC_EXCEPTION => Some(Tag::Exception),
        TC_LONGSTRING => Some(Tag::Value(ValueTag::LongString)),
        TC_PROXYCLASSDESC => Some(Tag::Value(ValueTag::ProxyClassDesc)),
        TC_ENUM => Some(Tag::Value(ValueTag::Enum)),
        _ => None,
    }
}
