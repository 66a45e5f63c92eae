//! The token that comes next or is being read.
ghost use Rattle.std.specs.Prelude.{◌≡◌, true, false, not};
ghost use Rattle.jser_reader.specs.Passes.{IsQuiet};
ghost use Rattle.jser_reader.specs.Takes.{IsOne};
ghost use Rattle.jser_reader.specs.Tallies.{may_count};
ghost use Rattle.jser_reader.specs.Wholes.{IsPlace};
ghost use Rattle.jser_reader.specs.Walks.{size_of_phase};

/// What a text is, which decides what comes after it.
#[derive(Clone, Copy, PartialEq, Eq)]
pub(crate) enum TextFor {
    /// A string that is a value, or the name of an enum constant.
    Value,
    /// The type of a field.
    FieldType,
    /// The name of a field, and whether the field has a type text.
    FieldName(bool),
    /// The name of a class.
    ClassName,
    /// The name of an interface.
    InterfaceName,
}

/// The token that comes next or is being read.
#[derive(Clone, Copy, PartialEq, Eq)]
pub(crate) enum Phase {
    /// The header of the stream.
    Header,
    /// A tag at the top.
    Top,
    /// A tag in an annotation.
    Note,
    /// A tag in a value place.
    Value,
    /// A tag in a class place.
    ClassTag,
    /// A tag in a superclass place.
    SuperTag,
    /// A tag in a text place.
    TextTag,
    /// The handle of a reference in a value place.
    BackHandle,
    /// The handle of a reference in a class place.
    ClassHandle,
    /// The handle of a reference in a superclass place.
    SuperHandle,
    /// The handle of a reference in a text place.
    TextHandle,
    /// The length of a text, in two bytes.
    Length2,
    /// The length of a text, in eight bytes.
    Length8,
    /// The bytes of a text.
    Text,
    /// The suid of a descriptor.
    Suid,
    /// The flags of a descriptor.
    Flags,
    /// The number of fields of a descriptor.
    FieldCount,
    /// The type code of a field.
    TypeCode,
    /// The number of interfaces of a proxy descriptor.
    InterfaceCount,
    /// The length of an array.
    ArrayLength,
    /// The length of a block, in one byte.
    BlockLength1,
    /// The length of a block, in four bytes.
    BlockLength4,
    /// Raw values.
    Prims,
    /// The bytes of a block.
    Bytes,
    /// A number of which a part came in an earlier piece.
    Cut,
    /// Nothing: the reader has stopped.
    Stopped,
}

impl Phase {
    /// How many bytes the token has, where it is the header, a tag or a number; none where it is anything else.
    pub(crate) fn size(self) -> usize
        ensures { result ≡ size_of_phase self }
    {
        match self {
            Phase::Top | Phase::Note | Phase::Value | Phase::ClassTag => 1,
            Phase::SuperTag | Phase::TextTag | Phase::Flags | Phase::TypeCode => 1,
            Phase::BlockLength1 => 1,
            Phase::Length2 | Phase::FieldCount => 2,
            Phase::Header | Phase::BackHandle | Phase::ClassHandle | Phase::SuperHandle => 4,
            Phase::TextHandle | Phase::InterfaceCount | Phase::ArrayLength => 4,
            Phase::BlockLength4 => 4,
            Phase::Length8 | Phase::Suid => 8,
            Phase::Text | Phase::Prims | Phase::Bytes | Phase::Cut | Phase::Stopped => 0,
        }
    }

    /// Whether a content or a value comes next.
    #[inline(always)]
    pub(crate) fn is_place(self) -> bool
        ensures { result ≡ true → IsPlace self }
    {
        matches!(self, Phase::Top | Phase::Note | Phase::Value)
    }

    /// Whether no count changes with the token: it is no tag at the top, and none that may begin a place.
    #[inline(always)]
    pub(crate) fn is_quiet(self) -> bool
        ensures is { result ≡ not (may_count self) }
        ensures quiet { result ≡ true → IsQuiet self }
        ensures tag { result ≡ false → (self ≡ Phase.Stopped → ⊥) → IsOne self }
    {
        match self {
            Phase::Top | Phase::Note | Phase::Value | Phase::SuperTag | Phase::Stopped => false,
            _ => true,
        }
    }
}
