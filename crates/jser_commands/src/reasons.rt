//! What each reason of a refusal means, in a sentence: one home for all that tell it.
ghost use Rattle.std.specs.Prelude.{◌≡◌, ◌≤◌, length};
ghost use Rattle.jser_commands.specs.Reasons.{hidden_meaning, reason_meaning};

use jser_reader::Reason;

/// What the reason of a refusal means. It allocates nothing.
pub fn meaning_of(reason: Reason) -> &'static str
    ensures means { result.now ≡ reason_meaning reason }
    ensures short { length result.now ≤ 160 }
{
    match reason {
        Reason::BytesExceeded => "The stream has more bytes than the limit.",
        Reason::BadHeader => "The bytes do not begin with the header of a stream, aced0005.",
        Reason::BadTag => "This byte is no tag, or none that may stand here.",
        Reason::ExceptionTag =>
            "The writer of the stream met an exception here. Such streams are refused.",
        Reason::ResetInside => "A reset may only stand between the contents at the top.",
        Reason::BadText => "These bytes are no modified UTF-8, or not the shortest spelling.",
        Reason::NegativeLength => "This number is negative.",
        Reason::BadTypeCode => "This byte is none of the type codes B C D F I J S Z [ L.",
        Reason::FieldOrder =>
            "A descriptor has its fields of primitive types before all others; this one comes late.",
        Reason::BadFlags =>
            "No class has these flags: a bit of E0, or serializable and externalizable at once.",
        Reason::NullClass => "A class must stand here, and this is null.",
        Reason::NoSuchHandle => "No object of the stream has this handle yet.",
        Reason::WrongKind => "The handle names something else than is wanted here.",
        Reason::OpenDescriptor => "The handle names a class whose description has not ended.",
        Reason::BadArrayName => "The name begins with [ and is not the name of an array class.",
        Reason::WrongClass =>
            "This class cannot be that of an object, array or enum constant here.",
        Reason::ExternalRaw =>
            "The class writes its own data without block data mode, so nobody else can find their end.",
        Reason::NotSerializable => "A class of the object is not serializable.",
        Reason::ClassRejected => "A pattern of the filter rejects this class.",
        Reason::ClassUnmatched =>
            "No pattern of the filter matches this class, and --strict is set.",
        Reason::DepthExceeded => "Values are nested deeper than the limit.",
        Reason::RefsExceeded => "The stream has more places for values than the limit.",
        Reason::ArrayExceeded => "The array is longer than the limit.",
        Reason::Truncated => "The input ends here, and the stream does not.",
        Reason::HandleSpace => "The stream has used up all handles.",
    }
}

/// What it means that a class name can be read at a place and is none of the stream's own. It allocates nothing.
pub fn meaning_of_hidden() -> &'static str
    ensures means { result.now ≡ hidden_meaning }
    ensures short { length result.now ≤ 160 }
{
    "A class name can be read at this place, though it is none of the stream's own, and the filter does not let it pass."
}
