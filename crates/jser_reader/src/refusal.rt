//! Why bytes are refused: the reasons, and the bytes that decide.

use std::error::Error;
use std::fmt;

/// A reason for which bytes are not a stream, or not one that the gate passes.
#[derive(Clone, Copy, PartialEq, Eq, Hash, Debug)]
pub enum Reason {
    /// More bytes than the limit.
    BytesExceeded,
    /// The first four bytes are not 0xAC 0xED 0x00 0x05.
    BadHeader,
    /// No tag that may stand there.
    BadTag,
    /// `TC_EXCEPTION`.
    ExceptionTag,
    /// `TC_RESET` below the top.
    ResetInside,
    /// No modified UTF-8 of the text's length.
    BadText,
    /// A count or a length whose highest bit is set.
    NegativeLength,
    /// None of the ten type codes.
    BadTypeCode,
    /// A primitive field after a field of another type.
    FieldOrder,
    /// Flags with a bit of 0xE0, or with both 0x02 and 0x04.
    BadFlags,
    /// NULL as the class of an object, array, enum constant or class object.
    NullClass,
    /// A handle that has not been assigned.
    NoSuchHandle,
    /// A handle of another kind than the place wants.
    WrongKind,
    /// A class whose superclass place has not been read.
    OpenDescriptor,
    /// A name that begins with `[` and is not an array name.
    BadArrayName,
    /// A class that does not fit its purpose.
    WrongClass,
    /// Externalizable data without block mode.
    ExternalRaw,
    /// An object of a class that is not serializable.
    NotSerializable,
    /// The gate rejects the name.
    ClassRejected,
    /// No pattern matches the name, and the gate is strict.
    ClassUnmatched,
    /// A place deeper than the limit.
    DepthExceeded,
    /// More places than the limit.
    RefsExceeded,
    /// An array longer than the limit.
    ArrayExceeded,
    /// The input ends before the stream does.
    Truncated,
    /// More handles in an epoch than the limit.
    HandleSpace,
}

impl Reason {
    ghost use Rattle.std.specs.Prelude.{◌≡◌};
    ghost use Rattle.jser_reader.specs.ReasonNames.{reason_name};

    /// The name of the reason, as it is written here. It allocates nothing.
    pub fn name(self) -> &'static str
        ensures { result.now ≡ reason_name self }
    {
        match self {
            Reason::BytesExceeded => "BytesExceeded",
            Reason::BadHeader => "BadHeader",
            Reason::BadTag => "BadTag",
            Reason::ExceptionTag => "ExceptionTag",
            Reason::ResetInside => "ResetInside",
            Reason::BadText => "BadText",
            Reason::NegativeLength => "NegativeLength",
            Reason::BadTypeCode => "BadTypeCode",
            Reason::FieldOrder => "FieldOrder",
            Reason::BadFlags => "BadFlags",
            Reason::NullClass => "NullClass",
            Reason::NoSuchHandle => "NoSuchHandle",
            Reason::WrongKind => "WrongKind",
            Reason::OpenDescriptor => "OpenDescriptor",
            Reason::BadArrayName => "BadArrayName",
            Reason::WrongClass => "WrongClass",
            Reason::ExternalRaw => "ExternalRaw",
            Reason::NotSerializable => "NotSerializable",
            Reason::ClassRejected => "ClassRejected",
            Reason::ClassUnmatched => "ClassUnmatched",
            Reason::DepthExceeded => "DepthExceeded",
            Reason::RefsExceeded => "RefsExceeded",
            Reason::ArrayExceeded => "ArrayExceeded",
            Reason::Truncated => "Truncated",
            Reason::HandleSpace => "HandleSpace",
        }
    }
}

impl fmt::Display for Reason {
    ghost use Rattle.std.specs.Prelude.{Some};
    ghost use Rattle.jser_reader.specs.ReasonNames.{reason_name};

    ghost output = { λ reason. Some (reason_name reason) };

    fn fmt<W: fmt::Write>(&self, f: &mut fmt::Formatter<W>) -> fmt::Result {
        f.write_str(self.name())
    }
}

/// The bytes that are refused. Its text is `at A to E: REASON`, as `check` prints it after `no `.
#[derive(Clone, Copy, PartialEq, Eq, Debug)]
pub struct Refusal {
    /// Where the faulty token starts, counted from 0.
    pub from_byte: u64,
    /// How many bytes of the stream decide.
    pub to_byte: u64,
    /// Why.
    pub reason: Reason,
}

impl fmt::Display for Refusal {
    ghost use Rattle.std.specs.Prelude.{Some};
    ghost use Rattle.jser_reader.specs.StopTexts.{refusal_text};

    ghost output = { λ refusal. Some (refusal_text refusal) };

    fn fmt<W: fmt::Write>(&self, f: &mut fmt::Formatter<W>) -> fmt::Result {
        let (from_byte, to_byte, reason) = (self.from_byte, self.to_byte, self.reason);
        write!(f, "at {from_byte} to {to_byte}: {reason}")
    }
}

impl Error for Refusal {}

/// Why a reader stopped. Its text is that of the refusal, `out of memory` or `stopped before`.
#[derive(Clone, Copy, PartialEq, Eq, Debug)]
pub enum Stop {
    /// The bytes are refused.
    Refused(Refusal),
    /// Memory ran out.
    OutOfMemory,
    /// The reader had stopped before: memory ran out, or the stream has ended.
    Spent,
}

impl fmt::Display for Stop {
    ghost use Rattle.std.specs.Prelude.{Some};
    ghost use Rattle.jser_reader.specs.StopTexts.{stop_text};

    ghost output = { λ stop. Some (stop_text stop) };

    fn fmt<W: fmt::Write>(&self, f: &mut fmt::Formatter<W>) -> fmt::Result {
        match self {
            Stop::Refused(refusal) => write!(f, "{refusal}"),
            Stop::OutOfMemory => f.write_str("out of memory"),
            Stop::Spent => f.write_str("stopped before"),
        }
    }
}

impl Error for Stop {}
