//! The reasons of a refusal and the causes of a misuse, by their numbers.
ghost use Rattle.std.specs.Prelude.{◌≡◌, option_map};
ghost use Rattle.jser_ffi.specs.Lines.{cause_at, meaning_at, name_at, reason_at};

use crate::answer::HIDDEN_NAME;
use jser_commands::{meaning_of, meaning_of_hidden};
use jser_reader::Reason;

/// The reason with a number.
pub(crate) fn reason_of(number: u32) -> Option<Reason>
    ensures { result ≡ reason_at number }
{
    match number {
        1 => Some(Reason::BytesExceeded),
        2 => Some(Reason::BadHeader),
        3 => Some(Reason::BadTag),
        4 => Some(Reason::ExceptionTag),
        5 => Some(Reason::ResetInside),
        6 => Some(Reason::BadText),
        7 => Some(Reason::NegativeLength),
        8 => Some(Reason::BadTypeCode),
        9 => Some(Reason::FieldOrder),
        10 => Some(Reason::BadFlags),
        11 => Some(Reason::NullClass),
        12 => Some(Reason::NoSuchHandle),
        13 => Some(Reason::WrongKind),
        14 => Some(Reason::OpenDescriptor),
        15 => Some(Reason::BadArrayName),
        16 => Some(Reason::WrongClass),
        17 => Some(Reason::ExternalRaw),
        18 => Some(Reason::NotSerializable),
        19 => Some(Reason::ClassRejected),
        20 => Some(Reason::ClassUnmatched),
        21 => Some(Reason::DepthExceeded),
        22 => Some(Reason::RefsExceeded),
        23 => Some(Reason::ArrayExceeded),
        24 => Some(Reason::Truncated),
        25 => Some(Reason::HandleSpace),
        _ => None,
    }
}

/// The name of the reason with a number, as the program prints it.
pub(crate) fn name_of_reason(number: u32) -> Option<&'static str>
    ensures { option_map (λ name. name.now) result ≡ name_at number }
{
    if number == HIDDEN_NAME {
        return Some("HiddenName");
    }
    match reason_of(number) {
        Some(reason) => Some(reason.name()),
        None => None,
    }
}

/// What the reason with a number means, in a sentence.
pub(crate) fn meaning_of_reason(number: u32) -> Option<&'static str>
    ensures { option_map (λ text. text.now) result ≡ meaning_at number }
{
    if number == HIDDEN_NAME {
        return Some(meaning_of_hidden());
    }
    match reason_of(number) {
        Some(reason) => Some(meaning_of(reason)),
        None => None,
    }
}

/// The name of the cause with a number.
pub(crate) fn name_of_cause(number: u32) -> Option<&'static str>
    ensures { option_map (λ name. name.now) result ≡ cause_at number }
{
    match number {
        1 => Some("UnknownLimit"),
        2 => Some("BadLimit"),
        3 => Some("ModuleMissing"),
        4 => Some("NameMissing"),
        5 => Some("PackageMissing"),
        6 => Some("FilterIsNoText"),
        7 => Some("BadLine"),
        8 => Some("PackageTwice"),
        9 => Some("ModulesAreNoText"),
        10 => Some("UnknownFlag"),
        11 => Some("ByteOrderMark"),
        12 => Some("NumberSign"),
        13 => Some("WhiteSpace"),
        14 => Some("FilterFileIsNoText"),
        15 => Some("NoPattern"),
        _ => None,
    }
}
