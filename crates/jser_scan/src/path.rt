//! The path of a file, as it is printed.
ghost use Rattle.std.specs.Prelude.{◌≡◌, IfOk, string_bytes};
ghost use Rattle.std.specs.List.{list_all};
ghost use Rattle.std.specs.Str.{chars};
ghost use Rattle.jser_prim.specs.ModifiedUtf8.{utf16_units};
ghost use Rattle.jser_scan.specs.Paths.{is_ascii, is_plain, is_seen, is_told, is_unbroken};

use jser_prim::units_of;
use std::alloc::{AllocError, Global};
use ucd_category::GeneralCategory;

/// The path of a file, with its units.
#[derive(Debug, Drop)]
pub struct FilePath {
    /// The path.
    pub text: String,
    /// Its units.
    pub units: Vec<u16>,
}

impl FilePath {
    /// The path with this text.
    pub fn new(alloc: Global, text: String) -> Result<FilePath, AllocError>
        ensures text { IfOk result (λ path. string_bytes path.text ≡ string_bytes «text») }
        ensures units { IfOk result (λ path. path.units.items ≡ utf16_units (string_bytes «text»)) }
    {
        let units = units_of(alloc, text.as_str())?;
        Ok(FilePath { text, units })
    }
}

/// Whether a path is printed as it is: none of its characters can do anything to a terminal, end the path, or make another of
/// it.
pub fn is_plain(bytes: &[u8]) -> bool
    ensures { result ≡ is_plain bytes.now }
{
    are_ascii(bytes) && is_unbroken(bytes)
}

/// Whether all bytes are characters from 20 to 7E.
fn are_ascii(bytes: &[u8]) -> bool
    ensures { result ≡ list_all is_ascii bytes.now }
{
    bytes.iter().all(|byte| is_ascii(*byte))
}

/// Whether a byte is a character from 20 to 7E.
fn is_ascii(byte: u8) -> bool
    ensures { result ≡ is_ascii byte }
{
    (0x20..=0x7E).contains(&byte)
}

/// Whether none of these characters ends a text, or makes another of it.
fn is_unbroken(bytes: &[u8]) -> bool
    ensures { result ≡ is_unbroken bytes.now }
{
    let mut before = b':';
    'bytes: for byte in bytes {
        if matches!(*byte, b'"' | b'\\') || (before == b':' && *byte == b' ') {
            return false;
        }
        before = *byte;
    }
    before != b' '
}

/// Whether a path is told as it was given where it cannot be opened: each of its characters is seen.
pub(crate) fn is_told(text: &str) -> bool
    ensures { result ≡ is_told text.now }
{
    are_seen(text) && is_unbroken(text.as_bytes())
}

/// Whether all characters of a text are seen.
fn are_seen(text: &str) -> bool
    ensures { result ≡ list_all is_seen (chars text.now) }
{
    text.chars().all(|sign| is_seen(sign))
}

/// Whether a character is a space, or a letter, mark, number, punctuation or symbol.
fn is_seen(sign: char) -> bool
    ensures { result ≡ is_seen sign }
{
    if sign == ' ' {
        return true;
    }
    !matches!(
        GeneralCategory::for_char(sign),
        GeneralCategory::SpaceSeparator
            | GeneralCategory::LineSeparator
            | GeneralCategory::ParagraphSeparator
            | GeneralCategory::Control
            | GeneralCategory::Format
            | GeneralCategory::Surrogate
            | GeneralCategory::PrivateUse
            | GeneralCategory::Unassigned
    )
}
