//! What clap tells repeats words of the command line, which may have characters that a terminal obeys.
ghost use Rattle.std.specs.Prelude.{◌≡◌, OnOk, IfOk, true, string_bytes};
ghost use Rattle.jser_line.specs.Printable.{is_printable, is_printed};

use std::alloc::{AllocError, Global};

/// A text as it may be printed: of one that has other characters than line feeds and those from 20 to 7E, each of these others
/// is `\u` and four digits for each of its units.
pub fn printable(alloc: Global, text: &str) -> Result<String, AllocError>
    ensures printable { IfOk result (λ printed. is_printable (string_bytes printed) ≡ true) }
    ensures same { is_printable text.now ≡ true → IfOk result (λ printed. string_bytes printed ≡ text.now) }
{
    if is_printable(text.as_bytes()) {
        return String::from_str(alloc, text);
    }
    let mut printed = String::new(alloc);
    'units: for unit in text.encode_utf16() {
        push_unit(alloc, &mut printed, unit)?;
    }
    Ok(printed)
}

/// Whether a text is printable as it is.
fn is_printable(bytes: &[u8]) -> bool
    ensures { result ≡ is_printable bytes.now }
{
    bytes.iter().all(|byte| is_printed(*byte))
}

/// Whether a byte is a line feed or a character from 20 to 7E.
fn is_printed(byte: u8) -> bool
    ensures { result ≡ is_printed byte }
{
    byte == b'\n' || (0x20..=0x7E).contains(&byte)
}

/// Appends a unit.
#[tactic(auto, using(crate::proofs::PrintableLemmas::hex_more))]
fn push_unit(alloc: Global, printed: &mut String, unit: u16) -> Result<(), AllocError>
    ensures { OnOk result (is_printable (string_bytes printed.old) ≡ true → is_printable (string_bytes printed.new) ≡ true) }
{
    if unit == 0x0A || (0x20..=0x7E).contains(&unit) {
        return push_byte(printed, unit as u8);
    }
    push_byte(printed, b'\\')?;
    push_byte(printed, b'u')?;
    let digits = hex::encode(alloc, unit.to_be_bytes())?;
    printed.push_str(digits.as_str())
}

/// Appends a character from 20 to 7E, or a line feed.
#[tactic(auto, using(crate::proofs::PrintableLemmas::one_more))]
fn push_byte(printed: &mut String, byte: u8) -> Result<(), AllocError>
    requires { is_printed byte ≡ true }
    ensures { OnOk result (is_printable (string_bytes printed.old) ≡ true → is_printable (string_bytes printed.new) ≡ true) }
{
    printed.push(char::from(byte))
}
