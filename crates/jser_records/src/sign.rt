//! The signs that a KEY is printed by, so that two of them never look the same.
ghost use Rattle.std.specs.Prelude.{◌≡◌, ◌++◌, ◌∷◌};
ghost use Rattle.std.specs.List.{flat_map};
ghost use Rattle.jser_printer.specs.Says.{SaysTo};
ghost use Rattle.jser_records.specs.Signs.{has_byte, sign_words, signs_words};

use jser_prim::{Outbox, Sink};
use jser_printer::{write, write_hex, write_units};
use std::alloc::{AllocError, Global};

/// A sign of a KEY.
#[derive(Clone, Copy, PartialEq, Eq, Debug)]
pub(crate) enum Sign {
    /// A UTF-16 unit of its text.
    Unit(u16),
    /// A byte that is no UTF-8.
    Byte(u8),
}

/// The signs of a KEY.
pub(crate) fn signs_of(alloc: Global, bytes: &[u8]) -> Result<Vec<Sign>, AllocError> {
    let mut signs = Vec::new(alloc);
    for chunk in bytes.utf8_chunks() {
        for unit in chunk.valid().encode_utf16() {
            signs.push(Sign::Unit(unit))?;
        }
        for byte in chunk.invalid() {
            signs.push(Sign::Byte(*byte))?;
        }
    }
    Ok(signs)
}

/// Whether a byte of it is no UTF-8.
pub(crate) fn has_byte(signs: &[Sign]) -> bool
    ensures { result ≡ has_byte signs.now }
{
    let mut rest = signs;
    'signs: while let [sign, after @ ..] = rest {
        match sign {
            Sign::Byte(_) => return true,
            Sign::Unit(_) => {}
        }
        rest = after;
    }
    false
}

/// Writes signs between quotes. Where JSON is wanted, U+FFFD stands for a byte.
pub(crate) fn write_signs<W: Sink>(outbox: &mut Outbox, sink: &mut W, json: bool, signs: &[Sign])
    ensures { SaysTo W.gone_out W.has_failed outbox.old outbox.new sink.old sink.new (λ k. signs_words json signs.now k) }
{
    write(outbox, sink, b"\"");
    write_all(outbox, sink, json, signs);
    write(outbox, sink, b"\"");
}

/// Writes what is between the quotes.
fn write_all<W: Sink>(outbox: &mut Outbox, sink: &mut W, json: bool, signs: &[Sign])
    ensures { SaysTo W.gone_out W.has_failed outbox.old outbox.new sink.old sink.new (λ k. flat_map (sign_words json) signs.now ++ k) }
{
    let mut index = 0;
    'signs: while let Some(sign) = signs.get(index) {
        write_sign(outbox, sink, json, *sign);
        index += 1;
    }
}

/// Writes a sign.
#[tactic(auto, using(crate::proofs::WordLemmas::says_unit, crate::proofs::WordLemmas::says_lost, crate::proofs::WordLemmas::says_byte))]
fn write_sign<W: Sink>(outbox: &mut Outbox, sink: &mut W, json: bool, sign: Sign)
    ensures { SaysTo W.gone_out W.has_failed outbox.old outbox.new sink.old sink.new (λ k. sign_words json sign ++ k) }
{
    match sign {
        Sign::Unit(unit) => write_units(outbox, sink, &[unit]),
        Sign::Byte(_) if json => write_units(outbox, sink, &[0xFFFD]),
        Sign::Byte(byte) => {
            write(outbox, sink, b"\\x");
            write_hex(outbox, sink, &[byte]);
        }
    }
}
