//! Names, of which a long one is cut.
ghost use Rattle.std.specs.Prelude.{◌≡◌, ◌∷◌, ◌++◌, ℕ, List, drop, take};
ghost use Rattle.std.specs.List.{flat_map};
ghost use Rattle.jser_printer.specs.Says.{SaysTo};
ghost use Rattle.jser_shown.specs.Words.{quoted_unit};
ghost use Rattle.jser_explain.specs.Short.{cut_words, short_name, unit_end};

use crate::token::behind;
use jser_prim::{Outbox, Sink};
use jser_printer::{Name, write, write_quoted};

/// How many letters of a name are printed at most: units of UTF-16.
const MOST: usize = 200;

/// Writes the name of a class, quoted, and `..` behind the first letters of a long one.
pub(crate) fn write_class_name<W: Sink>(outbox: &mut Outbox, sink: &mut W, units: &[u16])
    ensures { SaysTo W.gone_out W.has_failed outbox.old outbox.new sink.old sink.new (λ k. short_name units.now k) }
{
    write_quoted(outbox, sink, first_letters(units));
    write_cut(outbox, sink, units.len() > MOST);
}

/// The first letters.
fn first_letters(units: &[u16]) -> &[u16]
    ensures { result.now ≡ take 200 units.now }
{
    if units.len() <= MOST {
        return units;
    }
    let (first, _) = units.split_at(MOST);
    first
}

/// Writes a name, quoted, and `..` behind the first letters of a long one.
pub(crate) fn write_name<W: Sink>(outbox: &mut Outbox, sink: &mut W, name: &Name)
    ensures { SaysTo W.gone_out W.has_failed outbox.old outbox.new sink.old sink.new (λ k. short_name name.now k) }
{
    let quoted = name.quoted();
    let rest = behind_letters(quoted);
    let (first, _) = quoted.split_at(quoted.len() - rest.len());
    write_shown(outbox, sink, first, !rest.is_empty());
}

/// Writes the letters of a name that are printed, as they are quoted, and whether it has more.
fn write_shown<W: Sink>(outbox: &mut Outbox, sink: &mut W, letters: &[u8], is_cut: bool)
    ensures { SaysTo W.gone_out W.has_failed outbox.old outbox.new sink.old sink.new (λ k. 0x22 ∷ (letters.now ++ (0x22 ∷ cut_words is_cut k))) }
{
    write(outbox, sink, b"\"");
    write(outbox, sink, letters);
    write(outbox, sink, b"\"");
    write_cut(outbox, sink, is_cut);
}

/// Writes `..` where a name is cut.
#[tactic(auto, using(crate::proofs::ShortLemmas::says_cut, crate::proofs::ShortLemmas::says_whole))]
fn write_cut<W: Sink>(outbox: &mut Outbox, sink: &mut W, is_cut: bool)
    ensures { SaysTo W.gone_out W.has_failed outbox.old outbox.new sink.old sink.new (λ k. cut_words is_cut k) }
{
    if is_cut {
        write(outbox, sink, b"..");
    } else {
        write(outbox, sink, b"");
    }
}

/// What is behind the first letters of a quoted text, without its quotes.
fn behind_letters(quoted: &[u8]) -> &[u8]
    ensures { (units : List ℕ) → quoted.now ≡ flat_map quoted_unit units → result.now ≡ flat_map quoted_unit (drop 200 units) }
{
    let mut rest = quoted;
    for letter in 0..MOST {
        rest = behind(rest, unit_end(rest));
    }
    rest
}

/// How many bytes the first letter of a quoted text takes.
fn unit_end(quoted: &[u8]) -> u64
    ensures { result ≡ unit_end quoted.now }
{
    match quoted {
        [b'\\', b'u', ..] => 6,
        [b'\\', ..] => 2,
        _ => 1,
    }
}
