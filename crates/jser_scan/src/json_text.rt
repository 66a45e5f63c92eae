//! JSON strings. A unit that is half of a surrogate pair and stands alone is no character, and JSON has characters alone.
ghost use Rattle.std.specs.Prelude.{◌≡◌, ◌<◌, ◌≤◌, ◌++◌, length, true};
ghost use Rattle.std.specs.List.{flat_map};
ghost use Rattle.jser_shown.specs.Words.{quoted_unit};
ghost use Rattle.jser_printer.specs.Says.{SaysTo, SayingTo};
ghost use Rattle.jser_scan.specs.JsonTexts.{begins_with_pair, json_text, whole_unit, whole_units};

use jser_prim::{Outbox, Sink};
use jser_printer::{write, write_units};

/// Writes units as a JSON string.
pub(crate) fn write_json_text<W: Sink>(outbox: &mut Outbox, sink: &mut W, units: &[u16])
    ensures { SaysTo W.gone_out W.has_failed outbox.old outbox.new sink.old sink.new (λ k. json_text units.now k) }
{
    write(outbox, sink, b"\"");
    write_whole_units(outbox, sink, units);
    write(outbox, sink, b"\"");
}

/// Writes what is between the quotes.
fn write_whole_units<W: Sink>(outbox: &mut Outbox, sink: &mut W, units: &[u16])
    ensures { SaysTo W.gone_out W.has_failed outbox.old outbox.new sink.old sink.new (λ k. flat_map quoted_unit (whole_units units.now) ++ k) }
{
    let mut rest = units;
    'characters: while !rest.is_empty() {
        rest = write_character(outbox, sink, rest);
    }
}

/// Writes the first character of units. The answer is what is left.
fn write_character<'u, W: Sink>(outbox: &mut Outbox, sink: &mut W, units: &'u [u16]) -> &'u [u16]
    requires { 0 < length units.now }
    ensures said { SayingTo W.gone_out W.has_failed outbox.old outbox.new sink.old sink.new (λ k. flat_map quoted_unit (whole_units units.now) ++ k) (λ k. flat_map quoted_unit (whole_units result.now) ++ k) }
    ensures less { length result.now < length units.now }
{
    if begins_with_pair(units) {
        let (pair, after) = units.split_at(2);
        write_units(outbox, sink, pair);
        after
    } else {
        let (one, after) = units.split_at(1);
        write_units(outbox, sink, &[whole_unit(one[0])]);
        after
    }
}

/// Whether the first two units are a surrogate pair.
fn begins_with_pair(units: &[u16]) -> bool
    ensures pair { result ≡ begins_with_pair units.now }
    ensures two { result ≡ true → 2 ≤ length units.now }
{
    match units {
        [high, low, ..] => (0xD800..0xDC00).contains(high) && (0xDC00..0xE000).contains(low),
        _ => false,
    }
}

/// A unit that is in no pair, or U+FFFD for half of one.
fn whole_unit(unit: u16) -> u16
    ensures { result ≡ whole_unit unit }
{
    if (0xD800..0xE000).contains(&unit) {
        0xFFFD
    } else {
        unit
    }
}
