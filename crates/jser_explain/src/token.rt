//! The bytes of a refusal, and its class.
ghost use Rattle.std.specs.Prelude.{◌++◌, ◌≡◌, take, drop, IfSome};
ghost use Rattle.jser_printer.specs.Says.{SaysTo};
ghost use Rattle.jser_printer.specs.Names.{view_name};
ghost use Rattle.jser_explain.specs.Heads.{class_in, class_line, digits_end, token_line, token_of, first_bytes, hex_end, known_class_line};

use crate::short::write_class_name;
use jser_prim::{Outbox, Sink};
use jser_printer::{write, write_decimal, write_hex};
use jser_scan::Found;

/// How many bytes of a token are printed at most.
const MOST: u64 = 32;

/// The place of a refusal: its first byte, and the end of the bytes that decide.
#[derive(Clone, Copy)]
pub(crate) struct Spot {
    pub(crate) from: u64,
    pub(crate) to: u64,
}

/// The place of what was found; None where nothing is refused.
pub(crate) fn spot_of(found: &Found) -> Option<Spot>
    ensures { result ≡ token_of found.now }
{
    match found {
        Found::Refused { refusal, .. } => Some(Spot {
            from: refusal.from_byte,
            to: refusal.to_byte,
        }),
        Found::Hidden {
            from_byte,
            to_byte,
            ..
        } => Some(Spot {
            from: *from_byte,
            to: *to_byte,
        }),
        _ => None,
    }
}

/// The class name that the filter refused, if that is why.
pub(crate) fn class_in(found: &Found) -> Option<&[u16]>
    ensures { view_name result ≡ class_in found.now }
{
    match found {
        Found::Refused { class, .. } | Found::Hidden { class, .. } => match class {
            Some(units) => Some(units.as_slice()),
            None => None,
        },
        _ => None,
    }
}

/// The bytes of a place, as far as they are there.
pub(crate) fn bytes_at(bytes: &[u8], spot: Spot) -> &[u8] {
    front(behind(bytes, spot.from), spot.to.saturating_sub(spot.from))
}

/// Writes the line of the bytes at a place, of which the first are printed.
#[tactic(auto, using(crate::proofs::WhyLemmas::shown_said))]
pub(crate) fn write_token<W: Sink>(outbox: &mut Outbox, sink: &mut W, bytes: &[u8], spot: Spot)
    ensures { SaysTo W.gone_out W.has_failed outbox.old outbox.new sink.old sink.new (λ k. token_line spot (first_bytes bytes.now spot) k) }
{
    let shown = first_bytes(bytes, spot);
    write_shown(outbox, sink, spot, shown);
}

/// Writes the line of a place with these of its bytes.
fn write_shown<W: Sink>(outbox: &mut Outbox, sink: &mut W, spot: Spot, shown: &[u8])
    ensures { SaysTo W.gone_out W.has_failed outbox.old outbox.new sink.old sink.new (λ k. token_line spot shown.now k) }
{
    write(outbox, sink, b"  bytes ");
    write_decimal(outbox, sink, spot.from);
    write(outbox, sink, b" to ");
    write_decimal(outbox, sink, spot.to);
    write_hex_end(outbox, sink, shown);
}

/// The first bytes of a place.
fn first_bytes(bytes: &[u8], spot: Spot) -> &[u8]
    ensures { result.now ≡ first_bytes bytes.now spot }
{
    let count = MOST.min(spot.to.saturating_sub(spot.from));
    front(behind(bytes, spot.from), count)
}

/// The bytes from this one on.
#[tactic(auto, using(std::proofs::lemmas::List::drop_all))]
pub(crate) fn behind(bytes: &[u8], at: u64) -> &[u8]
    ensures { result.now ≡ drop at bytes.now }
{
    if at >= bytes.len() as u64 {
        return &[];
    }
    let (_, rest) = bytes.split_at(at as usize);
    rest
}

/// So many of the first bytes, or all.
#[tactic(auto, using(std::proofs::lemmas::List::take_all))]
fn front(bytes: &[u8], most: u64) -> &[u8]
    ensures { result.now ≡ take most bytes.now }
{
    if most >= bytes.len() as u64 {
        return bytes;
    }
    let (first, _) = bytes.split_at(most as usize);
    first
}

/// Writes the end of the line of some bytes.
#[tactic(auto, using(crate::proofs::WhyLemmas::hex_some))]
fn write_hex_end<W: Sink>(outbox: &mut Outbox, sink: &mut W, bytes: &[u8])
    ensures { SaysTo W.gone_out W.has_failed outbox.old outbox.new sink.old sink.new (λ k. hex_end bytes.now k) }
{
    if bytes.is_empty() {
        write(outbox, sink, b":\n");
    } else {
        write_digits(outbox, sink, bytes);
    }
}

/// Writes bytes in hexadecimal, and the end of the line.
fn write_digits<W: Sink>(outbox: &mut Outbox, sink: &mut W, bytes: &[u8])
    ensures { SaysTo W.gone_out W.has_failed outbox.old outbox.new sink.old sink.new (λ k. digits_end bytes.now k) }
{
    write(outbox, sink, b": ");
    write_hex(outbox, sink, bytes);
    write(outbox, sink, b"\n");
}

/// Writes the line of a class, if one is known.
#[tactic(auto, using(crate::proofs::WhyLemmas::class_known, crate::proofs::WhyLemmas::class_unknown))]
pub(crate) fn write_class<W: Sink>(outbox: &mut Outbox, sink: &mut W, class: Option<&[u16]>)
    ensures { SaysTo W.gone_out W.has_failed outbox.old outbox.new sink.old sink.new (λ k. class_line (view_name class.entry) k) }
{
    match class {
        Some(units) => write_known_class(outbox, sink, units),
        None => write(outbox, sink, b""),
    }
}

/// Writes the line of a class.
fn write_known_class<W: Sink>(outbox: &mut Outbox, sink: &mut W, units: &[u16])
    ensures { SaysTo W.gone_out W.has_failed outbox.old outbox.new sink.old sink.new (λ k. known_class_line units.now k) }
{
    write(outbox, sink, b"  class ");
    write_class_name(outbox, sink, units);
    write(outbox, sink, b"\n");
}
