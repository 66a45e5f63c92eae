//! The piece of a filter that decides.
ghost use Rattle.std.specs.Prelude.{◌++◌};
ghost use Rattle.jser_printer.specs.Says.{SaysTo};
ghost use Rattle.jser_explain.specs.Rest.{known_piece_words, piece_words};

use jser_filter::{Limits, Verdict};
use jser_grammar::caps::{MOST_ARRAY, MOST_BYTES, MOST_DEPTH, MOST_REFS};
use jser_prim::{Outbox, Sink};
use jser_printer::{write, write_decimal};
use jser_reader::Reason;
use jser_scan::{FilePath, Found, Rules, write_path};
use jser_table::{Element, element_of};
use std::alloc::{AllocError, Global};

/// A piece of a filter.
#[derive(Drop)]
pub(crate) struct Piece {
    /// Its index, as `list` prints it.
    pub(crate) index: usize,
    /// Its text, printed as a path is.
    pub(crate) text: FilePath,
}

/// The piece of a filter of this text that refuses what was found, if it is a piece that does.
pub(crate) fn deciding_piece(
    alloc: Global,
    rules: &Rules,
    text: &str,
    found: &Found,
) -> Result<Option<Piece>, AllocError> {
    let Some(index) = deciding_index(rules, text, found) else {
        return Ok(None);
    };
    let Some(piece) = text.split(';').nth(index) else {
        return Ok(None);
    };
    let text = FilePath::new(alloc, String::from_str(alloc, piece)?)?;
    Ok(Some(Piece { index, text }))
}

/// The index of the piece that decides.
fn deciding_index(rules: &Rules, text: &str, found: &Found) -> Option<usize> {
    match found {
        Found::Hidden { class, .. } => rejecting_index(rules, class),
        Found::Refused { refusal, class } => match limit_of(rules.filter.limits(), refusal.reason) {
            Some(limit) if limit.value? <= limit.greatest => last_index(text, limit.name),
            Some(_) => None,
            None => rejecting_index(rules, class),
        },
        _ => None,
    }
}

/// The index of the pattern that rejects a class, if one does.
fn rejecting_index(rules: &Rules, class: &Option<Vec<u16>>) -> Option<usize> {
    let name = class.as_ref()?.as_slice();
    match element_of(name) {
        Element::Malformed => None,
        Element::Primitive | Element::Name(_) => match rules.filter.judge(name) {
            Verdict::Rejected(index) => Some(index),
            _ => None,
        },
    }
}

/// A limit: what a filter sets it to, the greatest value that has an effect, and the beginning of the pieces that set it.
#[derive(Clone, Copy)]
struct Limit {
    value: Option<u64>,
    greatest: u64,
    name: &'static str,
}

/// The limit that a reason is about, if it is about one.
fn limit_of(limits: Limits, reason: Reason) -> Option<Limit> {
    let (value, greatest, name) = match reason {
        Reason::DepthExceeded => (limits.depth, u64::from(MOST_DEPTH), "maxdepth="),
        Reason::RefsExceeded => (limits.refs, MOST_REFS, "maxrefs="),
        Reason::ArrayExceeded => (limits.array, u64::from(MOST_ARRAY), "maxarray="),
        Reason::BytesExceeded => (limits.bytes, MOST_BYTES, "maxbytes="),
        _ => return None,
    };
    Some(Limit {
        value,
        greatest,
        name,
    })
}

/// The index of the last piece that begins so.
fn last_index(text: &str, beginning: &str) -> Option<usize> {
    let mut last = None;
    for (index, piece) in text.split(';').enumerate() {
        if piece.starts_with(beginning) {
            last = Some(index);
        }
    }
    last
}

/// Writes the line of a piece, if one decides.
#[tactic(auto, using(crate::proofs::PieceLemmas::piece_known, crate::proofs::PieceLemmas::piece_unknown))]
pub(crate) fn write_piece<W: Sink>(outbox: &mut Outbox, sink: &mut W, piece: &Option<Piece>)
    ensures { SaysTo W.gone_out W.has_failed outbox.old outbox.new sink.old sink.new (λ k. piece_words piece.now k) }
{
    match piece {
        Some(piece) => write_known_piece(outbox, sink, piece),
        None => write(outbox, sink, b""),
    }
}

/// Writes the line of a piece.
fn write_known_piece<W: Sink>(outbox: &mut Outbox, sink: &mut W, piece: &Piece)
    ensures { SaysTo W.gone_out W.has_failed outbox.old outbox.new sink.old sink.new (λ k. known_piece_words piece.now k) }
{
    write(outbox, sink, b"  piece ");
    write_decimal(outbox, sink, piece.index as u64);
    write(outbox, sink, b": ");
    write_path(outbox, sink, &piece.text);
    write(outbox, sink, b"\n");
}
