//! The lines behind that of a refusal.
ghost use Rattle.std.specs.Prelude.{◌≡◌, ◌≤◌, ◌++◌, OnOk, OnErr, IfErr, Some, length, true};
ghost use Rattle.jser_printer.specs.Says.{SaysTo};
ghost use Rattle.jser_explain.specs.Heads.{token_of, head_words, sentence_line};
ghost use Rattle.jser_explain.specs.Rest.{rest_words, view_rest};
ghost use Rattle.jser_explain.specs.Whys.{SaysSomeWhy, SaysWhy, SaysWhyTo};
ghost use Rattle.jser_printer.specs.Names.{view_name};

use crate::hint::hint_of;
use crate::opened::{write_places, write_writer, writer_in};
use crate::piece::{Piece, deciding_piece, write_piece};
use crate::sentence::sentence_of;
use crate::token::{Spot, bytes_at, class_in, spot_of, write_class, write_token};
use jser_grammar::wire::TC_CLASSDESC;
use jser_index::{text_units, walk_along};
use jser_prim::{Outbox, Sink};
use jser_printer::{Name, Open, write};
use jser_reader::Reason;
use jser_scan::{Found, Rules};
use std::alloc::{AllocError, Global};

/// Why the lines were not all printed.
#[derive(Clone, Copy, PartialEq, Eq, Debug)]
pub enum WhyFault {
    /// The output failed.
    Write,
    /// Memory ran out.
    OutOfMemory,
}

/// Prints why bytes are refused: what `check_file` of `jser_scan` found of them under these rules, whose filter has this text.
/// Where nothing is refused it prints nothing.
///
/// Takes memory for what is open where the fault is, and for the names of the classes before it.
///
/// # Errors
///
/// `Write` where the output failed, and the first bytes of the lines may have gone out; `OutOfMemory` where memory ran out, and
/// nothing went out.
#[tactic(auto, using(crate::proofs::WhyLemmas::why_went, crate::proofs::WhyLemmas::why_broke, crate::proofs::WhyLemmas::why_some, crate::proofs::WhyLemmas::why_kept))]
pub fn print_why<W: Sink>(
    alloc: Global,
    rules: &Rules,
    text: &str,
    bytes: &[u8],
    found: &Found,
    output: &mut W,
) -> Result<(), WhyFault>
    ensures printed { OnOk result (SaysWhy bytes.now found.now (W.gone_out output.old) (W.gone_out output.new)) }
    ensures kept { OnOk result (W.has_failed output.new ≡ W.has_failed output.old) }
    ensures failed { IfErr result (λ fault. fault ≡ WhyFault.Write → W.has_failed output.new ≡ true) }
    ensures some { IfErr result (λ fault. fault ≡ WhyFault.Write → SaysSomeWhy bytes.now found.now (W.gone_out output.old) (W.gone_out output.new)) }
    ensures nothing { IfErr result (λ fault. fault ≡ WhyFault.OutOfMemory → output.new ≡ output.old) }
{
    let mut outbox = Outbox::new();
    if write_why(alloc, &mut outbox, output, rules, text, bytes, found).is_err() {
        return Err(WhyFault::OutOfMemory);
    }
    outbox.flush(output);
    if outbox.has_failed() {
        Err(WhyFault::Write)
    } else {
        Ok(())
    }
}

/// Writes why the bytes are refused.
#[tactic(auto, using(crate::proofs::WhyLemmas::why_nothing))]
fn write_why<W: Sink>(
    alloc: Global,
    outbox: &mut Outbox,
    sink: &mut W,
    rules: &Rules,
    text: &str,
    bytes: &[u8],
    found: &Found,
) -> Result<(), AllocError>
    ensures says { OnOk result (SaysWhyTo W.gone_out W.has_failed bytes.now found.now outbox.old outbox.new sink.old sink.new) }
    ensures nothing { OnErr result (sink.new ≡ sink.old) }
{
    let Some(spot) = spot_of(found) else {
        return Ok(());
    };
    let class = unasked_name(alloc, bytes, spot, found)?;
    let piece = deciding_piece(alloc, rules, text, found)?;
    let walk = walk_along(alloc, bytes, spot.from)?;
    let opened = walk.opened(alloc)?;
    let rest = Rest {
        class: class.as_ref().map(Vec::as_slice),
        piece,
        opened: opened.as_slice(),
        writer: writer_in(&opened),
        hint: hint_of(found, bytes),
    };
    write_lines(outbox, sink, bytes, found, spot, &rest);
    Ok(())
}

/// Writes why the bytes at a place are refused, and what is known besides.
#[tactic(auto, using(crate::proofs::WhyLemmas::why_all))]
fn write_lines<W: Sink>(
    outbox: &mut Outbox,
    sink: &mut W,
    bytes: &[u8],
    found: &Found,
    spot: Spot,
    rest: &Rest<'_>,
)
    requires place { token_of found.now ≡ Some spot }
    requires hint { length rest.now.hint.now ≤ 64 }
    ensures { SaysWhyTo W.gone_out W.has_failed bytes.now found.now outbox.old outbox.new sink.old sink.new }
{
    let sentence = sentence_of(found);
    write_head(outbox, sink, sentence, bytes, spot, class_in(found));
    write_rest(outbox, sink, rest);
}

/// Writes the sentence, the bytes and the class of a refusal.
fn write_head<W: Sink>(
    outbox: &mut Outbox,
    sink: &mut W,
    sentence: &[u8],
    bytes: &[u8],
    spot: Spot,
    class: Option<&[u16]>,
)
    ensures { SaysTo W.gone_out W.has_failed outbox.old outbox.new sink.old sink.new (λ k. head_words sentence.now bytes.now spot (view_name class.entry) k) }
{
    write_sentence(outbox, sink, sentence);
    write_token(outbox, sink, bytes, spot);
    write_class(outbox, sink, class);
}

/// Writes the line of a sentence.
fn write_sentence<W: Sink>(outbox: &mut Outbox, sink: &mut W, sentence: &[u8])
    ensures { SaysTo W.gone_out W.has_failed outbox.old outbox.new sink.old sink.new (λ k. sentence_line sentence.now k) }
{
    write(outbox, sink, b"  ");
    write(outbox, sink, sentence);
    write(outbox, sink, b"\n");
}

/// What is said behind the class of a refusal.
#[derive(Drop)]
struct Rest<'r> {
    /// The name of a class that the filter was not asked about.
    class: Option<&'r [u16]>,
    /// The piece that decides.
    piece: Option<Piece>,
    /// What is open.
    opened: &'r [Open<'r>],
    /// The class of the innermost object that wrote its data by code of its own.
    writer: Option<&'r Name>,
    /// What the bytes look like.
    hint: &'static [u8],
}

/// Writes it.
fn write_rest<W: Sink>(outbox: &mut Outbox, sink: &mut W, rest: &Rest<'_>)
    ensures { SaysTo W.gone_out W.has_failed outbox.old outbox.new sink.old sink.new (λ k. rest_words (view_rest rest.now) k) }
{
    write_class(outbox, sink, rest.class);
    write_piece(outbox, sink, &rest.piece);
    write_places(outbox, sink, rest.opened);
    write_writer(outbox, sink, rest.writer);
    write(outbox, sink, rest.hint);
}

/// The name of a class that is refused before the filter is asked: it begins as that of an array and is none, or what has
/// this class may have no such one.
fn unasked_name(
    alloc: Global,
    bytes: &[u8],
    spot: Spot,
    found: &Found,
) -> Result<Option<Vec<u16>>, AllocError> {
    let is_name = match reason_of(found) {
        Some(Reason::BadArrayName) => true,
        Some(Reason::WrongClass) => is_behind_tag(bytes, spot),
        _ => false,
    };
    match bytes_at(bytes, spot) {
        [_, _, text @ ..] if is_name => Ok(Some(text_units(alloc, text)?)),
        _ => Ok(None),
    }
}

/// Whether a token stands behind the tag of a class descriptor, and so is the name of a class where it has two bytes or more.
fn is_behind_tag(bytes: &[u8], spot: Spot) -> bool {
    match spot.from.checked_sub(1) {
        Some(from) => matches!(
            bytes_at(
                bytes,
                Spot {
                    from,
                    to: spot.from
                }
            ),
            [TC_CLASSDESC]
        ),
        None => false,
    }
}

/// The reason of a refusal.
fn reason_of(found: &Found) -> Option<Reason> {
    match found {
        Found::Refused { refusal, .. } => Some(refusal.reason),
        _ => None,
    }
}
