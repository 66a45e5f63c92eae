//! What is open where a fault is, a line each.
ghost use Rattle.std.specs.Prelude.{◌<◌, length};
ghost use Rattle.jser_printer.specs.Says.{SaysTo, SayingTo};
ghost use Rattle.jser_explain.specs.Opened.{class_words, element_words, field_words, inner_words, left_out_line, name_words, opened_words, open_words, own_writer_words, places_words, writer_words};
ghost use Rattle.jser_printer.specs.Names.{view_name};

use crate::short::write_name;
use jser_prim::{Outbox, Sink};
use jser_printer::{Name, Open, write, write_decimal};

/// How many of the outermost places are told at most, and of the innermost.
const MOST: usize = 20;

/// Writes what is open, the outermost first; of many the outermost and the innermost, and how many are between them.
pub(crate) fn write_places<W: Sink>(outbox: &mut Outbox, sink: &mut W, opened: &[Open<'_>])
    ensures { SaysTo W.gone_out W.has_failed outbox.old outbox.new sink.old sink.new (λ k. places_words opened.now k) }
{
    if opened.len() <= MOST {
        write_opened(outbox, sink, opened);
    } else {
        let (outer, others) = opened.split_at(MOST);
        write_opened(outbox, sink, outer);
        write_inner(outbox, sink, others);
    }
}

/// Writes those that are open in the outermost ones.
#[tactic(auto, using(crate::proofs::OpenLemmas::inner_few))]
fn write_inner<W: Sink>(outbox: &mut Outbox, sink: &mut W, others: &[Open<'_>])
    ensures { SaysTo W.gone_out W.has_failed outbox.old outbox.new sink.old sink.new (λ k. inner_words others.now k) }
{
    if others.len() <= MOST {
        write_opened(outbox, sink, others);
    } else {
        let count = others.len() - MOST;
        let (_, inner) = others.split_at(count);
        write_left_out(outbox, sink, count as u64);
        write_opened(outbox, sink, inner);
    }
}

/// Writes that so many places are left out.
fn write_left_out<W: Sink>(outbox: &mut Outbox, sink: &mut W, count: u64)
    ensures { SaysTo W.gone_out W.has_failed outbox.old outbox.new sink.old sink.new (λ k. left_out_line count k) }
{
    write(outbox, sink, b"  .. ");
    write_decimal(outbox, sink, count);
    write(outbox, sink, b" more\n");
}

/// Writes places, the outermost first.
fn write_opened<W: Sink>(outbox: &mut Outbox, sink: &mut W, opened: &[Open<'_>])
    ensures { SaysTo W.gone_out W.has_failed outbox.old outbox.new sink.old sink.new (λ k. opened_words opened.now k) }
{
    let mut rest = opened;
    'opened: while !rest.is_empty() {
        rest = write_first(outbox, sink, rest);
    }
}

/// Writes the first of what is open. The answer is the others.
#[tactic(auto, using(crate::proofs::OpenLemmas::says_one))]
fn write_first<'o, 'w, W: Sink>(
    outbox: &mut Outbox,
    sink: &mut W,
    opened: &'o [Open<'w>],
) -> &'o [Open<'w>]
    requires { 0 < length opened.now }
    ensures said { SayingTo W.gone_out W.has_failed outbox.old outbox.new sink.old sink.new (λ k. opened_words opened.now k) (λ k. opened_words result.now k) }
    ensures shorter { length result.now < length opened.now }
{
    match opened {
        [first, others @ ..] => {
            write_open(outbox, sink, *first);
            others
        }
        [] => unreachable!(),
    }
}

/// Writes the line of one that is open.
fn write_open<W: Sink>(outbox: &mut Outbox, sink: &mut W, part: Open<'_>)
    ensures { SaysTo W.gone_out W.has_failed outbox.old outbox.new sink.old sink.new (λ k. open_words part.entry k) }
{
    match part {
        Open::Object { class, .. } => write_of_class(outbox, sink, b"  in object of ", class),
        Open::Field { name, class } => write_field(outbox, sink, name, class),
        Open::Element { index } => write_element(outbox, sink, index),
        Open::Annotation { class } => write_of_class(outbox, sink, b"  in annotation of ", class),
        Open::Descriptor { class } => write_of_class(outbox, sink, b"  in descriptor ", class),
    }
}

/// Writes the line of an element.
fn write_element<W: Sink>(outbox: &mut Outbox, sink: &mut W, index: u32)
    ensures { SaysTo W.gone_out W.has_failed outbox.old outbox.new sink.old sink.new (λ k. element_words index k) }
{
    write(outbox, sink, b"  in element ");
    write_decimal(outbox, sink, index as u64);
    write(outbox, sink, b"\n");
}

/// Writes the line of a field.
fn write_field<W: Sink>(outbox: &mut Outbox, sink: &mut W, name: &Name, class: Option<&Name>)
    ensures { SaysTo W.gone_out W.has_failed outbox.old outbox.new sink.old sink.new (λ k. field_words name.now (view_name class.entry) k) }
{
    write(outbox, sink, b"  in field ");
    write_name(outbox, sink, name);
    write_of_class(outbox, sink, b" of ", class);
}

/// Writes some words, a class, and the end of the line.
fn write_of_class<W: Sink>(outbox: &mut Outbox, sink: &mut W, words: &[u8], class: Option<&Name>)
    ensures { SaysTo W.gone_out W.has_failed outbox.old outbox.new sink.old sink.new (λ k. class_words words.now (view_name class.entry) k) }
{
    write(outbox, sink, words);
    write_class_name(outbox, sink, class);
    write(outbox, sink, b"\n");
}

/// Writes a class; a proxy class has no name.
#[tactic(auto, using(crate::proofs::OpenLemmas::class_named, crate::proofs::OpenLemmas::class_of_proxy))]
fn write_class_name<W: Sink>(outbox: &mut Outbox, sink: &mut W, class: Option<&Name>)
    ensures { SaysTo W.gone_out W.has_failed outbox.old outbox.new sink.old sink.new (λ k. name_words (view_name class.entry) k) }
{
    match class {
        Some(name) => write_name(outbox, sink, name),
        None => write(outbox, sink, b"a proxy class"),
    }
}

/// Writes that a class wrote its data by code of its own, if one did.
#[tactic(auto, using(crate::proofs::OpenLemmas::writer_known, crate::proofs::OpenLemmas::writer_unknown))]
pub(crate) fn write_writer<W: Sink>(outbox: &mut Outbox, sink: &mut W, writer: Option<&Name>)
    ensures { SaysTo W.gone_out W.has_failed outbox.old outbox.new sink.old sink.new (λ k. writer_words (view_name writer.entry) k) }
{
    match writer {
        Some(name) => write_own_writer(outbox, sink, name),
        None => write(outbox, sink, b""),
    }
}

/// Writes the line of a class that wrote its data by code of its own.
fn write_own_writer<W: Sink>(outbox: &mut Outbox, sink: &mut W, name: &Name)
    ensures { SaysTo W.gone_out W.has_failed outbox.old outbox.new sink.old sink.new (λ k. own_writer_words name.now k) }
{
    write(outbox, sink, b"  ");
    write_name(outbox, sink, name);
    write(
        outbox,
        sink,
        b" has a writeObject of its own: if it does not write its fields first, this stream cannot be read without that class\n",
    );
}

/// The class of the innermost object that is open which has a `writeObject` of its own, if one has.
pub(crate) fn writer_in<'w>(opened: &[Open<'w>]) -> Option<&'w Name> {
    let mut found = None;
    for open in opened {
        if let Open::Object { writer, .. } = open {
            found = *writer;
        }
    }
    found
}
