//! The text of `show`, told along the bytes of a graph.
ghost use Rattle.std.specs.Prelude.{◌≡◌, OnOk, OnErr, IfOk, IfErr};
ghost use Rattle.jser_reading.specs.Labels.{StreamToken};
ghost use Rattle.jser_shown.specs.Telling.{begin_telling, goes, settled};
ghost use Rattle.jser_printer.specs.Given.{IsOf};
ghost use Rattle.jser_printer.specs.Passing.{says_next};
ghost use Rattle.jser_printer.specs.Says.{BeginsTo, SaysTo};
ghost use Rattle.jser_index.specs.Along.{BeginsAt, Ends, IsLength, IsTextOf};
ghost use Rattle.jser_index.specs.SaidItems.{HoldsOn};
ghost use Rattle.jser_index.specs.Showing.{CountsText, WroteText, WroteFront, FailedIf, PutsTextTo, PutsFrontTo};

use crate::decode::decode;
use crate::graph::Index;
use crate::output::GraphFault;
use crate::part::{Part, part_of};
use jser_prim::{Outbox, Sink};
use jser_printer::{Plain, Printer, Token};
use jser_reader::{FeedFault, Item, OpenGate, Reader, Visit, Whereabouts};
use jser_shown::laws::{one_more, tells_fronts, told};
use std::alloc::{AllocError, Global};
use std::convert::AsSlice;

impl<B: AsSlice<u8>> Index<B> {
    /// Writes the text of `show`, and returns its length, which is exact up to 2^64 - 1 and stays there. With `values` a raw
    /// value is followed by what it means, in brackets.
    ///
    /// The bytes are gone along a second time. It takes memory for the table of handles of an epoch with the names of
    /// classes and fields, for the stack of what is open, and for the units of the longest text, but for strings of units
    /// that all stand for themselves.
    ///
    /// # Errors
    ///
    /// `Write` where the sink failed; nothing more is read then. `OutOfMemory` where memory ran out. Both say how many
    /// of the first bytes of the text went out.
    pub fn show<W: Sink>(
        &self,
        alloc: Global,
        values: bool,
        sink: &mut W,
    ) -> Result<u64, GraphFault>
        ensures length { IfOk result (CountsText values self.now) }
        ensures out { OnOk result (WroteText values self.now (W.gone_out sink.old) (W.gone_out sink.new)) }
        ensures written { IfErr result (WroteFront values self.now (W.gone_out sink.old) (W.gone_out sink.new)) }
        ensures kept { OnOk result (W.has_failed sink.new ≡ W.has_failed sink.old) }
        ensures failed { IfErr result (FailedIf (W.has_failed sink.old) (W.has_failed sink.new)) }
    {
        let _ = &self.totals;
        let mut outbox = Outbox::new();
        let told = self.write(alloc, values, &mut outbox, sink);
        outbox.flush(sink);
        let written = outbox.written();
        if outbox.has_failed() {
            return Err(GraphFault::Write { written });
        }
        match told {
            Ok(()) => Ok(written),
            Err(_) => Err(GraphFault::OutOfMemory { written }),
        }
    }

    /// Writes the text, or a beginning of it where the sink failed.
    ///
    /// # Errors
    ///
    /// Where memory ran out. What was written before is a beginning of the text.
    fn write<W: Sink>(
        &self,
        alloc: Global,
        values: bool,
        outbox: &mut Outbox,
        sink: &mut W,
    ) -> Result<(), AllocError>
        ensures said { OnOk result (PutsTextTo W.gone_out W.has_failed self.now.bytes (begin_telling values self.now.owners) outbox.old outbox.new sink.old sink.new) }
        ensures front { OnErr result (PutsFrontTo W.gone_out W.has_failed self.now.bytes (begin_telling values self.now.owners) outbox.old outbox.new sink.old sink.new) }
    {
        let mut reader = Reader::new(alloc, OpenGate);
        let mut printer = Printer::new(alloc, values, &self.owners);
        let mut units = Vec::new(alloc);
        write_bytes(
            outbox,
            sink,
            &mut reader,
            &mut printer,
            &mut units,
            self.bytes.as_slice(),
        )
    }
}

/// Why the text is not written to its end.
#[derive(Clone, Copy)]
pub(crate) enum Halt {
    /// The sink failed.
    Sink,
    /// Memory ran out.
    OutOfMemory,
}

/// Writes the tokens of the items that it is shown, until the sink fails. `units` is room for those of a text.
#[derive(Drop)]
struct Writer<'x, 's, 'p, 'o, 'u, W: Sink> {
    outbox: &'x mut Outbox,
    sink: &'s mut W,
    printer: &'p mut Printer<'o>,
    units: &'u mut Vec<u16>,
}

impl<W: Sink> Visit for Writer<'_, '_, '_, '_, '_, W> {
    ghost use Rattle.jser_index.specs.SaidItems.{SaysItemTo, HaltsTo, HoldsOn};

    type Fault = Halt;

    ghost takes = { λ item at old new. SaysItemTo W.gone_out W.has_failed item old.outbox.now new.outbox.now old.sink.now new.sink.now old.printer.now new.printer.now
        × HoldsOn old new };

    ghost stops = { λ item why old new. HaltsTo W.gone_out W.has_failed why item old.outbox.now new.outbox.now old.sink.now new.sink.now old.printer.now
        × HoldsOn old new };

    #[tactic(auto, using(crate::proofs::SaidLemmas::says_item, crate::proofs::SaidLemmas::begins_item))]
    #[inline(always)]
    fn item(&mut self, item: Item<'_>, _: Whereabouts) -> Result<(), Halt> {
        if self.outbox.has_failed() {
            return Err(Halt::Sink);
        }
        match write_item(self.outbox, self.sink, self.printer, self.units, item) {
            Ok(()) => Ok(()),
            Err(AllocError) => Err(Halt::OutOfMemory),
        }
    }
}

/// Writes the text of a stream, until the sink fails. `units` is room for those of a text.
///
/// # Errors
///
/// Where memory ran out. What was written before is a beginning of the text.
fn write_bytes<W: Sink>(
    outbox: &mut Outbox,
    sink: &mut W,
    reader: &mut Reader<OpenGate>,
    printer: &mut Printer<'_>,
    units: &mut Vec<u16>,
    bytes: &[u8],
) -> Result<(), AllocError>
    requires { BeginsAt reader.old }
    ensures said { OnOk result (PutsTextTo W.gone_out W.has_failed bytes.now printer.old outbox.old outbox.new sink.old sink.new) }
    ensures front { OnErr result (PutsFrontTo W.gone_out W.has_failed bytes.now printer.old outbox.old outbox.new sink.old sink.new) }
{
    let mut writer = Writer {
        outbox,
        sink,
        printer,
        units,
    };
    write_along(reader, &mut writer, bytes)
}

/// Writes the text of a stream along its bytes, with a new reader, until the sink fails.
///
/// # Errors
///
/// Where memory ran out. What was written before is a beginning of the text.
fn write_along<W: Sink>(
    reader: &mut Reader<OpenGate>,
    writer: &mut Writer<'_, '_, '_, '_, '_, W>,
    bytes: &[u8],
) -> Result<(), AllocError>
    requires { BeginsAt reader.old }
    ensures said { OnOk result (PutsTextTo W.gone_out W.has_failed bytes.now writer.old.printer.now writer.old.outbox.now writer.new.outbox.now writer.old.sink.now writer.new.sink.now) }
    ensures front { OnErr result (PutsFrontTo W.gone_out W.has_failed bytes.now writer.old.printer.now writer.old.outbox.now writer.new.outbox.now writer.old.sink.now writer.new.sink.now) }
    ensures holds { HoldsOn writer.old writer.new }
{
    one_more();
    tells_fronts();
    told();
    match reader.feed(bytes, writer) {
        // The bytes were accepted before, by a reader like this one, so nothing is refused here.
        Err(FeedFault::Reader(_)) => Err(AllocError),
        Err(FeedFault::Visitor(Halt::OutOfMemory)) => Err(AllocError),
        Err(FeedFault::Visitor(Halt::Sink)) => Ok(()),
        Ok(()) => writer.printer.write_all_due(writer.outbox, writer.sink),
    }
}

/// Writes the token that an item ends, with all that is due before it.
///
/// # Errors
///
/// Where memory runs out. What was written before is a beginning of that.
#[inline(always)]
fn write_item<W: Sink>(
    outbox: &mut Outbox,
    sink: &mut W,
    printer: &mut Printer<'_>,
    units: &mut Vec<u16>,
    item: Item<'_>,
) -> Result<(), AllocError>
    ensures said { OnOk result ((told : StreamToken) → Ends item.entry told
        → SaysTo W.gone_out W.has_failed outbox.old outbox.new sink.old sink.new (λ k. says_next printer.old told k)) }
    ensures goes { OnOk result ((told : StreamToken) → Ends item.entry told → printer.new ≡ goes (settled printer.old) told) }
    ensures same { OnOk result (IsLength item.entry
        → SaysTo W.gone_out W.has_failed outbox.old outbox.new sink.old sink.new (λ k. k) × (printer.new ≡ printer.old)) }
    ensures front { OnErr result ((told : StreamToken) → Ends item.entry told
        → BeginsTo W.gone_out W.has_failed outbox.old outbox.new sink.old sink.new (λ k. says_next printer.old told k)) }
    ensures length { OnErr result (IsLength item.entry → ⊥) }
{
    match part_of(item) {
        Part::Token(token) => printer.write_next(outbox, sink, token),
        Part::Text(bytes) => write_text(outbox, sink, printer, units, bytes),
        Part::Length => Ok(()),
    }
}

/// Writes a text from its bytes, with all that is due before it. The bytes of most texts stand for themselves.
///
/// # Errors
///
/// Where memory runs out. What was written before is a beginning of that.
fn write_text<W: Sink>(
    outbox: &mut Outbox,
    sink: &mut W,
    printer: &mut Printer<'_>,
    units: &mut Vec<u16>,
    bytes: &[u8],
) -> Result<(), AllocError>
    ensures said { OnOk result ((told : StreamToken) → IsTextOf bytes.now told
        → SaysTo W.gone_out W.has_failed outbox.old outbox.new sink.old sink.new (λ k. says_next printer.old told k)) }
    ensures goes { OnOk result ((told : StreamToken) → IsTextOf bytes.now told → printer.new ≡ goes (settled printer.old) told) }
    ensures front { OnErr result ((told : StreamToken) → IsTextOf bytes.now told
        → BeginsTo W.gone_out W.has_failed outbox.old outbox.new sink.old sink.new (λ k. says_next printer.old told k)) }
{
    match Plain::of(bytes) {
        Some(plain) => printer.write_plain(outbox, sink, plain),
        None => write_units(outbox, sink, printer, units, bytes),
    }
}

/// Writes a text by its units, with all that is due before it.
///
/// # Errors
///
/// Where memory runs out. What was written before is a beginning of that.
fn write_units<W: Sink>(
    outbox: &mut Outbox,
    sink: &mut W,
    printer: &mut Printer<'_>,
    units: &mut Vec<u16>,
    bytes: &[u8],
) -> Result<(), AllocError>
    ensures said { OnOk result ((told : StreamToken) → IsTextOf bytes.now told
        → SaysTo W.gone_out W.has_failed outbox.old outbox.new sink.old sink.new (λ k. says_next printer.old told k)) }
    ensures goes { OnOk result ((told : StreamToken) → IsTextOf bytes.now told → printer.new ≡ goes (settled printer.old) told) }
    ensures front { OnErr result ((told : StreamToken) → IsTextOf bytes.now told
        → BeginsTo W.gone_out W.has_failed outbox.old outbox.new sink.old sink.new (λ k. says_next printer.old told k)) }
{
    let text = decode(bytes, units)?;
    printer.write_next(outbox, sink, Token::Text(text))
}
