//! What is due between two tokens.
ghost use Rattle.std.specs.Prelude.{◌≡◌, [], IfOk, OnOk};
ghost use Rattle.jser_shown.specs.Cues.{fields_done, rest_of_desc, teller};
ghost use Rattle.jser_shown.specs.Known.{class_layer, proxy_layer};
ghost use Rattle.jser_printer.specs.Passing.{Passed};
ghost use Rattle.jser_printer.specs.Says.{SaysTo};
ghost use Rattle.jser_printer.specs.Steps.{due, due_says};

use crate::draft::Draft;
use crate::layer::Layer;
use crate::phase::{Head, Over, Phase};
use crate::printer::Printer;
use crate::standing::Standing;
use crate::words::line::write;
use jser_prim::{Outbox, Sink};
use std::alloc::AllocError;

/// The fields of a class have ended: its annotation and its superclass come.
#[inline(never)]
fn end_class(
    draft: &mut Draft,
    standing: &mut Standing<'_>,
    head: Head,
    flags: u8,
) -> Result<(), AllocError>
    ensures { OnOk result (standing.new ≡ teller standing.old.epoch standing.old.known standing.old.owners (rest_of_desc head.level head.number (class_layer draft.old.name flags (fields_done draft.old.done [])) standing.old.cues)) }
{
    standing.end_fields(head, draft.finish(flags))
}

/// The interfaces of a proxy class have ended: the same.
#[inline(never)]
fn end_proxy(standing: &mut Standing<'_>, head: Head) -> Result<(), AllocError>
    ensures { OnOk result (standing.new ≡ teller standing.old.epoch standing.old.known standing.old.owners (rest_of_desc head.level head.number proxy_layer standing.old.cues)) }
{
    standing.end_fields(head, Layer::Proxy)
}

impl<'a> Printer<'a> {
    /// Writes what is due next where no token belongs to it, and does it. The answer is whether anything was due.
    ///
    /// # Errors
    ///
    /// Where memory runs out. What is due was written then.
    #[inline(always)]
    pub(crate) fn write_one_due<W: Sink>(
        &mut self,
        outbox: &mut Outbox,
        sink: &mut W,
    ) -> Result<bool, AllocError>
        ensures said { SaysTo W.gone_out W.has_failed outbox.old outbox.new sink.old sink.new (λ k. due_says (due self.old) k) }
        ensures passed { IfOk result (λ more. Passed more self.old self.new) }
    {
        match self.phase {
            Phase::Frames => match self.standing.write_due(outbox, sink)? {
                Some(phase) => {
                    self.phase = phase;
                    Ok(true)
                }
                None => Ok(false),
            },
            Phase::Fields {
                head,
                flags,
                left,
                over,
            } => match over {
                Over::LineEnd => {
                    write(outbox, sink, b"\n");
                    self.phase = Phase::Fields {
                        head,
                        flags,
                        left,
                        over: Over::Nothing,
                    };
                    Ok(true)
                }
                Over::TypeWord => {
                    write(outbox, sink, b" type ");
                    self.phase = Phase::Fields {
                        head,
                        flags,
                        left,
                        over: Over::Place,
                    };
                    Ok(true)
                }
                Over::Nothing => {
                    if left > 0 {
                        return Ok(false);
                    }
                    end_class(&mut self.draft, &mut self.standing, head, flags)?;
                    self.phase = Phase::Frames;
                    Ok(true)
                }
                Over::Place => Ok(false),
                Over::Text => Ok(false),
                Over::Handle => Ok(false),
            },
            Phase::Interfaces { head, left } => {
                if left > 0 {
                    return Ok(false);
                }
                end_proxy(&mut self.standing, head)?;
                self.phase = Phase::Frames;
                Ok(true)
            }
            _ => Ok(false),
        }
    }
}
