//! The tokens of descriptors, by the phase.
ghost use Rattle.std.specs.Prelude.{◌≡◌, ℕ, List, IfOk};
ghost use Rattle.jser_shown.specs.Known.{Known, NamedField};
ghost use Rattle.jser_shown.specs.Owners.{OwnerNode as ToldNode};
ghost use Rattle.jser_shown.specs.Cues.{Cue, teller};
ghost use Rattle.jser_shown.specs.Telling.{goes_in, class_name_goes, suid_goes, field_count_goes, code_goes, field_name_goes, name_says, suid_says, flags_says, code_says, interface_says};
ghost use Rattle.jser_shown.specs.Words.{Epoch};
ghost use Rattle.jser_printer.specs.Seen.{view_seen};
ghost use Rattle.jser_printer.specs.TokenWords.{token_words};
ghost use Rattle.jser_printer.specs.Says.{SaysTo};
ghost use Rattle.jser_printer.specs.Phases.{Leads, in_phase, over_fields, phase_cues};

use crate::draft::Draft;
use crate::layer::has_type_text;
use crate::phase::{Head, Over, Phase};
use crate::seen::{Seen, Tag};
use crate::standing::Standing;
use crate::words::descriptor::{
    write_field_word, write_flags_word, write_interface_word, write_suid_word,
};
use crate::words::number::write_mark_line;
use crate::words::quote::{write_text, write_text_line};
use crate::words::tag::{Marks, write_value_tag};
use jser_prim::{Outbox, Sink};
use std::alloc::AllocError;

/// The name of a class.
#[tactic(auto, using(crate::proofs::SaysLemmas::says_nothing))]
#[inline(always)]
pub(crate) fn write_class_name<W: Sink>(
    outbox: &mut Outbox,
    sink: &mut W,
    draft: &mut Draft,
    level: u64,
    seen: Seen<'_>,
) -> Result<Phase, AllocError>
    ensures said { SaysTo W.gone_out W.has_failed outbox.old outbox.new sink.old sink.new (λ k. name_says (view_seen seen.entry) k) }
    ensures leads { IfOk result (λ phase. (e : Epoch) (known : Known) (os : List ToldNode) (cues : List Cue) → teller e known os (phase_cues phase draft.new.name draft.new.done cues) ≡ class_name_goes e known os cues level (view_seen seen.entry)) }
{
    let Seen::Text(name) = seen else {
        return Ok(Phase::ClassName { level });
    };
    write_text(outbox, sink, name);
    draft.begin(name)?;
    Ok(Phase::Suid { level })
}

/// The serial version UID of a class, behind which its descriptor gets its handle.
#[tactic(auto, using(crate::proofs::SaysLemmas::says_nothing))]
#[inline(always)]
pub(crate) fn write_suid<W: Sink>(
    outbox: &mut Outbox,
    sink: &mut W,
    standing: &mut Standing<'_>,
    level: u64,
    seen: Seen<'_>,
) -> Result<Phase, AllocError>
    ensures said { SaysTo W.gone_out W.has_failed outbox.old outbox.new sink.old sink.new (λ k. suid_says (view_seen seen.entry) k) }
    ensures leads { IfOk result (λ phase. (name : List ℕ) (done : List NamedField) → in_phase phase name done standing.new ≡ suid_goes standing.old.epoch standing.old.known standing.old.owners standing.old.cues level name (view_seen seen.entry)) }
{
    let Seen::Suid(suid) = seen else {
        return Ok(Phase::Suid { level });
    };
    write_suid_word(outbox, sink, suid);
    let number = standing.add_descriptor()?;
    Ok(Phase::Flags {
        head: Head { level, number },
    })
}

/// The flags of a class.
#[tactic(auto, using(crate::proofs::SaysLemmas::says_nothing))]
#[inline(always)]
pub(crate) fn write_flags<W: Sink>(
    outbox: &mut Outbox,
    sink: &mut W,
    head: Head,
    seen: Seen<'_>,
) -> Phase
    ensures said { SaysTo W.gone_out W.has_failed outbox.old outbox.new sink.old sink.new (λ k. flags_says (view_seen seen.entry) k) }
    ensures leads { Leads (Phase.Flags head) result (view_seen seen.entry) }
{
    match seen {
        Seen::Flags(flags) => {
            write_flags_word(outbox, sink, flags);
            Phase::FieldCount { head, flags }
        }
        _ => Phase::Flags { head },
    }
}

/// The number of fields of a class.
#[inline(always)]
pub(crate) fn take_field_count(draft: &mut Draft, head: Head, flags: u8, seen: Seen<'_>) -> Phase
    ensures { (e : Epoch) (known : Known) (os : List ToldNode) (cues : List Cue) → teller e known os (phase_cues result draft.new.name draft.new.done cues) ≡ field_count_goes e known os cues head.level head.number draft.old.name flags (view_seen seen.entry) }
{
    let Seen::FieldCount(left) = seen else {
        return Phase::FieldCount { head, flags };
    };
    draft.begin_fields();
    Phase::Fields {
        head,
        flags,
        left,
        over: Over::Nothing,
    }
}

/// The type code of the next field of a descriptor, where one is left.
#[tactic(auto, using(crate::proofs::SaysLemmas::says_nothing))]
fn write_code<W: Sink>(
    outbox: &mut Outbox,
    sink: &mut W,
    head: Head,
    flags: u8,
    left: u16,
    seen: Seen<'_>,
) -> Phase
    ensures said { SaysTo W.gone_out W.has_failed outbox.old outbox.new sink.old sink.new (λ k. code_says head.level (view_seen seen.entry) k) }
    ensures leads { (e : Epoch) (known : Known) (os : List ToldNode) (cues : List Cue) (name : List ℕ) (done : List NamedField) → teller e known os (phase_cues result name done cues) ≡ code_goes e known os cues head.level head.number name flags done left (view_seen seen.entry) }
{
    if let Seen::TypeCode(code) = seen {
        write_field_word(outbox, sink, head.level, code);
        if left > 0 {
            return Phase::FieldName {
                head,
                flags,
                code,
                left: left - 1,
            };
        }
    }
    Phase::Fields {
        head,
        flags,
        left,
        over: Over::Nothing,
    }
}

/// A token of the type text of a field: what comes before the next field of the descriptor then.
#[tactic(auto, using(crate::proofs::SaysLemmas::says_nothing))]
fn write_type<W: Sink>(
    outbox: &mut Outbox,
    sink: &mut W,
    marks: Marks,
    standing: &mut Standing<'_>,
    over: Over,
    seen: Seen<'_>,
) -> Result<Over, AllocError>
    requires { over ≡ Over.Nothing → ⊥ }
    ensures said { (cues : List Cue) → SaysTo W.gone_out W.has_failed outbox.old outbox.new sink.old sink.new (λ k. token_words marks (over_fields over cues) (view_seen seen.entry) k) }
    ensures leads { IfOk result (λ next. (cues : List Cue) → teller standing.new.epoch standing.new.known standing.new.owners (over_fields next cues) ≡ goes_in standing.old.epoch standing.old.known standing.old.owners (over_fields over cues) (view_seen seen.entry)) }
    ensures below { IfOk result (λ _. standing.new.cues ≡ standing.old.cues) }
{
    match over {
        Over::Place => {
            let Seen::Tag(tag) = seen else {
                return Ok(over);
            };
            write_value_tag(outbox, sink, marks, tag);
            match tag {
                Tag::Reference => Ok(Over::Handle),
                Tag::String | Tag::LongString => {
                    standing.add_text()?;
                    Ok(Over::Text)
                }
                _ => Ok(over),
            }
        }
        Over::Text => match seen {
            Seen::Text(text) => {
                write_text_line(outbox, sink, text);
                Ok(Over::Nothing)
            }
            _ => Ok(over),
        },
        Over::Handle => match seen {
            Seen::Handle(number) => {
                write_mark_line(outbox, sink, marks.epoch, number as u64);
                Ok(Over::Nothing)
            }
            _ => Ok(over),
        },
        Over::LineEnd => Ok(over),
        Over::TypeWord => Ok(over),
        Over::Nothing => unreachable!(),
    }
}

/// A token where the fields of a class stand: a type code, or a token of a type text.
#[inline(always)]
pub(crate) fn write_class_field<W: Sink>(
    outbox: &mut Outbox,
    sink: &mut W,
    marks: Marks,
    standing: &mut Standing<'_>,
    head: Head,
    flags: u8,
    left: u16,
    over: Over,
    seen: Seen<'_>,
) -> Result<Phase, AllocError>
    ensures said { (name : List ℕ) (done : List NamedField) → SaysTo W.gone_out W.has_failed outbox.old outbox.new sink.old sink.new (λ k. token_words marks (phase_cues (Phase.Fields head flags left over) name done standing.old.cues) (view_seen seen.entry) k) }
    ensures leads { IfOk result (λ phase. (name : List ℕ) (done : List NamedField) → in_phase phase name done standing.new ≡ goes_in standing.old.epoch standing.old.known standing.old.owners (phase_cues (Phase.Fields head flags left over) name done standing.old.cues) (view_seen seen.entry)) }
{
    match over {
        Over::Nothing => Ok(write_code(outbox, sink, head, flags, left, seen)),
        _ => {
            let over = write_type(outbox, sink, marks, standing, over, seen)?;
            Ok(Phase::Fields {
                head,
                flags,
                left,
                over,
            })
        }
    }
}

/// The name of a field of a class.
#[tactic(auto, using(crate::proofs::SaysLemmas::says_nothing))]
#[inline(always)]
pub(crate) fn write_field_name<W: Sink>(
    outbox: &mut Outbox,
    sink: &mut W,
    draft: &mut Draft,
    head: Head,
    flags: u8,
    code: u8,
    left: u16,
    seen: Seen<'_>,
) -> Result<Phase, AllocError>
    ensures said { SaysTo W.gone_out W.has_failed outbox.old outbox.new sink.old sink.new (λ k. name_says (view_seen seen.entry) k) }
    ensures leads { IfOk result (λ phase. (e : Epoch) (known : Known) (os : List ToldNode) (cues : List Cue) → teller e known os (phase_cues phase draft.new.name draft.new.done cues) ≡ field_name_goes e known os cues head.level head.number draft.old.name flags draft.old.done code left (view_seen seen.entry)) }
{
    let Seen::Text(name) = seen else {
        return Ok(Phase::FieldName {
            head,
            flags,
            code,
            left,
        });
    };
    write_text(outbox, sink, name);
    draft.add_field(code, name)?;
    Ok(Phase::Fields {
        head,
        flags,
        left,
        over: if has_type_text(code) {
            Over::TypeWord
        } else {
            Over::LineEnd
        },
    })
}

/// The number of interfaces of a proxy class.
#[inline(always)]
pub(crate) fn take_interface_count(head: Head, seen: Seen<'_>) -> Phase
    ensures { Leads (Phase.InterfaceCount head) result (view_seen seen.entry) }
{
    match seen {
        Seen::InterfaceCount(left) => Phase::Interfaces { head, left },
        _ => Phase::InterfaceCount { head },
    }
}

/// The name of an interface of a proxy class.
#[tactic(auto, using(crate::proofs::SaysLemmas::says_nothing))]
#[inline(always)]
pub(crate) fn write_interface<W: Sink>(
    outbox: &mut Outbox,
    sink: &mut W,
    head: Head,
    left: u32,
    seen: Seen<'_>,
) -> Phase
    ensures said { SaysTo W.gone_out W.has_failed outbox.old outbox.new sink.old sink.new (λ k. interface_says head.level (view_seen seen.entry) k) }
    ensures leads { Leads (Phase.Interfaces head left) result (view_seen seen.entry) }
{
    if let Seen::Text(name) = seen {
        write_interface_word(outbox, sink, head.level, name);
        if left > 0 {
            return Phase::Interfaces {
                head,
                left: left - 1,
            };
        }
    }
    Phase::Interfaces { head, left }
}
