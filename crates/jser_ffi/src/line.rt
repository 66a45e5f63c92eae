//! The line that the program prints of an answer.
ghost use Rattle.std.specs.Prelude.{◌≡◌, ◌⊎◌, ◌≢◌, IfOk, option_map, string_bytes};
ghost use Rattle.jser_ffi.specs.Lines.{PutsAny, file_line, line_of, misuse_line_of, module_line, no_line_of, pattern_line};
ghost use Rattle.jser_ffi.specs.Told.{TextZeros, report_in};

use crate::answer::{Answer, HIDDEN_NAME, MISUSE, NO, NO_MEMORY, SPENT, YES, bare};
use crate::named::reason_of;
use crate::room::put;
use jser_check::{Refusal, Report};
use jser_commands::{text_of_hidden, text_of_refusal, text_of_report};
use jser_filter::{FilterCause, FilterFault, ModulesCause, ModulesFault};
use jser_settings::{FileCause, FileFault};
use std::alloc::{AllocError, Global};

/// Puts the line of an answer into a room, if there is one.
pub(crate) fn line_into(alloc: Global, answer: &Answer, room: &mut [u8]) -> Answer
    ensures puts { result.status ≢ 3 → PutsAny (line_of answer.now) room.old room.new result }
    ensures kept { result.status ≡ 3 → room.new ≡ room.old }
    ensures known { (result.status ≡ 0) ⊎ ((result.status ≡ 3) ⊎ ((result.status ≡ 5) ⊎ (result.status ≡ 6))) }
    ensures zeros { TextZeros result }
{
    match line_of(alloc, answer) {
        Ok(Some(line)) => put(line.as_bytes(), room),
        Ok(None) => bare(SPENT),
        Err(_) => bare(NO_MEMORY),
    }
}

/// The line of an answer.
fn line_of(alloc: Global, answer: &Answer) -> Result<Option<String>, AllocError>
    ensures { IfOk result (λ line. option_map (λ text. string_bytes text) line ≡ line_of answer.now) }
{
    match answer.status {
        YES => Ok(Some(text_of_report(alloc, report_in(answer))?)),
        NO => line_of_no(alloc, answer),
        MISUSE => line_of_misuse(alloc, answer),
        NO_MEMORY => Ok(Some(said(alloc, "out of memory\n")?)),
        _ => Ok(None),
    }
}

/// The counts of an answer.
fn report_in(answer: &Answer) -> Report
    ensures { result ≡ report_in answer.now }
{
    Report {
        bytes: answer.bytes,
        contents: answer.contents,
        refs: answer.refs,
        depth: answer.depth,
        handles: answer.handles,
    }
}

/// `no at A to E: REASON`
fn line_of_no(alloc: Global, answer: &Answer) -> Result<Option<String>, AllocError>
    ensures { IfOk result (λ line. option_map (λ text. string_bytes text) line ≡ no_line_of answer.now) }
{
    let (from_byte, to_byte) = (answer.from_byte, answer.to_byte);
    if answer.reason == HIDDEN_NAME {
        return Ok(Some(text_of_hidden(alloc, from_byte, to_byte)?));
    }
    let Some(reason) = reason_of(answer.reason) else {
        return Ok(None);
    };
    let refusal = Refusal {
        from_byte,
        to_byte,
        reason,
    };
    Ok(Some(text_of_refusal(alloc, refusal)?))
}

/// What is wrong with a filter, a table of modules or a flag.
fn line_of_misuse(alloc: Global, answer: &Answer) -> Result<Option<String>, AllocError>
    ensures { IfOk result (λ line. option_map (λ text. string_bytes text) line ≡ misuse_line_of answer.now) }
{
    let place = answer.from_byte;
    match answer.reason {
        1 => Ok(Some(line_of_pattern(alloc, place, FilterCause::UnknownLimit)?)),
        2 => Ok(Some(line_of_pattern(alloc, place, FilterCause::BadLimit)?)),
        3 => Ok(Some(line_of_pattern(alloc, place, FilterCause::ModuleMissing)?)),
        4 => Ok(Some(line_of_pattern(alloc, place, FilterCause::NameMissing)?)),
        5 => Ok(Some(line_of_pattern(alloc, place, FilterCause::PackageMissing)?)),
        6 => Ok(Some(said(alloc, "filter is not text\n")?)),
        7 => Ok(Some(line_of_module(alloc, place, ModulesCause::BadLine)?)),
        8 => Ok(Some(line_of_module(alloc, place, ModulesCause::PackageTwice)?)),
        9 => Ok(Some(said(alloc, "modules are not text\n")?)),
        10 => Ok(Some(said(alloc, "unknown flag\n")?)),
        11 => Ok(Some(line_of_file(alloc, place, FileCause::ByteOrderMark)?)),
        12 => Ok(Some(line_of_file(alloc, place, FileCause::NumberSign)?)),
        13 => Ok(Some(line_of_file(alloc, place, FileCause::WhiteSpace)?)),
        14 => Ok(Some(said(alloc, "filter file is not text\n")?)),
        15 => Ok(Some(said(alloc, "filter has no pattern\n")?)),
        _ => Ok(None),
    }
}

/// `filter pattern N: CAUSE`
fn line_of_pattern(alloc: Global, place: u64, cause: FilterCause) -> Result<String, AllocError>
    ensures { IfOk result (λ text. string_bytes text ≡ (pattern_line place cause)) }
{
    let fault = FilterFault {
        pattern: place as usize,
        cause,
    };
    let line = format!(in alloc; "{fault}\n")?;
    Ok(line)
}

/// `modules line N: CAUSE`
fn line_of_module(alloc: Global, place: u64, cause: ModulesCause) -> Result<String, AllocError>
    ensures { IfOk result (λ text. string_bytes text ≡ (module_line place cause)) }
{
    let fault = ModulesFault {
        line: place as usize,
        cause,
    };
    let line = format!(in alloc; "{fault}\n")?;
    Ok(line)
}

/// `filter line N: CAUSE`
fn line_of_file(alloc: Global, place: u64, cause: FileCause) -> Result<String, AllocError>
    ensures { IfOk result (λ text. string_bytes text ≡ (file_line place cause)) }
{
    let fault = FileFault {
        line: place as usize,
        cause,
    };
    let line = format!(in alloc; "{fault}\n")?;
    Ok(line)
}

/// A text of its own.
fn said(alloc: Global, words: &str) -> Result<String, AllocError>
    ensures { IfOk result (λ text. string_bytes text ≡ words.now) }
{
    let mut line = String::new(alloc);
    line.push_str(words)?;
    Ok(line)
}
