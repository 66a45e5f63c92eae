//! What is told of a filter or a table of modules that may not be the one that was meant: a filter without a pattern refuses no
//! class, one whose piece ends in a sign that nobody sees lets that piece match none, and with a table without a module no pattern
//! that names one matches.
ghost use Rattle.std.specs.Prelude.{◌≡◌, ◌==◌, ◌⊎◌, codes, length, not, true, false};
ghost use Rattle.jser_settings.specs.TextNotes.{NotesText, text_note, unseen_line};
ghost use Rattle.jser_settings.specs.NoPatterns.{has_pattern, is_pattern, with_byte};
ghost use Rattle.jser_settings.specs.Settings.{Notes, Tells, TellsNoMemory};

use crate::status::{tell_failure, tell_misuse_of};
use crate::unseen::first_unseen;
use jser_filter::Modules;
use jser_prim::Sink;
use std::alloc::Global;

/// A piece of a filter's text, as far as it was read.
#[derive(Clone, Copy, PartialEq, Eq, Debug)]
pub(crate) enum PieceSoFar {
    /// It has no character.
    Empty,
    /// It has characters, and no `=`.
    Pattern,
    /// It has a `=`.
    Limit,
}

/// Tells that the text of a filter's file has no pattern, if it has none. This changes no answer.
pub fn note_patterns<E: Sink>(text: &str, faults: &mut E)
    ensures { Notes (has_pattern text.now) (codes "filter file has no pattern\n") (E.has_failed faults.new) faults.old faults.new (E.gone_out faults.old) (E.gone_out faults.new) }
{
    if !has_pattern(text.as_bytes()) {
        let _ = tell_failure(faults, "filter file has no pattern\n");
    }
}

/// Tells that the text of a filter has no pattern, if it has none, and else which piece first begins or ends with a sign that
/// nobody sees, if one does: of Unicode's general category Cc, Cf, Zs, Zl or Zp. This changes no answer. Takes memory for the line.
pub fn note_text<E: Sink>(alloc: Global, text: &str, faults: &mut E)
    ensures { NotesText (text_note text.now) (E.has_failed faults.new) faults.old faults.new (E.gone_out faults.old) (E.gone_out faults.new) }
{
    if !has_pattern(text.as_bytes()) {
        let _ = tell_failure(faults, "filter has no pattern\n");
    } else if let Some(piece) = first_unseen(text) {
        let _ = note_unseen(alloc, piece, faults);
    }
}

/// Tells that a piece begins or ends with a sign that nobody sees; 3 where there was no memory for that.
fn note_unseen<E: Sink>(alloc: Global, piece: usize, faults: &mut E) -> u8
    ensures tells { result ≡ 2 → Tells (E.has_failed faults.new) (E.gone_out faults.old) (E.gone_out faults.new) (unseen_line piece) }
    ensures failed { result ≡ 3 → TellsNoMemory (E.has_failed faults.new) (E.gone_out faults.old) (E.gone_out faults.new) }
    ensures status { (result ≡ 2) ⊎ (result ≡ 3) }
{
    tell_misuse_of(
        faults,
        format!(in alloc;
            "filter pattern {piece} begins or ends with a blank or an unseen character\n"
        ),
    )
}

/// Tells that a table of modules is empty, if it is. This changes no answer.
pub fn note_modules<E: Sink>(table: &Modules, faults: &mut E)
    ensures { Notes (not (length table.now == 0)) (codes "modules file has no module\n") (E.has_failed faults.new) faults.old faults.new (E.gone_out faults.old) (E.gone_out faults.new) }
{
    if table.is_empty() {
        let _ = tell_failure(faults, "modules file has no module\n");
    }
}

/// Whether a filter's text has a pattern: a piece that is not empty and has no `=`. One without a pattern refuses no class.
pub fn has_pattern(text: &[u8]) -> bool
    ensures { result ≡ has_pattern text.now }
{
    let mut before = PieceSoFar::Empty;
    'bytes: for byte in text {
        if *byte == b';' {
            if is_pattern(before) {
                return true;
            }
            before = PieceSoFar::Empty;
        } else {
            before = with_byte(before, *byte);
        }
    }
    is_pattern(before)
}

/// A piece with one character more.
fn with_byte(before: PieceSoFar, byte: u8) -> PieceSoFar
    ensures { result ≡ with_byte before byte }
{
    match before {
        PieceSoFar::Limit => PieceSoFar::Limit,
        _ if byte == b'=' => PieceSoFar::Limit,
        _ => PieceSoFar::Pattern,
    }
}

/// Whether a piece is a pattern.
fn is_pattern(piece: PieceSoFar) -> bool
    ensures { result ≡ is_pattern piece }
{
    match piece {
        PieceSoFar::Pattern => true,
        _ => false,
    }
}
