//! Words as they are, and the beginnings of lines.
ghost use Rattle.std.specs.Prelude.{suc, ◌≤◌, ◌∷◌, ◌++◌};
ghost use Rattle.jser_shown.specs.Words.{begin_line};
ghost use Rattle.jser_printer.specs.Says.{SaysTo};

use jser_prim::{Outbox, Sink};

/// How many levels are begun by one piece of spaces at most.
const LEVELS: usize = 32;

/// Writes these bytes.
#[tactic(auto, using(crate::proofs::SaysLemmas::says_bytes))]
#[inline(always)]
pub fn write<W: Sink>(outbox: &mut Outbox, sink: &mut W, words: &[u8])
    ensures { SaysTo W.gone_out W.has_failed outbox.old outbox.new sink.old sink.new (λ k. words.now ++ k) }
{
    outbox.put(sink, words);
}

/// Writes the beginning of a line of this level: two spaces for each.
#[inline(always)]
pub(crate) fn write_line_start<W: Sink>(outbox: &mut Outbox, sink: &mut W, level: u64)
    ensures { SaysTo W.gone_out W.has_failed outbox.old outbox.new sink.old sink.new (λ k. begin_line level k) }
{
    match level {
        0 => {}
        1 => write(outbox, sink, b"  "),
        2 => write(outbox, sink, b"    "),
        3 => write(outbox, sink, b"      "),
        _ => write_many_levels(outbox, sink, level),
    }
}

/// Writes the beginning of a line that is one level deeper than this one, and a quote.
#[inline(always)]
pub(crate) fn write_deeper_quote<W: Sink>(outbox: &mut Outbox, sink: &mut W, level: u64)
    ensures { SaysTo W.gone_out W.has_failed outbox.old outbox.new sink.old sink.new (λ k. begin_line (suc level) (0x22 ∷ k)) }
{
    match level {
        0 => write(outbox, sink, b"  \""),
        1 => write(outbox, sink, b"    \""),
        2 => write(outbox, sink, b"      \""),
        _ => write_far_quote(outbox, sink, level),
    }
}

/// Writes the beginning of a line at this level, whatever it is, and a quote.
#[inline(never)]
fn write_far_quote<W: Sink>(outbox: &mut Outbox, sink: &mut W, level: u64)
    ensures { SaysTo W.gone_out W.has_failed outbox.old outbox.new sink.old sink.new (λ k. begin_line (suc level) (0x22 ∷ k)) }
{
    write(outbox, sink, b"  ");
    write_many_levels(outbox, sink, level);
    write(outbox, sink, b"\"");
}

/// Writes the beginning of a line of any level, in runs of spaces.
#[inline(never)]
fn write_many_levels<W: Sink>(outbox: &mut Outbox, sink: &mut W, level: u64)
    ensures { SaysTo W.gone_out W.has_failed outbox.old outbox.new sink.old sink.new (λ k. begin_line level k) }
{
    let mut left = level;
    'runs: while left > LEVELS as u64 {
        write_levels(outbox, sink, LEVELS);
        left -= LEVELS as u64;
    }
    write_levels(outbox, sink, left as usize);
}

/// Writes the spaces of a few levels.
fn write_levels<W: Sink>(outbox: &mut Outbox, sink: &mut W, levels: usize)
    requires { levels ≤ 32 }
    ensures { SaysTo W.gone_out W.has_failed outbox.old outbox.new sink.old sink.new (λ k. begin_line levels k) }
{
    let spaces = [b' '; 2 * LEVELS];
    write(outbox, sink, &spaces[..2 * levels]);
}
