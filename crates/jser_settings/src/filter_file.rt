//! The text of a filter that a file holds.
ghost use Rattle.std.specs.Prelude.{◌≡◌, IfOk, string_bytes};
ghost use Rattle.jser_settings.specs.FilterFiles.{filter_text, uncommented, without_return};

use std::alloc::{AllocError, Global};

/// The lines of a text, joined by `;`.
#[tactic(auto, using(crate::proofs::FilterFileLemmas::joined_more, crate::proofs::FilterFileLemmas::joined_last, crate::proofs::FilterFileLemmas::shorter_rest))]
pub(crate) fn joined_lines(alloc: Global, text: &str) -> Result<String, AllocError>
    ensures { IfOk result (λ joined. string_bytes joined ≡ filter_text text.now) }
{
    let mut joined = String::new(alloc);
    let mut rest = text;
    'lines: while let Some((line, after)) = rest.split_once('\n') {
        joined.push_str(uncommented(without_return(line)))?;
        joined.push_str(";")?;
        rest = after;
    }
    joined.push_str(uncommented(rest))?;
    Ok(joined)
}

/// A line without the carriage return at its end.
#[tactic(auto, using(crate::proofs::FilterFileLemmas::suffix_dropped, crate::proofs::FilterFileLemmas::suffix_kept))]
pub(crate) fn without_return(line: &str) -> &str
    ensures { result.now ≡ without_return line.now }
{
    match line.strip_suffix('\r') {
        Some(front) => front,
        None => line,
    }
}

/// A line, or nothing where it is a comment.
#[tactic(auto, using(crate::proofs::FilterFileLemmas::comment, crate::proofs::FilterFileLemmas::no_comment))]
pub(crate) fn uncommented(line: &str) -> &str
    ensures { result.now ≡ uncommented line.now }
{
    if line.starts_with('#') { "" } else { line }
}
