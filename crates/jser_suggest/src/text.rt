//! The text of the filter that is suggested.
ghost use Rattle.std.specs.Prelude.{◌≡◌, ◌++◌, IfOk, OnOk, string_bytes};
ghost use Rattle.std.specs.Fmt.{decimal};
ghost use Rattle.jser_prim.specs.ModifiedUtf8.{utf16_units};
ghost use Rattle.jser_suggest.specs.Gathering.{name_list};
ghost use Rattle.jser_suggest.specs.Suggested.{names_text, suggested_text, times};

use std::alloc::{AllocError, Global};
use std::collections::BTreeSet;
use std::fmt::Write;

/// `maxbytes=B;maxrefs=R;maxdepth=D;maxarray=A;NAME;..;!*`
pub(crate) fn text_of(
    alloc: Global,
    bytes: u64,
    refs: u64,
    depth: u64,
    longest: u64,
    names: &BTreeSet<String>,
) -> Result<String, AllocError>
    ensures { IfOk result (λ text. utf16_units (string_bytes text) ≡ suggested_text (record { bytes = bytes; refs = refs; depth = depth; array = longest; names = name_list names.now })) }
{
    let mut text = String::new(alloc);
    push_limit(&mut text, "maxbytes=", bytes)?;
    push_limit(&mut text, ";maxrefs=", refs)?;
    push_limit(&mut text, ";maxdepth=", depth)?;
    push_limit(&mut text, ";maxarray=", longest)?;
    push_names(&mut text, names)?;
    text.push_str(";!*")?;
    Ok(text)
}

/// So many times a count, as far as a filter can have such a limit.
pub(crate) fn times(slack: u64, count: u64) -> u64
    ensures { result ≡ times slack count }
{
    slack.saturating_mul(count).min(i64::MAX as u64)
}

/// Appends the words of a limit and its value in decimal.
fn push_limit(text: &mut String, words: &str, value: u64) -> Result<(), AllocError>
    ensures { OnOk result (utf16_units (string_bytes text.new) ≡ utf16_units (string_bytes text.old) ++ utf16_units words.now ++ decimal value) }
{
    text.push_str(words)?;
    write!(text, "{value}")?;
    Ok(())
}

/// Appends each name, with a `;` before it.
fn push_names(text: &mut String, names: &BTreeSet<String>) -> Result<(), AllocError>
    ensures { OnOk result (utf16_units (string_bytes text.new) ≡ utf16_units (string_bytes text.old) ++ names_text (name_list names.now)) }
{
    for name in names {
        text.push_str(";")?;
        text.push_str(name.as_str())?;
    }
    Ok(())
}
