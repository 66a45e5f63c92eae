//! Pieces of a filter that begin or end with a sign that nobody sees. For a JVM such a sign is one of the name, so the piece
//! matches no class, while it looks as if it did.
ghost use Rattle.std.specs.Prelude.{◌≡◌};
ghost use Rattle.std.specs.Str.{chars};
ghost use Rattle.jser_settings.specs.Unseen.{first_unseen, is_unseen, is_unseen_between};

use ucd_category::GeneralCategory;

/// The first piece of a filter's text that begins or ends with a sign that nobody sees, by its number, from 0.
pub(crate) fn first_unseen(text: &str) -> Option<usize>
    ensures { result ≡ first_unseen (chars text.now) }
{
    let mut number: usize = 0;
    let mut before = ';';
    'signs: for sign in text.chars() {
        if is_unseen_between(before, sign) {
            return Some(number);
        }
        if sign == ';' {
            number += 1;
        }
        before = sign;
    }
    if is_unseen(before) {
        Some(number)
    } else {
        None
    }
}

/// Whether a piece ends or begins, between two signs of a text, with one that nobody sees.
fn is_unseen_between(before: char, sign: char) -> bool
    ensures { result ≡ is_unseen_between before sign }
{
    (before == ';' && is_unseen(sign)) || (sign == ';' && is_unseen(before))
}

/// Whether a sign is a blank, a control or a format character.
fn is_unseen(sign: char) -> bool
    ensures { result ≡ is_unseen sign }
{
    match GeneralCategory::for_char(sign) {
        GeneralCategory::Control
        | GeneralCategory::Format
        | GeneralCategory::SpaceSeparator
        | GeneralCategory::LineSeparator
        | GeneralCategory::ParagraphSeparator => true,
        _ => false,
    }
}
