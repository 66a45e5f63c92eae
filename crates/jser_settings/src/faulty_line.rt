//! The first faulty line of a filter's file.
ghost use Rattle.std.specs.Prelude.{◌≡◌, ◌<◌, ◌^◌, length};
ghost use Rattle.jser_settings.specs.FileFaults.{begins_with_mark, cause_of, file_fault, has_sign};

use crate::file_fault::{FileCause, FileFault};
use crate::filter_file::{uncommented, without_return};
use crate::unseen::first_unseen;

/// The first faulty line of a text, if one is faulty.
pub(crate) fn first_fault(text: &str) -> Option<FileFault>
    requires { length text.now < 2 ^ 63 }
    ensures { result ≡ file_fault text.now }
{
    if begins_with_mark(text.as_bytes()) {
        return Some(FileFault {
            line: 0,
            cause: FileCause::ByteOrderMark,
        });
    }
    let mut number: usize = 0;
    let mut rest = text;
    'lines: while let Some((line, after)) = rest.split_once('\n') {
        if let Some(cause) = cause_of(uncommented(without_return(line))) {
            return Some(FileFault {
                line: number,
                cause,
            });
        }
        number += 1;
        rest = after;
    }
    match cause_of(uncommented(rest)) {
        Some(cause) => Some(FileFault {
            line: number,
            cause,
        }),
        None => None,
    }
}

/// Whether a text begins with a byte order mark.
fn begins_with_mark(bytes: &[u8]) -> bool
    ensures { result ≡ begins_with_mark bytes.now }
{
    match bytes {
        [a, b, c, ..] => *a == 0xEF && *b == 0xBB && *c == 0xBF,
        _ => false,
    }
}

/// What is wrong with a line, without its carriage return and its comment.
fn cause_of(line: &str) -> Option<FileCause>
    ensures { result ≡ cause_of line.now }
{
    if has_sign(line.as_bytes()) {
        Some(FileCause::NumberSign)
    } else if first_unseen(line).is_some() {
        Some(FileCause::WhiteSpace)
    } else {
        None
    }
}

/// Whether a line has a `#`.
fn has_sign(line: &[u8]) -> bool
    ensures { result ≡ has_sign line.now }
{
    line.iter().any(|byte| *byte == b'#')
}
