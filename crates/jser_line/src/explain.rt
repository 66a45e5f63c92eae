//! `serialcheck explain [--filter T | --filter-file F] [--modules M] [--strict] [--hex | --base64 | --base64url] [--anywhere] FILE`
ghost use Rattle.std.specs.Prelude.{◌≡◌, IfOk, false};
ghost use Rattle.clap.specs.Words.{app_of, rows_of, found_of};
ghost use Rattle.clap.specs.declared.Command.{out-Command};
ghost use Rattle.jser_line.specs.App.{explain_app, explain_in, line_asks};

use crate::args::{filters_of, forms_of, is_set, text_of};
use crate::check::with_check_args;
use crate::line::Line;
use clap::{ArgMatches, Command};
use std::alloc::{AllocError, Global};

/// What `--help` tells of the command, with examples.
const EXAMPLES: &str =
    "Prints the line of check, with its status. After a refusal more lines follow: what the reason means,
the bytes, the class, the piece of the filter that decides, and what is open there. The stream is
kept in memory until it is refused.

Examples:
  serialcheck explain --filter 'java.util.*;java.lang.*;!*' session.ser
  serialcheck explain --filter-file session.filter --anywhere --base64 body.txt";

/// The command.
pub(crate) fn explain_command<'a>(alloc: Global) -> Result<Command<'a>, AllocError>
    ensures app { IfOk result (λ command. app_of command ≡ explain_app) }
    ensures local { IfOk result (λ command. (out-Command command).has_globals ≡ false) }
{
    let explain = Command::new(alloc, "explain")
        .about("Checks a stream as check does, and says why it is refused")
        .after_help(EXAMPLES);
    with_check_args(alloc, explain)
}

/// What its matches ask for.
pub(crate) fn explain_line(alloc: Global, matches: &ArgMatches<'_>) -> Result<Line, AllocError>
    ensures { IfOk result (λ line. line_asks line ≡ explain_in (rows_of (found_of matches.now))) }
{
    let filters = filters_of(alloc, matches)?;
    let file = text_of(alloc, matches, "file")?;
    Ok(Line::Explain {
        filters,
        strict: is_set(matches, "strict"),
        forms: forms_of(matches),
        anywhere: is_set(matches, "anywhere"),
        file,
    })
}
