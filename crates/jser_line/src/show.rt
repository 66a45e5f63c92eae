//! `serialcheck show [--hex | --base64 | --base64url] [--values] [--limit N] FILE`
ghost use Rattle.std.specs.Prelude.{◌≡◌, IfOk, false};
ghost use Rattle.clap.specs.Words.{app_of, rows_of, found_of};
ghost use Rattle.clap.specs.declared.Command.{out-Command};
ghost use Rattle.jser_line.specs.App.{show_app, show_in, line_asks};

use crate::args::{
    file_arg, forms_of, is_set, limit_arg, text_of, value_of, values_arg, with_forms,
};
use crate::line::Line;
use clap::{ArgMatches, Command};
use std::alloc::{AllocError, Global};

/// What `--help` tells of the command, with examples.
const EXAMPLES: &str =
    "A small stream can have gigabytes of text: show one that you do not trust with --limit.

Examples:
  serialcheck show --values session.ser
  serialcheck show --limit 1000000 upload.ser
  xxd -p session.ser | serialcheck show --hex -";

/// The command.
pub(crate) fn show_command<'a>(alloc: Global) -> Result<Command<'a>, AllocError>
    ensures app { IfOk result (λ command. app_of command ≡ show_app) }
    ensures local { IfOk result (λ command. (out-Command command).has_globals ≡ false) }
{
    let show = Command::new(alloc, "show")
        .about("Prints what a stream holds, a line for each thing in it, and makes no object of it")
        .after_help(EXAMPLES);
    let formed = with_forms(alloc, show)?;
    let told = formed.arg(values_arg(alloc))?;
    let limited = told.arg(limit_arg(alloc))?;
    limited.arg(file_arg(alloc))
}

/// What its matches ask for.
pub(crate) fn show_line(alloc: Global, matches: &ArgMatches<'_>) -> Result<Line, AllocError>
    ensures { IfOk result (λ line. line_asks line ≡ show_in (rows_of (found_of matches.now))) }
{
    let limit = value_of(alloc, matches, "limit")?;
    let file = text_of(alloc, matches, "file")?;
    Ok(Line::Show {
        forms: forms_of(matches),
        values: is_set(matches, "values"),
        limit,
        file,
    })
}
