//! `serialcheck list [--filter T | --filter-file F] [--modules M] [--hex | --base64 | --base64url] [--anywhere] FILE`
ghost use Rattle.std.specs.Prelude.{◌≡◌, IfOk, false};
ghost use Rattle.clap.specs.Words.{app_of, rows_of, found_of};
ghost use Rattle.clap.specs.declared.Command.{out-Command};
ghost use Rattle.jser_line.specs.App.{list_app, list_in, line_asks};

use crate::args::{
    anywhere_arg, file_arg, filters_of, forms_of, is_set, text_of, with_filters, with_forms,
};
use crate::line::Line;
use clap::{ArgMatches, Command};
use std::alloc::{AllocError, Global};

/// What `--help` tells of the command, with examples.
const EXAMPLES: &str = "Examples:
  serialcheck list session.ser
  serialcheck list --filter 'java.util.*;!*' session.ser
  serialcheck list --anywhere session.ser";

/// The command.
pub(crate) fn list_command<'a>(alloc: Global) -> Result<Command<'a>, AllocError>
    ensures app { IfOk result (λ command. app_of command ≡ list_app) }
    ensures local { IfOk result (λ command. (out-Command command).has_globals ≡ false) }
{
    let list = Command::new(alloc, "list")
        .about(
            "Prints a line for each class name in a stream: how often it is there, what the filter\n\
             says of it, and the name. The filter refuses nothing",
        )
        .after_help(EXAMPLES);
    let filtered = with_filters(alloc, list)?;
    let formed = with_forms(alloc, filtered)?;
    let anywhere = formed.arg(anywhere_arg(alloc))?;
    anywhere.arg(file_arg(alloc))
}

/// What its matches ask for.
pub(crate) fn list_line(alloc: Global, matches: &ArgMatches<'_>) -> Result<Line, AllocError>
    ensures { IfOk result (λ line. line_asks line ≡ list_in (rows_of (found_of matches.now))) }
{
    let filters = filters_of(alloc, matches)?;
    let file = text_of(alloc, matches, "file")?;
    Ok(Line::List {
        filters,
        forms: forms_of(matches),
        anywhere: is_set(matches, "anywhere"),
        file,
    })
}
