//! `serialcheck check [--filter T | --filter-file F] [--modules M] [--strict] [--hex | --base64 | --base64url] [--anywhere] FILE`
ghost use Rattle.std.specs.Prelude.{◌≡◌, IfOk, false};
ghost use Rattle.clap.specs.Words.{app_of, rows_of, found_of};
ghost use Rattle.clap.specs.declared.Command.{out-Command};
ghost use Rattle.jser_line.specs.App.{check_app, check_in, line_asks, with_check_rules};

use crate::args::{
    anywhere_arg, file_arg, filters_of, forms_of, is_set, text_of, with_forms, with_strict_filters,
};
use crate::line::Line;
use clap::{ArgMatches, Command};
use std::alloc::{AllocError, Global};

/// What `--help` tells of the command, with examples.
const EXAMPLES: &str =
    "Prints 'yes B bytes, C contents, R refs, depth D' with status 0, or 'no at A to E: REASON' with
status 1: the faulty token begins at byte A, and the first E bytes decide.

Examples:
  serialcheck check --filter 'java.util.*;java.lang.*;!*' session.ser
  serialcheck check --filter-file session.filter --anywhere --base64 body.txt";

/// The command.
pub(crate) fn check_command<'a>(alloc: Global) -> Result<Command<'a>, AllocError>
    ensures app { IfOk result (λ command. app_of command ≡ check_app) }
    ensures local { IfOk result (λ command. (out-Command command).has_globals ≡ false) }
{
    let check = Command::new(alloc, "check")
        .about(
            "Checks whether a file is one Java serialization stream that the filter admits, and prints\n\
             its counts",
        )
        .after_help(EXAMPLES);
    with_check_args(alloc, check)
}

/// A command with the words of a check.
pub(crate) fn with_check_args<'a>(
    alloc: Global,
    command: Command<'a>,
) -> Result<Command<'a>, AllocError>
    requires { (out-Command command).has_globals ≡ false }
    ensures app { IfOk result (λ more. app_of more ≡ with_check_rules (app_of command.entry)) }
    ensures local { IfOk result (λ more. (out-Command more).has_globals ≡ false) }
{
    let filtered = with_strict_filters(alloc, command)?;
    let formed = with_forms(alloc, filtered)?;
    let anywhere = formed.arg(anywhere_arg(alloc))?;
    anywhere.arg(file_arg(alloc))
}

/// What its matches ask for.
pub(crate) fn check_line(alloc: Global, matches: &ArgMatches<'_>) -> Result<Line, AllocError>
    ensures { IfOk result (λ line. line_asks line ≡ check_in (rows_of (found_of matches.now))) }
{
    let filters = filters_of(alloc, matches)?;
    let file = text_of(alloc, matches, "file")?;
    Ok(Line::Check {
        filters,
        strict: is_set(matches, "strict"),
        forms: forms_of(matches),
        anywhere: is_set(matches, "anywhere"),
        file,
    })
}
