//! `serialcheck scan [--filter T | --filter-file F] [--modules M] [--strict] [--hex | --base64 | --base64url] [--anywhere] [--refused]
//! [--json] [--progress] PATH..`
ghost use Rattle.std.specs.Prelude.{◌≡◌, IfOk, false};
ghost use Rattle.clap.specs.Words.{app_of, rule_of, rows_of, found_of};
ghost use Rattle.clap.specs.declared.Command.{out-Command};
ghost use Rattle.jser_line.specs.Args.{refused_rule, json_rule, progress_rule, paths_rule};
ghost use Rattle.jser_line.specs.App.{scan_app, scan_in, line_asks, with_answer_rules};

use crate::args::{
    anywhere_arg, filters_of, forms_of, is_set, texts_of, with_forms, with_strict_filters,
};
use crate::line::Line;
use clap::{Arg, ArgAction, ArgMatches, Command};
use std::alloc::{AllocError, Global};

/// What `--help` tells of the command, with examples.
const EXAMPLES: &str =
    "Prints 'PATH: ANSWER' for each file, ANSWER as of check, with the class name that the filter
refused.

Examples:
  serialcheck scan --refused --filter-file session.filter /var/sessions
  serialcheck scan --json dumps | jq 'select(.answer != \"yes\")'";

/// The command.
pub(crate) fn scan_command<'a>(alloc: Global) -> Result<Command<'a>, AllocError>
    ensures app { IfOk result (λ command. app_of command ≡ scan_app) }
    ensures local { IfOk result (λ command. (out-Command command).has_globals ≡ false) }
{
    let scan = Command::new(alloc, "scan")
        .about(
            "Checks many files and those in folders: a line for each with its path and the answer of\n\
             check, and the counts of all on standard error",
        )
        .after_help(EXAMPLES);
    let filtered = with_strict_filters(alloc, scan)?;
    let formed = with_forms(alloc, filtered)?;
    let answered = with_answers(alloc, formed)?;
    answered.arg(paths_arg(alloc))
}

/// The command, with the arguments that say what is asked and what is printed.
pub(crate) fn with_answers<'a>(
    alloc: Global,
    command: Command<'a>,
) -> Result<Command<'a>, AllocError>
    requires local { (out-Command command).has_globals ≡ false }
    ensures app { IfOk result (λ answered. app_of answered ≡ with_answer_rules (app_of command.entry)) }
    ensures local { IfOk result (λ answered. (out-Command answered).has_globals ≡ false) }
{
    let anywhere = command.arg(anywhere_arg(alloc))?;
    let refused = anywhere.arg(refused_arg(alloc))?;
    let json = refused.arg(json_arg(alloc))?;
    json.arg(progress_arg(alloc))
}

/// Whether files that are accepted are left out.
fn refused_arg<'a>(alloc: Global) -> Arg<'a>
    ensures rule { rule_of result ≡ refused_rule }
    ensures local { result.global ≡ false }
{
    Arg::new(alloc, "refused")
        .long("refused")
        .action(ArgAction::SetTrue)
        .help("Leaves out the files or records that are accepted")
}

/// Whether JSON is printed.
pub(crate) fn json_arg<'a>(alloc: Global) -> Arg<'a>
    ensures rule { rule_of result ≡ json_rule }
    ensures local { result.global ≡ false }
{
    Arg::new(alloc, "json")
        .long("json")
        .action(ArgAction::SetTrue)
        .help("Prints a JSON object on a line for each file, record or stream found")
}

/// Whether standard error is told how far it is.
pub(crate) fn progress_arg<'a>(alloc: Global) -> Arg<'a>
    ensures rule { rule_of result ≡ progress_rule }
    ensures local { result.global ≡ false }
{
    Arg::new(alloc, "progress")
        .long("progress")
        .action(ArgAction::SetTrue)
        .help(
            "Says once a second on standard error how far it is; by default where\n\
             standard error is a terminal and standard output is none",
        )
}

/// The files and folders.
fn paths_arg<'a>(alloc: Global) -> Arg<'a>
    ensures rule { rule_of result ≡ paths_rule }
    ensures local { result.global ≡ false }
{
    Arg::new(alloc, "path")
        .required(true)
        .action(ArgAction::Append)
        .value_name("PATH")
        .help(
            "The files and folders; - is standard input. Of a folder all regular files in it are\n\
             checked, and links are not followed",
        )
}

/// What its matches ask for.
pub(crate) fn scan_line(alloc: Global, matches: &ArgMatches<'_>) -> Result<Line, AllocError>
    ensures { IfOk result (λ line. line_asks line ≡ scan_in (rows_of (found_of matches.now))) }
{
    let filters = filters_of(alloc, matches)?;
    let paths = texts_of(alloc, matches, "path")?;
    Ok(Line::Scan {
        filters,
        strict: is_set(matches, "strict"),
        forms: forms_of(matches),
        anywhere: is_set(matches, "anywhere"),
        refused: is_set(matches, "refused"),
        json: is_set(matches, "json"),
        progress: is_set(matches, "progress"),
        paths,
    })
}
