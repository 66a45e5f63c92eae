//! `serialcheck suggest [--hex | --base64 | --base64url] [--slack N] FILE..`
ghost use Rattle.std.specs.Prelude.{◌≡◌, IfOk, false};
ghost use Rattle.clap.specs.Words.{app_of, rule_of, rows_of, found_of};
ghost use Rattle.clap.specs.declared.Command.{out-Command};
ghost use Rattle.jser_line.specs.Args.{files_rule, slack_rule};
ghost use Rattle.jser_line.specs.App.{suggest_app, suggest_in, line_asks};

use crate::args::{forms_of, texts_of, value_of, with_forms};
use crate::line::Line;
use clap::{Arg, ArgAction, ArgMatches, Command};
use std::alloc::{AllocError, Global};

/// What `--help` tells of the command, with an example.
const EXAMPLES: &str =
    "Prints maxbytes=B;maxrefs=R;maxdepth=D;maxarray=A;NAME;..;!*, the least filter of this form.

Examples:
  serialcheck suggest samples/*.ser > session.filter
  serialcheck suggest --slack 4 samples/*.ser > session.filter
  serialcheck check --strict --filter-file session.filter session.ser";

/// The command.
pub(crate) fn suggest_command<'a>(alloc: Global) -> Result<Command<'a>, AllocError>
    ensures app { IfOk result (λ command. app_of command ≡ suggest_app) }
    ensures local { IfOk result (λ command. (out-Command command).has_globals ≡ false) }
{
    let suggest = Command::new(alloc, "suggest")
        .about(
            "Prints the least filter that admits all of the files, and no class that none of them has",
        )
        .after_help(EXAMPLES);
    let formed = with_forms(alloc, suggest)?;
    let slackened = formed.arg(slack_arg(alloc))?;
    slackened.arg(files_arg(alloc))
}

/// How many times as high the limits are.
fn slack_arg<'a>(alloc: Global) -> Arg<'a>
    ensures rule { rule_of result ≡ slack_rule }
    ensures local { result.global ≡ false }
{
    Arg::new(alloc, "slack").long("slack").value_name("N").help(
        "Makes each limit N times as high (from 1; 1 by default), so that the next\n\
             good stream is not refused for one element more",
    )
}

/// The files.
pub(crate) fn files_arg<'a>(alloc: Global) -> Arg<'a>
    ensures rule { rule_of result ≡ files_rule }
    ensures local { result.global ≡ false }
{
    Arg::new(alloc, "file")
        .required(true)
        .action(ArgAction::Append)
        .value_name("FILE")
        .help("The files; - is standard input")
}

/// What its matches ask for.
pub(crate) fn suggest_line(alloc: Global, matches: &ArgMatches<'_>) -> Result<Line, AllocError>
    ensures { IfOk result (λ line. line_asks line ≡ suggest_in (rows_of (found_of matches.now))) }
{
    let slack = value_of(alloc, matches, "slack")?;
    let files = texts_of(alloc, matches, "file")?;
    Ok(Line::Suggest {
        forms: forms_of(matches),
        slack,
        files,
    })
}
