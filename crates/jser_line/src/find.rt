//! `serialcheck find [--filter T | --filter-file F] [--modules M] [--strict] [--text] [--all] [--most N] [--effort N] [--json]
//! [--progress] [--carve DIR] [--most-files N] FILE..`
ghost use Rattle.std.specs.Prelude.{◌≡◌, IfOk, false};
ghost use Rattle.clap.specs.Words.{app_of, rule_of, rows_of, found_of};
ghost use Rattle.clap.specs.declared.Command.{out-Command};
ghost use Rattle.jser_line.specs.Args.{all_rule, carve_rule, effort_rule, most_files_rule, most_rule, text_rule};
ghost use Rattle.jser_line.specs.App.{find_app, find_in, line_asks, with_find_answer_rules, with_find_rules};

use crate::args::{Filters, filters_of, is_set, texts_of, value_of, with_strict_filters};
use crate::line::Line;
use crate::scan::{json_arg, progress_arg};
use crate::suggest::files_arg;
use clap::{Arg, ArgAction, ArgMatches, Command};
use std::alloc::{AllocError, Global};

/// What the words of `find` ask for.
#[derive(Debug, Drop)]
pub struct Find {
    /// The filter.
    pub filters: Filters,
    /// Whether a name that no pattern matches is refused.
    pub strict: bool,
    /// Whether streams in base64 and hexadecimal are told too.
    pub text: bool,
    /// Whether headers with no contents are told too.
    pub all: bool,
    /// How many bytes of a stream are read at most, if that is said.
    pub most: Option<String>,
    /// How many bytes are read for each byte of a file, if that is said.
    pub effort: Option<String>,
    /// Whether JSON is printed.
    pub json: bool,
    /// Whether standard error is told how far it is.
    pub progress: bool,
    /// The folder to which the streams are written, if one is named.
    pub carve: Option<String>,
    /// How many files are written at most, if that is said.
    pub most_files: Option<String>,
    /// The files, or `-` for standard input.
    pub files: Vec<String>,
}

/// What `--help` tells of the command, with examples.
const EXAMPLES: &str =
    "Looks for headers of streams (ACED0005), and prints 'PATH: START to END: ANSWER' for the longest
stream that begins at each, ANSWER as of scan. The search goes on behind that stream. With --text
also 'PATH: START to END as base64: ANSWER', or 'as hexadecimal'. A file is held in memory.

Examples:
  serialcheck find --filter-file session.filter heap.hprof
  serialcheck find --carve streams dump.pcap
  serialcheck find --text app.log
  zcat app.log.gz | base64 -di | serialcheck find -";

/// The command.
pub(crate) fn find_command<'a>(alloc: Global) -> Result<Command<'a>, AllocError>
    ensures app { IfOk result (λ command. app_of command ≡ find_app) }
    ensures local { IfOk result (λ command. (out-Command command).has_globals ≡ false) }
{
    let find = Command::new(alloc, "find")
        .about(
            "Finds the streams in other bytes, as heap dumps, captures, logs and message stores: a\n\
             line for each, and the counts of all on standard error",
        )
        .after_help(EXAMPLES);
    let filtered = with_strict_filters(alloc, find)?;
    let asked = with_finds(alloc, filtered)?;
    asked.arg(files_arg(alloc))
}

/// The command, with the arguments that say which streams are told, and how.
fn with_finds<'a>(alloc: Global, command: Command<'a>) -> Result<Command<'a>, AllocError>
    requires local { (out-Command command).has_globals ≡ false }
    ensures app { IfOk result (λ asked. app_of asked ≡ with_find_rules (app_of command.entry)) }
    ensures local { IfOk result (λ asked. (out-Command asked).has_globals ≡ false) }
{
    let text = command.arg(text_arg(alloc))?;
    let all = text.arg(all_arg(alloc))?;
    let most = all.arg(most_arg(alloc))?;
    let effort = most.arg(effort_arg(alloc))?;
    with_find_answers(alloc, effort)
}

/// The command, with the arguments that say how they are told, and where they are written.
fn with_find_answers<'a>(alloc: Global, command: Command<'a>) -> Result<Command<'a>, AllocError>
    requires local { (out-Command command).has_globals ≡ false }
    ensures app { IfOk result (λ answered. app_of answered ≡ with_find_answer_rules (app_of command.entry)) }
    ensures local { IfOk result (λ answered. (out-Command answered).has_globals ≡ false) }
{
    let json = command.arg(json_arg(alloc))?;
    let progress = json.arg(progress_arg(alloc))?;
    let carve = progress.arg(carve_arg(alloc))?;
    carve.arg(most_files_arg(alloc))
}

/// Whether streams in base64 and hexadecimal are told too.
fn text_arg<'a>(alloc: Global) -> Arg<'a>
    ensures rule { rule_of result ≡ text_rule }
    ensures local { result.global ≡ false }
{
    Arg::new(alloc, "text")
        .long("text")
        .action(ArgAction::SetTrue)
        .help("Also finds streams in base64, of either alphabet, and in hexadecimal")
}

/// Whether headers with no contents are told too.
fn all_arg<'a>(alloc: Global) -> Arg<'a>
    ensures rule { rule_of result ≡ all_rule }
    ensures local { result.global ≡ false }
{
    Arg::new(alloc, "all")
        .long("all")
        .action(ArgAction::SetTrue)
        .help("Also prints headers with no whole content behind them")
}

/// How many bytes of a stream are read at most.
fn most_arg<'a>(alloc: Global) -> Arg<'a>
    ensures rule { rule_of result ≡ most_rule }
    ensures local { result.global ≡ false }
{
    Arg::new(alloc, "most").long("most").value_name("N").help(
        "Bounds one stream, not the file: at most N bytes are read from a header on,\n\
             67,108,864 by default, and the longest stream in them is printed",
    )
}

/// How many bytes are read for each byte of a file.
fn effort_arg<'a>(alloc: Global) -> Arg<'a>
    ensures rule { rule_of result ≡ effort_rule }
    ensures local { result.global ≡ false }
{
    Arg::new(alloc, "effort")
        .long("effort")
        .value_name("N")
        .help(
            "Bounds what is read of a file: N bytes for each byte of it, 64 by default,\n\
             and 1,048,576 more. Where the search ends early, a line says where",
        )
}

/// The folder to which the streams are written.
fn carve_arg<'a>(alloc: Global) -> Arg<'a>
    ensures rule { rule_of result ≡ carve_rule }
    ensures local { result.global ≡ false }
{
    Arg::new(alloc, "carve")
        .long("carve")
        .value_name("DIR")
        .help(
            "Writes each stream to the new file DIR/INPUT-NAME-START.ser; DIR is made\n\
             where it is missing",
        )
}

/// How many files are written at most.
fn most_files_arg<'a>(alloc: Global) -> Arg<'a>
    ensures rule { rule_of result ≡ most_files_rule }
    ensures local { result.global ≡ false }
{
    Arg::new(alloc, "most-files")
        .long("most-files")
        .value_name("N")
        .help("Bounds what --carve writes: at most N files, 10,000 by default")
}

/// What its matches ask for.
pub(crate) fn find_line(alloc: Global, matches: &ArgMatches<'_>) -> Result<Line, AllocError>
    ensures { IfOk result (λ line. line_asks line ≡ find_in (rows_of (found_of matches.now))) }
{
    let filters = filters_of(alloc, matches)?;
    let most = value_of(alloc, matches, "most")?;
    let effort = value_of(alloc, matches, "effort")?;
    let carve = value_of(alloc, matches, "carve")?;
    let most_files = value_of(alloc, matches, "most-files")?;
    let files = texts_of(alloc, matches, "file")?;
    Ok(Line::Find(Find {
        filters,
        strict: is_set(matches, "strict"),
        text: is_set(matches, "text"),
        all: is_set(matches, "all"),
        most,
        effort,
        json: is_set(matches, "json"),
        progress: is_set(matches, "progress"),
        carve,
        most_files,
        files,
    }))
}
