//! The program's command line, as clap reads it.
ghost use Rattle.std.specs.Prelude.{◌≡◌, IfOk, codes};
ghost use Rattle.clap.specs.Words.{app_of, new_app, with_subcommand};
ghost use Rattle.jser_line.specs.App.{check_app, show_app, list_app, scan_app, suggest_app, explain_app, records_app, find_app, versioned, with_first_commands, the_app};

use crate::check::check_command;
use crate::explain::explain_command;
use crate::find::find_command;
use crate::list::list_command;
use crate::records::records_command;
use crate::scan::scan_command;
use crate::show::show_command;
use crate::suggest::suggest_command;
use clap::Command;
use std::alloc::{AllocError, Global};

/// The version that `--version` tells.
const VERSION: &str = "0.1.0";

/// What `--help` tells of the statuses, with an example.
const STATUSES: &str = "Statuses:
  0  the stream is accepted, or its text is printed; with scan, records, find and suggest, all are
     accepted
  1  the stream is refused; with scan, records, find and suggest, one is, or no pattern can safely
     name a class
  2  the command line, the filter, the filter file or the modules file is faulty or not UTF-8; also
     --help and --version
  3  a file cannot be opened or was not searched to its end, a read or write failed, a text is not
     hexadecimal or base64, or memory ran out; with scan, records and find, for one of them
  4  the text is longer than --limit allows, and was cut

Example:
  serialcheck check --strict --filter 'maxdepth=20;java.util.*;java.lang.*;!*' session.ser

serialcheck COMMAND --help prints the help of a command.";

/// The program's command, with its subcommands.
pub(crate) fn command<'a>(alloc: Global) -> Result<Command<'a>, AllocError>
    ensures { IfOk result (λ command. app_of command ≡ the_app) }
{
    let first = with_first_commands(alloc, bare_command(alloc))?;
    let suggest = with_suggest(alloc, first)?;
    let explain = with_explain(alloc, suggest)?;
    let records = with_records(alloc, explain)?;
    with_find(alloc, records)
}

/// The command, with `check`, `show`, `list` and `scan` as its first subcommands.
fn with_first_commands<'a>(alloc: Global, command: Command<'a>) -> Result<Command<'a>, AllocError>
    ensures { IfOk result (λ all. app_of all ≡ with_first_commands (app_of command.entry)) }
{
    let check = with_check(alloc, command)?;
    let show = with_show(alloc, check)?;
    let list = with_list(alloc, show)?;
    with_scan(alloc, list)
}

/// The program's command, without its subcommands.
fn bare_command<'a>(alloc: Global) -> Command<'a>
    ensures { app_of result ≡ versioned (new_app (codes "serialcheck")) }
{
    Command::new(alloc, "serialcheck")
        .about("Checks and shows Java serialization streams, and runs none of their classes")
        .after_help(STATUSES)
        .version(VERSION)
}

/// The command, with `check` as one more subcommand.
#[tactic(auto, using(crate::proofs::WordLemmas::subcommand_added))]
fn with_check<'a>(alloc: Global, command: Command<'a>) -> Result<Command<'a>, AllocError>
    ensures { IfOk result (λ all. app_of all ≡ with_subcommand (app_of command.entry) check_app.top) }
{
    let check = check_command(alloc)?;
    command.subcommand(check)
}

/// The command, with `show` as one more subcommand.
#[tactic(auto, using(crate::proofs::WordLemmas::subcommand_added))]
fn with_show<'a>(alloc: Global, command: Command<'a>) -> Result<Command<'a>, AllocError>
    ensures { IfOk result (λ all. app_of all ≡ with_subcommand (app_of command.entry) show_app.top) }
{
    let show = show_command(alloc)?;
    command.subcommand(show)
}

/// The command, with `list` as one more subcommand.
#[tactic(auto, using(crate::proofs::WordLemmas::subcommand_added))]
fn with_list<'a>(alloc: Global, command: Command<'a>) -> Result<Command<'a>, AllocError>
    ensures { IfOk result (λ all. app_of all ≡ with_subcommand (app_of command.entry) list_app.top) }
{
    let list = list_command(alloc)?;
    command.subcommand(list)
}

/// The command, with `scan` as one more subcommand.
#[tactic(auto, using(crate::proofs::WordLemmas::subcommand_added))]
fn with_scan<'a>(alloc: Global, command: Command<'a>) -> Result<Command<'a>, AllocError>
    ensures { IfOk result (λ all. app_of all ≡ with_subcommand (app_of command.entry) scan_app.top) }
{
    let scan = scan_command(alloc)?;
    command.subcommand(scan)
}

/// The command, with `suggest` as one more subcommand.
#[tactic(auto, using(crate::proofs::WordLemmas::subcommand_added))]
fn with_suggest<'a>(alloc: Global, command: Command<'a>) -> Result<Command<'a>, AllocError>
    ensures { IfOk result (λ all. app_of all ≡ with_subcommand (app_of command.entry) suggest_app.top) }
{
    let suggest = suggest_command(alloc)?;
    command.subcommand(suggest)
}

/// The command, with `explain` as one more subcommand.
#[tactic(auto, using(crate::proofs::WordLemmas::subcommand_added))]
fn with_explain<'a>(alloc: Global, command: Command<'a>) -> Result<Command<'a>, AllocError>
    ensures { IfOk result (λ all. app_of all ≡ with_subcommand (app_of command.entry) explain_app.top) }
{
    let explain = explain_command(alloc)?;
    command.subcommand(explain)
}

/// The command, with `records` as one more subcommand.
#[tactic(auto, using(crate::proofs::WordLemmas::subcommand_added))]
fn with_records<'a>(alloc: Global, command: Command<'a>) -> Result<Command<'a>, AllocError>
    ensures { IfOk result (λ all. app_of all ≡ with_subcommand (app_of command.entry) records_app.top) }
{
    let records = records_command(alloc)?;
    command.subcommand(records)
}

/// The command, with `find` as one more subcommand.
#[tactic(auto, using(crate::proofs::WordLemmas::subcommand_added))]
fn with_find<'a>(alloc: Global, command: Command<'a>) -> Result<Command<'a>, AllocError>
    ensures { IfOk result (λ all. app_of all ≡ with_subcommand (app_of command.entry) find_app.top) }
{
    let find = find_command(alloc)?;
    command.subcommand(find)
}
