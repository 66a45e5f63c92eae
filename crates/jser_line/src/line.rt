//! What the words of a command line ask for.
ghost use Rattle.std.specs.Prelude.{◌≡◌, IfOk, IfErr, map, option_map};
ghost use Rattle.clap.specs.Words.{subcommand_rows_of, subcommand_of, rows_of, found_of};
ghost use Rattle.jser_line.specs.App.{the_app, asked_in, asked_by, line_asks, IsMistake};

use crate::args::{Filters, Forms};
use crate::check::check_line;
use crate::command::command;
use crate::explain::explain_line;
use crate::find::{Find, find_line};
use crate::list::list_line;
use crate::records::{Records, records_line};
use crate::scan::scan_line;
use crate::show::show_line;
use crate::suggest::suggest_line;
use clap::error::ErrorKind;
use clap::{ArgMatches, Error};
use std::alloc::{AllocError, Global};

/// What a command line asks for.
#[derive(Debug, Drop)]
pub enum Line {
    /// Check a stream.
    Check {
        /// The filter.
        filters: Filters,
        /// Whether a name that no pattern matches is refused.
        strict: bool,
        /// The form of the input.
        forms: Forms,
        /// Whether the filter is asked about each class name that can be read at any place.
        anywhere: bool,
        /// The file that holds the stream, or `-` for standard input.
        file: String,
    },
    /// Show a stream as text.
    Show {
        /// The form of the input.
        forms: Forms,
        /// Whether raw values are followed by what they mean.
        values: bool,
        /// How many bytes of text are printed at most, if that is said.
        limit: Option<String>,
        /// The file that holds the stream, or `-` for standard input.
        file: String,
    },
    /// Check many files.
    Scan {
        /// The filter.
        filters: Filters,
        /// Whether a name that no pattern matches is refused.
        strict: bool,
        /// The form of the files.
        forms: Forms,
        /// Whether the filter is asked about each class name that can be read at any place.
        anywhere: bool,
        /// Whether files that are accepted are left out.
        refused: bool,
        /// Whether JSON is printed.
        json: bool,
        /// Whether standard error is told how far it is.
        progress: bool,
        /// The files and folders, or `-` for standard input.
        paths: Vec<String>,
    },
    /// Check many streams in one input.
    Records(Records),
    /// Find the streams in other bytes.
    Find(Find),
    /// Suggest the least filter that admits some good streams.
    Suggest {
        /// The form of the files.
        forms: Forms,
        /// How many times as high the limits are, in decimal: as high as the streams have them without it.
        slack: Option<String>,
        /// The files that hold the streams, or `-` for standard input.
        files: Vec<String>,
    },
    /// Check a stream, and say why it is refused.
    Explain {
        /// The filter.
        filters: Filters,
        /// Whether a name that no pattern matches is refused.
        strict: bool,
        /// The form of the input.
        forms: Forms,
        /// Whether the filter is asked about each class name that can be read at any place.
        anywhere: bool,
        /// The file that holds the stream, or `-` for standard input.
        file: String,
    },
    /// List the class names of a stream.
    List {
        /// The filter.
        filters: Filters,
        /// The form of the input.
        forms: Forms,
        /// Whether the names of classes that can be read at any place are listed too.
        anywhere: bool,
        /// The file that holds the stream, or `-` for standard input.
        file: String,
    },
}

/// Why a command line asks for nothing.
#[derive(Debug, Drop)]
pub enum LineFault {
    /// The words are not a command of the program, or ask for help.
    Clap(Error),
    /// Memory ran out.
    OutOfMemory,
}

/// What the words ask for; the first of them names the program. `None` where they name no command.
///
/// # Errors
///
/// `LineFault::Clap` with clap's own text where clap does not take the words, help included; `LineFault::OutOfMemory` where
/// memory ran out.
pub fn line_of<'a>(alloc: Global, words: &'a [&'a str]) -> Result<Option<Line>, LineFault>
    ensures asked { IfOk result (λ line. option_map line_asks line ≡ asked_in (map (λ word. word.now) words.entry.now)) }
    ensures mistake { IfErr result (IsMistake (map (λ word. word.now) words.entry.now)) }
{
    let matches = matches_of(alloc, words)?;
    let Some((name, inner)) = matches.subcommand() else {
        return Ok(None);
    };
    match asked(alloc, name, inner) {
        Ok(line) => Ok(line),
        Err(_) => Err(LineFault::OutOfMemory),
    }
}

/// The matches of the words.
#[tactic(auto, using(crate::proofs::WordLemmas::mistaken))]
fn matches_of<'a>(alloc: Global, words: &'a [&'a str]) -> Result<ArgMatches<'a>, LineFault>
    ensures mistake { IfErr result (IsMistake (map (λ word. word.now) words.entry.now)) }
    ensures matches { IfOk result (λ found. subcommand_rows_of found ≡ subcommand_of the_app (map (λ word. word.now) words.entry.now)) }
{
    let Ok(command) = command(alloc) else {
        return Err(LineFault::OutOfMemory);
    };
    match command.try_get_matches_from(words) {
        Ok(matches) => Ok(matches),
        Err(error) => match error.kind() {
            ErrorKind::OutOfMemory => Err(LineFault::OutOfMemory),
            _ => Err(LineFault::Clap(error)),
        },
    }
}

/// What a subcommand asks for.
fn asked(alloc: Global, name: &str, matches: &ArgMatches<'_>) -> Result<Option<Line>, AllocError>
    ensures { IfOk result (λ line. option_map line_asks line ≡ asked_by (name.now, rows_of (found_of matches.now))) }
{
    if name == "check" {
        return Ok(Some(check_line(alloc, matches)?));
    }
    if name == "show" {
        return Ok(Some(show_line(alloc, matches)?));
    }
    if name == "list" {
        return Ok(Some(list_line(alloc, matches)?));
    }
    if name == "scan" {
        return Ok(Some(scan_line(alloc, matches)?));
    }
    if name == "suggest" {
        return Ok(Some(suggest_line(alloc, matches)?));
    }
    if name == "explain" {
        return Ok(Some(explain_line(alloc, matches)?));
    }
    if name == "records" {
        return Ok(Some(records_line(alloc, matches)?));
    }
    if name == "find" {
        return Ok(Some(find_line(alloc, matches)?));
    }
    Ok(None)
}
